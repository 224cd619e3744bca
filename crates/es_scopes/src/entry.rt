// What each node that may bear a semantic id has to do with scopes.

use crate::flags::{ReferenceFlags, ScopeFlags, SymbolFlags};
use crate::surroundings::Declarer;
use es_base::ids::{NodeId, ScopeId};
use es_base::name::Name;

/// What a node that may bear a semantic id has to do with scopes.
#[derive(Drop)]
pub enum Entry {
    /// It has a scope.
    Scope {
        node: NodeId,
        /// The scope around.
        parent: Option<ScopeId>,
        /// Whether it stands in the parameters of the function whose scope that is.
        in_parameters: bool,
        flags: ScopeFlags,
    },
    /// It is the block of a function, which has no scope of its own.
    Body {
        node: NodeId,
    },
    /// It is an identifier that declares.
    Binding {
        node: NodeId,
        /// The scope that holds the name.
        holder: Option<ScopeId>,
        declarer: Declarer,
        name: Name,
        flags: SymbolFlags,
        /// Whether it is a `var` in the head of a for-in or for-of.
        head_var: bool,
    },
    /// It is a reference.
    Reference {
        node: NodeId,
        /// The scope in which it stands.
        scope: Option<ScopeId>,
        /// Whether it stands in the parameters of the function whose scope that is.
        in_parameters: bool,
        name: Name,
        flags: ReferenceFlags,
    },
}
