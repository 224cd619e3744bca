// The rows of the scope table.

ghost use Rattle.std.specs.Prelude.{◌≡◌};
ghost use Rattle.es_scopes.specs.Row.{target_of, reference_flags_of};

use crate::bindings::Bindings;
use crate::flags::{ReferenceFlags, ScopeFlags, SymbolFlags};
use crate::reference_set::ReferenceSet;
use es_base::ids::{ScopeId, SymbolId};
use es_base::name::Name;

/// A scope: the scope around it, what it is, and the names that it holds.
#[derive(Drop)]
pub struct Scope {
    pub(crate) parent: Option<ScopeId>,
    pub(crate) flags: ScopeFlags,
    pub(crate) names: Bindings,
}

/// A symbol: its name, the scope that holds it, what declares it, and the references to it. It is marked
/// if more than one identifier declares it, or if it is a `var` in the head of a for-in or for-of.
#[derive(Drop)]
pub struct Symbol {
    pub(crate) name: Name,
    pub(crate) scope: ScopeId,
    pub(crate) flags: SymbolFlags,
    pub(crate) references: ReferenceSet,
    pub(crate) is_marked: bool,
}

/// A reference: the symbol that it means, unless it is free, and how it uses that.
#[derive(Debug, Clone, Copy, PartialEq, Eq)]
pub struct Reference {
    pub(crate) symbol_id: Option<SymbolId>,
    pub(crate) flags: ReferenceFlags,
}

impl Reference {
    /// The symbol, unless the reference is free.
    pub fn symbol_id(&self) -> Option<SymbolId>
        ensures { result ≡ target_of self.now }
    {
        self.symbol_id
    }

    /// Whether the reference reads, writes, or both.
    pub fn flags(&self) -> ReferenceFlags
        ensures { result ≡ reference_flags_of self.now }
    {
        self.flags
    }
}
