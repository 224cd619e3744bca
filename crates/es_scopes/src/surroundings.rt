// What is known at a place of a tree from what stands around.

ghost use Rattle.std.specs.Prelude.{◌≡◌};
ghost use Rattle.es_scopes.specs.Surroundings.{lexical_scope, var_scope, nowhere};
ghost use Rattle.es_scopes.specs.Tables.{is_own_name, joined};

use crate::flags::{ReferenceFlags, ScopeFlags, SymbolFlags};
use es_base::ids::ScopeId;

/// As what an identifier declares.
#[derive(Debug, Clone, Copy, PartialEq, Eq)]
pub enum Declarer {
    /// As the own name of a function expression.
    OwnName,
    /// As a parameter.
    Parameter,
    /// Otherwise.
    Other,
}

impl Declarer {
    /// Whether it is the own name of a function expression.
    pub fn is_own_name(self) -> bool
        ensures { result ≡ is_own_name self }
    {
        match self {
            Declarer::OwnName => true,
            _ => false,
        }
    }

    /// As what two identifiers declare a symbol: as a parameter, where they differ. Like one it is seen from
    /// the parameters of a function, and may stand beside an own name.
    pub fn joined(self, other: Declarer) -> Declarer
        ensures { result ≡ joined self other }
    {
        match (self, other) {
            (Declarer::OwnName, Declarer::OwnName) => Declarer::OwnName,
            (Declarer::Other, Declarer::Other) => Declarer::Other,
            _ => Declarer::Parameter,
        }
    }
}

/// Which scopes hold what is declared at a place.
#[derive(Debug, Clone, Copy, PartialEq, Eq)]
pub enum Declares {
    /// Nothing is declared there.
    Nothing,
    /// A statement stands there: the scopes of its lexical names and of its `var`.
    Statement {
        lexical: Option<ScopeId>,
        var: Option<ScopeId>,
    },
    /// The body of the function of this scope.
    Body {
        scope: ScopeId,
    },
    /// A name or a pattern that declares in this scope.
    Pattern {
        holder: Option<ScopeId>,
        declarer: Declarer,
    },
}

impl Declares {
    /// The scope of the lexical names of a statement.
    pub fn lexical_scope(self) -> Option<ScopeId>
        ensures { result ≡ lexical_scope self }
    {
        match self {
            Declares::Statement { lexical, .. } => lexical,
            _ => None,
        }
    }

    /// The scope of its `var`.
    pub fn var_scope(self) -> Option<ScopeId>
        ensures { result ≡ var_scope self }
    {
        match self {
            Declares::Statement { var, .. } => var,
            _ => None,
        }
    }
}

/// What is known at a place of a tree from what stands around.
#[derive(Debug, Clone, Copy, PartialEq, Eq)]
pub struct Surroundings {
    /// The scope in which the place is.
    pub scope: Option<ScopeId>,
    /// Whether it is in the parameters of the function whose scope that is.
    pub in_parameters: bool,
    pub declares: Declares,
    /// Whether its code is strict.
    pub strict: bool,
    /// Whether it is that of the body of a function.
    pub is_body: bool,
    /// The flags that a method or an accessor gives to the function that is its value.
    pub given: ScopeFlags,
    /// The flags of the names that are declared there.
    pub symbol_flags: SymbolFlags,
    /// Whether they are `var` in the head of a for-in or for-of.
    pub head_var: bool,
    /// How a name that stands there is used.
    pub usage: ReferenceFlags,
}

impl Surroundings {
    /// Around a program there is nothing.
    pub fn nowhere() -> Surroundings
        ensures { result ≡ nowhere }
    {
        Surroundings {
            scope: None,
            in_parameters: false,
            declares: Declares::Nothing,
            strict: false,
            is_body: false,
            given: ScopeFlags::NONE,
            symbol_flags: SymbolFlags::NONE,
            head_var: false,
            usage: ReferenceFlags::READ,
        }
    }
}
