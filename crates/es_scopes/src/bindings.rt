// The names of one scope.

ghost use Rattle.std.specs.Prelude.{◌≡◌, ◌++◌, ◌∷◌, ◌↔◌, [], None, Some, IsTrue, IsSome, OnOk, OnErr};
ghost use Rattle.std.specs.Str.{chars};
ghost use Rattle.es_scopes.specs.Bindings.{lookup, renamed};

use es_base::ids::SymbolId;
use indexmap::IndexMap;
use std::alloc::{AllocError, Global};
use std::marker::Model;

/// The names that a scope holds, each with its symbol, in the order in which they were added.
#[derive(Drop)]
pub struct Bindings {
    symbols: IndexMap<String, SymbolId>,
    alloc: Global,
}

impl Model for Bindings {
    ghost use Rattle.es_scopes.specs.Bindings.{Names};

    ghost Value = { Names };

    ghost use Rattle.std.specs.Prelude.{map};
    ghost use Rattle.std.specs.Str.{chars};
    ghost use Rattle.std.specs.String.{string_bytes};

    ghost view = { λ b. map (λ e. (chars (string_bytes e.0), e.1)) b.symbols.entries };
}

impl Bindings {
    /// No names.
    pub(crate) fn new(alloc: Global) -> Bindings
        ensures { result ≡ [] }
    {
        Bindings {
            symbols: IndexMap::new(alloc),
            alloc,
        }
    }

    /// Whether no name is held.
    pub(crate) fn is_empty(&self) -> bool
        ensures { IsTrue result ↔ (self.now ≡ []) }
    {
        self.symbols.is_empty()
    }

    /// The symbol of the name, if it is held.
    pub(crate) fn get(&self, name: &str) -> Option<SymbolId>
        ensures { result ≡ lookup (chars name.now) self.now }
    {
        self.symbols.get(name).copied()
    }

    /// Adds a name as the last. Fails on allocation failure alone, and then no name is added.
    pub(crate) fn insert(&mut self, name: &str, symbol: SymbolId) -> Result<(), AllocError>
        requires { lookup (chars name.now) self.old ≡ None }
        ensures ok { OnOk result (self.new ≡ self.old ++ (chars name.now, symbol) ∷ []) }
        ensures err { OnErr result (self.new ≡ self.old) }
    {
        let key = String::from_str(self.alloc, name)?;
        self.symbols.insert(key, symbol)?;
        Ok(())
    }

    /// Gives the symbol of one name another, which takes its place. Fails on allocation failure alone,
    /// and then the names stay.
    pub(crate) fn rename(
        &mut self,
        old_name: &str,
        name: &str,
        symbol: SymbolId,
    ) -> Result<(), AllocError>
        requires held { lookup (chars old_name.now) self.old ≡ Some symbol }
        requires free { lookup (chars name.now) self.old ≡ None }
        ensures ok { OnOk result (self.new ≡ renamed (chars old_name.now) (chars name.now) self.old) }
        ensures err { OnErr result (self.new ≡ self.old) }
    {
        let key = String::from_str(self.alloc, name)?;
        self.symbols.insert(key, symbol)?;
        // The last name, which is the new one, takes the place of the old one.
        self.symbols.swap_remove(old_name);
        Ok(())
    }
}
