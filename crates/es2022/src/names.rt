// Generated names, and what names of the program mean.

use crate::class_details::ClassHead;
use es_base::ids::{ReferenceId, ScopeId, SymbolId};
use es_base::ledger::{GeneratedKind, LedgerEntry};
use es_base::list::List;
use es_base::name::Name;
use es_duplicates::repetition::meant_symbol;
use es_names::names::Names;
use es_scopes::scoping::Scoping;
use std::alloc::{AllocError, Global};

/// The scope table of a program that is lowered, which stays, and the names that are generated for it.
#[derive(Drop)]
pub struct Naming<'a> {
    pub alloc: Global,
    pub scoping: &'a Scoping,
    /// Those that are taken.
    pub names: &'a mut Names,
    /// Those that are generated.
    pub ledger: &'a mut List<LedgerEntry>,
}

impl<'a> Naming<'a> {
    /// A name of its own, that stands for this. Fails on allocation failure alone, as the calls below do.
    pub fn generate(&mut self, base: &str, kind: GeneratedKind) -> Result<Name, AllocError> {
        let name = self.names.generate(base)?;
        self.ledger.push(LedgerEntry {
            name: name.try_clone(self.alloc)?,
            kind,
        })?;
        Ok(name)
    }

    /// A name of its own for a binding of the source, which stands for what it stood for.
    pub fn generate_name(&mut self, base: &str) -> Result<Name, AllocError> {
        self.names.generate(base)
    }

    /// A temporary for a class: `_C`.
    pub fn create_class_temp(&mut self, head: &ClassHead) -> Result<Name, AllocError> {
        self.generate(head.base(), GeneratedKind::ClassTemp(head.number))
    }

    /// Whether a reference means this symbol.
    pub fn means(&self, reference: Option<ReferenceId>, symbol: SymbolId) -> bool {
        meant_symbol(self.scoping, reference) == Some(symbol)
    }

    /// What a scope binds a name to.
    pub fn binding_in(&self, scope: ScopeId, name: &str) -> Option<SymbolId> {
        if self.scoping.has_scope(scope) {
            self.scoping.get_binding(scope, name)
        } else {
            None
        }
    }
}
