// The references to one symbol.

ghost use Rattle.std.specs.Prelude.{◌≡◌, ◌↔◌, ℕ, IsTrue, OnOk, OnErr, length};
ghost use Rattle.std.specs.FinSet as set;
ghost use Rattle.es_scopes.specs.References.{HoldsWrite, AreAllBelow};

use crate::flags::ReferenceFlags;
use crate::table::Reference;
use bitflags::Flags;
use es_base::ids::ReferenceId;
use indexmap::IndexSet;
use std::alloc::{AllocError, Global};
use std::marker::Model;

/// The references that a symbol counts as its own, as a set of their numbers.
#[derive(Drop)]
pub struct ReferenceSet {
    references: IndexSet<ReferenceId>,
}

impl Model for ReferenceSet {
    ghost use Rattle.std.specs.Coded.{coded_ℕ};
    ghost use Rattle.std.specs.FinSet as set;
    ghost use Rattle.std.specs.Ordering.{nat_cmp};

    ghost Value = { set.FinSet nat_cmp };

    ghost coded = { set.code coded_ℕ };

    ghost use Rattle.es_scopes.specs.ReferenceNumbers.{numbers_of};

    ghost view = { λ r. numbers_of r.references.keys };
}

impl ReferenceSet {
    /// No references.
    pub(crate) fn new(alloc: Global) -> ReferenceSet
        ensures { result ≡ set.empty }
    {
        ReferenceSet {
            references: IndexSet::new(alloc),
        }
    }

    /// Adds a reference, if it is not there. Fails on allocation failure alone, and then none is added.
    pub(crate) fn insert(&mut self, reference: ReferenceId) -> Result<(), AllocError>
        ensures ok { OnOk result (self.new ≡ set.insert self.old reference.0) }
        ensures err { OnErr result (self.new ≡ self.old) }
    {
        self.references.insert(reference)?;
        Ok(())
    }

    /// Takes a reference out, if it is there.
    pub(crate) fn remove(&mut self, reference: ReferenceId)
        ensures { self.new ≡ set.remove self.old reference.0 }
    {
        self.references.swap_remove(&reference);
    }

    /// Whether one of the references writes.
    pub(crate) fn has_write(&self, references: &[Reference]) -> bool
        requires { AreAllBelow self.now (length references.now) }
        ensures { IsTrue result ↔ HoldsWrite self.now references.now }
    {
        for id in self.references.iter() {
            if references[id.0 as usize]
                .flags()
                .contains(ReferenceFlags::WRITE)
            {
                return true;
            }
        }
        false
    }
}
