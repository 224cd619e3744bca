// The generated names of a lowered program.

ghost use Rattle.std.specs.Prelude.{◌≡◌, [], IfOk};
ghost use Rattle.std.specs.Str.{chars};
ghost use Rattle.es_steps.specs.Context as spec;

use crate::spellings::{
    by_number, generated_among, is_private_among, spelling_number, spellings_of,
};
use es_base::ledger::{GeneratedKind, LedgerEntry};
use es_binding_faults::leasts::Leasts;
use es_grouped::Grouped;
use std::alloc::{AllocError, Global};
use std::marker::Model;

/// The generated names of a lowered program, which contracts see as a list. To look one up takes the same time however many there are.
#[derive(Drop)]
pub struct Ledger<'a> {
    entries: &'a [LedgerEntry],
    spellings: Leasts<'a>,
    by_number: Grouped<&'a LedgerEntry>,
}

impl<'a> Model for Ledger<'a> {
    ghost use Rattle.std.specs.Prelude.{◌≡◌, ℕ, List};
    ghost use Rattle.es_base.specs.declared.ledger.LedgerEntry.{LedgerEntry};
    ghost use Rattle.es_grouped.specs.Groups.{group, having};
    ghost use Rattle.es_generated.specs.Spellings.{entries_of, numbered_names};

    ghost Value = { List LedgerEntry };

    ghost view = { λ l. l.entries.now };

    ghost invariant = { λ l. (m : ℕ) → entries_of (group m l.by_number) ≡ having m (numbered_names l.spellings l.entries.now) };
}

impl<'a> Ledger<'a> {
    /// None. Takes no memory.
    pub fn new(alloc: Global) -> Ledger<'a>
        ensures { result ≡ [] }
    {
        Ledger {
            entries: &[],
            spellings: Leasts::new(alloc),
            by_number: Grouped::new(alloc),
        }
    }

    /// These. Fails on allocation failure alone.
    pub fn of(alloc: Global, entries: &'a [LedgerEntry]) -> Result<Ledger<'a>, AllocError>
        ensures { IfOk result (λ l. l ≡ entries.now) }
    {
        let spellings = spellings_of(alloc, entries)?;
        let by_number = by_number(alloc, &spellings, entries)?;
        Ok(Ledger {
            entries,
            spellings,
            by_number,
        })
    }

    /// All of them, in their order.
    pub fn entries(&self) -> &'a [LedgerEntry]
        ensures { result.now ≡ self.now }
    {
        self.entries
    }

    /// What a name was generated as, if it was, and not as a private name.
    #[tactic(auto, using(crate::proofs::NumberedNames::generated_by_number))]
    pub fn generated_as(&self, name: &str) -> Option<GeneratedKind>
        ensures { result ≡ spec.generated_as (chars name.now) self.now }
    {
        let number = spelling_number(name, &self.spellings);
        generated_among(name, self.by_number.get(number))
    }

    /// Whether the name of an identifier was generated.
    pub fn is_generated(&self, name: &str) -> bool
        ensures { result ≡ spec.is_generated (chars name.now) self.now }
    {
        self.generated_as(name).is_some()
    }

    /// Whether a private name of this spelling was generated for a class.
    #[tactic(auto, using(crate::proofs::NumberedNames::private_by_number))]
    pub fn is_generated_private(&self, name: &str, class: u32) -> bool
        ensures { result ≡ spec.is_generated_private (chars name.now) class self.now }
    {
        is_private_among(name, class, self.by_number.get(class))
    }
}
