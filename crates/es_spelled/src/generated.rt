// Generated names, looked up by their spelling among those of a program.

ghost use Rattle.std.specs.Prelude.{◌≡◌, ℕ, IfOk};
ghost use Rattle.es_grouped.specs.Groups.{group, having};
ghost use Rattle.es_generated.specs.Spellings.{entries_of, name_number, numbered_names};

use es_base::ledger::LedgerEntry;
use es_binding_faults::leasts::Leasts;
use es_generated::spellings::{by_number, name_number};
use es_grouped::Grouped;
use std::alloc::{AllocError, Global};

/// The names of a ledger, private ones by the numbers of their classes, others by those of their spellings.
#[derive(Drop)]
pub struct GeneratedNames<'r, 'a> {
    pub ledger: &'r [LedgerEntry],
    pub spellings: &'r Leasts<'a>,
    pub by_number: Grouped<&'r LedgerEntry>,

    ghost are_its: { (m : ℕ) → entries_of (group m by_number) ≡ having m (numbered_names spellings.now ledger.now) },
}

impl<'r, 'a> GeneratedNames<'r, 'a> {
    /// Those of this ledger. Fails on allocation failure alone.
    pub fn of(
        alloc: Global,
        spellings: &'r Leasts<'a>,
        ledger: &'r [LedgerEntry],
    ) -> Result<GeneratedNames<'r, 'a>, AllocError>
        ensures { IfOk result (λ g. g.ledger.now ≡ ledger.now) }
    {
        let by_number = by_number(alloc, spellings, ledger)?;
        Ok(GeneratedNames {
            ledger,
            spellings,
            by_number,
        })
    }

    /// Those among which is each that is private for the same class as this one, or not private and spelled as it.
    pub fn like(&self, entry: &LedgerEntry) -> &[&'r LedgerEntry]
        ensures { entries_of result.now ≡ having (name_number self.now.spellings.now entry.now) (numbered_names self.now.spellings.now self.now.ledger.now) }
    {
        self.by_number.get(name_number(entry, self.spellings))
    }
}
