// A source and what it was lowered to, with the identifiers that declare their classes.

ghost use Rattle.std.specs.Prelude.{◌≡◌, [], ℕ, IfOk};
ghost use Rattle.es_base.specs.Preorder.{preorder};
ghost use Rattle.es_grouped.specs.Groups.{group};
ghost use Rattle.es_lowered.specs.Definitions as definitions;
ghost use Rattle.es_steps.specs.References.{has_number};

use es_generated::ledger::Ledger;
use es_grouped::Grouped;
use es_owed::listed::Listed;
use es_owed_initialized::identifiers::{class_identifiers, declared_classes};
use std::alloc::{AllocError, Global};

/// A source and what it was lowered to.
#[derive(Drop)]
pub struct Lowering<'r, 'a> {
    /// The number of the first node that is new.
    pub first: u32,
    /// The generated names.
    pub ledger: &'r Ledger<'r>,
    /// Those of the source: none.
    pub source_ledger: Ledger<'r>,
    pub source: &'r Listed<'a>,
    pub lowered: &'r Listed<'a>,
    /// Of each class the identifiers that declare it in the source.
    pub source_identifiers: Grouped<u32>,
    /// Those that declare it in what that was lowered to.
    pub lowered_identifiers: Grouped<u32>,
    /// Of each identifier the classes that it declares in the source.
    pub source_classes: Grouped<u32>,

    ghost source_ledger_is: { source_ledger ≡ [] },
    ghost source_identifiers_are: { (n : ℕ) → group n source_identifiers ≡ definitions.class_identifiers first n (preorder source.now.program.now) },
    ghost lowered_identifiers_are: { (n : ℕ) → group n lowered_identifiers ≡ definitions.class_identifiers first n (preorder lowered.now.program.now) },
    ghost source_classes_are: { (b : ℕ) (n : ℕ) → has_number n (group b source_classes) ≡ has_number b (definitions.class_identifiers first n (preorder source.now.program.now)) },
}

impl<'r, 'a> Lowering<'r, 'a> {
    /// These programs. Fails on allocation failure alone.
    pub fn of(
        alloc: Global,
        first: u32,
        ledger: &'r Ledger<'r>,
        source: &'r Listed<'a>,
        lowered: &'r Listed<'a>,
    ) -> Result<Lowering<'r, 'a>, AllocError>
        ensures first { IfOk result (λ l. l.first ≡ first) }
        ensures ledger { IfOk result (λ l. l.ledger.now ≡ ledger.now) }
        ensures source { IfOk result (λ l. l.source.now.program.now ≡ source.now.program.now) }
        ensures lowered { IfOk result (λ l. l.lowered.now.program.now ≡ lowered.now.program.now) }
    {
        let source_identifiers = identifiers_in(alloc, first, source)?;
        let lowered_identifiers = identifiers_in(alloc, first, lowered)?;
        let source_classes = classes_in(alloc, first, source)?;
        Ok(Lowering {
            first,
            ledger,
            source_ledger: Ledger::new(alloc),
            source,
            lowered,
            source_identifiers,
            lowered_identifiers,
            source_classes,
        })
    }
}

/// Of each class the identifiers that declare it in this program. Fails on allocation failure alone.
fn identifiers_in(alloc: Global, first: u32, program: &Listed) -> Result<Grouped<u32>, AllocError>
    ensures { IfOk result (λ g. (n : ℕ) → group n g ≡ definitions.class_identifiers first n (preorder program.now.program.now)) }
{
    class_identifiers(alloc, first, program.nodes.as_slice())
}

/// Of each identifier the classes that it declares in this program. Fails on allocation failure alone.
fn classes_in(alloc: Global, first: u32, program: &Listed) -> Result<Grouped<u32>, AllocError>
    ensures { IfOk result (λ g. (b : ℕ) (n : ℕ) → has_number n (group b g) ≡ has_number b (definitions.class_identifiers first n (preorder program.now.program.now))) }
{
    declared_classes(alloc, first, program.nodes.as_slice())
}
