//! What references mean, by their numbers.
#![tactic(auto)]

ghost use Rattle.std.specs.Prelude.{◌≡◌, ℕ, map, IfOk};
ghost use Rattle.es_by_number.specs.Numbered.{pairs};
ghost use Rattle.es_grouped.specs.Groups.{group};
ghost use Rattle.es_lowered.specs.ClassNames.{is_written_at};
ghost use Rattle.es_referents.specs.Meanings.{any_writes, first_of, of_number, referent_in};
ghost use Rattle.es_references.specs.References.{references_of};
ghost use Rattle.es_steps.specs.LoweredClasses.{referent_of};
ghost use Rattle.es_steps.specs.References.{resolve};

use es_by_number::numbered::Numbered;
use es_grouped::Grouped;
use es_node::node::Node;
use es_references::references::{Reference, references};
use std::alloc::{AllocError, Global};

/// The references of a program, looked up by their numbers.
#[derive(Drop)]
pub struct Referents<'a> {
    pub list: Vec<Reference<'a>>,
    pub by_number: Grouped<Reference<'a>>,

    ghost are_its: { (m : ℕ) → group m by_number ≡ of_number m list.items },
}

impl<'a> Referents<'a> {
    /// Those of this program. Fails on allocation failure alone.
    pub fn of(alloc: Global, program: &'a Node) -> Result<Referents<'a>, AllocError>
        ensures { IfOk result (λ r. references_of r.list.items ≡ resolve program.now) }
    {
        let list = references(alloc, program)?;
        let by_number = by_number(alloc, list.as_slice())?;
        Ok(Referents { list, by_number })
    }

    /// The first reference of this number.
    #[tactic(auto, using(crate::proofs::ReferenceNumbers::first_at))]
    pub fn at(&self, number: u32) -> Option<Reference<'a>>
        ensures { referent_in result ≡ referent_of number (references_of self.now.list.items) }
    {
        first_of(self.by_number.get(number))
    }

    /// Whether a reference of this number writes.
    #[tactic(auto, using(crate::proofs::ReferenceNumbers::writes_at))]
    pub fn is_written_at(&self, number: u32) -> bool
        ensures { result ≡ is_written_at number (references_of self.now.list.items) }
    {
        any_writes(self.by_number.get(number))
    }
}

fn by_number<'a>(
    alloc: Global,
    references: &[Reference<'a>],
) -> Result<Grouped<Reference<'a>>, AllocError>
    ensures { IfOk result (λ g. (m : ℕ) → group m g ≡ of_number m references.now) }
{
    let items = with_numbers(alloc, references)?;
    Grouped::of(alloc, items)
}

/// These references, each with its number. Fails on allocation failure alone.
fn with_numbers<'a>(
    alloc: Global,
    references: &[Reference<'a>],
) -> Result<Vec<Numbered<Reference<'a>>>, AllocError>
    ensures { IfOk result (λ r. pairs r.items ≡ map (λ r. (r.node.0, r)) references.now) }
{
    let mut items = Vec::new(alloc);
    for reference in references {
        items.push(Numbered {
            number: reference.node.0,
            value: *reference,
        })?;
    }
    Ok(items)
}

/// The first of references of one number.
fn first_of<'a>(references: &[Reference<'a>]) -> Option<Reference<'a>>
    ensures { result ≡ first_of references.now }
{
    match references {
        [reference, ..] => Some(*reference),
        [] => None,
    }
}

/// Whether one of these references writes.
fn any_writes(references: &[Reference]) -> bool
    ensures { result ≡ any_writes references.now }
{
    for reference in references {
        if reference.writes {
            return true;
        }
    }
    false
}
