// The references of a program by their numbers, with the functions of the source that they stand in.

ghost use Rattle.std.specs.Prelude.{◌≡◌, ℕ, map, true, IfOk};
ghost use Rattle.es_by_number.specs.Numbered as by_number;
ghost use Rattle.es_grouped.specs.Groups.{group};
ghost use Rattle.es_lowered.specs.ClassNames.{numbered};
ghost use Rattle.es_owed_class_names.specs.PlacedNumbers.{all_placed};
ghost use Rattle.es_owed_places.specs.Placed.{reference_of, references_of};

use es_by_number::numbered::Numbered;
use es_grouped::Grouped;
use es_node::node::Node;
use es_owed_places::placed::{Asks, PlacedReference, placed_references};
use std::alloc::{AllocError, Global};

/// All references.
#[derive(Drop)]
struct AnyReference;

impl Asks for AnyReference {
    ghost use Rattle.std.specs.Prelude.{true};

    ghost asks = { λ k m s. true };

    fn asks(&self, _number: u32, _name: &str) -> bool
        ensures { result ≡ true }
    {
        true
    }
}

/// The references of a program by their numbers. Fails on allocation failure alone.
pub fn placed_by_number<'a>(
    alloc: Global,
    first: u32,
    program: &'a Node,
) -> Result<Grouped<PlacedReference<'a>>, AllocError>
    ensures { IfOk result (λ g. (k : ℕ) → references_of (group k g) ≡ numbered k (all_placed first program.now)) }
{
    let references = placed_references(alloc, first, &AnyReference, program)?;
    let items = with_numbers(alloc, references)?;
    Grouped::of(alloc, items)
}

/// These references, each with its number. Fails on allocation failure alone.
fn with_numbers<'a>(
    alloc: Global,
    references: Vec<PlacedReference<'a>>,
) -> Result<Vec<Numbered<PlacedReference<'a>>>, AllocError>
    ensures { IfOk result (λ r. by_number.numbered reference_of r.items ≡ map (λ x. (x.number, x)) (references_of references.entry.items)) }
{
    let mut items = Vec::new(alloc);
    for reference in references {
        items.push(Numbered {
            number: reference.number,
            value: reference,
        })?;
    }
    Ok(items)
}
