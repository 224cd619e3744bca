// Whether references stand in the same functions of the source.

ghost use Rattle.std.specs.Prelude.{◌≡◌};
ghost use Rattle.es_lowered.specs.FunctionsAround as spec;
ghost use Rattle.es_steps.specs.KeptNodes.{all_pairs_stand, pair_stands};
ghost use Rattle.es_owed_places.specs.Placed.{part_pair, part_pairs, reference_of, references_of};

use crate::placed::{FunctionPart, PlacedReference};
use es_base::strings::is_word;
use es_generated::numbers::is_new;

/// Whether each of these references stands in the functions in which one of the others does that has its number or, if it is
/// new, its name.
pub fn all_stand_where(
    first: u32,
    references: &[PlacedReference],
    others: &[PlacedReference],
) -> bool
    ensures { result ≡ spec.all_stand_where first (references_of references.now) (references_of others.now) }
{
    for reference in references {
        if !stands_where(first, reference, others) {
            return false;
        }
    }
    true
}

fn stands_where(first: u32, reference: &PlacedReference, others: &[PlacedReference]) -> bool
    ensures { result ≡ spec.stands_where first (reference_of reference.now) (references_of others.now) }
{
    for other in others {
        if is_same_place(first, reference, other) {
            return true;
        }
    }
    false
}

fn is_same_place(first: u32, reference: &PlacedReference, other: &PlacedReference) -> bool
    ensures { result ≡ spec.same_place first (reference_of reference.now) (reference_of other.now) }
{
    let is_of_it = reference.number == other.number
        || (is_new(first, reference.number) && is_word(other.name, reference.name));
    is_of_it
        && (are_among(reference.around.as_slice(), other.around.as_slice())
            && are_among(other.around.as_slice(), reference.around.as_slice()))
}

/// Whether all of these parts are among the others.
fn are_among(parts: &[FunctionPart], others: &[FunctionPart]) -> bool
    ensures { result ≡ all_pairs_stand (part_pairs parts.now) (part_pairs others.now) }
{
    for part in parts {
        if !is_among(*part, others) {
            return false;
        }
    }
    true
}

fn is_among(part: FunctionPart, others: &[FunctionPart]) -> bool
    ensures { result ≡ pair_stands (part_pair part) (part_pairs others.now) }
{
    for other in others {
        if part.function == other.function && part.part == other.part {
            return true;
        }
    }
    false
}
