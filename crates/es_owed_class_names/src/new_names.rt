// References to names of a class that are none in the source: they stand in functions of the class, or in those around it. Any
// other may be called in front of the class.

ghost use Rattle.std.specs.Prelude.{◌≡◌, ◌||◌, IfOk};
ghost use Rattle.std.specs.List.{list_all};
ghost use Rattle.es_base.specs.Preorder.{preorder};
ghost use Rattle.es_grouped.specs.Groups.{group};
ghost use Rattle.es_lowered.specs.ClassNames as spec;
ghost use Rattle.es_owed_places.specs.Placed.{part_pairs, references_of};

use crate::holders::Holders;
use crate::inside::numbers_of_class;
use crate::lists::is_none;
use crate::lowering::Lowering;
use es_base::ids::NodeId;
use es_binding_faults::numbers::Numbers;
use es_owed_places::placed::{FunctionPart, PlacedReference};
use es_owed_references::numbers::set_of;
use std::alloc::{AllocError, Global};

/// Whether these references to names of this class, none of them in the source, stand in what that was lowered to in functions of
/// the class or around it, constructors aside. Fails on allocation failure alone.
pub fn new_names_fit(
    alloc: Global,
    lowering: &Lowering,
    class: u32,
    names: &[u32],
) -> Result<bool, AllocError>
    ensures { IfOk result (λ fit. fit ≡ spec.new_names_fit lowering.now.first lowering.now.source.now.program.now lowering.now.lowered.now.program.now class names.now) }
{
    if is_none(names) {
        return Ok(true);
    }
    let numbers = numbers_of_class(alloc, class, lowering.source)?;
    let inside = set_of(alloc, numbers.as_slice())?;
    Ok(all_stand_with_class(lowering, class, &inside, names))
}

/// Whether the functions around each of these references are of these numbers, or hold the class.
fn all_stand_with_class(lowering: &Lowering, class: u32, inside: &Numbers, names: &[u32]) -> bool
    ensures { result ≡ list_all (λ k. spec.all_stand_with_class class inside.now (preorder lowering.now.holders.lowered.now.program.now) (references_of (group k lowering.now.placed))) names.now }
{
    for name in names {
        if !stand_with_class(&lowering.holders, class, inside, lowering.placed.get(*name)) {
            return false;
        }
    }
    true
}

fn stand_with_class(
    holders: &Holders,
    class: u32,
    inside: &Numbers,
    references: &[PlacedReference],
) -> bool
    ensures { result ≡ spec.all_stand_with_class class inside.now (preorder holders.now.lowered.now.program.now) (references_of references.now) }
{
    for reference in references {
        if !are_of_class(holders, class, inside, reference.around.as_slice()) {
            return false;
        }
    }
    true
}

/// Whether each of these functions is of these numbers, or holds the class.
fn are_of_class(holders: &Holders, class: u32, inside: &Numbers, functions: &[FunctionPart]) -> bool
    ensures { result ≡ spec.are_of_class class inside.now (preorder holders.now.lowered.now.program.now) (part_pairs functions.now) }
{
    for part in functions {
        if !(inside.has(NodeId(part.function)) || holders.hold(part.function, class)) {
            return false;
        }
    }
    true
}
