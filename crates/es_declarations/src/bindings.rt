// The bindings of a program that were there before, and name no class.

ghost use Rattle.std.specs.Prelude.{◌≡◌, IfOk};
ghost use Rattle.es_steps.specs.Meaning.{ClassDeclared, by_number, declaring, old_bindings};
ghost use Rattle.es_declarations.specs.Kinds.{bindings_in};

use crate::declaring::add_declaring;
use crate::kind::{Binding, DeclarationKind};
use es_by_number::numbered::{Numbered, sort_by_number};
use es_generated::numbers::is_new;
use es_node::node::Node;
use std::alloc::{AllocError, Global};

/// The declaring identifiers of a program whose numbers are below `first`, but those that name classes, by number, each with what
/// it declares. Fails on allocation failure alone.
#[tactic(auto, using(es_by_number::proofs::Sorting::sorted_viewed))]
pub fn bindings(
    alloc: Global,
    first: u32,
    program: &Node,
) -> Result<Vec<Numbered<Binding>>, AllocError>
    ensures { IfOk result (λ bs. bindings_in bs.items ≡ by_number (old_bindings first (declaring first ClassDeclared program.now))) }
{
    let mut found = Vec::new(alloc);
    add_declaring(alloc, first, DeclarationKind::Class, program, &mut found)?;
    let mut bindings = old_bindings(alloc, first, found.as_slice())?;
    sort_by_number(&mut bindings)?;
    Ok(bindings)
}

/// Those of these that are not new and name no class. Fails on allocation failure alone.
fn old_bindings(
    alloc: Global,
    first: u32,
    found: &[Numbered<Binding>],
) -> Result<Vec<Numbered<Binding>>, AllocError>
    ensures { IfOk result (λ bs. bindings_in bs.items ≡ old_bindings first (bindings_in found.now)) }
{
    let mut bindings = Vec::new(alloc);
    for item in found {
        if !(is_new(first, item.number) || item.value.names_class()) {
            bindings.push(Numbered {
                number: item.number,
                value: item.value,
            })?;
        }
    }
    Ok(bindings)
}
