// The places of nodes in preorder, by their numbers.

ghost use Rattle.std.specs.Prelude.{◌≡◌, ℕ, IfOk, Some};
ghost use Rattle.es_binding_faults.specs.Seen.{seen};
ghost use Rattle.es_by_number.specs.Numbered.{pairs};
ghost use Rattle.es_grouped.specs.Groups.{group, having};
ghost use Rattle.es_owed_initialized.specs.Order.{earlier, first_place, is_before, places_from};

use es_by_number::numbered::Numbered;
use es_grouped::Grouped;
use es_node::node::Node;
use std::alloc::{AllocError, Global};

/// The places of these nodes, by their numbers. Fails on allocation failure alone.
pub fn places(alloc: Global, nodes: &[&Node]) -> Result<Grouped<usize>, AllocError>
    ensures { IfOk result (λ g. (m : ℕ) → group m g ≡ having m (places_from 0 (seen nodes.now))) }
{
    let items = with_places(alloc, nodes)?;
    Grouped::of(alloc, items)
}

/// The numbers of these nodes, each with its place. Fails on allocation failure alone.
#[tactic(auto, using(es_owed::proofs::Nodes::number_of_node))]
fn with_places(alloc: Global, nodes: &[&Node]) -> Result<Vec<Numbered<usize>>, AllocError>
    ensures { IfOk result (λ r. pairs r.items ≡ places_from 0 (seen nodes.now)) }
{
    let mut items = Vec::new(alloc);
    for (i, node) in nodes.iter().enumerate() {
        items.push(Numbered {
            number: node.node_id().0,
            value: i,
        })?;
    }
    Ok(items)
}

/// The first of the places of one number.
pub fn first_place(places: &[usize]) -> Option<usize>
    ensures { result ≡ first_place places.now }
{
    match places {
        [place, ..] => Some(*place),
        [] => None,
    }
}

/// Whether the first place is one, and the other one, if it is one, is not in front of it.
pub fn is_before(place: Option<usize>, other: Option<usize>) -> bool
    ensures { result ≡ is_before place other }
{
    match place {
        Some(place) => is_at_most(place, other),
        None => false,
    }
}

fn is_at_most(place: usize, other: Option<usize>) -> bool
    ensures { result ≡ is_before (Some place) other }
{
    match other {
        Some(other) => place <= other,
        None => true,
    }
}

/// The first of two places that may be there.
pub fn earlier(place: Option<usize>, other: Option<usize>) -> Option<usize>
    ensures { result ≡ earlier place other }
{
    match place {
        Some(place) => Some(earlier_than(place, other)),
        None => other,
    }
}

fn earlier_than(place: usize, other: Option<usize>) -> usize
    ensures { Some result ≡ earlier (Some place) other }
{
    match other {
        Some(other) => place.min(other),
        None => place,
    }
}
