// Lists of numbers of nodes.

ghost use Rattle.std.specs.Prelude.{◌≡◌, ◌∷◌, ◌≤◌, IfOk, List, drop, length, map, ℕ};
ghost use Rattle.es_base.specs.Preorder.{number_of, preorder};
ghost use Rattle.es_binding_faults.specs.Seen.{seen};
ghost use Rattle.es_steps.specs.KeptNodes as kept;
ghost use Rattle.es_steps.specs.References.{has_number};

use es_base::ids::NodeId;
use es_binding_faults::numbers::Numbers;
use es_binding_faults::preorder::preorder;
use es_generated::numbers::is_new;
use es_node::node::Node;
use std::alloc::{AllocError, Global};

/// The set of these numbers. Fails on allocation failure alone.
pub fn set_of(alloc: Global, numbers: &[u32]) -> Result<Numbers, AllocError>
    ensures { IfOk result (λ r. (n : ℕ) → has_number n r ≡ has_number n numbers.now) }
{
    let nodes = nodes_numbered(alloc, numbers)?;
    let set = Numbers::of(alloc, nodes.as_slice())?;
    Ok(set)
}

fn nodes_numbered(alloc: Global, numbers: &[u32]) -> Result<Vec<NodeId>, AllocError>
    ensures { IfOk result (λ r. map (λ x. x.0) r.items ≡ numbers.now) }
{
    let mut nodes = Vec::new(alloc);
    for number in numbers {
        nodes.push(NodeId(*number))?;
    }
    Ok(nodes)
}

/// Whether each of these numbers is new or among those that were there. Fails on allocation failure alone.
#[tactic(auto, using(crate::proofs::Among::same_new_or_among))]
pub fn are_new_or_among(
    alloc: Global,
    first: u32,
    there: &[u32],
    numbers: &[u32],
) -> Result<bool, AllocError>
    ensures { IfOk result (λ holds. holds ≡ kept.are_new_or_among first there.now numbers.now) }
{
    let set = set_of(alloc, there)?;
    Ok(are_new_or_in(first, &set, numbers))
}

fn are_new_or_in(first: u32, there: &Numbers, numbers: &[u32]) -> bool
    ensures { result ≡ kept.are_new_or_among first there.now numbers.now }
{
    for number in numbers {
        if !(is_new(first, *number) || there.has(NodeId(*number))) {
            return false;
        }
    }
    true
}

/// Whether the first list is the second without some of its members.
#[tactic(auto, using(crate::proofs::Within::within_end))]
pub fn is_within(some: &[u32], all: &[u32]) -> bool
    ensures { result ≡ kept.is_within some.now all.now }
{
    let mut found = 0;
    for number in all {
        found = found_with(some, found, *number);
    }
    found == some.len()
}

/// How many of the first are found, where so many were before this number.
#[tactic(auto, using(crate::proofs::Within::within_here, crate::proofs::Within::within_behind, crate::proofs::Within::within_none))]
fn found_with(some: &[u32], found: usize, number: u32) -> usize
    requires { found ≤ length some.now }
    ensures in_range { result ≤ length some.now }
    ensures rest { (behind : List ℕ) → kept.is_within (drop result some.now) behind ≡ kept.is_within (drop found some.now) (number ∷ behind) }
{
    if found < some.len() && some[found] == number {
        found + 1
    } else {
        found
    }
}

/// The numbers of these nodes. Fails on allocation failure alone.
#[tactic(auto, using(crate::proofs::Nodes::number_of_node))]
pub fn numbers_of(alloc: Global, nodes: &[&Node]) -> Result<Vec<u32>, AllocError>
    ensures { IfOk result (λ r. r.items ≡ map number_of (seen nodes.now)) }
{
    let mut numbers = Vec::new(alloc);
    for node in nodes {
        numbers.push(node.node_id().0)?;
    }
    Ok(numbers)
}

/// The numbers of a node and of those below it, in preorder. Fails on allocation failure alone.
pub fn numbers_below(alloc: Global, node: &Node) -> Result<Vec<u32>, AllocError>
    ensures { IfOk result (λ r. r.items ≡ map number_of (preorder node.now)) }
{
    let nodes = preorder(alloc, node)?;
    numbers_of(alloc, nodes.as_slice())
}
