// Numbers of nodes among others.

ghost use Rattle.std.specs.Prelude.{◌≡◌, ◌++◌, ◌∷◌, [], ℕ, IfOk, OnOk};
ghost use Rattle.es_binding_faults.specs.Seen.{seen};
ghost use Rattle.es_lowered.specs.ClassNames.{numbers_of};
ghost use Rattle.es_references.specs.Frames.{ids};
ghost use Rattle.es_steps.specs.KeptNodes as kept;
ghost use Rattle.es_steps.specs.References.{has_number};

use es_base::ids::NodeId;
use es_binding_faults::numbers::Numbers;
use es_generated::numbers::is_new;
use es_node::node::Node;
use std::alloc::{AllocError, Global};

/// The set of the numbers of these nodes. Fails on allocation failure alone.
pub fn set_of(alloc: Global, nodes: &[&Node]) -> Result<Numbers, AllocError>
    ensures { IfOk result (λ r. (n : ℕ) → has_number n r ≡ has_number n (numbers_of (seen nodes.now))) }
{
    let numbers = ids_of(alloc, nodes)?;
    let set = Numbers::of(alloc, numbers.as_slice())?;
    Ok(set)
}

#[tactic(auto, using(es_owed::proofs::Nodes::number_of_node))]
fn ids_of(alloc: Global, nodes: &[&Node]) -> Result<Vec<NodeId>, AllocError>
    ensures { IfOk result (λ r. ids r.items ≡ numbers_of (seen nodes.now)) }
{
    let mut numbers = Vec::new(alloc);
    for node in nodes {
        numbers.push(node.node_id())?;
    }
    Ok(numbers)
}

/// Whether each of these nodes is new, or has one of the numbers that were there.
#[tactic(auto, using(es_owed::proofs::Nodes::number_of_node))]
pub fn are_new_or_among(first: u32, there: &Numbers, nodes: &[&Node]) -> bool
    ensures { result ≡ kept.are_new_or_among first there.now (numbers_of (seen nodes.now)) }
{
    for node in nodes {
        if !(is_new(first, node.node_id().0) || there.has(node.node_id())) {
            return false;
        }
    }
    true
}

/// Adds these nodes. Fails on allocation failure alone.
pub fn add_nodes<'a>(more: &[&'a Node], nodes: &mut Vec<&'a Node>) -> Result<(), AllocError>
    ensures { OnOk result (seen nodes.new.items ≡ seen nodes.old.items ++ seen more.now) }
{
    for node in more {
        nodes.push(*node)?;
    }
    Ok(())
}
