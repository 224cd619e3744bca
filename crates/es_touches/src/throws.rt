// What always throws in a lowered program, but for what stands for an update of a private member.

ghost use Rattle.std.specs.Prelude.{◌≡◌, ◌++◌, ◌&&◌, ◌||◌, not, IfOk, OnOk};
ghost use Rattle.es_base.specs.Numbered as numbered;
ghost use Rattle.es_base.specs.Preorder.{preorder_of};
ghost use Rattle.es_binding_faults.specs.Seen.{seen};
ghost use Rattle.es_lowered.specs.ClassNames as names;
ghost use Rattle.es_lowered.specs.DeadZones as spec;
ghost use Rattle.es_node.specs.View.{kind_of, number_in, parts_in};
ghost use Rattle.es_steps.specs.References as references;

use crate::below::{add_number_at, numbers_inside, push_if};
use crate::forms::ends_in_throw;
use es_base::kind::Kind;
use es_generated::numbers::is_new;
use es_node::node::Node;
use es_number_set::NumberSet;
use std::alloc::{AllocError, Global};

/// The new nodes that always throw, but for those that stand for one of these updates; the nodes are those of a program. Fails
/// on allocation failure alone.
pub fn all_throws(
    alloc: Global,
    first: u32,
    updates: &NumberSet,
    nodes: &[&Node],
) -> Result<Vec<u32>, AllocError>
    ensures { IfOk result (λ r. r.items ≡ spec.all_throws first updates.now (seen nodes.now)) }
{
    let rights = NumberSet::of(alloc, right_operands(alloc, updates, nodes)?)?;
    new_throws(alloc, first, updates, &rights, nodes)
}

/// The right operands of the updates that are logical. Fails on allocation failure alone.
#[tactic(auto, using(crate::proofs::ThrowsOfNodes::rights_more))]
fn right_operands(
    alloc: Global,
    updates: &NumberSet,
    nodes: &[&Node],
) -> Result<Vec<u32>, AllocError>
    ensures { IfOk result (λ r. r.items ≡ spec.right_operands updates.now (seen nodes.now)) }
{
    let mut numbers = Vec::new(alloc);
    for node in nodes {
        add_right(updates, node, &mut numbers)?;
    }
    Ok(numbers)
}

#[tactic(auto, using(crate::proofs::ThrowsOfNodes::right_logical, crate::proofs::ThrowsOfNodes::right_none))]
fn add_right(updates: &NumberSet, node: &Node, numbers: &mut Vec<u32>) -> Result<(), AllocError>
    ensures { OnOk result (numbers.new.items ≡ numbers.old.items ++ spec.right_of updates.now (kind_of node.now) (number_in node.now) (parts_in node.now)) }
{
    match node.kind() {
        // a.#b || (c, babelHelpers.readOnlyError("#b"))
        Kind::LogicalExpression => {
            if updates.has(node.node_id().0) {
                add_number_at(node.parts(), 2, numbers)
            } else {
                Ok(())
            }
        }
        _ => Ok(()),
    }
}

#[tactic(auto, using(crate::proofs::ThrowsOfNodes::throws_more))]
fn new_throws(
    alloc: Global,
    first: u32,
    updates: &NumberSet,
    rights: &NumberSet,
    nodes: &[&Node],
) -> Result<Vec<u32>, AllocError>
    ensures { IfOk result (λ r. r.items ≡ spec.new_throws first updates.now rights.now (seen nodes.now)) }
{
    let mut numbers = Vec::new(alloc);
    for node in nodes {
        let throws = is_new_throw(alloc, first, updates, rights, node)?;
        push_if(throws, node.node_id().0, &mut numbers)?;
    }
    Ok(numbers)
}

fn is_new_throw(
    alloc: Global,
    first: u32,
    updates: &NumberSet,
    rights: &NumberSet,
    node: &Node,
) -> Result<bool, AllocError>
    ensures { IfOk result (λ r. r ≡ (spec.throws_at (kind_of node.now) (parts_in node.now) && (numbered.is_new first (number_in node.now) && not (references.has_number (number_in node.now) rights.now || names.any_among updates.now (names.numbers_of (preorder_of (parts_in node.now))))))) }
{
    let number = node.node_id().0;
    if !throws_at(node) || !is_new(first, number) || rights.has(number) {
        return Ok(false);
    }
    let inside = numbers_inside(alloc, node)?;
    Ok(!any_among(updates, inside.as_slice()))
}

#[tactic(auto, using(crate::proofs::ThrowsOfNodes::throws_sequence, crate::proofs::ThrowsOfNodes::throws_none))]
fn throws_at(node: &Node) -> bool
    ensures { result ≡ spec.throws_at (kind_of node.now) (parts_in node.now) }
{
    match node.kind() {
        // (a, babelHelpers.readOnlyError("#b"))
        Kind::SequenceExpression => ends_in_throw(node),
        _ => false,
    }
}

/// Whether one of these numbers is among the others.
fn any_among(others: &NumberSet, numbers: &[u32]) -> bool
    ensures { result ≡ names.any_among others.now numbers.now }
{
    for number in numbers {
        if others.has(*number) {
            return true;
        }
    }
    false
}
