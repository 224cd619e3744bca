// The nodes and numbers below parts of a program.

ghost use Rattle.std.specs.Prelude.{◌≡◌, ◌++◌, ◌∷◌, [], cond, option_map, IfOk, OnOk};
ghost use Rattle.es_base.specs.Preorder.{preorder, preorder_of, preorder_of_part};
ghost use Rattle.es_base.specs.Tree.{nullable, nullable_trees, trees};
ghost use Rattle.es_binding_faults.specs.Seen.{seen};
ghost use Rattle.es_lowered.specs.ClassNames as names;
ghost use Rattle.es_lowered.specs.HelperCalls as calls;
ghost use Rattle.es_node.specs.View.{part_of, parts_in, parts_of};
ghost use Rattle.es_steps.specs.Parts.{at};

use es_binding_faults::hoisted::part_at;
use es_binding_faults::preorder::preorder;
use es_node::node::{Node, Part};
use es_owed::numbers::numbers_of;
use es_owed_initialized::numbers::add_numbers;
use std::alloc::{AllocError, Global};

// ---- nodes

/// The nodes in the i-th part, in preorder. Fails on allocation failure alone.
pub fn nodes_at<'a>(alloc: Global, parts: &'a [Part], i: usize) -> Result<Vec<&'a Node>, AllocError>
    ensures { IfOk result (λ r. seen r.items ≡ preorder_of_part (at i (parts_of parts.now))) }
{
    let mut nodes = Vec::new(alloc);
    if let Some(part) = part_at(parts, i) {
        add_nodes_of_part(alloc, part, &mut nodes)?;
    }
    Ok(nodes)
}

fn add_nodes_of_part<'a>(
    alloc: Global,
    part: &'a Part,
    nodes: &mut Vec<&'a Node>,
) -> Result<(), AllocError>
    ensures { OnOk result (seen nodes.new.items ≡ seen nodes.old.items ++ preorder_of_part (part_of part.now)) }
{
    match part {
        Part::Child(node) => add_nodes(alloc, node, nodes),
        Part::List(items) => add_nodes_of_list(alloc, items.as_slice(), nodes),
        Part::Holes(items) => add_nodes_of_list_with_holes(alloc, items.as_slice(), nodes),
        _ => Ok(()),
    }
}

fn add_nodes<'a>(alloc: Global, node: &'a Node, nodes: &mut Vec<&'a Node>) -> Result<(), AllocError>
    ensures { OnOk result (seen nodes.new.items ≡ seen nodes.old.items ++ preorder node.now) }
{
    let all = preorder(alloc, node)?;
    add_all(all.as_slice(), nodes)
}

fn add_nodes_of_list<'a>(
    alloc: Global,
    items: &'a [Node],
    nodes: &mut Vec<&'a Node>,
) -> Result<(), AllocError>
    ensures { OnOk result (seen nodes.new.items ≡ seen nodes.old.items ++ preorder_of (trees items.now)) }
{
    for item in items {
        add_nodes(alloc, item, nodes)?;
    }
    Ok(())
}

fn add_nodes_of_list_with_holes<'a>(
    alloc: Global,
    items: &'a [Option<Node>],
    nodes: &mut Vec<&'a Node>,
) -> Result<(), AllocError>
    ensures { OnOk result (seen nodes.new.items ≡ seen nodes.old.items ++ preorder_of (nullable_trees items.now)) }
{
    for item in items {
        add_nodes_of_hole(alloc, item, nodes)?;
    }
    Ok(())
}

fn add_nodes_of_hole<'a>(
    alloc: Global,
    item: &'a Option<Node>,
    nodes: &mut Vec<&'a Node>,
) -> Result<(), AllocError>
    ensures { OnOk result (seen nodes.new.items ≡ seen nodes.old.items ++ preorder_of_part (nullable item.now)) }
{
    match item {
        Some(node) => add_nodes(alloc, node, nodes),
        None => Ok(()),
    }
}

fn add_all<'a>(more: &[&'a Node], nodes: &mut Vec<&'a Node>) -> Result<(), AllocError>
    ensures { OnOk result (seen nodes.new.items ≡ seen nodes.old.items ++ seen more.now) }
{
    for node in more {
        nodes.push(*node)?;
    }
    Ok(())
}

// ---- numbers

/// Adds the number of the node at this place, if one stands there. Fails on allocation failure alone.
#[tactic(auto, using(es_owed::proofs::Nodes::number_of_node))]
pub fn add_number_at(parts: &[Part], i: usize, numbers: &mut Vec<u32>) -> Result<(), AllocError>
    ensures { OnOk result (numbers.new.items ≡ numbers.old.items ++ calls.part_number (at i (parts_of parts.now))) }
{
    match part_at(parts, i) {
        Some(Part::Child(node)) => {
            numbers.push(node.node_id().0)?;
            Ok(())
        }
        _ => Ok(()),
    }
}

/// Adds the number, if so. Fails on allocation failure alone.
pub fn push_if(is_asked: bool, number: u32, numbers: &mut Vec<u32>) -> Result<(), AllocError>
    ensures { OnOk result (numbers.new.items ≡ numbers.old.items ++ cond is_asked (number ∷ []) []) }
{
    if is_asked {
        numbers.push(number)?;
    }
    Ok(())
}

/// Adds the numbers of the nodes in the i-th part. Fails on allocation failure alone.
pub fn add_numbers_at(
    alloc: Global,
    parts: &[Part],
    i: usize,
    numbers: &mut Vec<u32>,
) -> Result<(), AllocError>
    ensures { OnOk result (numbers.new.items ≡ numbers.old.items ++ names.numbers_of (preorder_of_part (at i (parts_of parts.now)))) }
{
    let nodes = nodes_at(alloc, parts, i)?;
    let below = numbers_of(alloc, nodes.as_slice())?;
    add_numbers(below.as_slice(), numbers)
}

/// Adds the numbers of a node and of those below it, if one is there. Fails on allocation failure alone.
pub fn add_numbers_of(
    alloc: Global,
    node: Option<&Node>,
    numbers: &mut Vec<u32>,
) -> Result<(), AllocError>
    ensures { OnOk result (numbers.new.items ≡ numbers.old.items ++ names.numbers_of (preorder_of_part (nullable (option_map (λ x. x.now) node.entry)))) }
{
    match node {
        Some(node) => {
            let nodes = preorder(alloc, node)?;
            let below = numbers_of(alloc, nodes.as_slice())?;
            add_numbers(below.as_slice(), numbers)
        }
        None => Ok(()),
    }
}

/// The numbers of the nodes below a node. Fails on allocation failure alone.
#[tactic(auto, using(crate::proofs::NodesBelow::below_node))]
pub fn numbers_inside(alloc: Global, node: &Node) -> Result<Vec<u32>, AllocError>
    ensures { IfOk result (λ r. r.items ≡ names.numbers_of (preorder_of (parts_in node.now))) }
{
    let nodes = preorder(alloc, node)?;
    match nodes.as_slice() {
        [_, below @ ..] => numbers_of(alloc, below),
        [] => Ok(Vec::new(alloc)),
    }
}
