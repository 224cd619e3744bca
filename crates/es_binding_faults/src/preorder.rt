// The nodes of a tree in preorder.

ghost use Rattle.std.specs.Prelude.{◌≡◌, ◌++◌, IfOk, OnOk, [], map};
ghost use Rattle.es_base.specs.Preorder.{preorder, preorder_of, preorder_of_part};
ghost use Rattle.es_base.specs.Tree.{trees, nullable, nullable_trees};
ghost use Rattle.es_node.specs.View.{part_of, parts_of};
ghost use Rattle.es_binding_faults.specs.Seen.{seen};

use es_node::node::{Node, Part};
use std::alloc::{AllocError, Global};

/// The nodes of a tree in preorder. Fails on allocation failure alone.
pub fn preorder<'a>(alloc: Global, tree: &'a Node) -> Result<Vec<&'a Node>, AllocError>
    ensures { IfOk result (λ r. seen r.items ≡ preorder tree.now) }
{
    let mut nodes = Vec::new(alloc);
    add_node(tree, &mut nodes)?;
    Ok(nodes)
}

/// Adds a node and those below it. Fails on allocation failure alone.
#[cycle(preorder)]
fn add_node<'a>(node: &'a Node, nodes: &mut Vec<&'a Node>) -> Result<(), AllocError>
    ensures { OnOk result (seen nodes.new.items ≡ seen nodes.old.items ++ preorder node.now) }
{
    nodes.push(node)?;
    add_parts(node.parts(), nodes)
}

#[cycle(preorder)]
fn add_parts<'a>(parts: &'a [Part], nodes: &mut Vec<&'a Node>) -> Result<(), AllocError>
    ensures { OnOk result (seen nodes.new.items ≡ seen nodes.old.items ++ preorder_of (parts_of parts.now)) }
{
    for part in parts {
        add_part(part, nodes)?;
    }
    Ok(())
}

#[cycle(preorder)]
fn add_part<'a>(part: &'a Part, nodes: &mut Vec<&'a Node>) -> Result<(), AllocError>
    ensures { OnOk result (seen nodes.new.items ≡ seen nodes.old.items ++ preorder_of_part (part_of part.now)) }
{
    match part {
        Part::Child(node) => add_node(node, nodes),
        Part::List(items) => add_list(items.as_slice(), nodes),
        Part::Holes(items) => add_list_with_holes(items.as_slice(), nodes),
        _ => Ok(()),
    }
}

#[cycle(preorder)]
fn add_list<'a>(items: &'a [Node], nodes: &mut Vec<&'a Node>) -> Result<(), AllocError>
    ensures { OnOk result (seen nodes.new.items ≡ seen nodes.old.items ++ preorder_of (trees items.now)) }
{
    for item in items {
        add_node(item, nodes)?;
    }
    Ok(())
}

#[cycle(preorder)]
fn add_list_with_holes<'a>(
    items: &'a [Option<Node>],
    nodes: &mut Vec<&'a Node>,
) -> Result<(), AllocError>
    ensures { OnOk result (seen nodes.new.items ≡ seen nodes.old.items ++ preorder_of (nullable_trees items.now)) }
{
    for item in items {
        add_hole(item, nodes)?;
    }
    Ok(())
}

#[cycle(preorder)]
fn add_hole<'a>(item: &'a Option<Node>, nodes: &mut Vec<&'a Node>) -> Result<(), AllocError>
    ensures { OnOk result (seen nodes.new.items ≡ seen nodes.old.items ++ preorder_of_part (nullable item.now)) }
{
    match item {
        Some(node) => add_node(node, nodes),
        None => Ok(()),
    }
}
