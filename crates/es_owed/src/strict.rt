// Strict code.

ghost use Rattle.std.specs.Prelude.{◌≡◌, ◌||◌, ◌++◌, false, IfOk, OnOk};
ghost use Rattle.es_base.specs.Tree.{nullable, nullable_trees, trees};
ghost use Rattle.es_node.specs.View.{kind_of, part_of, parts_in, parts_of};
ghost use Rattle.es_steps.specs.Strict as spec;
ghost use Rattle.es_steps.specs.Strict.{if_strict, makes_strict, strict_at, strict_in, strict_numbers};

use crate::numbers::are_new_or_among;
use es_node::node::{Node, Part};
use es_strict::strict::makes_strict;
use std::alloc::{AllocError, Global};

/// Whether no code becomes strict: each node in strict code of what a program was lowered to is new, or stands in strict code
/// of the source. Fails on allocation failure alone.
pub fn none_becomes_strict(
    alloc: Global,
    first: u32,
    source: &Node,
    lowered: &Node,
) -> Result<bool, AllocError>
    ensures { IfOk result (λ holds. holds ≡ spec.none_becomes_strict first source.now lowered.now) }
{
    let there = strict_numbers(alloc, source)?;
    let numbers = strict_numbers(alloc, lowered)?;
    are_new_or_among(alloc, first, there.as_slice(), numbers.as_slice())
}

/// The numbers of the nodes in strict code of a program. Fails on allocation failure alone.
fn strict_numbers(alloc: Global, program: &Node) -> Result<Vec<u32>, AllocError>
    ensures { IfOk result (λ numbers. numbers.items ≡ strict_numbers false program.now) }
{
    let mut numbers = Vec::new(alloc);
    add_strict(false, program, &mut numbers)?;
    Ok(numbers)
}

// ---- the walk

/// Adds the numbers of the nodes in strict code of a node that stands in strict code or not. Fails on allocation failure alone.
#[cycle(strict)]
#[tactic(auto, using(crate::proofs::StrictCode::strict_node, es_node::proofs::Below::nodes_in))]
fn add_strict(strict: bool, node: &Node, numbers: &mut Vec<u32>) -> Result<(), AllocError>
    ensures { OnOk result (numbers.new.items ≡ numbers.old.items ++ strict_numbers strict node.now) }
{
    let strict = strict || makes_strict(node.kind(), node.parts());
    add_if(strict, node.node_id().0, numbers)?;
    add_strict_in(strict, node.parts(), numbers)
}

#[cycle(strict)]
fn add_strict_in(strict: bool, parts: &[Part], numbers: &mut Vec<u32>) -> Result<(), AllocError>
    ensures { OnOk result (numbers.new.items ≡ numbers.old.items ++ strict_in strict (parts_of parts.now)) }
{
    for part in parts {
        add_strict_at(strict, part, numbers)?;
    }
    Ok(())
}

#[cycle(strict)]
fn add_strict_at(strict: bool, part: &Part, numbers: &mut Vec<u32>) -> Result<(), AllocError>
    ensures { OnOk result (numbers.new.items ≡ numbers.old.items ++ strict_at strict (part_of part.now)) }
{
    match part {
        Part::Child(node) => add_strict(strict, node, numbers),
        Part::List(nodes) => add_strict_of_list(strict, nodes.as_slice(), numbers),
        Part::Holes(nodes) => add_strict_of_list_with_holes(strict, nodes.as_slice(), numbers),
        _ => Ok(()),
    }
}

#[cycle(strict)]
fn add_strict_of_list(
    strict: bool,
    nodes: &[Node],
    numbers: &mut Vec<u32>,
) -> Result<(), AllocError>
    ensures { OnOk result (numbers.new.items ≡ numbers.old.items ++ strict_in strict (trees nodes.now)) }
{
    for node in nodes {
        add_strict(strict, node, numbers)?;
    }
    Ok(())
}

#[cycle(strict)]
fn add_strict_of_list_with_holes(
    strict: bool,
    nodes: &[Option<Node>],
    numbers: &mut Vec<u32>,
) -> Result<(), AllocError>
    ensures { OnOk result (numbers.new.items ≡ numbers.old.items ++ strict_in strict (nullable_trees nodes.now)) }
{
    for node in nodes {
        add_strict_of_hole(strict, node, numbers)?;
    }
    Ok(())
}

#[cycle(strict)]
fn add_strict_of_hole(
    strict: bool,
    node: &Option<Node>,
    numbers: &mut Vec<u32>,
) -> Result<(), AllocError>
    ensures { OnOk result (numbers.new.items ≡ numbers.old.items ++ strict_at strict (nullable node.now)) }
{
    match node {
        Some(node) => add_strict(strict, node, numbers),
        None => Ok(()),
    }
}

/// Adds the number of a node in strict code. Fails on allocation failure alone.
fn add_if(strict: bool, number: u32, numbers: &mut Vec<u32>) -> Result<(), AllocError>
    ensures { OnOk result (numbers.new.items ≡ numbers.old.items ++ if_strict strict number) }
{
    if strict {
        numbers.push(number)?;
    }
    Ok(())
}
