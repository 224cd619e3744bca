// Jumps without what they leave (ECMA-262, 14.8 to 14.10).

ghost use Rattle.std.specs.Prelude.{◌≡◌};
ghost use Rattle.es_base.specs.Tree.{nullable, nullable_trees, trees};
ghost use Rattle.es_node.specs.View.{part_of, parts_of};
ghost use Rattle.es_steps.specs.Printable.{has_stray, stray_at, stray_in};
ghost use Rattle.es_validity.specs.Labels.{jumps_of};

use es_node::node::{Node, Part};
use es_validity::jumps::{Jumps, is_stray, jumps_inside};

/// Whether the node or one below it is a `break`, `continue` or `return` without what it leaves, where these may be left.
#[cycle(stray)]
#[tactic(auto, using(crate::proofs::Walks::stray_node, es_node::proofs::Below::nodes_in))]
pub fn has_stray(jumps: &Jumps, node: &Node) -> bool
    ensures { result ≡ has_stray (jumps_of jumps.now) node.now }
{
    is_stray(jumps, node) || stray_in(&jumps_inside(&*jumps, &*node), node.parts())
}

#[cycle(stray)]
fn stray_in(jumps: &Jumps, parts: &[Part]) -> bool
    ensures { result ≡ stray_in (jumps_of jumps.now) (parts_of parts.now) }
{
    for part in parts {
        if stray_at(jumps, part) {
            return true;
        }
    }
    false
}

#[cycle(stray)]
fn stray_at(jumps: &Jumps, part: &Part) -> bool
    ensures { result ≡ stray_at (jumps_of jumps.now) (part_of part.now) }
{
    match part {
        Part::Child(node) => has_stray(jumps, node),
        Part::List(nodes) => stray_of_list(jumps, nodes.as_slice()),
        Part::Holes(nodes) => stray_of_list_with_holes(jumps, nodes.as_slice()),
        _ => false,
    }
}

#[cycle(stray)]
fn stray_of_list(jumps: &Jumps, nodes: &[Node]) -> bool
    ensures { result ≡ stray_in (jumps_of jumps.now) (trees nodes.now) }
{
    for node in nodes {
        if has_stray(jumps, node) {
            return true;
        }
    }
    false
}

#[cycle(stray)]
fn stray_of_list_with_holes(jumps: &Jumps, nodes: &[Option<Node>]) -> bool
    ensures { result ≡ stray_in (jumps_of jumps.now) (nullable_trees nodes.now) }
{
    for node in nodes {
        if stray_of_hole(jumps, node) {
            return true;
        }
    }
    false
}

#[cycle(stray)]
fn stray_of_hole(jumps: &Jumps, node: &Option<Node>) -> bool
    ensures { result ≡ stray_at (jumps_of jumps.now) (nullable node.now) }
{
    match node {
        Some(node) => has_stray(jumps, node),
        None => false,
    }
}
