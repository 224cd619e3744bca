// Statements that no lowered class touches stand as they are.

ghost use Rattle.std.specs.Prelude.{◌≡◌};
ghost use Rattle.es_base.specs.Tree.{nullable, nullable_trees, trees};
ghost use Rattle.es_binding_faults.specs.Seen.{seen};
ghost use Rattle.es_node.specs.View.{part_of, parts_of};
ghost use Rattle.es_steps.specs.KeptNodes as spec;
ghost use Rattle.es_steps.specs.KeptNodes.{stands_equal};
ghost use Rattle.es_owed.specs.FreeStatements.{free_stand, free_stand_at, free_stand_in};

use crate::classes::is_lowered_class;
use crate::listed::Listed;
use crate::same::same_node;
use crate::statements::is_free_statement;
use es_node::node::{Node, Part};
use es_steps::options::Options;

/// Whether the outermost statements of the source that are no lowered class, hold none and stand in none are found in what
/// the source was lowered to, each with its number and with all that is in it.
#[tactic(auto, using(crate::proofs::Frees::free_by_node))]
pub fn statements_kept(options: &Options, source: &Listed, lowered: &Listed) -> bool
    ensures { result ≡ spec.statements_kept options.now source.now.program.now lowered.now.program.now }
{
    free_stand(options, lowered, source.program)
}

/// Whether the outermost such statements of the node are equal to ones of these.
#[cycle(free)]
#[tactic(auto, using(crate::proofs::Frees::stands_node, crate::proofs::NumberedNodes::equal_numbered, es_node::proofs::Below::nodes_in))]
fn free_stand(options: &Options, lowered: &Listed, node: &Node) -> bool
    ensures { result ≡ free_stand options.now (seen lowered.now.nodes.items) node.now }
{
    if is_free_statement(options, node) {
        stands_equal(node, lowered.numbered(node.node_id().0))
    } else if is_lowered_class(options, node) {
        true
    } else {
        free_stand_in(options, lowered, node.parts())
    }
}

#[cycle(free)]
fn free_stand_in(options: &Options, lowered: &Listed, parts: &[Part]) -> bool
    ensures { result ≡ free_stand_in options.now (seen lowered.now.nodes.items) (parts_of parts.now) }
{
    for part in parts {
        if !free_stand_at(options, lowered, part) {
            return false;
        }
    }
    true
}

#[cycle(free)]
fn free_stand_at(options: &Options, lowered: &Listed, part: &Part) -> bool
    ensures { result ≡ free_stand_at options.now (seen lowered.now.nodes.items) (part_of part.now) }
{
    match part {
        Part::Child(node) => free_stand(options, lowered, node),
        Part::List(nodes) => free_stand_of_list(options, lowered, nodes.as_slice()),
        Part::Holes(nodes) => free_stand_of_list_with_holes(options, lowered, nodes.as_slice()),
        _ => true,
    }
}

#[cycle(free)]
fn free_stand_of_list(options: &Options, lowered: &Listed, nodes: &[Node]) -> bool
    ensures { result ≡ free_stand_in options.now (seen lowered.now.nodes.items) (trees nodes.now) }
{
    for node in nodes {
        if !free_stand(options, lowered, node) {
            return false;
        }
    }
    true
}

#[cycle(free)]
fn free_stand_of_list_with_holes(
    options: &Options,
    lowered: &Listed,
    nodes: &[Option<Node>],
) -> bool
    ensures { result ≡ free_stand_in options.now (seen lowered.now.nodes.items) (nullable_trees nodes.now) }
{
    for node in nodes {
        if !free_stand_of_hole(options, lowered, node) {
            return false;
        }
    }
    true
}

#[cycle(free)]
fn free_stand_of_hole(options: &Options, lowered: &Listed, node: &Option<Node>) -> bool
    ensures { result ≡ free_stand_at options.now (seen lowered.now.nodes.items) (nullable node.now) }
{
    match node {
        Some(node) => free_stand(options, lowered, node),
        None => true,
    }
}

/// Whether the node is equal to one of these.
pub fn stands_equal(node: &Node, nodes: &[&Node]) -> bool
    ensures { result ≡ stands_equal node.now (seen nodes.now) }
{
    for other in nodes {
        if same_node(node, other) {
            return true;
        }
    }
    false
}
