// `new.target` where there is none (ECMA-262, 15.7.1, 16.1.1).

ghost use Rattle.std.specs.Prelude.{◌≡◌, ◌&&◌, not};
ghost use Rattle.es_base.specs.Tree.{nullable, nullable_trees, trees};
ghost use Rattle.es_node.specs.View.{kind_of, part_of, parts_in, parts_of};
ghost use Rattle.es_steps.specs.Printable as spec;
ghost use Rattle.es_steps.specs.Printable.{has_stray_target, is_new_target, stray_target_at, stray_target_of};
ghost use Rattle.es_owed_printable.specs.Targets.{stray_target_from, target_within};

use es_base::kind::Kind;
use es_base::strings::spells;
use es_node::node::{Node, Part};
use es_tree::expression::MetaPropertyRef;
use es_validity::names::name_of;

/// Whether the node or one below it is a `new.target` where there is none, inside of what has one or not.
#[cycle(target)]
#[tactic(auto, using(crate::proofs::Walks::target_node, es_node::proofs::Below::nodes_in))]
pub fn has_stray_target(inside: bool, node: &Node) -> bool
    ensures { result ≡ has_stray_target inside node.now }
{
    is_stray_target(inside, node) || stray_target_in(inside, node.kind(), node.parts())
}

/// Whether such a one stands in the parts of a node of this kind.
#[cycle(target)]
fn stray_target_in(inside: bool, kind: Kind, parts: &[Part]) -> bool
    ensures { result ≡ stray_target_from (target_within inside kind) 0 (parts_of parts.now) }
{
    for (i, part) in parts.iter().enumerate() {
        if stray_target_at(target_within(inside, kind, i), part) {
            return true;
        }
    }
    false
}

#[cycle(target)]
fn stray_target_at(inside: bool, part: &Part) -> bool
    ensures { result ≡ stray_target_at inside (part_of part.now) }
{
    match part {
        Part::Child(node) => has_stray_target(inside, node),
        Part::List(nodes) => stray_target_of_list(inside, nodes.as_slice()),
        Part::Holes(nodes) => stray_target_of_list_with_holes(inside, nodes.as_slice()),
        _ => false,
    }
}

#[cycle(target)]
fn stray_target_of_list(inside: bool, nodes: &[Node]) -> bool
    ensures { result ≡ stray_target_of inside (trees nodes.now) }
{
    for node in nodes {
        if has_stray_target(inside, node) {
            return true;
        }
    }
    false
}

#[cycle(target)]
fn stray_target_of_list_with_holes(inside: bool, nodes: &[Option<Node>]) -> bool
    ensures { result ≡ stray_target_of inside (nullable_trees nodes.now) }
{
    for node in nodes {
        if stray_target_of_hole(inside, node) {
            return true;
        }
    }
    false
}

#[cycle(target)]
fn stray_target_of_hole(inside: bool, node: &Option<Node>) -> bool
    ensures { result ≡ stray_target_at inside (nullable node.now) }
{
    match node {
        Some(node) => has_stray_target(inside, node),
        None => false,
    }
}

// ---- node by node

fn is_stray_target(inside: bool, node: &Node) -> bool
    ensures { result ≡ (is_new_target (kind_of node.now) (parts_in node.now) && not inside) }
{
    is_new_target(node) && !inside
}

/// `new.target`
#[tactic(auto, using(crate::proofs::Walks::no_new_target))]
fn is_new_target(node: &Node) -> bool
    ensures { result ≡ is_new_target (kind_of node.now) (parts_in node.now) }
{
    match node.kind() {
        Kind::MetaProperty => spells(name_of(MetaPropertyRef::from_node(node).meta), "new"),
        _ => false,
    }
}

/// Whether the part at this place of a node of this kind has a `new.target`, inside of what has one or not.
fn target_within(inside: bool, kind: Kind, i: usize) -> bool
    ensures { result ≡ target_within inside kind i }
{
    inside || has_target(kind, i)
}

/// The same of functions that are no arrows, values of fields, and static blocks.
fn has_target(kind: Kind, i: usize) -> bool
    ensures { result ≡ spec.has_target kind i }
{
    match kind {
        Kind::StaticBlock => true,
        // a = 1;
        Kind::PropertyDefinition => i == 1,
        Kind::FunctionDeclaration | Kind::FunctionExpression => true,
        _ => false,
    }
}
