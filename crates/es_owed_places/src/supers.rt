// `super` where it may not stand (ECMA-262, 13.2.5.1, 13.3.7.1, 15.7.1).

ghost use Rattle.std.specs.Prelude.{◌≡◌};
ghost use Rattle.es_base.specs.Tree.{nullable, nullable_trees, trees};
ghost use Rattle.es_lowered.specs.Supers as spec;
ghost use Rattle.es_lowered.specs.Supers.{has_stray_super, is_stray_super, stray_super_at, stray_super_of};
ghost use Rattle.es_node.specs.View.{kind_of, part_of, parts_in, parts_of};
ghost use Rattle.es_owed_places.specs.SuperPlaces.{place_of, place_within, stray_super_from};

use crate::super_place::{SuperPlace, place_inside};
use es_base::kind::Kind;
use es_node::node::{Node, Part};
use es_tree::expression::{CallExpressionRef, MemberExpressionRef};
use es_validity::parts::is_super;

/// Whether `super` stands where it may in what a program was lowered to, if it does in the source: `super(..)` in the
/// constructor of a class with a heritage, a member of `super` in methods, getters, setters, the values of fields and static
/// blocks.
pub fn supers_stay(source: &Node, lowered: &Node) -> bool
    ensures { result ≡ spec.supers_stay source.now lowered.now }
{
    has_stray_super(SuperPlace::nowhere(), source)
        || !has_stray_super(SuperPlace::nowhere(), lowered)
}

/// Whether the node, which stands so, or one below it is a `super` that may not stand there.
#[cycle(stray)]
#[tactic(auto, using(crate::proofs::SuperPlaces::stray_node, es_node::proofs::Below::nodes_in))]
fn has_stray_super(place: SuperPlace, node: &Node) -> bool
    ensures { result ≡ has_stray_super (place_of place) node.now }
{
    is_stray_super(place, node) || stray_super_in(place, node, node.parts())
}

/// Whether such a one stands in the parts of a node.
#[cycle(stray)]
fn stray_super_in(place: SuperPlace, node: &Node, parts: &[Part]) -> bool
    ensures { result ≡ stray_super_from (place_within (place_of place) node.now) 0 (parts_of parts.now) }
{
    for (i, part) in parts.iter().enumerate() {
        if stray_super_at(place_inside(place, node, i), part) {
            return true;
        }
    }
    false
}

#[cycle(stray)]
fn stray_super_at(place: SuperPlace, part: &Part) -> bool
    ensures { result ≡ stray_super_at (place_of place) (part_of part.now) }
{
    match part {
        Part::Child(node) => has_stray_super(place, node),
        Part::List(nodes) => stray_super_of_list(place, nodes.as_slice()),
        Part::Holes(nodes) => stray_super_of_list_with_holes(place, nodes.as_slice()),
        _ => false,
    }
}

#[cycle(stray)]
fn stray_super_of_list(place: SuperPlace, nodes: &[Node]) -> bool
    ensures { result ≡ stray_super_of (place_of place) (trees nodes.now) }
{
    for node in nodes {
        if has_stray_super(place, node) {
            return true;
        }
    }
    false
}

#[cycle(stray)]
fn stray_super_of_list_with_holes(place: SuperPlace, nodes: &[Option<Node>]) -> bool
    ensures { result ≡ stray_super_of (place_of place) (nullable_trees nodes.now) }
{
    for node in nodes {
        if stray_super_of_hole(place, node) {
            return true;
        }
    }
    false
}

#[cycle(stray)]
fn stray_super_of_hole(place: SuperPlace, node: &Option<Node>) -> bool
    ensures { result ≡ stray_super_at (place_of place) (nullable node.now) }
{
    match node {
        Some(node) => has_stray_super(place, node),
        None => false,
    }
}

/// Whether the node, which stands so, is a `super` that may not stand there.
#[tactic(auto, using(crate::proofs::SuperPlaces::no_stray))]
fn is_stray_super(place: SuperPlace, node: &Node) -> bool
    ensures { result ≡ is_stray_super (place_of place) (kind_of node.now) (parts_in node.now) }
{
    match node.kind() {
        // super()
        Kind::CallExpression => {
            is_super(CallExpressionRef::from_node(node).callee) && !place.calls
        }
        // super.x
        Kind::MemberExpression => {
            is_super(MemberExpressionRef::from_node(node).object) && !place.members
        }
        _ => false,
    }
}
