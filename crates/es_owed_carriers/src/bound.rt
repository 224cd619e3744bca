// A node that one sort of node alone may hold stays in the node that it is in; what depends on its function, as `yield` and
// `await`, stays in the body of that; and the body of a function stays one.

ghost use Rattle.std.specs.Prelude.{◌≡◌, ◌++◌, [], ◌∷◌, cond, IfOk, OnOk};
ghost use Rattle.es_base.specs.Tree.{nullable, nullable_trees, trees};
ghost use Rattle.es_lowered.specs.Bound as spec;
ghost use Rattle.es_lowered.specs.Bound.{all_bound, bound_at, bound_block, bound_node, bound_nodes, bound_of, bound_to};
ghost use Rattle.es_node.specs.View.{kind_of, number_in, part_of, parts_in, parts_of};
ghost use Rattle.es_steps.specs.KeptNodes.{all_pairs_stand};
ghost use Rattle.es_owed_carriers.specs.Pairs.{pairs_of};
ghost use Rattle.es_owed_carriers.specs.Places.{bound_from, own_bounds, place_of, place_within};

use crate::bound_kinds::{
    body_around, depends_on_function, has_body, is_bound, is_nested_item, parameters_around,
};
use crate::pairs::{Bound, Pairs};
use es_base::kind::Kind;
use es_generated::numbers::is_new;
use es_node::node::{Node, Part};
use std::alloc::{AllocError, Global};

/// The node and the function around a part.
#[derive(Debug, Clone, Copy)]
pub struct Place {
    pub kind: Kind,
    pub number: u32,
    pub function: u32,
    /// Whether it stands in the parameters of that function or one in it.
    pub in_parameters: bool,
}

/// Whether each old node of what a program was lowered to that one sort of node alone may hold stands in the node that it
/// is in in the source; each `yield`, `await` and label that is a reserved word elsewhere in its function; each block that
/// is the body of a function in that, and no other block as one; and imports and exports in the list of the program. Fails
/// on allocation failure alone.
#[tactic(auto, using(crate::proofs::BoundNodes::stand_alike))]
pub fn bound_stay(
    alloc: Global,
    first: u32,
    source: &Node,
    lowered: &Node,
) -> Result<bool, AllocError>
    ensures { IfOk result (λ holds. holds ≡ spec.bound_stay first source.now lowered.now) }
{
    let there = all_bound(alloc, first, source)?;
    let pairs = Pairs::of(alloc, there.as_slice())?;
    let bounds = all_bound(alloc, first, lowered)?;
    Ok(all_stand(bounds.as_slice(), &pairs))
}

/// Whether all of these are in the set.
fn all_stand(bounds: &[Bound], pairs: &Pairs) -> bool
    ensures { result ≡ all_pairs_stand (pairs_of bounds.now) pairs.now }
{
    for bound in bounds {
        if !pairs.has(*bound) {
            return false;
        }
    }
    true
}

// ---- the walk

/// The old nodes of a program that stay in a node or a function. Fails on allocation failure alone.
#[tactic(auto, using(es_owed::proofs::Nodes::number_of_node))]
fn all_bound(alloc: Global, first: u32, program: &Node) -> Result<Vec<Bound>, AllocError>
    ensures { IfOk result (λ found. pairs_of found.items ≡ all_bound first program.now) }
{
    let mut found = Vec::new(alloc);
    let place = Place {
        kind: Kind::Program,
        number: program.node_id().0,
        function: program.node_id().0,
        in_parameters: false,
    };
    add_bound(first, place, program, &mut found)?;
    Ok(found)
}

/// Adds those of a node that stands so. Fails on allocation failure alone.
#[cycle(bound)]
#[tactic(auto, using(es_node::proofs::Below::nodes_in))]
fn add_bound(
    first: u32,
    place: Place,
    node: &Node,
    found: &mut Vec<Bound>,
) -> Result<(), AllocError>
    ensures { OnOk result (pairs_of found.new.items ≡ pairs_of found.old.items ++ bound_nodes first (place_of place) node.now) }
{
    add_own(first, place, node, found)?;
    add_bound_in(first, place, node, node.parts(), found)
}

/// Adds those of the parts of a node. Fails on allocation failure alone.
#[cycle(bound)]
fn add_bound_in(
    first: u32,
    place: Place,
    node: &Node,
    parts: &[Part],
    found: &mut Vec<Bound>,
) -> Result<(), AllocError>
    ensures { OnOk result (pairs_of found.new.items ≡ pairs_of found.old.items ++ bound_from first (place_within (place_of place) node.now) 0 (parts_of parts.now)) }
{
    for (i, part) in parts.iter().enumerate() {
        add_bound_at(first, place_inside(place, node, i), part, found)?;
    }
    Ok(())
}

#[cycle(bound)]
fn add_bound_at(
    first: u32,
    place: Place,
    part: &Part,
    found: &mut Vec<Bound>,
) -> Result<(), AllocError>
    ensures { OnOk result (pairs_of found.new.items ≡ pairs_of found.old.items ++ bound_at first (place_of place) (part_of part.now)) }
{
    match part {
        Part::Child(node) => add_bound(first, place, node, found),
        Part::List(nodes) => add_bound_of_list(first, place, nodes.as_slice(), found),
        Part::Holes(nodes) => add_bound_of_list_with_holes(first, place, nodes.as_slice(), found),
        _ => Ok(()),
    }
}

#[cycle(bound)]
fn add_bound_of_list(
    first: u32,
    place: Place,
    nodes: &[Node],
    found: &mut Vec<Bound>,
) -> Result<(), AllocError>
    ensures { OnOk result (pairs_of found.new.items ≡ pairs_of found.old.items ++ bound_of first (place_of place) (trees nodes.now)) }
{
    for node in nodes {
        add_bound(first, place, node, found)?;
    }
    Ok(())
}

#[cycle(bound)]
fn add_bound_of_list_with_holes(
    first: u32,
    place: Place,
    nodes: &[Option<Node>],
    found: &mut Vec<Bound>,
) -> Result<(), AllocError>
    ensures { OnOk result (pairs_of found.new.items ≡ pairs_of found.old.items ++ bound_of first (place_of place) (nullable_trees nodes.now)) }
{
    for node in nodes {
        add_bound_of_hole(first, place, node, found)?;
    }
    Ok(())
}

#[cycle(bound)]
fn add_bound_of_hole(
    first: u32,
    place: Place,
    node: &Option<Node>,
    found: &mut Vec<Bound>,
) -> Result<(), AllocError>
    ensures { OnOk result (pairs_of found.new.items ≡ pairs_of found.old.items ++ bound_at first (place_of place) (nullable node.now)) }
{
    match node {
        Some(node) => add_bound(first, place, node, found),
        None => Ok(()),
    }
}

// ---- at a node

/// Adds the node with what it stays in, if it does, and with the function whose body it is, or itself, if it is a block.
/// Fails on allocation failure alone.
fn add_own(first: u32, place: Place, node: &Node, found: &mut Vec<Bound>) -> Result<(), AllocError>
    ensures { OnOk result (pairs_of found.new.items ≡ pairs_of found.old.items ++ own_bounds first (place_of place) node.now) }
{
    add_node(first, place, node, found)?;
    add_block(first, place, node, found)
}

/// Adds the node with what it stays in, if it does. Fails on allocation failure alone.
fn add_node(first: u32, place: Place, node: &Node, found: &mut Vec<Bound>) -> Result<(), AllocError>
    ensures { OnOk result (pairs_of found.new.items ≡ pairs_of found.old.items ++ bound_node first (place_of place) (kind_of node.now) (number_in node.now) (parts_in node.now)) }
{
    let number = node.node_id().0;
    if is_nested_item(place.kind, node.kind()) {
        add_itself(number, found)
    } else if is_bound(place.kind, node.kind()) {
        add_if_old(first, number, place.number, found)
    } else if depends_on_function(node.kind(), node.parts()) {
        add_if_old(first, number, function_of(place, number), found)
    } else {
        Ok(())
    }
}

/// What a node that depends on its function stays in: none stands in parameters, where it is said to stay in itself.
fn function_of(place: Place, number: u32) -> u32
    ensures { result ≡ cond place.in_parameters number place.function }
{
    if place.in_parameters {
        number
    } else {
        place.function
    }
}

/// Adds a block with what it is the body of, or with itself. Fails on allocation failure alone.
#[tactic(auto, using(crate::proofs::BoundNodes::no_block))]
fn add_block(
    first: u32,
    place: Place,
    node: &Node,
    found: &mut Vec<Bound>,
) -> Result<(), AllocError>
    ensures { OnOk result (pairs_of found.new.items ≡ pairs_of found.old.items ++ bound_block first (place_of place) (kind_of node.now) (number_in node.now)) }
{
    let number = node.node_id().0;
    match node.kind() {
        // {}
        Kind::BlockStatement => add_if_old(first, number, owner_of_block(place, number), found),
        _ => Ok(()),
    }
}

/// The function whose body a block of this number is that stands so; else the block itself.
fn owner_of_block(place: Place, number: u32) -> u32
    ensures { result ≡ cond (spec.has_body place.kind) place.number number }
{
    if has_body(place.kind) {
        place.number
    } else {
        number
    }
}

/// Adds a node with itself. Fails on allocation failure alone.
fn add_itself(node: u32, found: &mut Vec<Bound>) -> Result<(), AllocError>
    ensures { OnOk result (pairs_of found.new.items ≡ pairs_of found.old.items ++ (node, node) ∷ []) }
{
    found.push(Bound { node, around: node })?;
    Ok(())
}

/// Adds a node of the source with what it stays in. Fails on allocation failure alone.
fn add_if_old(first: u32, node: u32, around: u32, found: &mut Vec<Bound>) -> Result<(), AllocError>
    ensures { OnOk result (pairs_of found.new.items ≡ pairs_of found.old.items ++ bound_to first node around) }
{
    if !is_new(first, node) {
        found.push(Bound { node, around })?;
    }
    Ok(())
}

/// What is around the i-th part of a node that stands so.
#[tactic(auto, using(crate::proofs::BoundNodes::place_node))]
fn place_inside(place: Place, node: &Node, i: usize) -> Place
    ensures { place_of result ≡ place_within (place_of place) node.now i }
{
    Place {
        kind: node.kind(),
        number: node.node_id().0,
        function: body_around(place.function, node, i),
        in_parameters: parameters_around(place.in_parameters, node.kind(), i),
    }
}
