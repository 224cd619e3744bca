// The places of the functions, classes and declaring identifiers of a program.

ghost use Rattle.std.specs.Prelude.{◌≡◌, ◌++◌, IfOk, OnOk};
ghost use Rattle.es_base.specs.Tree.{child, nullable, nullable_trees, trees};
ghost use Rattle.es_by_number.specs.Numbered.{pairs};
ghost use Rattle.es_node.specs.View.{kind_of, number_in, part_of, parts_in, parts_of};
ghost use Rattle.es_steps.specs.Meaning.{by_number};
ghost use Rattle.es_steps.specs.Parts.{at};
ghost use Rattle.es_steps.specs.Repeated as spec;
ghost use Rattle.es_places.specs.Placing.{declaration_place, head_place, place_of, places, places_at, places_from, places_of, surroundings_of, surroundings_within};

use crate::surroundings::{Surroundings, around_program, is_class, surroundings_in};
use es_base::kind::Kind;
use es_binding_faults::bound::is_binding_identifier;
use es_binding_faults::hoisted::part_at;
use es_by_number::numbered::{Numbered, sort_by_number};
use es_generated::ledger::Ledger;
use es_generated::numbers::{has_number, is_new};
use es_node::node::{Node, Part};
use es_shapes::walk::is_any_function;
use std::alloc::{AllocError, Global};

/// What places are told by: the number of the first new node, the generated names, and the functions of private methods.
#[derive(Clone, Copy)]
pub struct Terms<'a> {
    pub first_new: u32,
    pub ledger: &'a Ledger<'a>,
    pub private_functions: &'a [u32],
}

/// The functions, classes, declaring identifiers and declarations that a `for` begins with of a program which are not new, but
/// the functions of private methods, each with its place, in preorder. Fails on allocation failure alone.
pub fn all_places(
    alloc: Global,
    terms: &Terms,
    program: &Node,
) -> Result<Vec<Numbered<u32>>, AllocError>
    ensures { IfOk result (λ ps. pairs ps.items ≡ spec.all_places terms.now.first_new terms.now.ledger.now terms.now.private_functions.now program.now) }
{
    let mut found = Vec::new(alloc);
    add_places(terms, around_program(program), program, &mut found)?;
    Ok(found)
}

/// The same by number, as a meaning has them. Fails on allocation failure alone.
pub fn places_by_number(
    alloc: Global,
    terms: &Terms,
    program: &Node,
) -> Result<Vec<Numbered<u32>>, AllocError>
    ensures { IfOk result (λ ps. pairs ps.items ≡ by_number (spec.all_places terms.now.first_new terms.now.ledger.now terms.now.private_functions.now program.now)) }
{
    let mut found = all_places(alloc, terms, program)?;
    sort_by_number(&mut found)?;
    Ok(found)
}

/// Adds those of a node that stands so. Fails on allocation failure alone.
#[cycle(places)]
#[tactic(auto, using(es_node::proofs::Below::nodes_in))]
fn add_places(
    terms: &Terms,
    around: Surroundings,
    node: &Node,
    found: &mut Vec<Numbered<u32>>,
) -> Result<(), AllocError>
    ensures { OnOk result (pairs found.new.items ≡ pairs found.old.items ++ places terms.now (surroundings_of around) node.now) }
{
    add_place(terms, around, node, found)?;
    add_head_place(terms, around, node, found)?;
    add_places_in(terms, around, node, node.parts(), found)
}

/// Adds those of the parts of a node.
#[cycle(places)]
fn add_places_in(
    terms: &Terms,
    around: Surroundings,
    node: &Node,
    parts: &[Part],
    found: &mut Vec<Numbered<u32>>,
) -> Result<(), AllocError>
    ensures { OnOk result (pairs found.new.items ≡ pairs found.old.items ++ places_from terms.now (surroundings_within terms.now.first_new terms.now.ledger.now (surroundings_of around) node.now) 0 (parts_of parts.now)) }
{
    for (i, part) in parts.iter().enumerate() {
        let inner = surroundings_in(terms.first_new, terms.ledger, around, node, i);
        add_places_at(terms, inner, part, found)?;
    }
    Ok(())
}

#[cycle(places)]
fn add_places_at(
    terms: &Terms,
    around: Surroundings,
    part: &Part,
    found: &mut Vec<Numbered<u32>>,
) -> Result<(), AllocError>
    ensures { OnOk result (pairs found.new.items ≡ pairs found.old.items ++ places_at terms.now (surroundings_of around) (part_of part.now)) }
{
    match part {
        Part::Child(node) => add_places(terms, around, node, found),
        Part::List(nodes) => add_places_of_list(terms, around, nodes.as_slice(), found),
        Part::Holes(nodes) => add_places_of_list_with_holes(terms, around, nodes.as_slice(), found),
        _ => Ok(()),
    }
}

#[cycle(places)]
fn add_places_of_list(
    terms: &Terms,
    around: Surroundings,
    nodes: &[Node],
    found: &mut Vec<Numbered<u32>>,
) -> Result<(), AllocError>
    ensures { OnOk result (pairs found.new.items ≡ pairs found.old.items ++ places_of terms.now (surroundings_of around) (trees nodes.now)) }
{
    for node in nodes {
        add_places(terms, around, node, found)?;
    }
    Ok(())
}

#[cycle(places)]
fn add_places_of_list_with_holes(
    terms: &Terms,
    around: Surroundings,
    nodes: &[Option<Node>],
    found: &mut Vec<Numbered<u32>>,
) -> Result<(), AllocError>
    ensures { OnOk result (pairs found.new.items ≡ pairs found.old.items ++ places_of terms.now (surroundings_of around) (nullable_trees nodes.now)) }
{
    for node in nodes {
        add_places_of_hole(terms, around, node, found)?;
    }
    Ok(())
}

#[cycle(places)]
fn add_places_of_hole(
    terms: &Terms,
    around: Surroundings,
    node: &Option<Node>,
    found: &mut Vec<Numbered<u32>>,
) -> Result<(), AllocError>
    ensures { OnOk result (pairs found.new.items ≡ pairs found.old.items ++ places_at terms.now (surroundings_of around) (nullable node.now)) }
{
    match node {
        Some(node) => add_places(terms, around, node, found),
        None => Ok(()),
    }
}

// ---- one node

/// Adds the place of a node, if it has one. Fails on allocation failure alone.
fn add_place(
    terms: &Terms,
    around: Surroundings,
    node: &Node,
    found: &mut Vec<Numbered<u32>>,
) -> Result<(), AllocError>
    ensures { OnOk result (pairs found.new.items ≡ pairs found.old.items ++ place_of terms.now (surroundings_of around) (kind_of node.now) (number_in node.now)) }
{
    let number = node.node_id().0;
    let is_apart = is_new(terms.first_new, number) || has_number(number, terms.private_functions);
    if is_placed(node) && !is_apart {
        found.push(Numbered {
            number,
            value: own_place(around, node),
        })?;
    }
    Ok(())
}

/// Adds the place of the declaration that a `for` begins with, if it is not new. Fails on allocation failure alone.
#[tactic(auto, using(crate::proofs::Placed::head_of, crate::proofs::Placed::no_head))]
fn add_head_place(
    terms: &Terms,
    around: Surroundings,
    node: &Node,
    found: &mut Vec<Numbered<u32>>,
) -> Result<(), AllocError>
    ensures { OnOk result (pairs found.new.items ≡ pairs found.old.items ++ head_place terms.now (surroundings_of around) (kind_of node.now) (parts_in node.now)) }
{
    match node.kind() {
        // for (let i = 0; ..) {}
        Kind::ForStatement => add_first_place(terms, around, node.parts(), found),
        _ => Ok(()),
    }
}

fn add_first_place(
    terms: &Terms,
    around: Surroundings,
    parts: &[Part],
    found: &mut Vec<Numbered<u32>>,
) -> Result<(), AllocError>
    ensures { OnOk result (pairs found.new.items ≡ pairs found.old.items ++ declaration_place terms.now (surroundings_of around) (at 0 (parts_of parts.now))) }
{
    match part_at(parts, 0) {
        Some(Part::Child(node)) => add_declaration_place(terms, around, node, found),
        _ => Ok(()),
    }
}

#[tactic(auto, using(crate::proofs::Placed::declared_place, crate::proofs::Placed::not_declared))]
fn add_declaration_place(
    terms: &Terms,
    around: Surroundings,
    node: &Node,
    found: &mut Vec<Numbered<u32>>,
) -> Result<(), AllocError>
    ensures { OnOk result (pairs found.new.items ≡ pairs found.old.items ++ declaration_place terms.now (surroundings_of around) (child node.now)) }
{
    match node.kind() {
        // let i = 0
        Kind::VariableDeclaration => {
            let number = node.node_id().0;
            if !is_new(terms.first_new, number) {
                found.push(Numbered {
                    number,
                    value: around.place,
                })?;
            }
            Ok(())
        }
        _ => Ok(()),
    }
}

/// Whether the node has a place.
#[tactic(auto, using(crate::proofs::Placed::placed_by_kind))]
fn is_placed(node: &Node) -> bool
    ensures { result ≡ spec.is_placed (kind_of node.now) }
{
    is_any_function(node.kind()) || is_class(node.kind()) || is_binding_identifier(node)
}

/// The place of a node that stands so: the identifier of a `var` stands where the `var` is hoisted to.
fn own_place(around: Surroundings, node: &Node) -> u32
    ensures { result ≡ spec.own_place (surroundings_of around) (kind_of node.now) }
{
    if is_binding_identifier(node) && around.in_var {
        around.hoisted
    } else {
        around.place
    }
}
