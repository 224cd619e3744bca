// Whether something moves before a heritage that has events.

ghost use Rattle.std.specs.Prelude.{◌≡◌, ◌&&◌, ◌||◌, false};
ghost use Rattle.es_base.specs.Tree.{nullable, trees, nullable_trees};
ghost use Rattle.es_node.specs.View.{kind_of, number_in, part_of, parts_in};
ghost use Rattle.es_steps.specs.LoweredClasses.{is_lowered_class};
ghost use Rattle.es_steps.specs.Quiet.{nothing_around, acts, has_events, has_events_in, has_events_at, has_events_of, is_evaluated};
ghost use Rattle.es_steps.specs.References.{resolve, written};
ghost use Rattle.es_steps.specs.Shapes.{class_at, has_shape_1, moves_before_heritage, moves_heritage, moves_heritage_in, moves_heritage_at, moves_heritage_of};
ghost use Rattle.es_shapes.specs.Around.{ids_in, around, around_in};
ghost use Rattle.es_shapes.specs.Quiet.{is_heritage};

use crate::around::{ClassNames, Standing, class_name, standing_inside};
use crate::asked::lowers_fields;
use crate::class::{class_of, elements_of};
use crate::element::element_kinds;
use crate::facts::NameFacts;
use crate::heritage::moves_before_heritage;
use crate::quiet::{acts, is_evaluated};
use es_node::node::{Node, Part};
use es_steps::options::Options;

/// Whether a lowered class whose heritage has events has a key that moves before it, or is an expression
/// with lowered static blocks and no static field, with class properties on: shape S1. Allocates nothing.
pub fn has_moved_heritage<F: NameFacts>(program: &Node, options: &Options, facts: &F) -> bool
    requires { F.program facts.now ≡ program.now }
    ensures { result ≡ has_shape_1 options.now program.now }
{
    lowers_fields(options) && moves_heritage(program, options, facts)
}

/// Whether something moves before a heritage with events in the program.
fn moves_heritage<F: NameFacts>(program: &Node, options: &Options, facts: &F) -> bool
    requires { F.program facts.now ≡ program.now }
    ensures { result ≡ moves_heritage options.now program.now nothing_around program.now }
{
    let standing = Standing {
        has_arguments: false,
        in_block: false,
    };
    found_in_node(options, facts, &ClassNames::None, standing, program).moves_heritage
}

/// What is found in a node or in nodes.
#[derive(Clone, Copy)]
struct Found {
    /// It has events where it stands.
    has_events: bool,
    /// Something moves before a heritage with events in it.
    moves_heritage: bool,
}

/// What is found in the parts of a node.
#[derive(Clone, Copy)]
struct FoundInParts {
    /// In those that are evaluated where the node is.
    has_events: bool,
    /// In the second, which is the heritage of a class.
    heritage_has_events: bool,
    moves_heritage: bool,
}

// ---- the walk, which comes to each node once

#[cycle(found)]
#[tactic(auto, using(crate::proofs::MovedHeritages::events_node, crate::proofs::MovedHeritages::moves_node, es_node::proofs::Below::nodes_in))]
fn found_in_node<F: NameFacts>(
    options: &Options,
    facts: &F,
    names: &ClassNames,
    standing: Standing,
    node: &Node,
) -> Found
    ensures has_events { result.has_events ≡ has_events options.now (F.program facts.now) (around (ids_in names.now) standing) node.now }
    ensures moves_heritage { result.moves_heritage ≡ moves_heritage options.now (F.program facts.now) (around (ids_in names.now) standing) node.now }
{
    match class_name(node) {
        Some(id) => {
            let inner = ClassNames::Class { id, outer: &*names };
            let parts = found_in_parts(options, facts, &inner, standing, node);
            found_with(options, facts, names, standing, node, parts)
        }
        None => {
            let parts = found_in_parts(options, facts, names, standing, node);
            found_with(options, facts, names, standing, node, parts)
        }
    }
}

/// What is found in the parts of the node, in which these classes are around.
#[cycle(found)]
#[tactic(auto, using(crate::proofs::MovedHeritages::all_events, crate::proofs::MovedHeritages::all_moves, crate::proofs::MovedHeritages::or_none))]
fn found_in_parts<F: NameFacts>(
    options: &Options,
    facts: &F,
    names: &ClassNames,
    standing: Standing,
    node: &Node,
) -> FoundInParts
    ensures has_events { result.has_events ≡ has_events_in options.now (F.program facts.now) (around_in (ids_in names.now) standing.has_arguments (kind_of node.now)) (is_evaluated (kind_of node.now) (parts_in node.now)) (parts_in node.now) }
    ensures heritage_has_events { result.heritage_has_events ≡ has_events_in options.now (F.program facts.now) (around_in (ids_in names.now) standing.has_arguments (kind_of node.now)) is_heritage (parts_in node.now) }
    ensures moves_heritage { result.moves_heritage ≡ moves_heritage_in options.now (F.program facts.now) (around_in (ids_in names.now) standing.has_arguments (kind_of node.now)) (parts_in node.now) }
{
    let mut found = FoundInParts {
        has_events: false,
        heritage_has_events: false,
        moves_heritage: false,
    };
    let parts = node.parts();
    for (i, part) in parts.iter().enumerate() {
        let inside = standing_inside(standing, node, i);
        let in_part = found_in_part(options, facts, names, inside, part);
        found = found_with_part(found, in_part, is_evaluated(node, i), is_heritage(i));
    }
    found
}

#[cycle(found)]
fn found_in_part<F: NameFacts>(
    options: &Options,
    facts: &F,
    names: &ClassNames,
    standing: Standing,
    part: &Part,
) -> Found
    ensures has_events { result.has_events ≡ has_events_at options.now (F.program facts.now) (around (ids_in names.now) standing) (part_of part.now) }
    ensures moves_heritage { result.moves_heritage ≡ moves_heritage_at options.now (F.program facts.now) (around (ids_in names.now) standing) (part_of part.now) }
{
    match part {
        Part::Child(node) => found_in_node(options, facts, names, standing, node),
        Part::List(nodes) => found_in_list(options, facts, names, standing, nodes.as_slice()),
        Part::Holes(nodes) => {
            found_in_list_with_holes(options, facts, names, standing, nodes.as_slice())
        }
        _ => nothing_found(),
    }
}

#[cycle(found)]
#[tactic(auto, using(crate::proofs::MovedHeritages::or_none, crate::proofs::MovedHeritages::events_next, crate::proofs::MovedHeritages::moves_next))]
fn found_in_list<F: NameFacts>(
    options: &Options,
    facts: &F,
    names: &ClassNames,
    standing: Standing,
    nodes: &[Node],
) -> Found
    ensures has_events { result.has_events ≡ has_events_of options.now (F.program facts.now) (around (ids_in names.now) standing) (trees nodes.now) }
    ensures moves_heritage { result.moves_heritage ≡ moves_heritage_of options.now (F.program facts.now) (around (ids_in names.now) standing) (trees nodes.now) }
{
    let mut found = nothing_found();
    for node in nodes {
        found = either(found, found_in_node(options, facts, names, standing, node));
    }
    found
}

#[cycle(found)]
#[tactic(auto, using(crate::proofs::MovedHeritages::or_none, crate::proofs::MovedHeritages::hole_events_next, crate::proofs::MovedHeritages::hole_moves_next))]
fn found_in_list_with_holes<F: NameFacts>(
    options: &Options,
    facts: &F,
    names: &ClassNames,
    standing: Standing,
    nodes: &[Option<Node>],
) -> Found
    ensures has_events { result.has_events ≡ has_events_of options.now (F.program facts.now) (around (ids_in names.now) standing) (nullable_trees nodes.now) }
    ensures moves_heritage { result.moves_heritage ≡ moves_heritage_of options.now (F.program facts.now) (around (ids_in names.now) standing) (nullable_trees nodes.now) }
{
    let mut found = nothing_found();
    for node in nodes {
        found = either(found, found_in_hole(options, facts, names, standing, node));
    }
    found
}

#[cycle(found)]
fn found_in_hole<F: NameFacts>(
    options: &Options,
    facts: &F,
    names: &ClassNames,
    standing: Standing,
    node: &Option<Node>,
) -> Found
    ensures has_events { result.has_events ≡ has_events_at options.now (F.program facts.now) (around (ids_in names.now) standing) (nullable node.now) }
    ensures moves_heritage { result.moves_heritage ≡ moves_heritage_at options.now (F.program facts.now) (around (ids_in names.now) standing) (nullable node.now) }
{
    match node {
        Some(node) => found_in_node(options, facts, names, standing, node),
        None => nothing_found(),
    }
}

// ---- what is found, put together

fn nothing_found() -> Found
    ensures has_events { result.has_events ≡ false }
    ensures moves_heritage { result.moves_heritage ≡ false }
{
    Found {
        has_events: false,
        moves_heritage: false,
    }
}

fn either(a: Found, b: Found) -> Found
    ensures has_events { result.has_events ≡ (a.has_events || b.has_events) }
    ensures moves_heritage { result.moves_heritage ≡ (a.moves_heritage || b.moves_heritage) }
{
    Found {
        has_events: a.has_events || b.has_events,
        moves_heritage: a.moves_heritage || b.moves_heritage,
    }
}

/// Whether the i-th part of a class is its heritage.
fn is_heritage(i: usize) -> bool
    ensures { result ≡ is_heritage i }
{
    i == 1
}

/// What is found with one part more, which is evaluated where the node is or not.
fn found_with_part(
    found: FoundInParts,
    part: Found,
    is_evaluated: bool,
    is_heritage: bool,
) -> FoundInParts
    ensures has_events { result.has_events ≡ (found.has_events || (is_evaluated && part.has_events)) }
    ensures heritage_has_events { result.heritage_has_events ≡ (found.heritage_has_events || (is_heritage && part.has_events)) }
    ensures moves_heritage { result.moves_heritage ≡ (found.moves_heritage || part.moves_heritage) }
{
    FoundInParts {
        has_events: found.has_events || (is_evaluated && part.has_events),
        heritage_has_events: found.heritage_has_events || (is_heritage && part.has_events),
        moves_heritage: found.moves_heritage || part.moves_heritage,
    }
}

/// What is found in a node with these parts.
fn found_with<F: NameFacts>(
    options: &Options,
    facts: &F,
    names: &ClassNames,
    standing: Standing,
    node: &Node,
    parts: FoundInParts,
) -> Found
    ensures has_events { result.has_events ≡ (acts options.now (F.program facts.now) (around (ids_in names.now) standing) (kind_of node.now) (number_in node.now) (parts_in node.now) || parts.has_events) }
    ensures moves_heritage { result.moves_heritage ≡ ((parts.heritage_has_events && (is_lowered_class options.now (kind_of node.now) (parts_in node.now) && moves_before_heritage options.now (written (F.program facts.now)) (resolve (F.program facts.now)) (class_at (kind_of node.now) (number_in node.now) (parts_in node.now)))) || parts.moves_heritage) }
{
    let has_events = acts(options, facts, names, standing, node) || parts.has_events;
    let moves_here = parts.heritage_has_events && is_moving_class(options, facts, node);
    Found {
        has_events,
        moves_heritage: moves_here || parts.moves_heritage,
    }
}

/// Whether the node is a lowered class in which something moves before the heritage, or would if it had
/// one.
#[tactic(auto, using(crate::proofs::MovedHeritages::moving_class))]
fn is_moving_class<F: NameFacts>(options: &Options, facts: &F, node: &Node) -> bool
    ensures { result ≡ (is_lowered_class options.now (kind_of node.now) (parts_in node.now) && moves_before_heritage options.now (written (F.program facts.now)) (resolve (F.program facts.now)) (class_at (kind_of node.now) (number_in node.now) (parts_in node.now))) }
{
    // class A { [k()] = 1; }
    match class_of(node) {
        Some(class) => {
            element_kinds(options, elements_of(class.body)).has_lowered
                && moves_before_heritage(options, facts, class)
        }
        None => false,
    }
}
