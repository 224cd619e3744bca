// References with the functions of the source that they stand in, constructors aside.

ghost use Rattle.std.specs.Prelude.{◌≡◌, ℕ, Bool, [], ◌++◌, ◌&&◌, ◌||◌, false, not, IfOk, OnOk};
ghost use Rattle.std.specs.Str.{chars};
ghost use Rattle.es_base.specs.Tree.{nullable, nullable_trees, trees};
ghost use Rattle.es_base.specs.Numbered.{is_new};
ghost use Rattle.es_lowered.specs.FunctionsAround as spec;
ghost use Rattle.es_node.specs.View.{kind_of, number_in, part_of, parts_in, parts_of};
ghost use Rattle.es_steps.specs.NameScopes.{is_any_function};
ghost use Rattle.es_steps.specs.Values.{String};
ghost use Rattle.es_owed_places.specs.Placed.{around_in, constructors_within, functions_within, part_pairs, placed_from, placed_if, references_of};

use es_base::kind::Kind;
use es_generated::numbers::is_new;
use es_node::node::{Node, Part};
use es_owed::homes::is_constructor_part;
use es_seen_names::parts::string_at;
use es_shapes::walk::is_any_function;
use std::alloc::{AllocError, Global};

/// A part of a function.
#[derive(Debug, Clone, Copy)]
pub struct FunctionPart {
    pub function: u32,
    pub part: usize,
}

/// Parts of functions around a place, the innermost first.
#[derive(Clone, Copy)]
pub enum FunctionsAround<'r> {
    None,
    Inside {
        part: FunctionPart,
        outer: &'r FunctionsAround<'r>,
    },
}

/// A reference, with the parts of functions around.
#[derive(Debug, Drop)]
pub struct PlacedReference<'a> {
    pub number: u32,
    pub name: &'a str,
    pub around: Vec<FunctionPart>,
}

/// What references are asked for.
pub trait Asks {
    ghost asks: { Self → ℕ → String → Bool };

    /// Whether the reference of this number and name is asked for.
    fn asks(&self, number: u32, name: &str) -> bool
        ensures { result ≡ asks self.now number (chars name.now) };
}

/// What is searched for: references that are asked for, and functions before the first new node.
#[derive(Clone, Copy)]
pub struct Search<'q, A> {
    pub alloc: Global,
    pub first: u32,
    pub asked: &'q A,
}

/// The references of a program that are asked for. Fails on allocation failure alone.
pub fn placed_references<'a, A: Asks>(
    alloc: Global,
    first: u32,
    asked: &A,
    program: &'a Node,
) -> Result<Vec<PlacedReference<'a>>, AllocError>
    ensures { IfOk result (λ r. references_of r.items ≡ spec.placed_references first (A.asks asked.now) false [] program.now) }
{
    let mut found = Vec::new(alloc);
    let search = Search {
        alloc,
        first,
        asked,
    };
    add_placed(&search, false, &FunctionsAround::None, program, &mut found)?;
    Ok(found)
}

// ---- the walk

/// Adds those of a node, which is the function of a constructor or not. Fails on allocation failure alone.
#[cycle(placed)]
#[tactic(auto, using(es_node::proofs::Below::nodes_in))]
fn add_placed<'a, A: Asks>(
    search: &Search<A>,
    is_constructor: bool,
    around: &FunctionsAround,
    node: &'a Node,
    found: &mut Vec<PlacedReference<'a>>,
) -> Result<(), AllocError>
    ensures { OnOk result (references_of found.new.items ≡ references_of found.old.items ++ spec.placed_references search.now.first (A.asks search.now.asked.now) is_constructor (around_in around.now) node.now) }
{
    add_reference(search, &*around, node, found)?;
    add_placed_in(search, is_constructor, around, node, node.parts(), found)
}

/// Adds those of the parts of a node. Fails on allocation failure alone.
#[cycle(placed)]
fn add_placed_in<'a, A: Asks>(
    search: &Search<A>,
    is_constructor: bool,
    around: &FunctionsAround,
    node: &Node,
    parts: &'a [Part],
    found: &mut Vec<PlacedReference<'a>>,
) -> Result<(), AllocError>
    ensures { OnOk result (references_of found.new.items ≡ references_of found.old.items ++ placed_from search.now.first (A.asks search.now.asked.now) (constructors_within node.now) (functions_within search.now.first is_constructor (around_in around.now) node.now) 0 (parts_of parts.now)) }
{
    for (i, part) in parts.iter().enumerate() {
        add_placed_part(search, is_constructor, &*around, node, i, part, found)?;
    }
    Ok(())
}

/// Adds those of the i-th part of a node. Fails on allocation failure alone.
#[cycle(placed)]
#[tactic(auto, using(crate::proofs::PlacedNodes::constructors_node, crate::proofs::PlacedNodes::functions_node))]
fn add_placed_part<'a, A: Asks>(
    search: &Search<A>,
    is_constructor: bool,
    around: &FunctionsAround,
    node: &Node,
    i: usize,
    part: &'a Part,
    found: &mut Vec<PlacedReference<'a>>,
) -> Result<(), AllocError>
    ensures { OnOk result (references_of found.new.items ≡ references_of found.old.items ++ spec.placed_at search.now.first (A.asks search.now.asked.now) (constructors_within node.now i) (functions_within search.now.first is_constructor (around_in around.now) node.now i) (part_of part.now)) }
{
    let is_inner_constructor = is_constructor_part(node, i);
    if is_function_around(search.first, is_constructor, node) {
        let inside = FunctionsAround::Inside {
            part: FunctionPart {
                function: node.node_id().0,
                part: i,
            },
            outer: &*around,
        };
        add_placed_at(search, is_inner_constructor, &inside, part, found)
    } else {
        add_placed_at(search, is_inner_constructor, around, part, found)
    }
}

#[cycle(placed)]
fn add_placed_at<'a, A: Asks>(
    search: &Search<A>,
    is_constructor: bool,
    around: &FunctionsAround,
    part: &'a Part,
    found: &mut Vec<PlacedReference<'a>>,
) -> Result<(), AllocError>
    ensures { OnOk result (references_of found.new.items ≡ references_of found.old.items ++ spec.placed_at search.now.first (A.asks search.now.asked.now) is_constructor (around_in around.now) (part_of part.now)) }
{
    match part {
        Part::Child(node) => add_placed(search, is_constructor, around, node, found),
        Part::List(nodes) => add_placed_of_list(search, around, nodes.as_slice(), found),
        Part::Holes(nodes) => {
            add_placed_of_list_with_holes(search, around, nodes.as_slice(), found)
        }
        _ => Ok(()),
    }
}

#[cycle(placed)]
fn add_placed_of_list<'a, A: Asks>(
    search: &Search<A>,
    around: &FunctionsAround,
    nodes: &'a [Node],
    found: &mut Vec<PlacedReference<'a>>,
) -> Result<(), AllocError>
    ensures { OnOk result (references_of found.new.items ≡ references_of found.old.items ++ spec.placed_of search.now.first (A.asks search.now.asked.now) (around_in around.now) (trees nodes.now)) }
{
    for node in nodes {
        add_placed(search, false, &*around, node, found)?;
    }
    Ok(())
}

#[cycle(placed)]
fn add_placed_of_list_with_holes<'a, A: Asks>(
    search: &Search<A>,
    around: &FunctionsAround,
    nodes: &'a [Option<Node>],
    found: &mut Vec<PlacedReference<'a>>,
) -> Result<(), AllocError>
    ensures { OnOk result (references_of found.new.items ≡ references_of found.old.items ++ spec.placed_of search.now.first (A.asks search.now.asked.now) (around_in around.now) (nullable_trees nodes.now)) }
{
    for node in nodes {
        add_placed_of_hole(search, &*around, node, found)?;
    }
    Ok(())
}

#[cycle(placed)]
fn add_placed_of_hole<'a, A: Asks>(
    search: &Search<A>,
    around: &FunctionsAround,
    node: &'a Option<Node>,
    found: &mut Vec<PlacedReference<'a>>,
) -> Result<(), AllocError>
    ensures { OnOk result (references_of found.new.items ≡ references_of found.old.items ++ spec.placed_at search.now.first (A.asks search.now.asked.now) false (around_in around.now) (nullable node.now)) }
{
    match node {
        Some(node) => add_placed(search, false, around, node, found),
        None => Ok(()),
    }
}

// ---- at a node

/// Adds the node, if it is a reference that is asked for. Fails on allocation failure alone.
#[tactic(auto, using(crate::proofs::PlacedNodes::no_reference))]
fn add_reference<'a, A: Asks>(
    search: &Search<A>,
    around: &FunctionsAround,
    node: &'a Node,
    found: &mut Vec<PlacedReference<'a>>,
) -> Result<(), AllocError>
    ensures { OnOk result (references_of found.new.items ≡ references_of found.old.items ++ spec.placed_reference search.now.first (A.asks search.now.asked.now) (around_in around.now) (kind_of node.now) (number_in node.now) (parts_in node.now)) }
{
    match node.kind() {
        // a
        Kind::IdentifierReference => {
            add_if_asked(
                search,
                around,
                node.node_id().0,
                string_at(node.parts(), 0),
                found,
            )
        }
        _ => Ok(()),
    }
}

fn add_if_asked<'a, A: Asks>(
    search: &Search<A>,
    around: &FunctionsAround,
    number: u32,
    name: &'a str,
    found: &mut Vec<PlacedReference<'a>>,
) -> Result<(), AllocError>
    ensures { OnOk result (references_of found.new.items ≡ references_of found.old.items ++ placed_if (A.asks search.now.asked.now number (chars name.now)) number (chars name.now) (around_in around.now)) }
{
    if search.asked.asks(number, name) {
        let around = listed(search.alloc, around)?;
        found.push(PlacedReference {
            number,
            name,
            around,
        })?;
    }
    Ok(())
}

/// These parts in a list. Fails on allocation failure alone.
fn listed(alloc: Global, around: &FunctionsAround) -> Result<Vec<FunctionPart>, AllocError>
    ensures { IfOk result (λ r. part_pairs r.items ≡ around_in around.now) }
{
    let mut parts = Vec::new(alloc);
    add_parts(around, &mut parts)?;
    Ok(parts)
}

fn add_parts(around: &FunctionsAround, parts: &mut Vec<FunctionPart>) -> Result<(), AllocError>
    ensures { OnOk result (part_pairs parts.new.items ≡ part_pairs parts.old.items ++ around_in around.now) }
{
    match around {
        FunctionsAround::None => Ok(()),
        FunctionsAround::Inside { part, outer } => {
            parts.push(*part)?;
            add_parts(outer, parts)
        }
    }
}

/// Whether the node is a function of the source, and not that of a constructor.
fn is_function_around(first: u32, is_constructor: bool, node: &Node) -> bool
    ensures { result ≡ (is_any_function (kind_of node.now) && not (is_constructor || is_new first (number_in node.now))) }
{
    is_any_function(node.kind()) && !(is_constructor || is_new(first, node.node_id().0))
}
