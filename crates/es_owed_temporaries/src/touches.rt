// Where the names of a program are declared, given values and read.

ghost use Rattle.std.specs.Prelude.{◌≡◌, ◌++◌, ◌∷◌, ◌&&◌, ◌||◌, [], map, not, true, IfOk, OnOk};
ghost use Rattle.std.specs.Str.{chars};
ghost use Rattle.es_base.specs.Table.{field_of};
ghost use Rattle.es_base.specs.Tree.{child, nullable, nullable_trees, trees};
ghost use Rattle.es_base.specs.declared.kind.Kind.{Kind};
ghost use Rattle.es_node.specs.View.{have_shapes, kind_of, number_in, part_of, parts_in, parts_of};
ghost use Rattle.es_steps.specs.Parts.{at, string_of};
ghost use Rattle.es_steps.specs.References as references;
ghost use Rattle.es_steps.specs.Scopes as scopes;
ghost use Rattle.es_lowered.specs.Temporaries as spec;
ghost use Rattle.es_places.specs.Placing.{surroundings_of};
ghost use Rattle.es_owed_temporaries.specs.Touches.{spot_here, spot_within, touch_here, touches_all, touches_from};

use es_base::kind::Kind;
use es_base::table::{Member, Sort, members};
use es_binding_faults::bound::binds;
use es_binding_faults::hoisted::part_at;
use es_binding_faults::scopes::is_body_part;
use es_generated::ledger::Ledger;
use es_generated::numbers::is_new;
use es_node::node::{Node, Part};
use es_places::surroundings::{Surroundings, around_program, surroundings_in};
use es_references::references::is_target;
use es_seen_names::parts::{is_present_at, string_at};
use std::alloc::{AllocError, Global};

/// An identifier, and where it stands.
#[derive(Debug, Clone, Copy)]
pub struct Touch<'a> {
    pub name: &'a str,
    pub declares: bool,
    /// Whether it is given a value.
    pub gives: bool,
    /// Whether it is the name of a function declaration.
    pub hoists: bool,
    /// The function, loop, class or parameter that it is evaluated again with.
    pub place: u32,
    /// The function declaration around it.
    pub declaration: u32,
    /// The body around it.
    pub home: u32,
}

/// What is around a part.
#[derive(Debug, Clone, Copy)]
pub struct Spot {
    pub around: Surroundings,
    /// Whether the part is the name of a function declaration.
    pub is_function_name: bool,
    pub declaration: u32,
    pub home: u32,
}

/// The identifiers of a program, where the first new node has this number. Fails on allocation failure alone.
#[tactic(auto, using(es_owed::proofs::Nodes::number_of_node))]
pub fn all_touches<'a>(
    alloc: Global,
    first: u32,
    ledger: &Ledger,
    program: &'a Node,
) -> Result<Vec<Touch<'a>>, AllocError>
    ensures { IfOk result (λ r. touches_all r.items ≡ spec.all_touches first ledger.now program.now) }
{
    let mut touches = Vec::new(alloc);
    let spot = Spot {
        around: around_program(program),
        is_function_name: false,
        declaration: program.node_id().0,
        home: program.node_id().0,
    };
    add_touches(first, ledger, spot, false, program, &mut touches)?;
    Ok(touches)
}

// ---- the walk

/// Adds the identifiers of a node that stands so, and where something is given a value or not. Fails on allocation failure
/// alone.
#[cycle(touches)]
#[tactic(auto, using(es_node::proofs::Below::nodes_in))]
fn add_touches<'a>(
    first: u32,
    ledger: &Ledger,
    spot: Spot,
    gives: bool,
    node: &'a Node,
    touches: &mut Vec<Touch<'a>>,
) -> Result<(), AllocError>
    ensures { OnOk result (touches_all touches.new.items ≡ touches_all touches.old.items ++ spec.touches first ledger.now (spot_here spot) gives node.now) }
{
    add_touch(spot, gives, node, touches)?;
    let members = members(node.kind());
    add_touches_in(
        first,
        ledger,
        spot,
        node,
        is_bare(node),
        members,
        node.parts(),
        touches,
    )
}

/// Adds those of the parts of a node, which have these members; a bare declarator gives its name no value. Fails on allocation
/// failure alone.
#[cycle(touches)]
fn add_touches_in<'a>(
    first: u32,
    ledger: &Ledger,
    spot: Spot,
    node: &'a Node,
    bare: bool,
    members: &[Member],
    parts: &'a [Part],
    touches: &mut Vec<Touch<'a>>,
) -> Result<(), AllocError>
    requires { have_shapes (map field_of members.now) parts.now ≡ true }
    ensures { OnOk result (touches_all touches.new.items ≡ touches_all touches.old.items ++ touches_from first ledger.now (spot_within first ledger.now (spot_here spot) node.now) bare 0 (map field_of members.now) (parts_of parts.now)) }
{
    for (i, part) in parts.iter().enumerate() {
        let inside = spot_in(first, ledger, spot, node, i);
        let gives = gives_value(members[i].sort, bare);
        add_touches_at(first, ledger, inside, gives, part, touches)?;
    }
    Ok(())
}

#[cycle(touches)]
fn add_touches_at<'a>(
    first: u32,
    ledger: &Ledger,
    spot: Spot,
    gives: bool,
    part: &'a Part,
    touches: &mut Vec<Touch<'a>>,
) -> Result<(), AllocError>
    ensures { OnOk result (touches_all touches.new.items ≡ touches_all touches.old.items ++ spec.touches_at first ledger.now (spot_here spot) gives (part_of part.now)) }
{
    match part {
        Part::Child(node) => add_touches(first, ledger, spot, gives, node, touches),
        Part::List(nodes) => {
            add_touches_of_list(first, ledger, spot, gives, nodes.as_slice(), touches)
        }
        Part::Holes(nodes) => {
            add_touches_of_list_with_holes(first, ledger, spot, gives, nodes.as_slice(), touches)
        }
        _ => Ok(()),
    }
}

#[cycle(touches)]
fn add_touches_of_list<'a>(
    first: u32,
    ledger: &Ledger,
    spot: Spot,
    gives: bool,
    nodes: &'a [Node],
    touches: &mut Vec<Touch<'a>>,
) -> Result<(), AllocError>
    ensures { OnOk result (touches_all touches.new.items ≡ touches_all touches.old.items ++ spec.touches_of first ledger.now (spot_here spot) gives (trees nodes.now)) }
{
    for node in nodes {
        add_touches(first, ledger, spot, gives, node, touches)?;
    }
    Ok(())
}

#[cycle(touches)]
fn add_touches_of_list_with_holes<'a>(
    first: u32,
    ledger: &Ledger,
    spot: Spot,
    gives: bool,
    nodes: &'a [Option<Node>],
    touches: &mut Vec<Touch<'a>>,
) -> Result<(), AllocError>
    ensures { OnOk result (touches_all touches.new.items ≡ touches_all touches.old.items ++ spec.touches_of first ledger.now (spot_here spot) gives (nullable_trees nodes.now)) }
{
    for node in nodes {
        add_touches_of_hole(first, ledger, spot, gives, node, touches)?;
    }
    Ok(())
}

#[cycle(touches)]
fn add_touches_of_hole<'a>(
    first: u32,
    ledger: &Ledger,
    spot: Spot,
    gives: bool,
    node: &'a Option<Node>,
    touches: &mut Vec<Touch<'a>>,
) -> Result<(), AllocError>
    ensures { OnOk result (touches_all touches.new.items ≡ touches_all touches.old.items ++ spec.touches_at first ledger.now (spot_here spot) gives (nullable node.now)) }
{
    match node {
        Some(node) => add_touches(first, ledger, spot, gives, node, touches),
        None => Ok(()),
    }
}

// ---- at a node

/// Adds the node, if it is an identifier that refers or declares. Fails on allocation failure alone.
#[tactic(auto, using(crate::proofs::TouchesAround::touch_reference, crate::proofs::TouchesAround::touch_binding, crate::proofs::TouchesAround::touch_none))]
fn add_touch<'a>(
    spot: Spot,
    gives: bool,
    node: &'a Node,
    touches: &mut Vec<Touch<'a>>,
) -> Result<(), AllocError>
    ensures { OnOk result (touches_all touches.new.items ≡ touches_all touches.old.items ++ spec.touch_of gives (spot_here spot) (kind_of node.now) (parts_in node.now)) }
{
    match node.kind() {
        // a
        Kind::IdentifierReference => push_touch(spot, false, gives, node, touches),
        // let a;
        Kind::BindingIdentifier => push_touch(spot, true, gives, node, touches),
        _ => Ok(()),
    }
}

fn push_touch<'a>(
    spot: Spot,
    declares: bool,
    gives: bool,
    node: &'a Node,
    touches: &mut Vec<Touch<'a>>,
) -> Result<(), AllocError>
    ensures { OnOk result (touches_all touches.new.items ≡ touches_all touches.old.items ++ spec.touch (string_of (at 0 (parts_in node.now))) declares gives (spot_here spot)) }
{
    touches.push(Touch {
        name: string_at(node.parts(), 0),
        declares,
        gives,
        hoists: spot.is_function_name,
        place: spot.around.place,
        declaration: spot.declaration,
        home: spot.home,
    })?;
    Ok(())
}

/// Whether the node is a declarator without a value.
#[tactic(auto, using(crate::proofs::TouchesAround::bare_declarator, crate::proofs::TouchesAround::not_bare))]
fn is_bare(node: &Node) -> bool
    ensures { result ≡ spec.is_bare (kind_of node.now) (parts_in node.now) }
{
    match node.kind() {
        // let a;
        Kind::VariableDeclarator => !is_present_at(node.parts(), 1),
        _ => false,
    }
}

/// Whether an identifier that is a member of this sort is given a value, in a bare declarator or not.
fn gives_value(sort: Sort, bare: bool) -> bool
    ensures { result ≡ (references.is_target sort || (scopes.binds sort && not bare)) }
{
    is_target(sort) || (binds(sort) && !bare)
}

/// What is around the i-th part of a node that stands so.
#[tactic(auto, using(crate::proofs::TouchesAround::within_node))]
fn spot_in(first: u32, ledger: &Ledger, spot: Spot, node: &Node, i: usize) -> Spot
    ensures { spot_here result ≡ spot_within first ledger.now (spot_here spot) node.now i }
{
    Spot {
        around: surroundings_in(first, ledger, spot.around, node, i),
        is_function_name: is_name_of_function(node.kind(), i),
        declaration: declaration_in(node, spot.declaration),
        home: home_in(first, spot, node, i),
    }
}

/// Whether the i-th part is the name of a function declaration.
#[tactic(auto, using(crate::proofs::TouchesAround::no_function_name))]
fn is_name_of_function(kind: Kind, i: usize) -> bool
    ensures { result ≡ spec.is_name_of_function kind i }
{
    match kind {
        Kind::FunctionDeclaration => i == 0,
        _ => false,
    }
}

/// The function declaration around the parts of a node.
#[tactic(auto, using(crate::proofs::TouchesAround::no_declaration))]
fn declaration_in(node: &Node, around: u32) -> u32
    ensures { result ≡ spec.declaration_in (kind_of node.now) (number_in node.now) around }
{
    match node.kind() {
        // function f() {}
        Kind::FunctionDeclaration => node.node_id().0,
        _ => around,
    }
}

/// The body around the i-th part of a node: one of statements, of a function of the source that is no constructor.
fn home_in(first: u32, spot: Spot, node: &Node, i: usize) -> u32
    ensures { result ≡ spec.home_in first (spot_here spot) (kind_of node.now) (number_in node.now) (parts_in node.now) i }
{
    let number = node.node_id().0;
    let is_moved = is_new(first, number) || spot.around.constructs.is_some();
    if is_body_part(node.kind(), i) && is_block_at(node.parts(), i) && !is_moved {
        number
    } else {
        spot.home
    }
}

fn is_block_at(parts: &[Part], i: usize) -> bool
    ensures { result ≡ spec.is_block (at i (parts_of parts.now)) }
{
    match part_at(parts, i) {
        Some(Part::Child(node)) => is_block(node),
        _ => false,
    }
}

#[tactic(auto, using(crate::proofs::TouchesAround::block_node))]
fn is_block(node: &Node) -> bool
    ensures { result ≡ spec.is_block (child node.now) }
{
    matches!(node.kind(), Kind::BlockStatement)
}
