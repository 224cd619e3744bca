// The names that a pattern or a declaration binds.

ghost use Rattle.std.specs.Prelude.{◌≡◌, ◌++◌, OnOk, [], map, true, cond};
ghost use Rattle.es_base.specs.Table.{field_of, members_of};
ghost use Rattle.es_base.specs.Tree.{trees, nullable, nullable_trees};
ghost use Rattle.es_base.specs.declared.kind.Kind.{Kind};
ghost use Rattle.es_node.specs.View.{number_in, part_of, parts_of, parts_in, kind_of, have_shapes};
ghost use Rattle.es_steps.specs.Scopes.{is_binding_place, is_binding_identifier, binds, no_class, declaration, bound_names, bound_members, bound_part, bound_items};
ghost use Rattle.es_binding_faults.specs.Named.{named};

use es_base::ids::NodeId;
use es_base::kind::Kind;
use es_base::table::{Member, Place, Sort, members};
use es_node::node::{Node, Part};
use std::alloc::AllocError;

/// An identifier that declares a name.
#[derive(Debug, Clone, Copy)]
pub struct Declared<'a> {
    pub name: &'a str,
    pub node: NodeId,
}

/// Whether what stands at this place declares.
pub fn is_binding_place(place: Place) -> bool
    ensures { result ≡ is_binding_place place }
{
    matches!(
        place,
        Place::Pattern
            | Place::PatternOrRest
            | Place::PatternMember
            | Place::BindingIdentifier
            | Place::VariableDeclarator
            | Place::ImportMember
    )
}

/// Whether a member of this sort declares.
pub fn binds(sort: Sort) -> bool
    ensures { result ≡ binds sort }
{
    match sort {
        Sort::Child(place)
        | Sort::Nullable(place)
        | Sort::List(place)
        | Sort::NonEmptyList(place)
        | Sort::ListWithHoles(place) => is_binding_place(place),
        _ => false,
    }
}

/// Adds an identifier. Fails on allocation failure alone.
pub fn add_identifier<'a>(node: &'a Node, names: &mut Vec<Declared<'a>>) -> Result<(), AllocError>
    requires { kind_of node.now ≡ Kind.BindingIdentifier }
    ensures { OnOk result (named names.new.items ≡ named names.old.items ++ declaration no_class (number_in node.now) (parts_in node.now)) }
{
    match node.parts() {
        [name] => {
            names.push(Declared {
                name: name.as_string().as_str(),
                node: node.node_id(),
            })?;
            Ok(())
        }
        _ => unreachable!(),
    }
}

/// Whether it is an identifier that declares.
pub fn is_binding_identifier(node: &Node) -> bool
    ensures { result ≡ is_binding_identifier (kind_of node.now) }
{
    matches!(node.kind(), Kind::BindingIdentifier)
}

/// Adds the names that a pattern binds, or what stands where names are bound. Fails on allocation failure alone.
#[cycle(bound)]
pub fn add_bound<'a>(node: &'a Node, names: &mut Vec<Declared<'a>>) -> Result<(), AllocError>
    ensures { OnOk result (named names.new.items ≡ named names.old.items ++ bound_names no_class node.now) }
{
    if is_binding_identifier(node) {
        add_identifier(node, names)
    } else {
        add_bound_members(node.parts(), members(node.kind()), names)
    }
}

#[cycle(bound)]
#[tactic(auto, using(es_node::proofs::Shapes::members_length))]
fn add_bound_members<'a>(
    parts: &'a [Part],
    members: &[Member],
    names: &mut Vec<Declared<'a>>,
) -> Result<(), AllocError>
    requires { have_shapes (map field_of members.now) parts.now ≡ true }
    ensures { OnOk result (named names.new.items ≡ named names.old.items ++ bound_members no_class (map field_of members.now) (parts_of parts.now)) }
{
    for (i, part) in parts.iter().enumerate() {
        add_bound_member(part, members[i].sort, names)?;
    }
    Ok(())
}

/// The same of a part that is a member of this sort.
#[cycle(bound)]
fn add_bound_member<'a>(
    part: &'a Part,
    sort: Sort,
    names: &mut Vec<Declared<'a>>,
) -> Result<(), AllocError>
    ensures { OnOk result (named names.new.items ≡ named names.old.items ++ cond (binds sort) (bound_part no_class (part_of part.now)) []) }
{
    if binds(sort) {
        add_bound_part(part, names)
    } else {
        Ok(())
    }
}

/// The same of a part. Fails on allocation failure alone.
#[cycle(bound)]
pub fn add_bound_part<'a>(part: &'a Part, names: &mut Vec<Declared<'a>>) -> Result<(), AllocError>
    ensures { OnOk result (named names.new.items ≡ named names.old.items ++ bound_part no_class (part_of part.now)) }
{
    match part {
        Part::Child(node) => add_bound(node, names),
        Part::List(nodes) => add_bound_list(nodes.as_slice(), names),
        Part::Holes(nodes) => add_bound_list_with_holes(nodes.as_slice(), names),
        _ => Ok(()),
    }
}

#[cycle(bound)]
fn add_bound_list<'a>(nodes: &'a [Node], names: &mut Vec<Declared<'a>>) -> Result<(), AllocError>
    ensures { OnOk result (named names.new.items ≡ named names.old.items ++ bound_items no_class (trees nodes.now)) }
{
    for node in nodes {
        add_bound(node, names)?;
    }
    Ok(())
}

#[cycle(bound)]
fn add_bound_list_with_holes<'a>(
    nodes: &'a [Option<Node>],
    names: &mut Vec<Declared<'a>>,
) -> Result<(), AllocError>
    ensures { OnOk result (named names.new.items ≡ named names.old.items ++ bound_items no_class (nullable_trees nodes.now)) }
{
    for node in nodes {
        add_bound_hole(node, names)?;
    }
    Ok(())
}

#[cycle(bound)]
fn add_bound_hole<'a>(
    node: &'a Option<Node>,
    names: &mut Vec<Declared<'a>>,
) -> Result<(), AllocError>
    ensures { OnOk result (named names.new.items ≡ named names.old.items ++ bound_part no_class (nullable node.now)) }
{
    match node {
        Some(node) => add_bound(node, names),
        None => Ok(()),
    }
}
