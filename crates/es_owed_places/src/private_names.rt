// Private names stand in classes that declare them (ECMA-262, 15.7.1).

ghost use Rattle.std.specs.Prelude.{◌≡◌, IfOk};
ghost use Rattle.std.specs.Str.{chars};
ghost use Rattle.es_base.specs.Tree.{nullable, nullable_trees, trees};
ghost use Rattle.es_lowered.specs.StrayNames as spec;
ghost use Rattle.es_lowered.specs.StrayNames.{has_stray_name, is_stray_name, stray_name_at, stray_name_of};
ghost use Rattle.es_node.specs.View.{kind_of, part_of, parts_in, parts_of};
ghost use Rattle.es_seen_names.specs.Frames.{privates_in};
ghost use Rattle.es_steps.specs.PrivateNames.{declared_member};
ghost use Rattle.es_owed_places.specs.StrayNames.{seen_within, stray_name_from};

use es_base::kind::Kind;
use es_node::node::{Node, Part};
use es_seen_names::parts::string_at;
use es_seen_names::private_member::members_seen;
use es_seen_names::privates::{Privates, declared_member};
use std::alloc::{AllocError, Global};

/// Whether each private name in what a program was lowered to stands in a class that declares it, if each does in the source.
/// Fails on allocation failure alone.
pub fn private_names_stay(alloc: Global, source: &Node, lowered: &Node) -> Result<bool, AllocError>
    ensures { IfOk result (λ holds. holds ≡ spec.private_names_stay source.now lowered.now) }
{
    if has_stray_name(alloc, &Privates::Outside, source)? {
        return Ok(true);
    }
    let is_stray = has_stray_name(alloc, &Privates::Outside, lowered)?;
    Ok(!is_stray)
}

// ---- the walk

/// Whether the node, around which these private members are seen, or one below it is a private name of none of them. Fails on
/// allocation failure alone.
#[cycle(names)]
#[tactic(auto, using(crate::proofs::StrayNames::stray_node, es_node::proofs::Below::nodes_in))]
fn has_stray_name<'a>(
    alloc: Global,
    privates: &Privates<'_, 'a>,
    node: &'a Node,
) -> Result<bool, AllocError>
    ensures { IfOk result (λ holds. holds ≡ has_stray_name (privates_in privates.now) node.now) }
{
    if is_stray_name(&*privates, node) {
        Ok(true)
    } else {
        stray_name_in(alloc, privates, node, node.parts())
    }
}

/// The same of the parts of a node. Fails on allocation failure alone.
#[cycle(names)]
fn stray_name_in<'a>(
    alloc: Global,
    privates: &Privates<'_, 'a>,
    node: &'a Node,
    parts: &'a [Part],
) -> Result<bool, AllocError>
    ensures { IfOk result (λ holds. holds ≡ stray_name_from (seen_within (privates_in privates.now) node.now) 0 (parts_of parts.now)) }
{
    for (i, part) in parts.iter().enumerate() {
        if stray_name_in_part(alloc, &*privates, node, i, part)? {
            return Ok(true);
        }
    }
    Ok(false)
}

/// The same of the i-th part of a node. Fails on allocation failure alone.
#[cycle(names)]
#[tactic(auto, using(crate::proofs::StrayNames::within_node))]
fn stray_name_in_part<'a>(
    alloc: Global,
    privates: &Privates<'_, 'a>,
    node: &'a Node,
    i: usize,
    part: &'a Part,
) -> Result<bool, AllocError>
    ensures { IfOk result (λ holds. holds ≡ stray_name_at (seen_within (privates_in privates.now) node.now i) (part_of part.now)) }
{
    let members = members_seen(alloc, node, i)?;
    if members.as_slice().is_empty() {
        stray_name_at(alloc, privates, part)
    } else {
        let inside = Privates::Inside {
            members: members.as_slice(),
            outer: &*privates,
        };
        stray_name_at(alloc, &inside, part)
    }
}

#[cycle(names)]
fn stray_name_at<'a>(
    alloc: Global,
    privates: &Privates<'_, 'a>,
    part: &'a Part,
) -> Result<bool, AllocError>
    ensures { IfOk result (λ holds. holds ≡ stray_name_at (privates_in privates.now) (part_of part.now)) }
{
    match part {
        Part::Child(node) => has_stray_name(alloc, privates, node),
        Part::List(nodes) => { stray_name_of_list(alloc, privates, nodes.as_slice()) }
        Part::Holes(nodes) => { stray_name_of_list_with_holes(alloc, privates, nodes.as_slice()) }
        _ => Ok(false),
    }
}

#[cycle(names)]
fn stray_name_of_list<'a>(
    alloc: Global,
    privates: &Privates<'_, 'a>,
    nodes: &'a [Node],
) -> Result<bool, AllocError>
    ensures { IfOk result (λ holds. holds ≡ stray_name_of (privates_in privates.now) (trees nodes.now)) }
{
    for node in nodes {
        if has_stray_name(alloc, &*privates, node)? {
            return Ok(true);
        }
    }
    Ok(false)
}

#[cycle(names)]
fn stray_name_of_list_with_holes<'a>(
    alloc: Global,
    privates: &Privates<'_, 'a>,
    nodes: &'a [Option<Node>],
) -> Result<bool, AllocError>
    ensures { IfOk result (λ holds. holds ≡ stray_name_of (privates_in privates.now) (nullable_trees nodes.now)) }
{
    for node in nodes {
        if stray_name_of_hole(alloc, &*privates, node)? {
            return Ok(true);
        }
    }
    Ok(false)
}

#[cycle(names)]
fn stray_name_of_hole<'a>(
    alloc: Global,
    privates: &Privates<'_, 'a>,
    node: &'a Option<Node>,
) -> Result<bool, AllocError>
    ensures { IfOk result (λ holds. holds ≡ stray_name_at (privates_in privates.now) (nullable node.now)) }
{
    match node {
        Some(node) => has_stray_name(alloc, privates, node),
        None => Ok(false),
    }
}

// ---- at a node

/// Whether the node is a private name of none of these members.
#[tactic(auto, using(crate::proofs::StrayNames::stray_private, crate::proofs::StrayNames::no_stray))]
fn is_stray_name(privates: &Privates, node: &Node) -> bool
    ensures { result ≡ is_stray_name (privates_in privates.now) (kind_of node.now) (parts_in node.now) }
{
    match node.kind() {
        // #x
        Kind::PrivateIdentifier => is_undeclared(privates, string_at(node.parts(), 0)),
        _ => false,
    }
}

fn is_undeclared(privates: &Privates, name: &str) -> bool
    ensures { result ≡ spec.is_undeclared (declared_member (chars name.now) (privates_in privates.now)) }
{
    match declared_member(privates, name) {
        Some(_) => false,
        None => true,
    }
}
