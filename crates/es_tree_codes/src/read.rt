// The code of a node, and the members of a node with the codes of its children.

ghost use Rattle.std.specs.Prelude.{◌≡◌, IfOk, length};
ghost use Rattle.es_base.specs.Tree.{nullable, nullable_trees, trees};
ghost use Rattle.es_codes.specs.CodeView.{code_of};
ghost use Rattle.es_node.specs.View.{kind_of, number_in, part_of, parts_in, parts_of};
ghost use Rattle.es_steps.specs.Context.{inside};
ghost use Rattle.es_steps.specs.Reading as spec;
ghost use Rattle.es_code_members.specs.MembersView.{item_of, items_in, member_of, members_of};
ghost use Rattle.es_code_reading.specs.Contexts.{context_of};
ghost use Rattle.es_tree_codes.specs.Onto.{read_from};

use crate::leaf::leaf;
use es_base::list::List;
use es_code_contexts::inside::Inside;
use es_code_kinds::kinds::code_by_kind;
use es_code_members::member::Member;
use es_code_reading::context::Context;
use es_code_reading::inside::uncaught_around;
use es_codes::code::Code;
use es_node::node::{Node, Part};
use std::alloc::{AllocError, Global};

/// The code of a node, under what is known at its place. Fails on allocation failure alone.
#[cycle(read)]
#[tactic(auto, using(es_binding_faults::proofs::EvalNames::shapes_length, es_node::proofs::Below::nodes_in, crate::proofs::Joined::read_node))]
pub fn read<'a>(alloc: Global, c: &Context<'_, 'a>, node: &'a Node) -> Result<Code, AllocError>
    ensures { IfOk result (λ e. code_of e ≡ spec.read (context_of c.now) node.now) }
{
    let mut members = read_members(alloc, c, node, node.parts())?;
    code_by_kind(
        alloc,
        c,
        node.kind(),
        node.node_id().0,
        members.as_mut_slice(),
    )
}

/// The members of a node, of these parts, with the codes of its children. Fails on allocation failure alone.
#[cycle(read)]
#[tactic(auto, using(crate::proofs::Joined::onto_more, crate::proofs::Joined::onto_end))]
fn read_members<'a>(
    alloc: Global,
    c: &Context<'_, 'a>,
    node: &'a Node,
    parts: &'a [Part],
) -> Result<Vec<Member>, AllocError>
    ensures members { IfOk result (λ ms. members_of ms.items ≡ read_from (inside (context_of c.now) (kind_of node.now) (number_in node.now) (parts_in node.now)) 0 (parts_of parts.now)) }
    ensures count { IfOk result (λ ms. length ms.items ≡ length parts.now) }
{
    let mut members = Vec::new(alloc);
    for (i, part) in parts.iter().enumerate() {
        members.push(read_member(alloc, &*c, node, i, part)?)?;
    }
    Ok(members)
}

/// The i-th member of a node, which is this part. Fails on allocation failure alone.
#[cycle(read)]
fn read_member<'a>(
    alloc: Global,
    c: &Context<'_, 'a>,
    node: &'a Node,
    i: usize,
    part: &'a Part,
) -> Result<Member, AllocError>
    ensures { IfOk result (λ m. member_of m ≡ spec.read_part (inside (context_of c.now) (kind_of node.now) (number_in node.now) (parts_in node.now) i) (part_of part.now)) }
{
    match part {
        Part::Child(_) | Part::List(_) | Part::Holes(_) => read_inside(alloc, c, node, i, part),
        Part::Absent
        | Part::String(_)
        | Part::NoString
        | Part::Word(_)
        | Part::Boolean(_)
        | Part::Literal(_) => leaf(alloc, part),
    }
}

/// The same, under what is known there. Fails on allocation failure alone.
#[cycle(read)]
fn read_inside<'a>(
    alloc: Global,
    c: &Context<'_, 'a>,
    node: &'a Node,
    i: usize,
    part: &'a Part,
) -> Result<Member, AllocError>
    ensures { IfOk result (λ m. member_of m ≡ spec.read_part (inside (context_of c.now) (kind_of node.now) (number_in node.now) (parts_in node.now) i) (part_of part.now)) }
{
    let inside = Inside::of(alloc, &*c, node, i)?;
    let uncaught = uncaught_around(&*c, node.kind());
    let inner = inside.context(&*c, &uncaught, node);
    read_part(alloc, &inner, part)
}

/// What stands at a member, which is this part. Fails on allocation failure alone.
#[cycle(read)]
fn read_part<'a>(alloc: Global, c: &Context<'_, 'a>, part: &'a Part) -> Result<Member, AllocError>
    ensures { IfOk result (λ m. member_of m ≡ spec.read_part (context_of c.now) (part_of part.now)) }
{
    match part {
        Part::Child(node) => Ok(Member::Code(read(alloc, c, node)?)),
        Part::List(nodes) => Ok(Member::List(read_list(alloc, c, nodes.as_slice())?)),
        Part::Holes(nodes) => Ok(Member::List(read_list_with_holes(alloc, c, nodes.as_slice())?)),
        Part::Absent
        | Part::String(_)
        | Part::NoString
        | Part::Word(_)
        | Part::Boolean(_)
        | Part::Literal(_) => leaf(alloc, part),
    }
}

#[cycle(read)]
#[tactic(auto, using(crate::proofs::Joined::items_more, crate::proofs::Joined::items_end))]
fn read_list<'a>(
    alloc: Global,
    c: &Context<'_, 'a>,
    nodes: &'a [Node],
) -> Result<List<Option<Code>>, AllocError>
    ensures { IfOk result (λ cs. items_in cs ≡ spec.read_items (context_of c.now) (trees nodes.now)) }
{
    let mut codes = List::new(alloc);
    for node in nodes {
        codes.push(Some(read(alloc, &*c, node)?))?;
    }
    Ok(codes)
}

#[cycle(read)]
#[tactic(auto, using(crate::proofs::Joined::items_more, crate::proofs::Joined::items_end))]
fn read_list_with_holes<'a>(
    alloc: Global,
    c: &Context<'_, 'a>,
    nodes: &'a [Option<Node>],
) -> Result<List<Option<Code>>, AllocError>
    ensures { IfOk result (λ cs. items_in cs ≡ spec.read_items (context_of c.now) (nullable_trees nodes.now)) }
{
    let mut codes = List::new(alloc);
    for node in nodes {
        codes.push(read_hole(alloc, &*c, node)?)?;
    }
    Ok(codes)
}

#[cycle(read)]
fn read_hole<'a>(
    alloc: Global,
    c: &Context<'_, 'a>,
    node: &'a Option<Node>,
) -> Result<Option<Code>, AllocError>
    ensures { IfOk result (λ e. item_of e ≡ spec.read_part (context_of c.now) (nullable node.now)) }
{
    Ok(match node {
        Some(node) => Some(read(alloc, c, node)?),
        None => None,
    })
}
