// The text of a tree: the tokens of the value of `node::write`, without the value.

ghost use Rattle.std.specs.Prelude.{◌≡◌, ◌++◌, OnOk, Some, codes};
ghost use Rattle.es_base.specs.Table.{members_of};
ghost use Rattle.es_base.specs.Tree.{nullable, trees, nullable_trees};
ghost use Rattle.es_base.specs.declared.kind.Kind.{Kind};
ghost use Rattle.es_node.specs.View.{kind_of, part_of, parts_in, parts_of};
ghost use Rattle.es_writing.specs.Slots.{data_at, data_of, data_tokens, field_at, last_of, member_tokens, name_in, slot_data, strings_in, tail_in};
ghost use Rattle.es_writing.specs.Writing.{raw_of, type_of, write, write_item, write_items};
ghost use Rattle.serde_json.specs.Data.{array};

use crate::kinds::is_block;
use crate::literal_text::{literal_in, write_bigint, write_raw, write_regexp, write_value};
use crate::members::{
    write_boolean, write_end, write_null, write_number, write_start, write_str, write_string,
    write_word,
};
use crate::slots::{Slot, slots};
use es_base::kind::Kind;
use es_base::table::{estree_name, members};
use es_node::node::{Node, Part};
use json::Writer;
use std::alloc::AllocError;

/// Writes a node as an object with the members of its kind, in the order of their bytes. Fails on allocation
/// failure alone.
#[cycle(text)]
pub fn write_node(out: &mut Writer, node: &Node) -> Result<(), AllocError>
    ensures ok { OnOk result (out.new.tokens ≡ out.old.tokens ++ data_tokens (write node.now)) }
    ensures before { out.new.before ≡ out.old.before }
{
    // the parts of a node have the shapes of its members
    let _parts = node.parts();
    out.begin_object()?;
    for slot in slots(node.kind()) {
        write_slot(out, node, *slot)?;
    }
    out.end_object()
}

/// Writes what stands at a member of a node. Fails on allocation failure alone.
#[cycle(text)]
pub fn write_slot(out: &mut Writer, node: &Node, slot: Slot) -> Result<(), AllocError>
    ensures ok { OnOk result (out.new.tokens ≡ out.old.tokens ++ member_tokens (name_in (kind_of node.now) slot) (slot_data node.now slot)) }
    ensures before { out.new.before ≡ out.old.before }
{
    match slot {
        Slot::At(at) => write_at(out, node, at),
        Slot::Type => write_type(out, node.kind(), node.parts()),
        Slot::Number => write_number(out, "node", node.node_id().0),
        Slot::Start => write_start(out, node.span()),
        Slot::End => write_end(out, node.span()),
        Slot::Prefix => write_boolean(out, "prefix", true),
        Slot::Expression => write_boolean(out, "expression", !is_block(node.parts())),
        Slot::Value => write_value(out, literal_in(node.parts())),
        Slot::Raw => write_raw(out, literal_in(node.parts())),
        Slot::BigInt => write_bigint(out, literal_in(node.parts())),
        Slot::RegExp => write_regexp(out, literal_in(node.parts())),
        Slot::Strings => write_strings(out, node.parts()),
        Slot::Tail => write_tail(out, node.parts()),
        Slot::Generated | Slot::Warnings | Slot::Outside => Ok(()),
    }
}

/// Writes the member at this place of the row.
#[cycle(text)]
fn write_at(out: &mut Writer, node: &Node, at: usize) -> Result<(), AllocError>
    ensures ok { OnOk result (out.new.tokens ≡ out.old.tokens ++ member_tokens (field_at at (members_of (kind_of node.now))) (data_at at (parts_in node.now))) }
    ensures before { out.new.before ≡ out.old.before }
{
    let parts = node.parts();
    if at < parts.len() {
        write_part(out, name_at(node.kind(), at), &parts[at])
    } else {
        Ok(())
    }
}

/// The name of the member at a place of the row of a kind; empty, where there is none.
#[tactic(auto, using(crate::proofs::Places::field_here, crate::proofs::Places::field_past))]
fn name_at(kind: Kind, at: usize) -> &'static str
    ensures { result.now ≡ field_at at (members_of kind) }
{
    let members = members(kind);
    if at < members.len() {
        members[at].name
    } else {
        ""
    }
}

/// Writes what stands at the member of this name.
#[cycle(text)]
fn write_part(out: &mut Writer, name: &str, part: &Part) -> Result<(), AllocError>
    ensures ok { OnOk result (out.new.tokens ≡ out.old.tokens ++ member_tokens name.now (data_of (part_of part.now))) }
    ensures before { out.new.before ≡ out.old.before }
{
    match part {
        Part::Child(node) => {
            out.key(name)?;
            write_node(out, node)
        }
        Part::Absent => write_null(out, name),
        Part::List(nodes) => {
            out.key(name)?;
            write_nodes(out, nodes.as_slice())
        }
        Part::Holes(nodes) => {
            out.key(name)?;
            write_nullable_nodes(out, nodes.as_slice())
        }
        Part::String(string) => write_string(out, name, string),
        Part::Word(word) => write_word(out, name, *word),
        Part::Boolean(boolean) => write_boolean(out, name, *boolean),
        Part::NoString | Part::Literal(_) => Ok(()),
    }
}

/// Writes a list of nodes.
#[cycle(text)]
fn write_nodes(out: &mut Writer, nodes: &[Node]) -> Result<(), AllocError>
    ensures ok { OnOk result (out.new.tokens ≡ out.old.tokens ++ data_tokens (array (write_items (trees nodes.now)))) }
    ensures before { out.new.before ≡ out.old.before }
{
    out.begin_array()?;
    for node in nodes {
        write_node(out, node)?;
    }
    out.end_array()
}

/// Writes a list with holes.
#[cycle(text)]
fn write_nullable_nodes(out: &mut Writer, nodes: &[Option<Node>]) -> Result<(), AllocError>
    ensures ok { OnOk result (out.new.tokens ≡ out.old.tokens ++ data_tokens (array (write_items (nullable_trees nodes.now)))) }
    ensures before { out.new.before ≡ out.old.before }
{
    out.begin_array()?;
    for node in nodes {
        write_nullable_node(out, node)?;
    }
    out.end_array()
}

/// Writes a node; null, where there is none.
#[cycle(text)]
fn write_nullable_node(out: &mut Writer, node: &Option<Node>) -> Result<(), AllocError>
    ensures ok { OnOk result (out.new.tokens ≡ out.old.tokens ++ data_tokens (write_item (nullable node.now))) }
    ensures before { out.new.before ≡ out.old.before }
{
    match node {
        None => out.null(),
        Some(node) => write_node(out, node),
    }
}

/// Writes `type`: the name of the kind, or the name that a foreign node keeps.
fn write_type(out: &mut Writer, kind: Kind, parts: &[Part]) -> Result<(), AllocError>
    ensures ok { OnOk result (out.new.tokens ≡ out.old.tokens ++ member_tokens (codes "type") (Some (type_of kind (parts_of parts.now)))) }
    ensures before { out.new.before ≡ out.old.before }
{
    match kind {
        Kind::Foreign => write_foreign_type(out, parts),
        _ => write_str(out, "type", estree_name(kind)),
    }
}

fn write_foreign_type(out: &mut Writer, parts: &[Part]) -> Result<(), AllocError>
    ensures ok { OnOk result (out.new.tokens ≡ out.old.tokens ++ member_tokens (codes "type") (Some (type_of Kind.Foreign (parts_of parts.now)))) }
    ensures before { out.new.before ≡ out.old.before }
{
    match parts {
        [Part::String(name), ..] => write_string(out, "type", name),
        [Part::Word(word), ..] => write_word(out, "type", *word),
        _ => write_str(out, "type", estree_name(Kind::Foreign)),
    }
}

/// Writes `value` of a template element, the object of its strings.
#[tactic(auto, using(crate::proofs::Places::strings_short))]
fn write_strings(out: &mut Writer, parts: &[Part]) -> Result<(), AllocError>
    ensures ok { OnOk result (out.new.tokens ≡ out.old.tokens ++ member_tokens (codes "value") (strings_in (parts_of parts.now))) }
    ensures before { out.new.before ≡ out.old.before }
{
    match parts {
        [raw, cooked, ..] => {
            out.key("value")?;
            out.begin_object()?;
            write_string_or_null(out, "cooked", cooked)?;
            write_string_or_null(out, "raw", raw)?;
            out.end_object()
        }
        _ => Ok(()),
    }
}

/// Writes the string at a part; null, where there is none.
fn write_string_or_null(out: &mut Writer, name: &str, part: &Part) -> Result<(), AllocError>
    ensures ok { OnOk result (out.new.tokens ≡ out.old.tokens ++ member_tokens name.now (Some (raw_of (part_of part.now)))) }
    ensures before { out.new.before ≡ out.old.before }
{
    match part {
        Part::String(string) => write_string(out, name, string),
        Part::Word(word) => write_word(out, name, *word),
        _ => write_null(out, name),
    }
}

/// Writes `tail` of a template element.
#[tactic(auto, using(crate::proofs::Places::tail_short, crate::proofs::Places::tail_long))]
fn write_tail(out: &mut Writer, parts: &[Part]) -> Result<(), AllocError>
    ensures ok { OnOk result (out.new.tokens ≡ out.old.tokens ++ member_tokens (codes "tail") (tail_in (parts_of parts.now))) }
    ensures before { out.new.before ≡ out.old.before }
{
    match parts {
        [_, _, last, ..] => write_last(out, last),
        _ => Ok(()),
    }
}

fn write_last(out: &mut Writer, last: &Part) -> Result<(), AllocError>
    ensures ok { OnOk result (out.new.tokens ≡ out.old.tokens ++ member_tokens (codes "tail") (last_of (part_of last.now))) }
    ensures before { out.new.before ≡ out.old.before }
{
    match last {
        Part::Boolean(last) => write_boolean(out, "tail", *last),
        _ => Ok(()),
    }
}
