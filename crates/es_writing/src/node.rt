// Writing a node.

ghost use Rattle.std.specs.Prelude.{◌≡◌, IfOk, OnOk, map};
ghost use Rattle.es_base.specs.Table.{field_of, members_of};
ghost use Rattle.es_base.specs.Tree.{nullable, trees, nullable_trees};
ghost use Rattle.es_node.specs.View.{part_of, parts_of};
ghost use Rattle.es_writing.specs.Kept.{IsKept};
ghost use Rattle.es_writing.specs.Writing.{Puts, kind_entries, write, write_fields, write_part, write_items, write_item};
ghost use Rattle.serde_json.specs.Data.{array};
ghost use Rattle.serde_json.specs.View.{view};

use crate::entries::{number_of, put_boolean, put_null, put_span, put_string, put_value, word_of};
use crate::kept::visit_tree;
use crate::kinds::{put_more, put_template, type_of};
use crate::literal::put_literal;
use es_base::kind::Kind;
use es_base::table::{Member, members};
use es_node::node::{Node, Part};
use serde_json::{Map, Value};
use std::alloc::{AllocError, Global};

/// The value of a node: an object with its `type`, its number as `node`, what stands at its members, by
/// the table of kinds, and where it stands in its source, `start` and `end` (ESTree; `node` is our own).
/// Its semantic id is not written. Fails on allocation failure alone.
pub fn write(alloc: Global, node: &Node) -> Result<Value, AllocError>
    ensures value { IfOk result (λ v. view v ≡ write node.now) }
    ensures kept { IfOk result (λ v. IsKept node.now) }
{
    visit_tree(node);
    write_node(alloc, node)
}

#[cycle(write)]
fn write_node(alloc: Global, node: &Node) -> Result<Value, AllocError>
    ensures { IfOk result (λ v. view v ≡ write node.now) }
{
    let kind = node.kind();
    let parts = node.parts();
    let mut object = Map::new(alloc);
    put_value(&mut object, alloc, "type", type_of(alloc, kind, parts)?)?;
    put_value(&mut object, alloc, "node", number_of(node.node_id().0))?;
    put_row(&mut object, alloc, kind, parts)?;
    put_more(&mut object, alloc, kind, parts)?;
    put_span(&mut object, alloc, node.span())?;
    Ok(Value::from(object))
}

/// Puts in the members of a node, by its kind.
#[cycle(write)]
#[tactic(auto, using(crate::proofs::Parts::own_row))]
fn put_row(
    object: &mut Map<String, Value>,
    alloc: Global,
    kind: Kind,
    parts: &[Part],
) -> Result<(), AllocError>
    ensures { OnOk result (Puts object.old.entries object.new.entries
        (kind_entries kind (parts_of parts.now) (write_fields (members_of kind) (parts_of parts.now)))) }
{
    match kind {
        Kind::Foreign => Ok(()),
        Kind::TemplateElement => match parts {
            [raw, cooked, tail @ ..] => put_template(object, alloc, raw, cooked, tail),
            _ => put_fields(object, alloc, members(kind), parts),
        },
        _ => put_fields(object, alloc, members(kind), parts),
    }
}

/// Puts in the members of a row, one for one.
#[cycle(write)]
fn put_fields(
    object: &mut Map<String, Value>,
    alloc: Global,
    members: &[Member],
    parts: &[Part],
) -> Result<(), AllocError>
    ensures { OnOk result (Puts object.old.entries object.new.entries
        (write_fields (map field_of members.now) (parts_of parts.now))) }
{
    for (member, part) in members.iter().zip(parts) {
        put_part(object, alloc, member.name, part)?;
    }
    Ok(())
}

/// Puts in what stands at the member of this name.
#[cycle(write)]
fn put_part(
    object: &mut Map<String, Value>,
    alloc: Global,
    name: &str,
    part: &Part,
) -> Result<(), AllocError>
    ensures { OnOk result (Puts object.old.entries object.new.entries (write_part name.now (part_of part.now))) }
{
    match part {
        Part::Child(node) => put_value(object, alloc, name, write_node(alloc, node)?),
        Part::Absent => put_null(object, alloc, name),
        Part::List(nodes) => put_value(object, alloc, name, write_nodes(alloc, nodes.as_slice())?),
        Part::Holes(nodes) => {
            put_value(
                object,
                alloc,
                name,
                write_nullable_nodes(alloc, nodes.as_slice())?,
            )
        }
        Part::String(string) => put_string(object, alloc, name, string),
        Part::NoString => Ok(()),
        Part::Word(word) => put_value(object, alloc, name, word_of(alloc, *word)?),
        Part::Boolean(boolean) => put_boolean(object, alloc, name, *boolean),
        Part::Literal(value) => put_literal(object, alloc, value),
    }
}

/// The value of a list of nodes.
#[cycle(write)]
fn write_nodes(alloc: Global, nodes: &[Node]) -> Result<Value, AllocError>
    ensures { IfOk result (λ v. view v ≡ array (write_items (trees nodes.now))) }
{
    let mut items = Vec::with_capacity(alloc, nodes.len())?;
    for node in nodes {
        items.push(write_node(alloc, node)?)?;
    }
    Ok(Value::from(items))
}

/// The value of a list with holes.
#[cycle(write)]
fn write_nullable_nodes(alloc: Global, nodes: &[Option<Node>]) -> Result<Value, AllocError>
    ensures { IfOk result (λ v. view v ≡ array (write_items (nullable_trees nodes.now))) }
{
    let mut items = Vec::with_capacity(alloc, nodes.len())?;
    for node in nodes {
        items.push(write_nullable_node(alloc, node)?)?;
    }
    Ok(Value::from(items))
}

/// The value of a node; null, where there is none.
#[cycle(write)]
fn write_nullable_node(alloc: Global, node: &Option<Node>) -> Result<Value, AllocError>
    ensures { IfOk result (λ v. view v ≡ write_item (nullable node.now)) }
{
    match node {
        None => Ok(Value::Null),
        Some(node) => write_node(alloc, node),
    }
}
