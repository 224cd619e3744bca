// What a node has beside the members of its row, by its kind (ESTree).

ghost use Rattle.std.specs.Prelude.{◌≡◌, IfOk, OnOk, codes};
ghost use Rattle.es_base.specs.declared.kind.Kind.{Kind};
ghost use Rattle.es_base.specs.Tree.{absent, end, more};
ghost use Rattle.es_node.specs.View.{part_of, parts_of};
ghost use Rattle.es_writing.specs.Writing.{Puts, type_of, is_block, more_entries, raw_of, cooked_of, strings_of, tail_entries, entry};
ghost use Rattle.serde_json.specs.View.{view};

use crate::entries::{put_boolean, put_value, string_of, word_of};
use es_base::kind::Kind;
use es_base::table::estree_name;
use es_node::node::Part;
use serde_json::{Map, Value};
use std::alloc::{AllocError, Global};

/// The value of `type`: the name of the kind, or the name that a foreign node keeps. Fails on
/// allocation failure alone.
pub fn type_of(alloc: Global, kind: Kind, parts: &[Part]) -> Result<Value, AllocError>
    ensures { IfOk result (λ v. view v ≡ type_of kind (parts_of parts.now)) }
{
    match kind {
        Kind::Foreign => foreign_type(alloc, parts),
        _ => Value::try_from_str(alloc, estree_name(kind)),
    }
}

fn foreign_type(alloc: Global, parts: &[Part]) -> Result<Value, AllocError>
    ensures { IfOk result (λ v. view v ≡ type_of Kind.Foreign (parts_of parts.now)) }
{
    match parts {
        [Part::String(name), ..] => string_of(alloc, name),
        [Part::Word(word), ..] => word_of(alloc, *word),
        _ => Value::try_from_str(alloc, estree_name(Kind::Foreign)),
    }
}

/// Puts in the members that follow from the others: `prefix` of a unary expression, and `expression` of
/// an arrow. Fails on allocation failure alone.
pub fn put_more(
    object: &mut Map<String, Value>,
    alloc: Global,
    kind: Kind,
    parts: &[Part],
) -> Result<(), AllocError>
    ensures { OnOk result (Puts object.old.entries object.new.entries (more_entries kind (parts_of parts.now))) }
{
    match kind {
        Kind::UnaryExpression => put_boolean(object, alloc, "prefix", true),
        Kind::ArrowFunctionExpression => put_boolean(object, alloc, "expression", !is_block(parts)),
        _ => Ok(()),
    }
}

/// Whether the body of an arrow, its second part, is a block.
#[tactic(auto, using(crate::proofs::Parts::block_short, crate::proofs::Parts::block_long))]
pub fn is_block(parts: &[Part]) -> bool
    ensures { result ≡ is_block (parts_of parts.now) }
{
    match parts {
        [_, body, ..] => is_block_statement(body),
        _ => false,
    }
}

#[tactic(auto, using(crate::proofs::Parts::block_is, crate::proofs::Parts::block_not))]
fn is_block_statement(body: &Part) -> bool
    ensures { result ≡ is_block (more absent (more (part_of body.now) end)) }
{
    match body {
        Part::Child(node) => matches!(node.kind(), Kind::BlockStatement),
        _ => false,
    }
}

/// Puts in the members of a template element: `value`, the object of its strings, and `tail`. Fails on
/// allocation failure alone.
pub fn put_template(
    object: &mut Map<String, Value>,
    alloc: Global,
    raw: &Part,
    cooked: &Part,
    tail: &[Part],
) -> Result<(), AllocError>
    ensures { OnOk result (Puts object.old.entries object.new.entries
        (entry (codes "value") (strings_of (part_of raw.now) (part_of cooked.now)) (tail_entries (parts_of tail.now)))) }
{
    put_value(object, alloc, "value", strings_of(alloc, raw, cooked)?)?;
    put_tail(object, alloc, tail)
}

fn put_tail(object: &mut Map<String, Value>, alloc: Global, tail: &[Part]) -> Result<(), AllocError>
    ensures { OnOk result (Puts object.old.entries object.new.entries (tail_entries (parts_of tail.now))) }
{
    match tail {
        [Part::Boolean(last), ..] => put_boolean(object, alloc, "tail", *last),
        _ => Ok(()),
    }
}

/// The strings of a template element.
fn strings_of(alloc: Global, raw: &Part, cooked: &Part) -> Result<Value, AllocError>
    ensures { IfOk result (λ v. view v ≡ strings_of (part_of raw.now) (part_of cooked.now)) }
{
    let mut object = Map::new(alloc);
    put_value(&mut object, alloc, "raw", string_or_null(alloc, raw)?)?;
    put_value(&mut object, alloc, "cooked", string_or_null(alloc, cooked)?)?;
    Ok(Value::from(object))
}

/// The string at a part; null, where there is none.
fn string_or_null(alloc: Global, part: &Part) -> Result<Value, AllocError>
    ensures raw { IfOk result (λ v. view v ≡ raw_of (part_of part.now)) }
    ensures cooked { IfOk result (λ v. view v ≡ cooked_of (part_of part.now)) }
{
    match part {
        Part::String(string) => string_of(alloc, string),
        Part::Word(word) => word_of(alloc, *word),
        _ => Ok(Value::Null),
    }
}
