// What a literal has at its members (ESTree).

ghost use Rattle.std.specs.Prelude.{◌≡◌, IfOk, OnOk};
ghost use Rattle.es_writing.specs.Writing.{Puts, raw_entry, boolean_string, regex_of, literal_entries};
ghost use Rattle.serde_json.specs.View.{view};

use crate::entries::{put_boolean, put_null, put_str, put_string, put_value};
use es_base::literal::LiteralValue;
use es_base::name::Name;
use serde_json::{Map, Value};
use std::alloc::{AllocError, Global};

/// Puts in the value of a literal, and its source text: `value` and `raw`, `bigint` or `regex`. What JSON
/// cannot hold has the value null. Fails on allocation failure alone.
pub fn put_literal(
    object: &mut Map<String, Value>,
    alloc: Global,
    value: &LiteralValue,
) -> Result<(), AllocError>
    ensures { OnOk result (Puts object.old.entries object.new.entries (literal_entries value.now)) }
{
    match value {
        LiteralValue::String { value, raw } => {
            put_string(object, alloc, "value", value)?;
            put_raw(object, alloc, raw)
        }
        LiteralValue::Number { raw } => {
            put_null(object, alloc, "value")?;
            put_string(object, alloc, "raw", raw)
        }
        LiteralValue::BigInt { digits } => {
            put_null(object, alloc, "value")?;
            put_string(object, alloc, "bigint", digits)
        }
        LiteralValue::RegExp { pattern, flags } => {
            put_null(object, alloc, "value")?;
            put_value(object, alloc, "regex", regex_of(alloc, pattern, flags)?)
        }
        LiteralValue::Boolean(boolean) => {
            put_boolean(object, alloc, "value", *boolean)?;
            put_str(object, alloc, "raw", boolean_string(*boolean))
        }
        LiteralValue::Null => {
            put_null(object, alloc, "value")?;
            put_str(object, alloc, "raw", "null")
        }
    }
}

/// Puts in the source text of a string, where it is known.
fn put_raw(
    object: &mut Map<String, Value>,
    alloc: Global,
    raw: &Option<Name>,
) -> Result<(), AllocError>
    ensures { OnOk result (Puts object.old.entries object.new.entries (raw_entry raw.now)) }
{
    match raw {
        None => Ok(()),
        Some(raw) => put_string(object, alloc, "raw", raw),
    }
}

/// The value of `regex`.
fn regex_of(alloc: Global, pattern: &Name, flags: &Name) -> Result<Value, AllocError>
    ensures { IfOk result (λ v. view v ≡ regex_of pattern.now flags.now) }
{
    let mut object = Map::new(alloc);
    put_string(&mut object, alloc, "pattern", pattern)?;
    put_string(&mut object, alloc, "flags", flags)?;
    Ok(Value::from(object))
}

/// The source text of a boolean.
pub fn boolean_string(boolean: bool) -> &'static str
    ensures { result.now ≡ boolean_string boolean }
{
    if boolean { "true" } else { "false" }
}
