// Values, and entries of an object.

ghost use Rattle.std.specs.Prelude.{◌≡◌, [], IfOk, OnOk};
ghost use Rattle.es_base.specs.Carried.{span_of};
ghost use Rattle.es_base.specs.Words.{word_string};
ghost use Rattle.es_writing.specs.Writing.{Puts, entry, string_of, number_of, span_entries};
ghost use Rattle.serde_json.specs.Data.{null, boolean as json_boolean, string as json_string};
ghost use Rattle.serde_json.specs.View.{view};

use es_base::ids::Span;
use es_base::name::Name;
use es_base::operator::Word;
use es_base::word::word_str;
use serde_json::{Map, Value};
use std::alloc::{AllocError, Global};

/// The value of a string of a tree. Fails on allocation failure alone.
#[tactic(auto, using(crate::proofs::Keeping::encodes))]
pub fn string_of(alloc: Global, string: &Name) -> Result<Value, AllocError>
    ensures { IfOk result (λ v. view v ≡ string_of string.now) }
{
    Value::try_from_str(alloc, string.as_str())
}

/// The value of a word of the table. Fails on allocation failure alone.
#[tactic(auto, using(crate::proofs::Keeping::word_encodes))]
pub fn word_of(alloc: Global, word: Word) -> Result<Value, AllocError>
    ensures { IfOk result (λ v. view v ≡ string_of (word_string word)) }
{
    Value::try_from_str(alloc, word_str(word))
}

/// The value of a number of a tree.
pub fn number_of(number: u32) -> Value
    ensures { view result ≡ number_of number }
{
    Value::from(number)
}

/// Puts a value at this name. Fails on allocation failure alone.
pub fn put_value(
    object: &mut Map<String, Value>,
    alloc: Global,
    name: &str,
    value: Value,
) -> Result<(), AllocError>
    ensures { OnOk result (Puts object.old.entries object.new.entries (entry name.now (view value) [])) }
{
    serde_json::put(object, alloc, name, value)
}

/// Puts null at this name. Fails on allocation failure alone.
pub fn put_null(
    object: &mut Map<String, Value>,
    alloc: Global,
    name: &str,
) -> Result<(), AllocError>
    ensures { OnOk result (Puts object.old.entries object.new.entries (entry name.now null [])) }
{
    put_value(object, alloc, name, Value::Null)
}

/// Puts a boolean at this name. Fails on allocation failure alone.
pub fn put_boolean(
    object: &mut Map<String, Value>,
    alloc: Global,
    name: &str,
    boolean: bool,
) -> Result<(), AllocError>
    ensures { OnOk result (Puts object.old.entries object.new.entries (entry name.now (json_boolean boolean) [])) }
{
    put_value(object, alloc, name, Value::from(boolean))
}

/// Puts a number at this name. Fails on allocation failure alone.
pub fn put_number(
    object: &mut Map<String, Value>,
    alloc: Global,
    name: &str,
    number: u32,
) -> Result<(), AllocError>
    ensures { OnOk result (Puts object.old.entries object.new.entries (entry name.now (number_of number) [])) }
{
    put_value(object, alloc, name, number_of(number))
}

/// Puts a string of a tree at this name. Fails on allocation failure alone.
pub fn put_string(
    object: &mut Map<String, Value>,
    alloc: Global,
    name: &str,
    string: &Name,
) -> Result<(), AllocError>
    ensures { OnOk result (Puts object.old.entries object.new.entries (entry name.now (string_of string.now) [])) }
{
    put_value(object, alloc, name, string_of(alloc, string)?)
}

/// Puts a string at this name. Fails on allocation failure alone.
pub fn put_str(
    object: &mut Map<String, Value>,
    alloc: Global,
    name: &str,
    string: &str,
) -> Result<(), AllocError>
    ensures { OnOk result (Puts object.old.entries object.new.entries (entry name.now (json_string string.now) [])) }
{
    put_value(object, alloc, name, Value::try_from_str(alloc, string)?)
}

/// Puts in where a node stands in its source, if it stands there (ESTree, `start` and `end`). Fails for
/// allocation failure alone.
pub fn put_span(
    object: &mut Map<String, Value>,
    alloc: Global,
    span: Option<Span>,
) -> Result<(), AllocError>
    ensures { OnOk result (Puts object.old.entries object.new.entries (span_entries (span_of span))) }
{
    if let Some(span) = span {
        put_number(object, alloc, "start", span.start)?;
        put_number(object, alloc, "end", span.end)?;
    }
    Ok(())
}
