// Members that hold no nodes.

ghost use Rattle.std.specs.Prelude.{◌≡◌, IfOk, codes, option_map, option_and_then, is_some, true, false};
ghost use Rattle.std.specs.Str.{chars};
ghost use Rattle.es_base.specs.Table.{words_of};
ghost use Rattle.es_base.specs.Tree.{nullable_string};
ghost use Rattle.es_node.specs.View.{has_shape, is_literal, is_nullable_string, is_string, is_word, part_of};
ghost use Rattle.es_reading.specs.Literals.{form_in, literal_of};
ghost use Rattle.es_reading.specs.Look.{chars_at, string_at};
ghost use Rattle.es_reading.specs.Members as sorts;
ghost use Rattle.es_reading.specs.Members.{is_of_sort};
ghost use Rattle.es_reading.specs.Reading.{leaf_of, literal_part};
ghost use Rattle.es_reading.specs.Unlisted.{holds_nodes};
ghost use Rattle.serde_json.specs.Find.{get};
ghost use Rattle.borrowed_json.specs.View.{view};

use crate::literal::{form_in, value_of};
use crate::look::{is_true_at, string_at};
use borrowed_json::value::Value;
use es_base::name::Name;
use es_base::strings::word_of;
use es_base::table::{Sort, Words};
use es_node::node::Part;
use std::alloc::{AllocError, Global};

/// What stands at the member of this name, which holds no nodes and is of its sort. Fails on allocation
/// failure alone.
pub fn leaf_of(alloc: Global, value: &Value<'_>, name: &str, sort: Sort) -> Result<Part, AllocError>
    requires leaf { holds_nodes sort ≡ false }
    requires good { is_of_sort (view value.now) name.now sort ≡ true }
    ensures value { IfOk result (λ p. part_of p ≡ leaf_of (view value.now) name.now sort) }
    ensures shape { IfOk result (λ p. has_shape sort p ≡ true) }
{
    match sort {
        Sort::Boolean => Ok(Part::Boolean(is_true_at(value, name))),
        Sort::False => Ok(Part::Boolean(false)),
        Sort::Literal => literal_of(alloc, value),
        Sort::Word(set) => Ok(word_part(string_at(value, name), set)),
        Sort::Raw => string_of_value(alloc, value, "raw"),
        Sort::Cooked => string_of_value(alloc, value, "cooked"),
        _ => nullable_string(alloc, string_at(value, name)),
    }
}

/// The word that the string is, which is one of the set.
fn word_part(string: Option<&str>, set: Words) -> Part
    requires { sorts.is_word (words_of set) (option_map (λ s. s.now) string) ≡ true }
    ensures value { part_of result ≡ nullable_string (option_map (λ s. chars s.now) string.entry) }
    ensures shape { is_word set result ≡ true }
{
    match string {
        None => unreachable!(),
        Some(string) => match word_of(string, set) {
            None => unreachable!(),
            Some(word) => Part::Word(word),
        },
    }
}

fn nullable_string(alloc: Global, string: Option<&str>) -> Result<Part, AllocError>
    ensures value { IfOk result (λ p. part_of p ≡ nullable_string (option_map (λ s. chars s.now) string.entry)) }
    ensures shape { IfOk result (λ p. is_nullable_string p ≡ true) }
    ensures present { IfOk result (λ p. is_string p ≡ is_some string.entry) }
{
    match string {
        None => Ok(Part::NoString),
        Some(string) => Ok(Part::String(Name::new(alloc, string)?)),
    }
}

/// A string of the object `value` (ESTree's `TemplateElement`).
fn string_of_value(alloc: Global, value: &Value<'_>, name: &str) -> Result<Part, AllocError>
    ensures value { IfOk result (λ p. part_of p ≡ nullable_string (option_and_then (chars_at name.now) (get (codes "value") (view value.now)))) }
    ensures shape { IfOk result (λ p. is_nullable_string p ≡ true) }
    ensures present { IfOk result (λ p. is_string p ≡ is_some (option_and_then (string_at name.now) (get (codes "value") (view value.now)))) }
{
    match value.get("value") {
        None => Ok(Part::NoString),
        Some(strings) => nullable_string(alloc, string_at(strings, name)),
    }
}

fn literal_of(alloc: Global, value: &Value<'_>) -> Result<Part, AllocError>
    ensures value { IfOk result (λ p. part_of p ≡ literal_part (literal_of (view value.now))) }
    ensures present { IfOk result (λ p. is_literal p ≡ is_some (form_in (view value.now))) }
{
    match form_in(value) {
        None => Ok(Part::Absent),
        Some(form) => Ok(Part::Literal(value_of(alloc, form)?)),
    }
}
