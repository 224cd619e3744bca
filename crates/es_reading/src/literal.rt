// The value of a literal.

ghost use Rattle.std.specs.Prelude.{◌≡◌, IfOk, codes, option_map};
ghost use Rattle.es_reading.specs.Forms.{form_of};
ghost use Rattle.es_reading.specs.Literals.{regexp_in, bigint_in, string_in, boolean_in, by_raw, by_value, null_or_number_in, is_whole_or_absent, form_in, value_of, may_be_key, is_key_form};
ghost use Rattle.serde_json.specs.Find.{get};
ghost use Rattle.borrowed_json.specs.View.{view};

use crate::look::{boolean_at, string_at};
use crate::strings::nullable_name;
use borrowed_json::value::Value;
use es_base::literal::LiteralValue;
use es_base::name::Name;
use es_base::strings::is_number_string;
use std::alloc::{AllocError, Global};

/// The form of a literal, with the strings that its value has.
#[derive(Clone, Copy)]
pub enum Form<'a> {
    /// `regex` is an object with strings `pattern` and `flags`.
    RegExp {
        pattern: &'a str,
        flags: &'a str,
    },
    /// `bigint` is a string.
    BigInt(&'a str),
    /// `value` is a string, and so is `raw` where it is there.
    String {
        value: &'a str,
        raw: Option<&'a str>,
    },
    /// `value` is a boolean.
    Bool(bool),
    /// `raw` is the string `null`, or `value` is null.
    Null,
    /// `raw` is the source text of a number.
    Number(&'a str),
    /// `value` is a whole number, and there is no `raw`.
    Whole(u64),
}

/// The first form that fits, if one does (ESTree).
pub fn form_in<'a>(value: &Value<'a>) -> Option<Form<'a>>
    ensures { option_map form_of result ≡ form_in (view value.now) }
{
    if let Some(form) = regexp_in(value) {
        return Some(form);
    }
    if let Some(digits) = string_at(value, "bigint") {
        return Some(Form::BigInt(digits));
    }
    if let Some(string) = string_at(value, "value") {
        return Some(Form::String {
            value: string,
            raw: string_at(value, "raw"),
        });
    }
    if let Some(boolean) = boolean_at(value, "value") {
        return Some(Form::Bool(boolean));
    }
    null_or_number_in(value)
}

fn regexp_in<'a>(value: &Value<'a>) -> Option<Form<'a>>
    ensures { option_map form_of result ≡ regexp_in (view value.now) }
{
    match value.get("regex") {
        None => None,
        Some(regex) => match string_at(regex, "pattern") {
            None => None,
            Some(pattern) => match string_at(regex, "flags") {
                None => None,
                Some(flags) => Some(Form::RegExp { pattern, flags }),
            },
        },
    }
}

fn null_or_number_in<'a>(value: &Value<'a>) -> Option<Form<'a>>
    ensures { option_map form_of result ≡ null_or_number_in (view value.now) }
{
    if value.get("raw").is_some() {
        by_raw(string_at(value, "raw"), value)
    } else {
        by_value(value)
    }
}

fn by_raw<'a>(raw: Option<&'a str>, value: &Value<'a>) -> Option<Form<'a>>
    ensures { option_map form_of result ≡ by_raw (option_map (λ s. s.now) raw.entry) (get (codes "value") (view value.now)) }
{
    match raw {
        None => None,
        Some(raw) => {
            if raw == "null" {
                Some(Form::Null)
            } else if is_number_string(raw) && is_whole_or_absent(value) {
                Some(Form::Number(raw))
            } else {
                None
            }
        }
    }
}

fn is_whole_or_absent(value: &Value<'_>) -> bool
    ensures { result ≡ is_whole_or_absent (get (codes "value") (view value.now)) }
{
    match value.get("value") {
        None => true,
        Some(found) => found.is_null() || found.is_u64() || found.is_i64(),
    }
}

fn by_value<'a>(value: &Value<'a>) -> Option<Form<'a>>
    ensures { option_map form_of result ≡ by_value (get (codes "value") (view value.now)) }
{
    match value.get("value") {
        None => None,
        Some(found) => {
            if found.is_null() {
                Some(Form::Null)
            } else {
                match found.as_u64() {
                    None => None,
                    Some(n) => Some(Form::Whole(n)),
                }
            }
        }
    }
}

/// Whether what stands there may be a key that is not computed, as far as it is a literal.
pub fn may_be_key(value: &Value<'_>) -> bool
    ensures { result ≡ may_be_key (form_in (view value.now)) }
{
    match form_in(value) {
        None => true,
        Some(form) => is_key_form(form),
    }
}

fn is_key_form(form: Form) -> bool
    ensures { result ≡ is_key_form (form_of form.entry) }
{
    matches!(
        form,
        Form::String { .. } | Form::Number(_) | Form::Whole(_) | Form::BigInt(_)
    )
}

/// The value that a form stands for. Fails on allocation failure alone.
pub fn value_of(alloc: Global, form: Form) -> Result<LiteralValue, AllocError>
    ensures { IfOk result (λ v. v ≡ value_of (form_of form.entry)) }
{
    Ok(match form {
        Form::RegExp { pattern, flags } => {
            let pattern = Name::new(alloc, pattern)?;
            LiteralValue::RegExp {
                pattern,
                flags: Name::new(alloc, flags)?,
            }
        }
        Form::BigInt(digits) => LiteralValue::BigInt {
            digits: Name::new(alloc, digits)?,
        },
        Form::String { value, raw } => {
            let value = Name::new(alloc, value)?;
            LiteralValue::String {
                value,
                raw: nullable_name(alloc, raw)?,
            }
        }
        Form::Bool(boolean) => LiteralValue::Boolean(boolean),
        Form::Null => LiteralValue::Null,
        Form::Number(raw) => LiteralValue::Number {
            raw: Name::new(alloc, raw)?,
        },
        Form::Whole(n) => LiteralValue::Number {
            raw: Name::new(alloc, itoa::Buffer::new().format(n))?,
        },
    })
}
