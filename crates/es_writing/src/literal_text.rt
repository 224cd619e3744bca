// The text of what a literal has at its members (ESTree).

ghost use Rattle.std.specs.Prelude.{◌≡◌, ◌++◌, OnOk, codes, option_map, option_and_then};
ghost use Rattle.es_node.specs.View.{parts_of};
ghost use Rattle.es_writing.specs.Slots.{bigint_of, data_tokens, literal_in, member_tokens, raw_of, regexp_of, value_of};
ghost use Rattle.es_writing.specs.Writing.{regex_of};

use crate::literal::boolean_string;
use crate::members::{write_boolean, write_null, write_str, write_string};
use es_base::literal::LiteralValue;
use es_base::name::Name;
use es_node::node::Part;
use json::Writer;
use std::alloc::AllocError;

/// The value of a literal.
pub fn literal_in(parts: &[Part]) -> Option<&LiteralValue>
    ensures { option_map (λ v. v.now) result ≡ literal_in (parts_of parts.now) }
{
    match parts {
        [Part::Literal(value), ..] => Some(value),
        _ => None,
    }
}

/// Writes `value`; null for what JSON cannot hold. Fails on allocation failure alone.
pub fn write_value(out: &mut Writer, value: Option<&LiteralValue>) -> Result<(), AllocError>
    ensures ok { OnOk result (out.new.tokens ≡ out.old.tokens ++ member_tokens (codes "value") (option_and_then value_of (option_map (λ v. v.now) value.entry))) }
    ensures before { out.new.before ≡ out.old.before }
{
    match value {
        None => Ok(()),
        Some(LiteralValue::String { value, .. }) => write_string(out, "value", value),
        Some(LiteralValue::Boolean(boolean)) => write_boolean(out, "value", *boolean),
        Some(_) => write_null(out, "value"),
    }
}

/// Writes `raw`, the source text, where it is known and no other member has it. Fails on allocation failure
/// alone.
pub fn write_raw(out: &mut Writer, value: Option<&LiteralValue>) -> Result<(), AllocError>
    ensures ok { OnOk result (out.new.tokens ≡ out.old.tokens ++ member_tokens (codes "raw") (option_and_then raw_of (option_map (λ v. v.now) value.entry))) }
    ensures before { out.new.before ≡ out.old.before }
{
    match value {
        Some(LiteralValue::String { raw: Some(raw), .. }) | Some(LiteralValue::Number { raw }) =>
            write_string(out, "raw", raw),
        Some(LiteralValue::Boolean(boolean)) => write_str(out, "raw", boolean_string(*boolean)),
        Some(LiteralValue::Null) => write_str(out, "raw", "null"),
        _ => Ok(()),
    }
}

/// Writes `bigint`, the digits of a bigint. Fails on allocation failure alone.
pub fn write_bigint(out: &mut Writer, value: Option<&LiteralValue>) -> Result<(), AllocError>
    ensures ok { OnOk result (out.new.tokens ≡ out.old.tokens ++ member_tokens (codes "bigint") (option_and_then bigint_of (option_map (λ v. v.now) value.entry))) }
    ensures before { out.new.before ≡ out.old.before }
{
    match value {
        Some(LiteralValue::BigInt { digits }) => write_string(out, "bigint", digits),
        _ => Ok(()),
    }
}

/// Writes `regex`, the object of a regular expression. Fails on allocation failure alone.
pub fn write_regexp(out: &mut Writer, value: Option<&LiteralValue>) -> Result<(), AllocError>
    ensures ok { OnOk result (out.new.tokens ≡ out.old.tokens ++ member_tokens (codes "regex") (option_and_then regexp_of (option_map (λ v. v.now) value.entry))) }
    ensures before { out.new.before ≡ out.old.before }
{
    match value {
        Some(LiteralValue::RegExp { pattern, flags }) => {
            out.key("regex")?;
            write_regex(out, pattern, flags)
        }
        _ => Ok(()),
    }
}

fn write_regex(out: &mut Writer, pattern: &Name, flags: &Name) -> Result<(), AllocError>
    ensures ok { OnOk result (out.new.tokens ≡ out.old.tokens ++ data_tokens (regex_of pattern.now flags.now)) }
    ensures before { out.new.before ≡ out.old.before }
{
    out.begin_object()?;
    write_string(out, "flags", flags)?;
    write_string(out, "pattern", pattern)?;
    out.end_object()
}
