// Literals, templates and directives (ECMA-262, 12.8, 11.2.1).

ghost use Rattle.std.specs.Prelude.{◌≡◌, cond, false, nat_eq, not};
ghost use Rattle.std.specs.Str.{chars};
ghost use Rattle.es_steps.specs.Printable.{is_good_literal, is_line_end, is_pattern, is_pattern_from, is_plain_directive, is_raw};
ghost use Rattle.es_base.specs.declared.literal.LiteralValue.TheVariants as literal_value;

use crate::numbers::{is_bigint, is_number};
use crate::text::{has_line_end, is_line_end, only_letters, split_first};
use es_base::literal::LiteralValue;

/// Whether the literal can be written.
pub fn is_good_literal(value: &LiteralValue) -> bool
    ensures { result ≡ is_good_literal value.now }
{
    match value {
        LiteralValue::Number { raw } => is_number(raw.as_str()),
        LiteralValue::BigInt { digits } => is_bigint(digits.as_str()),
        LiteralValue::RegExp { pattern, flags } => {
            is_pattern(pattern.as_str()) && only_letters(flags.as_str())
        }
        LiteralValue::String { .. } | LiteralValue::Boolean(_) | LiteralValue::Null => true,
    }
}

/// Whether the string is a pattern of a regular expression (12.8.5): no `*` first, no line end, outside classes no `/` without
/// a backslash, no open class and no backslash at the end.
fn is_pattern(text: &str) -> bool
    ensures { result ≡ is_pattern (chars text.now) }
{
    match split_first(text) {
        Some((first, _)) => first != '*' && (!has_line_end(text) && is_closed(text)),
        None => false,
    }
}

#[tactic(auto, using(crate::proofs::Scanning::pattern_more))]
fn is_closed(text: &str) -> bool
    ensures { result ≡ is_pattern_from false false (chars text.now) }
{
    let mut rest = text;
    let mut in_class = false;
    let mut escaped = false;
    while let Some((first, behind)) = split_first(rest) {
        if !(escaped || (in_class || first != '/')) {
            return false;
        }
        in_class = class_behind(in_class, escaped, first);
        escaped = !escaped && first == '\\';
        rest = behind;
    }
    !(in_class || escaped)
}

/// Whether a class is open behind a character, where one was in front of it or not.
fn class_behind(in_class: bool, escaped: bool, character: char) -> bool
    ensures { result ≡ cond escaped in_class (cond in_class (not (nat_eq character 93)) (nat_eq character 91)) }
{
    if escaped {
        in_class
    } else if in_class {
        character != ']'
    } else {
        character == '['
    }
}

/// Whether the string can be one of a template (12.8.6): no backquote and no `${` without a backslash, no backslash at the
/// end, no carriage return.
#[tactic(auto, using(crate::proofs::Scanning::raw_more))]
pub fn is_raw(text: &str) -> bool
    ensures { result ≡ is_raw false false (chars text.now) }
{
    let mut rest = text;
    let mut escaped = false;
    let mut dollar = false;
    while let Some((first, behind)) = split_first(rest) {
        if first == '\r' || (!escaped && (first == '`' || (dollar && first == '{'))) {
            return false;
        }
        dollar = !escaped && first == '$';
        escaped = !escaped && first == '\\';
        rest = behind;
    }
    !escaped
}

/// Whether the string has no `"`, backslash or line end.
pub fn is_plain_directive(text: &str) -> bool
    ensures { result ≡ is_plain_directive (chars text.now) }
{
    let mut rest = text;
    while let Some((first, behind)) = split_first(rest) {
        if first == '"' || (first == '\\' || is_line_end(first)) {
            return false;
        }
        rest = behind;
    }
    true
}
