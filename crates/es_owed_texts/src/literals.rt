// Literals and strings of templates that are new: as lowerings make them, or as copies.

ghost use Rattle.std.specs.Prelude.{◌≡◌};
ghost use Rattle.std.specs.Str.{chars};
ghost use Rattle.es_base.specs.Tree.{literal};
ghost use Rattle.es_base.specs.declared.literal.LiteralValue.TheVariants as literal_value;
ghost use Rattle.es_binding_faults.specs.Seen.{seen};
ghost use Rattle.es_node.specs.View.{parts_of};
ghost use Rattle.es_steps.specs.References.{has_number};
ghost use Rattle.es_lowered.specs.Texts.{is_literal_among, is_not_copied, is_plain, is_string_among};
ghost use Rattle.es_owed_texts.specs.Written.{is_copy_of};

use es_base::kind::Kind;
use es_base::literal::LiteralValue;
use es_lexical::text::{is_digit, split_first};
use es_node::node::{Node, Part};
use es_owed::same::{same_kind, same_members};

/// Whether a lowering makes such a literal: a number of one digit, a string without a source text, a boolean, `null`.
pub fn is_plain(value: &LiteralValue) -> bool
    ensures { result ≡ is_plain (literal value.now) }
{
    match value {
        LiteralValue::String { raw, .. } => raw.is_none(),
        LiteralValue::Number { raw } => is_one_character(raw.as_str()),
        LiteralValue::BigInt { .. } | LiteralValue::RegExp { .. } => false,
        LiteralValue::Boolean(_) | LiteralValue::Null => true,
    }
}

fn is_one_character(raw: &str) -> bool
    ensures { result ≡ is_plain (literal (literal_value.Number (chars raw.now))) }
{
    match split_first(raw) {
        Some((_, rest)) => split_first(rest).is_none(),
        None => false,
    }
}

/// Whether the literal may not be copied: a number or a string that strict code has not, `010` and `'\10'` (12.8.3.1,
/// 12.8.4.1), or a regular expression, which would be another object (13.2.7).
pub fn is_not_copied(value: &LiteralValue) -> bool
    ensures { result ≡ is_not_copied (literal value.now) }
{
    match value {
        // 010
        LiteralValue::Number { raw } => has_leading_zero(raw.as_str()),
        // '\10'
        LiteralValue::String { raw, .. } => match raw {
            Some(raw) => has_backslash(raw.as_str()),
            None => false,
        },
        // /a/
        LiteralValue::RegExp { .. } => true,
        _ => false,
    }
}

fn has_leading_zero(raw: &str) -> bool
    ensures { result ≡ is_not_copied (literal (literal_value.Number (chars raw.now))) }
{
    match split_first(raw) {
        Some((first, rest)) => match split_first(rest) {
            Some((second, _)) => first == '0' && is_digit(second),
            None => false,
        },
        None => false,
    }
}

fn has_backslash(raw: &str) -> bool
    ensures { result ≡ has_number 92 (chars raw.now) }
{
    let mut rest = raw;
    while let Some((first, behind)) = split_first(rest) {
        if first == '\\' {
            return true;
        }
        rest = behind;
    }
    false
}

/// Whether a literal among these nodes has these members.
#[tactic(auto, using(crate::proofs::WrittenNodes::literal_more))]
pub fn is_literal_among(parts: &[Part], nodes: &[&Node]) -> bool
    ensures { result ≡ is_literal_among (parts_of parts.now) (seen nodes.now) }
{
    for node in nodes {
        if is_copy_of(Kind::Literal, parts, node) {
            return true;
        }
    }
    false
}

/// Whether a string of a template among these nodes has these members.
#[tactic(auto, using(crate::proofs::WrittenNodes::string_more))]
pub fn is_string_among(parts: &[Part], nodes: &[&Node]) -> bool
    ensures { result ≡ is_string_among (parts_of parts.now) (seen nodes.now) }
{
    for node in nodes {
        if is_copy_of(Kind::TemplateElement, parts, node) {
            return true;
        }
    }
    false
}

/// Whether the node is of this kind and has these members.
#[tactic(auto, using(crate::proofs::WrittenNodes::copy_node))]
fn is_copy_of(kind: Kind, parts: &[Part], node: &Node) -> bool
    ensures { result ≡ is_copy_of kind (parts_of parts.now) node.now }
{
    same_kind(kind, node.kind()) && same_members(parts, node.parts())
}
