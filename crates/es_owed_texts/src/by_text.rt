// Texts of literals and of strings of templates, by whose numbers these are looked up.
//
// Two nodes of one text have one number, whatever it is: that is all that a look-up rests on. That other texts have other
// numbers makes it fast.

ghost use Rattle.std.specs.Prelude.{◌≡◌, ℕ, IfOk};
ghost use Rattle.std.specs.Str.{chars};
ghost use Rattle.es_by_number.specs.Numbered.{pairs};
ghost use Rattle.es_grouped.specs.Groups.{group, having};
ghost use Rattle.es_node.specs.View.{part_of, parts_of};
ghost use Rattle.es_steps.specs.Parts.{at};
ghost use Rattle.es_owed_texts.specs.TextNumbers.{has_text, literal_text, numbered_texts, text_of};

use es_base::kind::Kind;
use es_base::literal::LiteralValue;
use es_base::word::word_str;
use es_binding_faults::hoisted::part_at;
use es_binding_faults::leasts::Leasts;
use es_by_number::numbered::Numbered;
use es_generated::spellings::spelling_number;
use es_grouped::Grouped;
use es_node::node::{Node, Part};
use std::alloc::{AllocError, Global};

/// A number for each text of these nodes. Fails on allocation failure alone.
pub fn texts<'a>(alloc: Global, nodes: &[&'a Node]) -> Result<Leasts<'a>, AllocError> {
    let mut texts = Leasts::new(alloc);
    for node in nodes {
        add_text(node, &mut texts)?;
    }
    Ok(texts)
}

fn add_text<'a>(node: &'a Node, texts: &mut Leasts<'a>) -> Result<(), AllocError> {
    if has_text(node.kind()) {
        texts.add(text_at(node.parts()), node.node_id().0)?;
    }
    Ok(())
}

/// The literals and strings of templates among these nodes by the numbers of their texts. Fails on allocation failure alone.
pub fn by_text<'a>(
    alloc: Global,
    texts: &Leasts,
    nodes: &[&'a Node],
) -> Result<Grouped<&'a Node>, AllocError>
    ensures { IfOk result (λ g. (m : ℕ) → group m g ≡ having m (numbered_texts texts.now nodes.now)) }
{
    let items = with_numbers(alloc, texts, nodes)?;
    Grouped::of(alloc, items)
}

/// The literals and strings of templates, each with the number of its text. Fails on allocation failure alone.
fn with_numbers<'a>(
    alloc: Global,
    texts: &Leasts,
    nodes: &[&'a Node],
) -> Result<Vec<Numbered<&'a Node>>, AllocError>
    ensures { IfOk result (λ r. pairs r.items ≡ numbered_texts texts.now nodes.now) }
{
    let mut items = Vec::new(alloc);
    for node in nodes {
        if has_text(node.kind()) {
            items.push(Numbered {
                number: spelling_number(text_at(node.parts()), texts),
                value: *node,
            })?;
        }
    }
    Ok(items)
}

// ---- texts

/// Whether a node of this kind may be copied by its text.
fn has_text(kind: Kind) -> bool
    ensures { result ≡ has_text kind }
{
    matches!(kind, Kind::Literal | Kind::TemplateElement)
}

/// The text of a node with these members.
#[tactic(auto, using(es_seen_names::proofs::Strings::no_characters))]
pub fn text_at(parts: &[Part]) -> &str
    ensures { chars result.now ≡ text_of (at 0 (parts_of parts.now)) }
{
    match part_at(parts, 0) {
        Some(part) => text_of(part),
        None => "",
    }
}

/// The text of a node whose first member this is.
#[tactic(auto, using(es_base::proofs::Spelling::chars_of_word, es_seen_names::proofs::Strings::no_characters))]
fn text_of(part: &Part) -> &str
    ensures { chars result.now ≡ text_of (part_of part.now) }
{
    match part {
        Part::Literal(value) => literal_text(value),
        Part::String(name) => name.as_str(),
        Part::Word(word) => word_str(*word),
        _ => "",
    }
}

/// The source text of a literal, the digits of a bigint, or the pattern of a regular expression.
#[tactic(auto, using(es_seen_names::proofs::Strings::no_characters))]
fn literal_text(value: &LiteralValue) -> &str
    ensures { chars result.now ≡ literal_text value.now }
{
    match value {
        // 'a'
        LiteralValue::String { raw, .. } => match raw {
            Some(raw) => raw.as_str(),
            None => "",
        },
        // 10
        LiteralValue::Number { raw } => raw.as_str(),
        // 10n
        LiteralValue::BigInt { digits } => digits.as_str(),
        // /a/
        LiteralValue::RegExp { pattern, .. } => pattern.as_str(),
        _ => "",
    }
}
