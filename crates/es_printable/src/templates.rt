// Literals and templates that can be written (ECMA-262, 12.8).

ghost use Rattle.std.specs.Prelude.{◌≡◌, cond, not};
ghost use Rattle.es_base.specs.Tree.{child, end, more, nullable, nullable_trees, trees};
ghost use Rattle.es_node.specs.View.{kind_of, part_of, parts_in, parts_of};
ghost use Rattle.es_steps.specs.Parts.{at, is_true};
ghost use Rattle.es_steps.specs.Printable as spec;
ghost use Rattle.es_printable.specs.Members.{is_string, is_uncooked_part};
ghost use Rattle.es_steps.specs.Printable.{any_uncooked, has_uncooked, is_uncooked, lacks_cooked, tails_fit};

use es_base::kind::Kind;
use es_binding_faults::hoisted::part_at;
use es_lexical::literals::{is_good_literal, is_raw};
use es_node::node::{Node, Part};
use es_seen_names::parts::{is_true_at, string_at};
use es_tree::expression::{TaggedTemplateExpressionRef, TemplateLiteralRef};
use es_tree::literal::LiteralRef;

/// Whether the node is a literal that cannot be written.
#[tactic(auto, using(crate::proofs::NodeForms::no_literal))]
pub fn is_bad_literal(node: &Node) -> bool
    ensures { result ≡ spec.is_bad_literal (kind_of node.now) (parts_in node.now) }
{
    match node.kind() {
        // 1
        Kind::Literal => !is_good_literal(LiteralRef::from_node(node).value),
        _ => false,
    }
}

/// Whether the node is a template that cannot be written, or a string of one.
#[tactic(auto, using(crate::proofs::NodeForms::no_template, crate::proofs::NodeForms::template_string))]
pub fn is_bad_template(node: &Node) -> bool
    ensures { result ≡ spec.is_bad_template (kind_of node.now) (parts_in node.now) }
{
    match node.kind() {
        Kind::TemplateElement => !is_raw(string_at(node.parts(), 0)),
        // `a${b}c`
        Kind::TemplateLiteral => !tails_fit(TemplateLiteralRef::from_node(node).quasis),
        _ => false,
    }
}

/// Whether the last of these strings, and no other, is marked as the last.
#[tactic(auto, using(crate::proofs::NodeForms::tails_more))]
fn tails_fit(strings: &[Node]) -> bool
    ensures { result ≡ tails_fit (trees strings.now) }
{
    let mut rest = strings;
    while let Some((first, behind)) = rest.split_first() {
        if !tail_fits(first, behind.is_empty()) {
            return false;
        }
        rest = behind;
    }
    true
}

fn tail_fits(string: &Node, is_last: bool) -> bool
    ensures { result ≡ cond is_last (is_true (at 2 (parts_in string.now))) (not (is_true (at 2 (parts_in string.now)))) }
{
    if is_last {
        is_true_at(string.parts(), 2)
    } else {
        !is_true_at(string.parts(), 2)
    }
}

// ---- strings without a cooked form

/// Whether a template below the node, that is no quasi of a tag, has a string without a cooked form (12.8.6.1).
#[tactic(auto, using(crate::proofs::NodeForms::no_tag))]
pub fn has_uncooked(node: &Node) -> bool
    ensures { result ≡ has_uncooked (kind_of node.now) (parts_in node.now) }
{
    match node.kind() {
        // f`a`
        Kind::TaggedTemplateExpression => {
            is_uncooked(TaggedTemplateExpressionRef::from_node(node).tag)
        }
        _ => any_uncooked(node.parts()),
    }
}

#[tactic(auto, using(crate::proofs::NodeForms::uncooked_more))]
fn any_uncooked(parts: &[Part]) -> bool
    ensures { result ≡ any_uncooked (parts_of parts.now) }
{
    for part in parts {
        if is_part_uncooked(part) {
            return true;
        }
    }
    false
}

fn is_part_uncooked(part: &Part) -> bool
    ensures { result ≡ is_uncooked_part (part_of part.now) }
{
    match part {
        Part::Child(node) => is_uncooked(node),
        Part::List(nodes) => is_any_uncooked(nodes.as_slice()),
        Part::Holes(nodes) => is_any_hole_uncooked(nodes.as_slice()),
        _ => false,
    }
}

fn is_any_uncooked(nodes: &[Node]) -> bool
    ensures { result ≡ any_uncooked (trees nodes.now) }
{
    for node in nodes {
        if is_uncooked(node) {
            return true;
        }
    }
    false
}

fn is_any_hole_uncooked(nodes: &[Option<Node>]) -> bool
    ensures { result ≡ any_uncooked (nullable_trees nodes.now) }
{
    for node in nodes {
        if is_hole_uncooked(node) {
            return true;
        }
    }
    false
}

fn is_hole_uncooked(node: &Option<Node>) -> bool
    ensures { result ≡ is_uncooked (nullable node.now) }
{
    match node {
        Some(node) => is_uncooked(node),
        None => false,
    }
}

#[tactic(auto, using(crate::proofs::NodeForms::no_uncooked))]
fn is_uncooked(node: &Node) -> bool
    ensures { result ≡ is_uncooked (child node.now) }
{
    match node.kind() {
        Kind::TemplateLiteral => lacks_cooked(TemplateLiteralRef::from_node(node).quasis),
        _ => false,
    }
}

/// Whether one of these strings has no cooked form.
#[tactic(auto, using(crate::proofs::NodeForms::lacks_more))]
fn lacks_cooked(strings: &[Node]) -> bool
    ensures { result ≡ lacks_cooked (trees strings.now) }
{
    for string in strings {
        if is_raw_alone(string) {
            return true;
        }
    }
    false
}

/// Whether the string of a template has no cooked form.
#[tactic(auto, using(crate::proofs::NodeForms::raw_alone))]
fn is_raw_alone(string: &Node) -> bool
    ensures { result ≡ lacks_cooked (more (child string.now) end) }
{
    match part_at(string.parts(), 1) {
        Some(part) => !is_string(part),
        None => true,
    }
}

fn is_string(part: &Part) -> bool
    ensures { result ≡ is_string (part_of part.now) }
{
    matches!(part, Part::String(_) | Part::Word(_))
}
