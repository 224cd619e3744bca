// Each literal, string of a template, directive and private name is written as it was.

ghost use Rattle.std.specs.Prelude.{◌≡◌, IfOk};
ghost use Rattle.std.specs.Str.{chars};
ghost use Rattle.es_base.specs.Preorder.{preorder};
ghost use Rattle.es_base.specs.Tree.{child};
ghost use Rattle.es_base.specs.declared.kind.Kind.{Kind};
ghost use Rattle.es_binding_faults.specs.Seen.{seen};
ghost use Rattle.es_node.specs.View.{kind_of};
ghost use Rattle.es_steps.specs.Printable.{is_directive};
ghost use Rattle.es_lowered.specs.Texts as spec;
ghost use Rattle.es_lowered.specs.Texts.{all_have_their_texts, are_characters, has_its_text, is_beginning, is_new_name};
ghost use Rattle.es_owed_texts.specs.Written.{is_written_literal};

use crate::characters::has_name;
use crate::literals::{is_not_copied, is_plain};
use crate::written::Written;
use es_base::kind::Kind;
use es_generated::numbers::is_new;
use es_lexical::text::split_first;
use es_node::node::Node;
use es_owed::listed::Listed;
use es_seen_names::parts::string_at;
use es_tree::literal::LiteralRef;
use es_tree::statement::ExpressionStatementRef;
use std::alloc::{AllocError, Global};

/// Whether each literal, string of a template, directive and private name of what a program was lowered to is written as it
/// was: an old one as in the source, a new one as a lowering makes it or as a copy; and each new name has ASCII characters,
/// and others of names of the source, and begins with one of ASCII or as one of these names. Fails on allocation failure
/// alone.
pub fn texts_stay(
    alloc: Global,
    first: u32,
    source: &Listed,
    lowered: &Listed,
) -> Result<bool, AllocError>
    ensures { IfOk result (λ holds. holds ≡ spec.texts_stay first source.now.program.now lowered.now.program.now) }
{
    let written = Written::of(alloc, source)?;
    Ok(all_have_their_texts(first, &written, lowered.nodes.as_slice()))
}

fn all_have_their_texts(first: u32, source: &Written, nodes: &[&Node]) -> bool
    ensures { result ≡ all_have_their_texts first (seen source.now.listed.now.nodes.items) (seen nodes.now) }
{
    for node in nodes {
        if !has_its_text(first, source, node) {
            return false;
        }
    }
    true
}

/// Whether the node is written as it was, or as a new one may be.
#[tactic(auto, using(crate::proofs::WrittenNodes::literal_text, crate::proofs::WrittenNodes::template_text, crate::proofs::WrittenNodes::statement_text, crate::proofs::WrittenNodes::private_text, crate::proofs::WrittenNodes::other_text))]
fn has_its_text(first: u32, source: &Written, node: &Node) -> bool
    ensures { result ≡ has_its_text first (seen source.now.listed.now.nodes.items) node.now }
{
    let is_new = is_new(first, node.node_id().0);
    match node.kind() {
        // 'a'
        Kind::Literal => is_written_literal(is_new, source, node),
        // `a`
        Kind::TemplateElement => {
            if is_new {
                source.has_string(node.parts())
            } else {
                source.stands_equal(node)
            }
        }
        // 'use strict';
        Kind::ExpressionStatement => {
            is_new || (!is_directive(node) || source.stands_equal(node))
        }
        // #a
        Kind::PrivateIdentifier => {
            if is_new {
                is_new_name(source, string_at(node.parts(), 0))
            } else {
                source.stands_equal(node)
            }
        }
        kind => {
            !has_name(kind)
                || (source.stands_equal(node) || is_new_name(source, string_at(node.parts(), 0)))
        }
    }
}

/// Whether a literal, new or not, is written so.
#[tactic(auto, using(crate::proofs::WrittenNodes::written_node))]
fn is_written_literal(is_new: bool, source: &Written, node: &Node) -> bool
    requires { kind_of node.now ≡ Kind.Literal }
    ensures { result ≡ is_written_literal is_new (seen source.now.listed.now.nodes.items) node.now }
{
    let value = LiteralRef::from_node(node).value;
    if is_new {
        is_plain(value) || (source.has_literal(node.parts()) && !is_not_copied(value))
    } else {
        source.stands_equal(node)
    }
}

/// Whether the statement is a directive.
fn is_directive(statement: &Node) -> bool
    requires { kind_of statement.now ≡ Kind.ExpressionStatement }
    ensures { result ≡ is_directive (child statement.now) }
{
    ExpressionStatementRef::from_node(statement)
        .directive
        .is_some()
}

/// Whether a new name has the characters that it may have, the first where a name may begin with it.
fn is_new_name(source: &Written, name: &str) -> bool
    ensures { result ≡ is_new_name (seen source.now.listed.now.nodes.items) (chars name.now) }
{
    are_characters(source, name) && is_beginning(source, name)
}

/// Whether a new name begins with a character of ASCII, or as a name of the source.
fn is_beginning(source: &Written, name: &str) -> bool
    ensures { result ≡ is_beginning (seen source.now.listed.now.nodes.items) (chars name.now) }
{
    match split_first(name) {
        Some((first, _)) => first <= '\u{7f}' || source.beginnings.has(first),
        None => true,
    }
}

/// Whether the characters of a new name are of ASCII, or stand in names of the source.
fn are_characters(source: &Written, name: &str) -> bool
    ensures { result ≡ are_characters (seen source.now.listed.now.nodes.items) (chars name.now) }
{
    let mut rest = name;
    while let Some((first, behind)) = split_first(rest) {
        if !(first <= '\u{7f}' || source.characters.has(first)) {
            return false;
        }
        rest = behind;
    }
    true
}
