// A walk through a tree for what its types say of it: its numbers are below 2^32, and its strings are such
// as UTF-8 holds.

ghost use Rattle.es_base.specs.Carried.{span_of};
ghost use Rattle.es_base.specs.Tree.{nullable, trees, nullable_trees};
ghost use Rattle.es_base.specs.Words.{word_string};
ghost use Rattle.es_node.specs.View.{part_of, parts_of};
ghost use Rattle.es_writing.specs.Kept.{IsKept, PartIsKept, AreKept, SpanFits, IsString, IsNullableString, AreStrings};

use es_base::ids::Span;
use es_base::literal::LiteralValue;
use es_base::name::Name;
use es_base::operator::Word;
use es_base::word::word_str;
use es_node::node::{Node, Part};

/// Visits each number and each string of a tree: JSON can hold them all. Takes no memory.
#[cycle(kept)]
#[tactic(auto, using(crate::proofs::Keeping::tree_kept))]
pub fn visit_tree(node: &Node)
    ensures { IsKept node.now }
{
    let _number = node.node_id().0;
    visit_span(node.span());
    visit_parts(node.parts());
}

#[cycle(kept)]
fn visit_parts(parts: &[Part])
    ensures { AreKept (parts_of parts.now) }
{
    for part in parts {
        visit_part(part);
    }
}

#[cycle(kept)]
fn visit_part(part: &Part)
    ensures { PartIsKept (part_of part.now) }
{
    match part {
        Part::Child(node) => visit_tree(node),
        Part::List(nodes) => visit_nodes(nodes.as_slice()),
        Part::Holes(nodes) => visit_nullable_nodes(nodes.as_slice()),
        Part::String(string) => visit_string(string),
        Part::Word(word) => visit_word(*word),
        Part::Literal(value) => visit_literal(value),
        Part::Absent | Part::NoString | Part::Boolean(_) => {}
    }
}

#[cycle(kept)]
fn visit_nodes(nodes: &[Node])
    ensures { AreKept (trees nodes.now) }
{
    for node in nodes {
        visit_tree(node);
    }
}

#[cycle(kept)]
fn visit_nullable_nodes(nodes: &[Option<Node>])
    ensures { AreKept (nullable_trees nodes.now) }
{
    for node in nodes {
        visit_nullable_node(node);
    }
}

#[cycle(kept)]
fn visit_nullable_node(node: &Option<Node>)
    ensures { PartIsKept (nullable node.now) }
{
    match node {
        None => {}
        Some(node) => visit_tree(node),
    }
}

fn visit_span(_span: Option<Span>)
    ensures { SpanFits (span_of _span) }
{}

fn visit_literal(value: &LiteralValue)
    ensures { AreStrings value.now }
{
    match value {
        LiteralValue::String { value, raw } => {
            visit_string(value);
            visit_nullable_string(raw);
        }
        LiteralValue::Number { raw } => visit_string(raw),
        LiteralValue::BigInt { digits } => visit_string(digits),
        LiteralValue::RegExp { pattern, flags } => {
            visit_string(pattern);
            visit_string(flags);
        }
        LiteralValue::Boolean(_) | LiteralValue::Null => {}
    }
}

fn visit_nullable_string(string: &Option<Name>)
    ensures { IsNullableString string.now }
{
    match string {
        None => {}
        Some(string) => visit_string(string),
    }
}

#[tactic(auto, using(crate::proofs::Keeping::string_kept))]
fn visit_string(string: &Name)
    ensures { IsString string.now }
{
    let _string = string.as_str();
}

#[tactic(auto, using(crate::proofs::Keeping::word_kept))]
fn visit_word(word: Word)
    ensures { IsString (word_string word) }
{
    let _string = word_str(word);
}
