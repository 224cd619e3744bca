// Names that are reserved words where they stand (ECMA-262, 12.7.2, 13.1.1, 15.7.1).

ghost use Rattle.std.specs.Prelude.{◌≡◌};
ghost use Rattle.es_base.specs.Tree.{nullable, nullable_trees, trees};
ghost use Rattle.es_node.specs.View.{part_of, parts_of};
ghost use Rattle.es_steps.specs.Reserved.{has_reserved, reserved_at, reserved_in};
ghost use Rattle.es_owed_printable.specs.Words.{reserved_from, words_of, words_within};

use crate::words::{Words, is_reserved, strict_if, words_inside};
use es_node::node::{Node, Part};
use es_strict::strict::makes_strict;

/// Whether the node or one below it is a name that is a reserved word, where these words are reserved.
#[cycle(reserved)]
#[tactic(auto, using(crate::proofs::Walks::reserved_node, es_node::proofs::Below::nodes_in))]
pub fn has_reserved(words: Words, node: &Node) -> bool
    ensures { result ≡ has_reserved (words_of words) node.now }
{
    is_reserved(words, node)
        || reserved_in(
            strict_if(makes_strict(node.kind(), node.parts()), words),
            node,
            node.parts(),
        )
}

/// Whether such a name stands in these parts of a node.
#[cycle(reserved)]
#[tactic(auto, using(crate::proofs::Walks::within_node))]
fn reserved_in(words: Words, node: &Node, parts: &[Part]) -> bool
    ensures { result ≡ reserved_from (words_within (words_of words) node.now) 0 (parts_of parts.now) }
{
    for (i, part) in parts.iter().enumerate() {
        if reserved_at(words_inside(words, node, i), part) {
            return true;
        }
    }
    false
}

#[cycle(reserved)]
fn reserved_at(words: Words, part: &Part) -> bool
    ensures { result ≡ reserved_at (words_of words) (part_of part.now) }
{
    match part {
        Part::Child(node) => has_reserved(words, node),
        Part::List(nodes) => reserved_of_list(words, nodes.as_slice()),
        Part::Holes(nodes) => reserved_of_list_with_holes(words, nodes.as_slice()),
        _ => false,
    }
}

#[cycle(reserved)]
fn reserved_of_list(words: Words, nodes: &[Node]) -> bool
    ensures { result ≡ reserved_in (λ i. words_of words) (trees nodes.now) }
{
    for node in nodes {
        if has_reserved(words, node) {
            return true;
        }
    }
    false
}

#[cycle(reserved)]
fn reserved_of_list_with_holes(words: Words, nodes: &[Option<Node>]) -> bool
    ensures { result ≡ reserved_in (λ i. words_of words) (nullable_trees nodes.now) }
{
    for node in nodes {
        if reserved_of_hole(words, node) {
            return true;
        }
    }
    false
}

#[cycle(reserved)]
fn reserved_of_hole(words: Words, node: &Option<Node>) -> bool
    ensures { result ≡ reserved_at (words_of words) (nullable node.now) }
{
    match node {
        Some(node) => has_reserved(words, node),
        None => false,
    }
}
