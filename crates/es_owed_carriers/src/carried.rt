// Each node of a lowered program stands for one of the source, or is new and of a kind that a lowering makes.

ghost use Rattle.std.specs.Prelude.{◌≡◌, ◌&&◌, ◌||◌, IfOk};
ghost use Rattle.std.specs.Str.{chars};
ghost use Rattle.es_binding_faults.specs.Seen.{seen};
ghost use Rattle.es_lowered.specs.Carriers as spec;
ghost use Rattle.es_lowered.specs.Carriers.{all_carried, becomes, has_its_name, is_carried, stands_for_node};
ghost use Rattle.es_lowered.specs.KeptWords.{keeps_words};
ghost use Rattle.es_node.specs.View.{kind_of, number_in, parts_in};
ghost use Rattle.es_steps.specs.Parts.{at, string_of};
ghost use Rattle.es_steps.specs.SameTrees.{same_kind};
ghost use Rattle.es_owed_carriers.specs.Carried.{carries_node, is_carried_among, is_made_so};

use crate::bound::bound_stay;
use crate::forms::{OddForm, keeps_form, odd_form};
use crate::kinds::{becomes, is_made, is_reference, named_by};
use crate::questions::{has_question, may_question};
use crate::targets::{assigns_super, keeps_target};
use crate::words::keeps_words;
use es_base::kind::Kind;
use es_base::strings::is_word;
use es_generated::numbers::is_new;
use es_node::node::Node;
use es_owed::homes::is_underscored;
use es_owed::listed::Listed;
use es_owed::same::same_kind;
use es_seen_names::parts::string_at;
use std::alloc::{AllocError, Global};

/// Whether each node of what a program was lowered to is new and of a kind that a lowering makes, or stands for the node of
/// the source that has its number, as of that kind with its words or as what a lowering makes of it; and what `bound_stay`
/// asks. Fails on allocation failure alone.
pub fn numbers_carried(
    alloc: Global,
    first: u32,
    source: &Listed,
    lowered: &Listed,
) -> Result<bool, AllocError>
    ensures { IfOk result (λ holds. holds ≡ spec.numbers_carried first source.now.program.now lowered.now.program.now) }
{
    if all_carried(first, source, lowered.nodes.as_slice()) {
        bound_stay(alloc, first, source.program, lowered.program)
    } else {
        Ok(false)
    }
}

fn all_carried(first: u32, source: &Listed, nodes: &[&Node]) -> bool
    ensures { result ≡ all_carried first (seen source.now.nodes.items) (seen nodes.now) }
{
    for node in nodes {
        if !is_carried(first, source, node) {
            return false;
        }
    }
    true
}

/// Whether the node stands for one of the source, or is new and as a lowering makes it.
#[tactic(auto, using(crate::proofs::CarriedNodes::carried_node))]
fn is_carried(first: u32, source: &Listed, node: &Node) -> bool
    ensures { result ≡ is_carried first (seen source.now.nodes.items) node.now }
{
    if is_new(first, node.node_id().0) {
        is_made_so(node)
    } else {
        stands_for_node(node, source)
    }
}

// ---- new nodes

/// Whether a lowering makes such a node.
fn is_made_so(node: &Node) -> bool
    ensures { result ≡ is_made_so (kind_of node.now) (parts_in node.now) }
{
    (is_made(node.kind()) && !assigns_super(node))
        && (keeps_form(OddForm::None, odd_form(node)) && may_question(node))
}

// ---- nodes of the source

/// Whether a node of the source has this node's number, and may become it.
#[tactic(auto, using(crate::proofs::CarriedNodes::stands_numbered))]
fn stands_for_node(node: &Node, source: &Listed) -> bool
    ensures { result ≡ stands_for_node (kind_of node.now) (number_in node.now) (parts_in node.now) (seen source.now.nodes.items) }
{
    is_carried_among(node, source.numbered(node.node_id().0))
}

/// Whether one of these has this node's number, and may become it.
fn is_carried_among(node: &Node, nodes: &[&Node]) -> bool
    ensures { result ≡ is_carried_among node.now (seen nodes.now) }
{
    for other in nodes {
        if node.node_id().0 == other.node_id().0 && carries(other, node) {
            return true;
        }
    }
    false
}

/// Whether a node of the source may become this node.
#[tactic(auto, using(crate::proofs::CarriedNodes::carries_by_node))]
fn carries(node: &Node, other: &Node) -> bool
    ensures { result ≡ carries_node other.now node.now }
{
    let kind = node.kind();
    if is_reference(other.kind()) {
        has_its_name(
            kind,
            string_at(node.parts(), 0),
            string_at(other.parts(), 0),
        )
    } else {
        is_kept_or_becomes(node, other)
            && (keeps_target(node, other)
                && (keeps_form(odd_form(node), odd_form(other))
                    && (has_question(node) || may_question(other))))
    }
}

/// Whether a node of the source has the kind and the words of this node, or a lowering makes its kind of that one.
fn is_kept_or_becomes(node: &Node, other: &Node) -> bool
    ensures { result ≡ ((same_kind (kind_of node.now) (kind_of other.now) && keeps_words (kind_of node.now) (parts_in node.now) (parts_in other.now)) || becomes (kind_of node.now) (kind_of other.now)) }
{
    let kind = node.kind();
    (same_kind(kind, other.kind()) && keeps_words(kind, node.parts(), other.parts()))
        || becomes(kind, other.kind())
}

/// Whether an identifier that a node of this kind with this name becomes may have the other name.
fn has_its_name(kind: Kind, name: &str, other: &str) -> bool
    ensures { result ≡ has_its_name kind (chars name.now) (chars other.now) }
{
    named_by(kind) && ((is_reference(kind) && is_word(other, name)) || is_underscored(other))
}
