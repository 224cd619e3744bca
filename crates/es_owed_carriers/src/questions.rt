// `?.`, of which a form that a lowering makes has no event but `f?.call(o)`.

ghost use Rattle.std.specs.Prelude.{◌≡◌};
ghost use Rattle.es_lowered.specs.Carriers as spec;
ghost use Rattle.es_node.specs.View.{kind_of, parts_in, parts_of};

use es_base::kind::Kind;
use es_base::strings::spells;
use es_node::node::{Node, Part};
use es_seen_names::parts::{is_true_at, name_at};

/// Whether the node has a `?.`.
#[tactic(auto, using(crate::proofs::Optional::no_question))]
pub fn has_question(node: &Node) -> bool
    ensures { result ≡ spec.has_question (kind_of node.now) (parts_in node.now) }
{
    match node.kind() {
        // a?.b
        Kind::MemberExpression => is_true_at(node.parts(), 3),
        // a?.#b
        Kind::PrivateField => is_true_at(node.parts(), 3),
        // a?.()
        Kind::CallExpression => is_true_at(node.parts(), 2),
        _ => false,
    }
}

/// Whether a form that a lowering makes may have the `?.` of this node, if it has one.
#[tactic(auto, using(crate::proofs::Optional::member_question, crate::proofs::Optional::asks_nothing))]
pub fn may_question(node: &Node) -> bool
    ensures { result ≡ spec.may_question (kind_of node.now) (parts_in node.now) }
{
    match node.kind() {
        // f?.call
        Kind::MemberExpression => !has_question(node) || is_call_of(node.parts()),
        _ => !has_question(node),
    }
}

/// Whether it is the member `call` of an object, as `f.call`.
#[tactic(auto, using(es_base::proofs::Ascii::chars_ascii))]
fn is_call_of(parts: &[Part]) -> bool
    ensures { result ≡ spec.is_call_of (parts_of parts.now) }
{
    spells(name_at(parts, 1), "call") && !is_true_at(parts, 2)
}
