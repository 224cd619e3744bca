// Names that can be written.

ghost use Rattle.std.specs.Prelude.{◌≡◌};
ghost use Rattle.es_node.specs.View.{kind_of, parts_in};
ghost use Rattle.es_steps.specs.Printable as spec;

use es_base::kind::Kind;
use es_lexical::names::{is_name, is_reserved_everywhere};
use es_node::node::Node;
use es_seen_names::parts::{name_at, string_at};

/// Whether the node is a name that cannot be written (12.7).
#[tactic(auto, using(crate::proofs::NodeForms::reference_name, crate::proofs::NodeForms::binding_name, crate::proofs::NodeForms::property_name, crate::proofs::NodeForms::private_name, crate::proofs::NodeForms::no_name))]
pub fn is_bad_name(node: &Node) -> bool
    ensures { result ≡ spec.is_bad_name (kind_of node.now) (parts_in node.now) }
{
    let name = string_at(node.parts(), 0);
    match node.kind() {
        // a
        Kind::IdentifierReference => !is_name(name) || is_reserved_everywhere(name),
        Kind::BindingIdentifier => !is_name(name) || is_reserved_everywhere(name),
        // o.a
        Kind::IdentifierName => !is_name(name),
        // #a
        Kind::PrivateIdentifier => !is_name(name),
        _ => false,
    }
}

/// Whether the node has a label that is a reserved word.
#[tactic(auto, using(crate::proofs::NodeForms::labelled_name, crate::proofs::NodeForms::broken_name, crate::proofs::NodeForms::continued_name, crate::proofs::NodeForms::no_label))]
pub fn is_bad_label(node: &Node) -> bool
    ensures { result ≡ spec.is_bad_label (kind_of node.now) (parts_in node.now) }
{
    match node.kind() {
        // a: ;
        Kind::LabeledStatement => is_reserved_everywhere(name_at(node.parts(), 0)),
        // break a;
        Kind::BreakStatement => is_reserved_everywhere(name_at(node.parts(), 0)),
        // continue a;
        Kind::ContinueStatement => is_reserved_everywhere(name_at(node.parts(), 0)),
        _ => false,
    }
}
