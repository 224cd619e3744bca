// Callees that are properties of names.

ghost use Rattle.std.specs.Prelude.{◌≡◌, option_map};
ghost use Rattle.es_base.specs.Tree.{child};
ghost use Rattle.es_owed_definitions.specs.Callees.{callee_by, callee_of, callee_on, callee_view};

use es_base::kind::Kind;
use es_node::node::Node;
use es_tree::expression::MemberExpressionRef;
use es_tree::identifier::{IdentifierNameRef, IdentifierReferenceRef};

/// A callee `object.property` where both are names.
#[derive(Clone, Copy)]
pub struct Callee<'a> {
    /// The number of the object.
    pub number: u32,
    pub object: &'a str,
    pub property: &'a str,
}

/// The property of a name that the node is, if it is one.
#[tactic(auto, using(crate::proofs::Calls::no_member, crate::proofs::Calls::member_node))]
pub fn callee_of(node: &Node) -> Option<Callee<'_>>
    ensures { option_map callee_view result ≡ callee_of (child node.now) }
{
    match node.kind() {
        // o.k
        Kind::MemberExpression => {
            let member = MemberExpressionRef::from_node(node);
            callee_by(member.object, member.property)
        }
        _ => None,
    }
}

#[tactic(auto, using(crate::proofs::Calls::no_object))]
fn callee_by<'a>(object: &'a Node, property: &'a Node) -> Option<Callee<'a>>
    ensures { option_map callee_view result ≡ callee_by object.now property.now }
{
    match object.kind() {
        Kind::IdentifierReference => callee_on(IdentifierReferenceRef::from_node(object), property),
        _ => None,
    }
}

#[tactic(auto, using(crate::proofs::Calls::no_property))]
fn callee_on<'a>(object: IdentifierReferenceRef<'a>, property: &'a Node) -> Option<Callee<'a>>
    ensures { option_map callee_view result ≡ callee_on object.entry.node_id.0 object.entry.name.now property.now }
{
    match property.kind() {
        Kind::IdentifierName => Some(Callee {
            number: object.node_id.0,
            object: object.name.as_str(),
            property: IdentifierNameRef::from_node(property).name.as_str(),
        }),
        _ => None,
    }
}
