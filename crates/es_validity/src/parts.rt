// Tests of nodes that stand at members.

ghost use Rattle.std.specs.Prelude.{◌≡◌, bytes_eq, true, None};
ghost use Rattle.es_base.specs.Ascii.{is_ascii};
ghost use Rattle.es_base.specs.Tree as tree;
ghost use Rattle.es_base.specs.Tree.{end, more, child, literal};
ghost use Rattle.es_base.specs.declared.kind.Kind.{Kind};
ghost use Rattle.es_node.specs.View.{kind_of, parts_in};
ghost use Rattle.es_steps.specs.LoweredClasses.{is_private_key};
ghost use Rattle.es_steps.specs.Printable.{has_id, is_suspending, is_spelled, is_super_part, has_optional};
ghost use Rattle.es_validity.specs.Rules.{is_private_field, ends_in_private, is_super_member, is_super_member_part};

use es_base::kind::Kind;
use es_base::literal::LiteralValue;
use es_base::name::Name;
use es_base::strings::is_word;
use es_node::node::Node;
use es_tree::expression::{
    CallExpressionRef, ChainExpressionRef, MemberExpressionRef, PrivateFieldRef,
};
use es_tree::function::FunctionExpressionRef;
use es_tree::identifier::IdentifierNameRef;
use es_tree::literal::LiteralRef;

/// Whether the name is this ASCII string.
#[tactic(auto, using(es_base::proofs::Ascii::chars_ascii))]
pub fn is_string(name: &Name, string: &str) -> bool
    requires { is_ascii string.now ≡ true }
    ensures { result ≡ bytes_eq string.now name.now }
{
    is_word(name.as_str(), string)
}

/// `super`.
#[tactic(auto, using(crate::proofs::OfKinds::super_kind))]
pub fn is_super(node: &Node) -> bool
    ensures { result ≡ is_super_part (child node.now) }
{
    matches!(node.kind(), Kind::Super)
}

/// `#x`.
#[tactic(auto, using(crate::proofs::OfKinds::private_key_kind))]
pub fn is_private_key(node: &Node) -> bool
    ensures { result ≡ is_private_key (child node.now) }
{
    matches!(node.kind(), Kind::PrivateIdentifier)
}

/// `o.#x`.
#[tactic(auto, using(crate::proofs::OfKinds::private_field_kind))]
fn is_private_field(node: &Node) -> bool
    ensures { result ≡ is_private_field (child node.now) }
{
    matches!(node.kind(), Kind::PrivateField)
}

/// `o.#x`, `o?.#x`.
#[tactic(auto, using(crate::proofs::OfKinds::private_end, crate::proofs::OfKinds::no_private_end))]
pub fn ends_in_private(node: &Node) -> bool
    ensures { result ≡ ends_in_private (child node.now) }
{
    match node.kind() {
        Kind::PrivateField => true,
        Kind::ChainExpression => {
            is_private_field(ChainExpressionRef::from_node(node).expression)
        }
        _ => false,
    }
}

/// `super.x`.
#[tactic(auto, using(crate::proofs::OfKinds::no_super_member, crate::proofs::OfKinds::super_member_part))]
pub fn is_super_member(node: &Node) -> bool
    ensures of_node { result ≡ is_super_member (kind_of node.now) (parts_in node.now) }
    ensures of_part { result ≡ is_super_member_part (child node.now) }
{
    match node.kind() {
        Kind::MemberExpression => is_super(MemberExpressionRef::from_node(node).object),
        _ => false,
    }
}

/// Whether a function has a name of its own.
#[tactic(auto, using(crate::proofs::OfKinds::no_id))]
pub fn has_id(node: &Node) -> bool
    ensures { result ≡ has_id (child node.now) }
{
    match node.kind() {
        Kind::FunctionExpression => FunctionExpressionRef::from_node(node).id.is_some(),
        _ => false,
    }
}

/// Whether a function is async or a generator.
#[tactic(auto, using(crate::proofs::OfKinds::no_suspending))]
pub fn is_suspending(node: &Node) -> bool
    ensures { result ≡ is_suspending (child node.now) }
{
    match node.kind() {
        Kind::FunctionExpression => {
            let function = FunctionExpressionRef::from_node(node);
            function.is_async || function.generator
        }
        _ => false,
    }
}

/// Whether a key, not computed, is this name, or this string as a literal.
#[tactic(auto, using(crate::proofs::OfKinds::no_spelled))]
pub fn is_spelled(string: &str, key: &Node) -> bool
    requires { is_ascii string.now ≡ true }
    ensures { result ≡ is_spelled string.now (child key.now) }
{
    match key.kind() {
        Kind::IdentifierName => is_string(IdentifierNameRef::from_node(key).name, string),
        Kind::Literal => is_string_literal(string, LiteralRef::from_node(key).value),
        _ => false,
    }
}

/// Whether the value of a literal is this string.
fn is_string_literal(text: &str, value: &LiteralValue) -> bool
    requires { is_ascii text.now ≡ true }
    ensures { result ≡ is_spelled text.now (child (tree.Node Kind.Literal 0 None None (more (literal value.now) end))) }
{
    match value {
        LiteralValue::String { value, .. } => is_string(value, text),
        _ => false,
    }
}

/// Whether a `?.` stands in the spine that ends in this node: `a?.b.c`.
#[tactic(auto, using(crate::proofs::OfKinds::no_optional, es_node::proofs::Below::nodes_in))]
pub fn has_optional(node: &Node) -> bool
    ensures { result ≡ has_optional node.now }
{
    match node.kind() {
        Kind::MemberExpression => {
            let member = MemberExpressionRef::from_node(node);
            member.optional || has_optional(member.object)
        }
        Kind::PrivateField => {
            let member = PrivateFieldRef::from_node(node);
            member.optional || has_optional(member.object)
        }
        Kind::CallExpression => {
            let call = CallExpressionRef::from_node(node);
            call.optional || has_optional(call.callee)
        }
        _ => false,
    }
}
