// The forms that generated names are given.

ghost use Rattle.std.specs.Prelude.{◌≡◌, codes, is_some, option_map};
ghost use Rattle.std.specs.Str.{chars};
ghost use Rattle.es_base.specs.Tree.{child};
ghost use Rattle.es_owed_initialized.specs.Forms.{has_none, is_babel_helpers, is_property_named, is_reference_named, only_tree};
ghost use Rattle.es_lowered.specs.Definitions as definitions;
ghost use Rattle.es_lowered.specs.HelperCalls as calls;
ghost use Rattle.es_lowered.specs.Lowered as spec;
ghost use Rattle.es_steps.specs.Parts.{is_present};

use es_base::kind::Kind;
use es_base::strings::{is_word, spells};
use es_generated::numbers::is_new;
use es_node::node::Node;
use es_tree::expression::{
    CallExpressionRef, MemberExpressionRef, NewExpressionRef, ObjectExpressionRef, PropertyRef,
};
use es_tree::identifier::{IdentifierNameRef, IdentifierReferenceRef};

/// Whether the node is `new NAME()`.
#[tactic(auto, using(crate::proofs::GivenForms::new_of, crate::proofs::GivenForms::no_new))]
fn is_new_of(name: &str, node: &Node) -> bool
    ensures { result ≡ spec.is_new_of (chars name.now) (child node.now) }
{
    match node.kind() {
        // new WeakMap()
        Kind::NewExpression => {
            let construction = NewExpressionRef::from_node(node);
            has_none(construction.arguments) && is_reference_named(name, construction.callee)
        }
        _ => false,
    }
}

/// Whether the node is `new WeakMap()`.
#[tactic(auto, using(es_base::proofs::Ascii::chars_ascii))]
pub fn is_new_weak_map(node: &Node) -> bool
    ensures { result ≡ spec.is_new_of (codes "WeakMap") (child node.now) }
{
    is_new_of("WeakMap", node)
}

/// Whether the node is `new WeakSet()`.
#[tactic(auto, using(es_base::proofs::Ascii::chars_ascii))]
pub fn is_new_weak_set(node: &Node) -> bool
    ensures { result ≡ spec.is_new_of (codes "WeakSet") (child node.now) }
{
    is_new_of("WeakSet", node)
}

/// Whether the node is a reference of this name.
#[tactic(auto, using(crate::proofs::GivenForms::no_reference))]
fn is_reference_named(name: &str, node: &Node) -> bool
    ensures { result ≡ is_reference_named (chars name.now) node.now }
{
    match node.kind() {
        Kind::IdentifierReference => {
            is_word(IdentifierReferenceRef::from_node(node).name.as_str(), name)
        }
        _ => false,
    }
}

/// Whether the node is a function or an arrow.
#[tactic(auto, using(crate::proofs::GivenForms::function_by_kind))]
pub fn is_function_value(node: &Node) -> bool
    ensures { result ≡ spec.is_function_part (child node.now) }
{
    matches!(
        node.kind(),
        Kind::FunctionExpression | Kind::ArrowFunctionExpression
    )
}

/// Whether the node is a call of the helper that makes a key of a private member.
#[tactic(auto, using(crate::proofs::GivenForms::key_call, crate::proofs::GivenForms::no_key_call))]
pub fn is_key_call(first: u32, node: &Node) -> bool
    ensures { result ≡ spec.is_key_call first (child node.now) }
{
    match node.kind() {
        // babelHelpers.classPrivateFieldLooseKey("a")
        Kind::CallExpression => {
            let call = CallExpressionRef::from_node(node);
            only(call.arguments).is_some() && is_loose_key_helper(first, call.callee)
        }
        _ => false,
    }
}

#[tactic(auto, using(es_base::proofs::Ascii::chars_ascii))]
fn is_loose_key_helper(first: u32, node: &Node) -> bool
    ensures { result ≡ calls.is_helper_callee first (codes "classPrivateFieldLooseKey") (child node.now) }
{
    is_helper_callee(first, "classPrivateFieldLooseKey", node)
}

/// Whether the node is a member of this name of the new `babelHelpers`.
#[tactic(auto, using(crate::proofs::GivenForms::callee_of, crate::proofs::GivenForms::no_callee))]
pub fn is_helper_callee(first: u32, helper: &str, node: &Node) -> bool
    ensures { result ≡ calls.is_helper_callee first (chars helper.now) (child node.now) }
{
    match node.kind() {
        // babelHelpers.toPropertyKey
        Kind::MemberExpression => {
            let member = MemberExpressionRef::from_node(node);
            is_babel_helpers(first, member.object) && is_property_named(helper, member.property)
        }
        _ => false,
    }
}

/// Whether the node is the new `babelHelpers`.
#[tactic(auto, using(crate::proofs::GivenForms::no_helpers))]
pub fn is_babel_helpers(first: u32, node: &Node) -> bool
    ensures { result ≡ is_babel_helpers first node.now }
{
    match node.kind() {
        Kind::IdentifierReference => {
            let reference = IdentifierReferenceRef::from_node(node);
            is_new(first, reference.node_id.0) && spells(reference.name.as_str(), "babelHelpers")
        }
        _ => false,
    }
}

/// Whether the node is a property name that is spelled so.
#[tactic(auto, using(crate::proofs::GivenForms::no_property_name))]
fn is_property_named(name: &str, node: &Node) -> bool
    ensures { result ≡ is_property_named (chars name.now) node.now }
{
    match node.kind() {
        Kind::IdentifierName => is_word(IdentifierNameRef::from_node(node).name.as_str(), name),
        _ => false,
    }
}

/// Whether the node is an object with the one property `_`, as a private static field is kept.
#[tactic(auto, using(es_base::proofs::Ascii::chars_ascii, crate::proofs::GivenForms::field_object, crate::proofs::GivenForms::no_object))]
pub fn has_field_value(node: &Node) -> bool
    ensures { result ≡ is_present (definitions.field_part (child node.now)) }
{
    match node.kind() {
        // { _: 1 }
        Kind::ObjectExpression => match only(ObjectExpressionRef::from_node(node).properties) {
            Some(property) => gives_property("_", property),
            None => false,
        },
        _ => false,
    }
}

/// Whether the node gives a property of this name a value.
#[tactic(auto, using(crate::proofs::GivenForms::property_of, crate::proofs::GivenForms::no_property))]
fn gives_property(name: &str, node: &Node) -> bool
    ensures { result ≡ is_present (definitions.property_value (chars name.now) (child node.now)) }
{
    match node.kind() {
        Kind::Property => is_property_named(name, PropertyRef::from_node(node).key),
        _ => false,
    }
}

fn has_none(nodes: &[Node]) -> bool
    ensures { result ≡ has_none nodes.now }
{
    matches!(nodes, [])
}

/// The one node of a list of one.
fn only(nodes: &[Node]) -> Option<&Node>
    ensures { option_map (λ x. x.now) result ≡ only_tree nodes.now }
{
    match nodes {
        [node] => Some(node),
        _ => None,
    }
}
