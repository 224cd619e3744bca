// Calls, and `delete`.

ghost use Rattle.std.specs.Prelude.{◌≡◌, bytes_eq, codes, cond};
ghost use Rattle.std.specs.Str.{chars};
ghost use Rattle.es_base.specs.Tree.{child};
ghost use Rattle.es_base.specs.Words.{unary_operator_string};
ghost use Rattle.es_lowered.specs.Carriers as spec;
ghost use Rattle.es_lowered.specs.Carriers.{calls_eval, form_of_callee, form_of_deleted, is_loose_base, no_odd_form};
ghost use Rattle.es_owed_carriers.specs.Forms.{form_in, form_of_chain, is_loose_member};

use crate::forms::OddForm;
use es_base::kind::Kind;
use es_base::operator::UnaryOperator;
use es_base::strings::{is_word, spells};
use es_node::node::Node;
use es_tree::expression::{CallExpressionRef, ChainExpressionRef, MemberExpressionRef};
use es_validity::names::name_of;

/// The form of a call or a tag, by what is called.
#[tactic(auto, using(crate::proofs::OddForms::callee_name, crate::proofs::OddForms::callee_private, crate::proofs::OddForms::callee_other))]
pub fn form_of_callee(callee: &Node) -> OddForm
    ensures { form_in result ≡ form_of_callee (child callee.now) }
{
    match callee.kind() {
        // f
        Kind::IdentifierReference => form_of_name(name_of(callee)),
        // o.#m
        Kind::PrivateField => OddForm::CallsPrivate,
        _ => OddForm::None,
    }
}

#[tactic(auto, using(es_base::proofs::Ascii::chars_ascii))]
fn form_of_name(name: &str) -> OddForm
    ensures { form_in result ≡ cond (bytes_eq (codes "eval") (chars name.now)) calls_eval no_odd_form }
{
    if is_word(name, "eval") {
        OddForm::CallsEval
    } else {
        OddForm::None
    }
}

// ---- `delete`

/// The form of a unary operation.
pub fn form_of_operation(operator: UnaryOperator, argument: &Node) -> OddForm
    ensures { form_in result ≡ cond (bytes_eq (unary_operator_string operator) (codes "delete")) (form_of_deleted (child argument.now)) no_odd_form }
{
    match operator {
        UnaryOperator::Delete => form_of_deleted(argument),
        _ => OddForm::None,
    }
}

/// The form of a `delete`, by what is deleted.
#[tactic(auto, using(crate::proofs::OddForms::deleted_name, crate::proofs::OddForms::deleted_private, crate::proofs::OddForms::deleted_chain, crate::proofs::OddForms::deleted_other))]
fn form_of_deleted(argument: &Node) -> OddForm
    ensures { form_in result ≡ form_of_deleted (child argument.now) }
{
    match argument.kind() {
        // x
        Kind::IdentifierReference => OddForm::DeletesName,
        // o.#x
        Kind::PrivateField => OddForm::DeletesPrivate,
        // o?.#x
        Kind::ChainExpression => {
            form_of_chain(ChainExpressionRef::from_node(argument).expression)
        }
        // babelHelpers.classPrivateFieldLooseBase(o, _x)[_x]
        Kind::MemberExpression => form_of_member(MemberExpressionRef::from_node(argument).object),
        _ => OddForm::None,
    }
}

#[tactic(auto, using(crate::proofs::OddForms::no_private))]
fn form_of_chain(expression: &Node) -> OddForm
    ensures { form_in result ≡ form_of_chain expression.now }
{
    match expression.kind() {
        // o?.#x
        Kind::PrivateField => OddForm::DeletesPrivate,
        _ => OddForm::None,
    }
}

/// The form of a `delete` of a member of this object.
fn form_of_member(object: &Node) -> OddForm
    ensures { form_in result ≡ cond (is_loose_base (child object.now)) spec.deletes_private no_odd_form }
{
    if is_loose_base(object) {
        OddForm::DeletesPrivate
    } else {
        OddForm::None
    }
}

/// Whether the node is the object of a private member that is kept as a property.
#[tactic(auto, using(crate::proofs::OddForms::base_call, crate::proofs::OddForms::no_base))]
fn is_loose_base(object: &Node) -> bool
    ensures { result ≡ is_loose_base (child object.now) }
{
    match object.kind() {
        // babelHelpers.classPrivateFieldLooseBase(o, _x)
        Kind::CallExpression => is_loose_member(CallExpressionRef::from_node(object).callee),
        _ => false,
    }
}

#[tactic(auto, using(crate::proofs::OddForms::no_member))]
fn is_loose_member(callee: &Node) -> bool
    ensures { result ≡ is_loose_member callee.now }
{
    match callee.kind() {
        // babelHelpers.classPrivateFieldLooseBase
        Kind::MemberExpression => {
            let member = MemberExpressionRef::from_node(callee);
            spells(name_of(member.object), "babelHelpers")
                && spells(name_of(member.property), "classPrivateFieldLooseBase")
        }
        _ => false,
    }
}
