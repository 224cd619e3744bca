// Forms that no value tells from others.

ghost use Rattle.std.specs.Prelude.{◌≡◌};
ghost use Rattle.es_lowered.specs.Carriers as spec;
ghost use Rattle.es_node.specs.View.{kind_of, parts_in};
ghost use Rattle.es_owed_carriers.specs.Forms.{form_in, form_of_statement};

use crate::accessors::{form_of_method, form_of_property};
use crate::bodies::{form_of_body, form_of_branches, form_of_loop};
use crate::calls::{form_of_callee, form_of_operation};
use crate::exports::form_of_export;
use es_base::kind::Kind;
use es_node::node::Node;
use es_tree::expression::{CallExpressionRef, TaggedTemplateExpressionRef, UnaryExpressionRef};
use es_tree::module::ExportNamedDeclarationRef;
use es_tree::statement::{
    DoWhileStatementRef, ForInStatementRef, ForOfStatementRef, ForStatementRef, IfStatementRef,
    WhileStatementRef,
};

/// A form that no value tells from others.
#[derive(Debug, Clone, Copy, PartialEq, Eq)]
pub enum OddForm {
    /// A call of the name `eval` (13.3.6.1).
    CallsEval,
    /// A call or a tag of a private member, which is handed its object (13.3.6.2).
    CallsPrivate,
    /// `delete` of a private member (13.5.1.1).
    DeletesPrivate,
    /// `delete` of a name (13.5.1.1).
    DeletesName,
    /// A getter with parameters, or a setter without its one (15.4).
    TakesOddParameters,
    /// A head of a for-in or for-of that declares several names or gives one a value (14.7.5).
    DeclaresOddly,
    /// A head of a for-in or for-of that gives a `var` a value (B.3.5).
    GivesValue,
    /// A branch or a body that is a function (14.6.1, 14.7.1).
    HasOddBody,
    /// A property that gives a prototype (B.3.1).
    GivesPrototype,
    /// A property without a value of its own (13.2.5.1).
    IsShorthand,
    /// An export that declares nothing (16.2.3).
    ExportsOddly,
    /// None of these.
    None,
}

/// Whether the second form is none, or the first.
pub fn keeps_form(form: OddForm, other: OddForm) -> bool
    ensures { result ≡ spec.keeps_form (form_in form) (form_in other) }
{
    match other {
        OddForm::CallsEval => matches!(form, OddForm::CallsEval),
        OddForm::CallsPrivate => matches!(form, OddForm::CallsPrivate),
        OddForm::DeletesPrivate => matches!(form, OddForm::DeletesPrivate),
        OddForm::DeletesName => matches!(form, OddForm::DeletesName),
        OddForm::TakesOddParameters => matches!(form, OddForm::TakesOddParameters),
        OddForm::DeclaresOddly => matches!(form, OddForm::DeclaresOddly),
        OddForm::GivesValue => matches!(form, OddForm::GivesValue),
        OddForm::HasOddBody => matches!(form, OddForm::HasOddBody),
        OddForm::GivesPrototype => matches!(form, OddForm::GivesPrototype),
        OddForm::IsShorthand => matches!(form, OddForm::IsShorthand),
        OddForm::ExportsOddly => matches!(form, OddForm::ExportsOddly),
        OddForm::None => true,
    }
}

/// The form of a node.
#[tactic(auto, using(crate::proofs::OddForms::statement_form))]
pub fn odd_form(node: &Node) -> OddForm
    ensures { form_in result ≡ spec.odd_form (kind_of node.now) (parts_in node.now) }
{
    match node.kind() {
        // f(a)
        Kind::CallExpression => form_of_callee(CallExpressionRef::from_node(node).callee),
        // f`a`
        Kind::TaggedTemplateExpression => {
            form_of_callee(TaggedTemplateExpressionRef::from_node(node).tag)
        }
        // delete o.x
        Kind::UnaryExpression => {
            let unary = UnaryExpressionRef::from_node(node);
            form_of_operation(unary.operator, unary.argument)
        }
        // { get x() {} }
        Kind::Property => form_of_property(node),
        // get x() {}
        Kind::MethodDefinition => form_of_method(node),
        _ => form_of_statement(node),
    }
}

/// The form of a statement.
#[tactic(auto, using(crate::proofs::OddForms::no_form))]
fn form_of_statement(node: &Node) -> OddForm
    ensures { form_in result ≡ form_of_statement (kind_of node.now) (parts_in node.now) }
{
    match node.kind() {
        // for (let a in b) {}
        Kind::ForInStatement => {
            let statement = ForInStatementRef::from_node(node);
            form_of_loop(statement.left, statement.body)
        }
        // for (let a of b) {}
        Kind::ForOfStatement => {
            let statement = ForOfStatementRef::from_node(node);
            form_of_loop(statement.left, statement.body)
        }
        // for (;;) {}
        Kind::ForStatement => form_of_body(ForStatementRef::from_node(node).body),
        // while (a) {}
        Kind::WhileStatement => form_of_body(WhileStatementRef::from_node(node).body),
        // do {} while (a)
        Kind::DoWhileStatement => form_of_body(DoWhileStatementRef::from_node(node).body),
        // if (a) {}
        Kind::IfStatement => {
            let statement = IfStatementRef::from_node(node);
            form_of_branches(statement.consequent, statement.alternate)
        }
        // export let a;
        Kind::ExportNamedDeclaration => {
            form_of_export(ExportNamedDeclarationRef::from_node(node).declaration)
        }
        _ => OddForm::None,
    }
}
