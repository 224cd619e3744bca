// Heads and bodies of loops, and branches.

ghost use Rattle.std.specs.Prelude.{◌≡◌, ◌||◌, option_map};
ghost use Rattle.es_base.specs.Tree.{child, end, more, nullable, trees};
ghost use Rattle.es_lowered.specs.Carriers as spec;
ghost use Rattle.es_lowered.specs.Carriers.{form_of_head, form_of_names, head_or, is_function_statement, is_labelled_function, is_odd_body, is_odd_branch, odd_if};
ghost use Rattle.es_owed_carriers.specs.Forms.{form_in, form_of_value};

use crate::forms::OddForm;
use es_base::kind::Kind;
use es_base::strings::spells;
use es_node::node::Node;
use es_seen_names::parts::string_at;
use es_tree::statement::{LabeledStatementRef, VariableDeclarationRef, VariableDeclaratorRef};

/// The form of a for-in or for-of with this head and this body.
#[tactic(auto, using(crate::proofs::OddForms::odd_head))]
pub fn form_of_loop(head: &Node, body: &Node) -> OddForm
    ensures { form_in result ≡ head_or (form_of_head (child head.now)) (odd_if (is_odd_body (child body.now))) }
{
    match form_of_head(head) {
        OddForm::None => form_of_body(body),
        form => form,
    }
}

// ---- heads

/// The form of the head of a for-in or for-of.
#[tactic(auto, using(crate::proofs::OddForms::no_head))]
fn form_of_head(head: &Node) -> OddForm
    ensures { form_in result ≡ form_of_head (child head.now) }
{
    match head.kind() {
        // let a
        Kind::VariableDeclaration => form_of_names(
            spells(string_at(head.parts(), 0), "var"),
            VariableDeclarationRef::from_node(head).declarations,
        ),
        _ => OddForm::None,
    }
}

/// The form of a head that declares these, by `var` or not.
#[tactic(auto, using(crate::proofs::OddForms::more_names))]
fn form_of_names(is_var: bool, declarators: &[Node]) -> OddForm
    ensures { form_in result ≡ form_of_names is_var (trees declarators.now) }
{
    match declarators {
        [] => OddForm::DeclaresOddly,
        [declarator] => form_of_declarator(is_var, declarator),
        _ => OddForm::DeclaresOddly,
    }
}

/// The form of a head that declares this alone, by `var` or not.
#[tactic(auto, using(crate::proofs::OddForms::declared_value, crate::proofs::OddForms::no_declarator))]
fn form_of_declarator(is_var: bool, declarator: &Node) -> OddForm
    ensures { form_in result ≡ form_of_names is_var (more (child declarator.now) end) }
{
    match declarator.kind() {
        Kind::VariableDeclarator => {
            let declarator = VariableDeclaratorRef::from_node(declarator);
            match declarator.init {
                // a = 1
                Some(_) => form_of_value(is_var, declarator.id),
                // a
                None => OddForm::None,
            }
        }
        _ => OddForm::DeclaresOddly,
    }
}

/// The form of a head that gives this name or pattern a value.
#[tactic(auto, using(crate::proofs::OddForms::var_value, crate::proofs::OddForms::pattern_value))]
fn form_of_value(is_var: bool, id: &Node) -> OddForm
    ensures { form_in result ≡ form_of_value is_var id.now }
{
    if !is_var {
        return OddForm::DeclaresOddly;
    }
    match id.kind() {
        // a
        Kind::BindingIdentifier => OddForm::GivesValue,
        _ => OddForm::DeclaresOddly,
    }
}

// ---- bodies and branches

/// The form of a loop with this body.
pub fn form_of_body(body: &Node) -> OddForm
    ensures { form_in result ≡ odd_if (is_odd_body (child body.now)) }
{
    if is_function_statement(body) || is_labelled_function(body) {
        OddForm::HasOddBody
    } else {
        OddForm::None
    }
}

/// The form of an `if` with these branches.
pub fn form_of_branches(consequent: &Node, alternate: Option<&Node>) -> OddForm
    ensures { form_in result ≡ odd_if (is_odd_branch (child consequent.now) || is_odd_branch (nullable (option_map (λ x. x.now) alternate.entry))) }
{
    if is_labelled_function(consequent) || is_odd_branch(alternate) {
        OddForm::HasOddBody
    } else {
        OddForm::None
    }
}

/// Whether the branch is there, and a function with labels.
fn is_odd_branch(branch: Option<&Node>) -> bool
    ensures { result ≡ is_odd_branch (nullable (option_map (λ x. x.now) branch.entry)) }
{
    match branch {
        Some(branch) => is_labelled_function(branch),
        None => false,
    }
}

/// Whether the statement is a function, behind labels.
#[tactic(auto, using(crate::proofs::OddForms::no_label, es_node::proofs::Below::nodes_in))]
fn is_labelled_function(statement: &Node) -> bool
    ensures { result ≡ is_labelled_function statement.now }
{
    match statement.kind() {
        // a: function f() {}
        Kind::LabeledStatement => {
            let body = LabeledStatementRef::from_node(statement).body;
            is_function_statement(body) || is_labelled_function(body)
        }
        _ => false,
    }
}

/// Whether the statement is a function declaration.
#[tactic(auto, using(crate::proofs::OddForms::function_by_kind))]
fn is_function_statement(statement: &Node) -> bool
    ensures { result ≡ is_function_statement statement.now }
{
    matches!(statement.kind(), Kind::FunctionDeclaration)
}
