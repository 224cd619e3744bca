// Directives (ECMA-262, 11.2.1).

ghost use Rattle.std.specs.Prelude.{◌≡◌, false};
ghost use Rattle.std.specs.Str.{chars};
ghost use Rattle.es_base.specs.Tree as tree;
ghost use Rattle.es_base.specs.Tree.{child, end, literal, more, trees};
ghost use Rattle.es_base.specs.declared.kind.Kind.{Kind};
ghost use Rattle.es_node.specs.View.{kind_of, parts_in};
ghost use Rattle.es_steps.specs.Printable as spec;
ghost use Rattle.es_steps.specs.Printable.{are_names, has_bad_prologue, has_late_directive, is_directive, is_directive_of};
ghost use Rattle.es_steps.specs.Scopes.{is_declaring};
ghost use Rattle.es_steps.specs.Strict.{directives};

use es_base::kind::Kind;
use es_base::literal::LiteralValue;
use es_base::strings::is_word;
use es_lexical::literals::is_plain_directive;
use es_node::node::Node;
use es_owed::statements::statement_list;
use es_strict::strict::makes_strict;
use es_tree::function::{
    ArrowFunctionExpressionRef, FunctionDeclarationRef, FunctionExpressionRef,
};
use es_tree::literal::LiteralRef;
use es_tree::statement::{BlockStatementRef, ExpressionStatementRef};

/// Whether the node is a directive that is not as its string.
#[tactic(auto, using(crate::proofs::NodeForms::no_directive_statement))]
pub fn is_bad_directive(node: &Node) -> bool
    ensures { result ≡ spec.is_bad_directive (kind_of node.now) (parts_in node.now) }
{
    match node.kind() {
        // 'use strict';
        Kind::ExpressionStatement => {
            let statement = ExpressionStatementRef::from_node(node);
            match statement.directive {
                Some(directive) => !is_directive_of(directive.as_str(), statement.expression),
                None => false,
            }
        }
        _ => false,
    }
}

/// Whether the expression is the string of this directive: one with a `"`, a backslash or a line end is written as the
/// source has it.
#[tactic(auto, using(crate::proofs::NodeForms::no_literal_string))]
fn is_directive_of(directive: &str, expression: &Node) -> bool
    ensures { result ≡ is_directive_of (chars directive.now) (child expression.now) }
{
    match expression.kind() {
        Kind::Literal => is_string_of(directive, LiteralRef::from_node(expression).value),
        _ => false,
    }
}

fn is_string_of(directive: &str, value: &LiteralValue) -> bool
    ensures { result ≡ is_directive_of (chars directive.now) (child (tree.Node Kind.Literal 0 None None (more (literal value.now) end))) }
{
    match value {
        LiteralValue::String { value, .. } => {
            is_word(value.as_str(), directive) || !is_plain_directive(directive)
        }
        _ => false,
    }
}

/// Whether a directive stands behind a statement that is none, or `'use strict'` in a function whose parameters are not all
/// identifiers (11.2.1, 15.2.1).
#[tactic(auto, using(crate::proofs::NodeForms::declaration_prologue, crate::proofs::NodeForms::expression_prologue, crate::proofs::NodeForms::arrow_prologue, crate::proofs::NodeForms::no_function))]
pub fn has_bad_prologue(node: &Node) -> bool
    ensures { result ≡ has_bad_prologue (kind_of node.now) (parts_in node.now) }
{
    match node.kind() {
        Kind::FunctionDeclaration => {
            !are_names(FunctionDeclarationRef::from_node(node).params)
                && makes_strict(node.kind(), node.parts())
        }
        Kind::FunctionExpression => {
            !are_names(FunctionExpressionRef::from_node(node).params)
                && makes_strict(node.kind(), node.parts())
        }
        Kind::ArrowFunctionExpression => {
            !are_names(ArrowFunctionExpressionRef::from_node(node).params)
                && makes_strict(node.kind(), node.parts())
        }
        _ => has_late_directive(statement_list(node)),
    }
}

fn are_names(parameters: &[Node]) -> bool
    ensures { result ≡ are_names (trees parameters.now) }
{
    for parameter in parameters {
        if !is_declaring(parameter) {
            return false;
        }
    }
    true
}

/// Whether the node is an identifier that declares.
#[tactic(auto, using(crate::proofs::NodeForms::declaring_kind))]
pub fn is_declaring(node: &Node) -> bool
    ensures { result ≡ is_declaring (child node.now) }
{
    matches!(node.kind(), Kind::BindingIdentifier)
}

fn has_late_directive(statements: &[Node]) -> bool
    ensures { result ≡ has_late_directive false (trees statements.now) }
{
    let mut late = false;
    for statement in statements {
        let is_directive = is_directive(statement);
        if late && is_directive {
            return true;
        }
        late = late || !is_directive;
    }
    false
}

/// Whether the statement is a directive.
#[tactic(auto, using(crate::proofs::NodeForms::no_directive))]
pub fn is_directive(statement: &Node) -> bool
    ensures { result ≡ is_directive (child statement.now) }
{
    match statement.kind() {
        Kind::ExpressionStatement => {
            ExpressionStatementRef::from_node(statement)
                .directive
                .is_some()
        }
        _ => false,
    }
}

/// The statements of a function's body.
#[tactic(auto, using(crate::proofs::NodeForms::no_statements))]
pub fn directives(body: &Node) -> &[Node]
    ensures { trees result.now ≡ directives (child body.now) }
{
    match body.kind() {
        Kind::BlockStatement => BlockStatementRef::from_node(body).body,
        _ => &[],
    }
}
