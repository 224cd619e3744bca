// Statements that are bodies of others (ECMA-262, 14.6 to 14.13).

ghost use Rattle.std.specs.Prelude.{◌≡◌, ◌&&◌, option_map};
ghost use Rattle.es_base.specs.Tree.{absent, child, end, more, nullable};
ghost use Rattle.es_node.specs.View.{kind_of, parts_in};
ghost use Rattle.es_steps.specs.Printable.{ends_open, is_bad_form, is_bad_if, is_lexical_body};
ghost use Rattle.es_printable.specs.Members.{has_body};

use es_base::kind::Kind;
use es_base::operator::VariableDeclarationKind;
use es_node::node::Node;
use es_tree::statement::{
    DoWhileStatementRef, ForInStatementRef, ForOfStatementRef, ForStatementRef, IfStatementRef,
    LabeledStatementRef, VariableDeclarationRef, WhileStatementRef, WithStatementRef,
};

/// Whether the node is a statement whose body is a class, a `let` or a `const`, or an `if` whose `else` would belong to an
/// inner one.
#[tactic(auto, using(crate::proofs::NodeForms::no_body))]
pub fn is_bad_statement(node: &Node) -> bool
    ensures { result ≡ (has_body (kind_of node.now) && is_bad_form (kind_of node.now) (parts_in node.now)) }
{
    match node.kind() {
        // if (a) ; else ;
        Kind::IfStatement => {
            let statement = IfStatementRef::from_node(node);
            is_bad_if(statement.consequent, statement.alternate)
        }
        // a: ;
        Kind::LabeledStatement => is_lexical_body(LabeledStatementRef::from_node(node).body),
        Kind::WhileStatement => is_lexical_body(WhileStatementRef::from_node(node).body),
        Kind::WithStatement => is_lexical_body(WithStatementRef::from_node(node).body),
        Kind::DoWhileStatement => is_lexical_body(DoWhileStatementRef::from_node(node).body),
        Kind::ForStatement => is_lexical_body(ForStatementRef::from_node(node).body),
        Kind::ForInStatement => is_lexical_body(ForInStatementRef::from_node(node).body),
        Kind::ForOfStatement => is_lexical_body(ForOfStatementRef::from_node(node).body),
        _ => false,
    }
}

fn is_bad_if(consequent: &Node, alternate: Option<&Node>) -> bool
    ensures { result ≡ is_bad_if (more absent (more (child consequent.now) (more (nullable (option_map (λ x. x.now) alternate.entry)) end))) }
{
    match alternate {
        Some(alternate) => {
            ends_open(consequent) || (is_lexical_body(consequent) || is_lexical_body(alternate))
        }
        None => is_lexical_body(consequent),
    }
}

/// Whether the statement is a class, a `let` or a `const`.
#[tactic(auto, using(crate::proofs::NodeForms::class_body, crate::proofs::NodeForms::no_lexical_body))]
fn is_lexical_body(body: &Node) -> bool
    ensures { result ≡ is_lexical_body (child body.now) }
{
    match body.kind() {
        // class A {}
        Kind::ClassDeclaration => true,
        // let a;
        Kind::VariableDeclaration => match VariableDeclarationRef::from_node(body).kind {
            VariableDeclarationKind::Var => false,
            VariableDeclarationKind::Let | VariableDeclarationKind::Const => true,
        },
        _ => false,
    }
}

/// Whether the statement ends in an `if` without `else`.
#[tactic(auto, using(crate::proofs::NodeForms::no_open_end, es_node::proofs::Below::nodes_in))]
fn ends_open(statement: &Node) -> bool
    ensures { result ≡ ends_open statement.now }
{
    match statement.kind() {
        Kind::IfStatement => match IfStatementRef::from_node(statement).alternate {
            Some(alternate) => ends_open(alternate),
            None => true,
        },
        Kind::LabeledStatement => ends_open(LabeledStatementRef::from_node(statement).body),
        Kind::WhileStatement => ends_open(WhileStatementRef::from_node(statement).body),
        Kind::WithStatement => ends_open(WithStatementRef::from_node(statement).body),
        Kind::ForStatement => ends_open(ForStatementRef::from_node(statement).body),
        Kind::ForInStatement => ends_open(ForInStatementRef::from_node(statement).body),
        Kind::ForOfStatement => ends_open(ForOfStatementRef::from_node(statement).body),
        _ => false,
    }
}
