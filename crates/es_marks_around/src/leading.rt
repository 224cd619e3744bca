// The declarations by `let` at the heads of lists of statements.

ghost use Rattle.std.specs.Prelude.{◌≡◌, ◌++◌, IfOk, OnOk};
ghost use Rattle.es_base.specs.Tree.{child, trees};
ghost use Rattle.es_binding_faults.specs.Seen.{seen};
ghost use Rattle.es_node.specs.View.{kind_of, parts_in};
ghost use Rattle.es_lowered.specs.Timely as spec;
ghost use Rattle.es_marks_around.specs.Leading.{is_bare};

use es_base::kind::Kind;
use es_node::node::Node;
use es_owed::statements::statement_list;
use es_seen_names::lexical::is_let;
use es_seen_names::parts::is_present_at;
use es_tree::statement::{ExpressionStatementRef, VariableDeclarationRef};
use std::alloc::{AllocError, Global};

/// The declarations by `let` at the heads of the lists of these nodes, in front of which nothing there runs. Fails on
/// allocation failure alone.
#[tactic(auto, using(crate::proofs::ListHeads::more_lists))]
pub fn leading_lets(alloc: Global, nodes: &[&Node]) -> Result<Vec<u32>, AllocError>
    ensures { IfOk result (λ r. r.items ≡ spec.leading_lets (seen nodes.now)) }
{
    let mut leading = Vec::new(alloc);
    for node in nodes {
        add_leading(whole_list(node), &mut leading)?;
    }
    Ok(leading)
}

/// The statements that stand in a list which runs as a whole: not those of a case.
#[tactic(auto, using(crate::proofs::ListHeads::no_case))]
fn whole_list(node: &Node) -> &[Node]
    ensures { trees result.now ≡ spec.whole_list (kind_of node.now) (parts_in node.now) }
{
    match node.kind() {
        // case x:
        Kind::SwitchCase => &[],
        _ => statement_list(node),
    }
}

/// Adds those at the head of a list. Fails on allocation failure alone.
#[tactic(auto, using(crate::proofs::ListHeads::more_statements))]
fn add_leading(statements: &[Node], leading: &mut Vec<u32>) -> Result<(), AllocError>
    ensures { OnOk result (leading.new.items ≡ leading.old.items ++ spec.leading_in (trees statements.now)) }
{
    for statement in statements {
        add_let(statement, leading)?;
        if !runs_nothing(statement) {
            return Ok(());
        }
    }
    Ok(())
}

/// Adds the number of a declaration by `let`. Fails on allocation failure alone.
#[tactic(auto, using(crate::proofs::ListHeads::let_node, crate::proofs::ListHeads::no_let))]
fn add_let(statement: &Node, leading: &mut Vec<u32>) -> Result<(), AllocError>
    ensures { OnOk result (leading.new.items ≡ leading.old.items ++ spec.let_number (child statement.now)) }
{
    match statement.kind() {
        // let a;
        Kind::VariableDeclaration => {
            if is_let(statement.parts()) {
                leading.push(statement.node_id().0)?;
            }
            Ok(())
        }
        _ => Ok(()),
    }
}

/// Whether nothing runs where the statement stands.
#[tactic(auto, using(crate::proofs::ListHeads::nothing_of_function, crate::proofs::ListHeads::nothing_of_import, crate::proofs::ListHeads::something))]
fn runs_nothing(statement: &Node) -> bool
    ensures { result ≡ spec.runs_nothing (child statement.now) }
{
    match statement.kind() {
        // function f() {}
        Kind::FunctionDeclaration => true,
        // import 'a';
        Kind::ImportDeclaration => true,
        // 'use strict';
        Kind::ExpressionStatement => {
            ExpressionStatementRef::from_node(statement)
                .directive
                .is_some()
        }
        // let a;
        Kind::VariableDeclaration => {
            are_bare(VariableDeclarationRef::from_node(statement).declarations)
        }
        _ => false,
    }
}

/// Whether these are declarators without a value.
#[tactic(auto, using(crate::proofs::ListHeads::more_bare))]
fn are_bare(declarators: &[Node]) -> bool
    ensures { result ≡ spec.are_bare (trees declarators.now) }
{
    for declarator in declarators {
        if !is_bare(declarator) {
            return false;
        }
    }
    true
}

#[tactic(auto, using(crate::proofs::ListHeads::no_declarator, crate::proofs::ListHeads::bare_declarator))]
fn is_bare(declarator: &Node) -> bool
    ensures { result ≡ is_bare declarator.now }
{
    match declarator.kind() {
        // a
        Kind::VariableDeclarator => !is_present_at(declarator.parts(), 1),
        _ => false,
    }
}
