// Strings that stand among directives and are none: a printer may write them as directives.

ghost use Rattle.std.specs.Prelude.{◌≡◌, ◌++◌, map, IfOk, OnOk};
ghost use Rattle.es_base.specs.Tree.{child, literal, trees};
ghost use Rattle.es_binding_faults.specs.Seen.{seen};
ghost use Rattle.es_node.specs.View.{kind_of, parts_in};
ghost use Rattle.es_steps.specs.Printable as spec;
ghost use Rattle.es_steps.specs.Printable.{all_among, bare_in, bare_strings, is_bare_string};
ghost use Rattle.es_owed_printable.specs.Bare.{is_string, is_string_value};

use es_base::ids::NodeId;
use es_base::kind::Kind;
use es_base::literal::LiteralValue;
use es_binding_faults::numbers::Numbers;
use es_node::node::Node;
use es_printable::directives::{directives, is_directive};
use es_tree::function::{
    ArrowFunctionExpressionRef, FunctionDeclarationRef, FunctionExpressionRef,
};
use es_tree::literal::LiteralRef;
use es_tree::program::ProgramRef;
use es_tree::statement::ExpressionStatementRef;
use std::alloc::{AllocError, Global};

/// Whether each such string of what a program was lowered to is one of the source. Fails on allocation failure alone.
pub fn bare_strings_stay(
    alloc: Global,
    source: &[&Node],
    lowered: &[&Node],
) -> Result<bool, AllocError>
    ensures { IfOk result (λ holds. holds ≡ all_among (bare_strings (seen lowered.now)) (bare_strings (seen source.now))) }
{
    let there = bare_strings(alloc, source)?;
    let known = Numbers::of(alloc, there.as_slice())?;
    let strings = bare_strings(alloc, lowered)?;
    Ok(all_among(strings.as_slice(), &known))
}

#[tactic(auto)]
fn all_among(nodes: &[NodeId], known: &Numbers) -> bool
    ensures { result ≡ all_among (map (λ n. n.0) nodes.now) known.now }
{
    for node in nodes {
        if !known.has(*node) {
            return false;
        }
    }
    true
}

/// Those of these nodes. Fails on allocation failure alone.
fn bare_strings(alloc: Global, nodes: &[&Node]) -> Result<Vec<NodeId>, AllocError>
    ensures { IfOk result (λ found. map (λ n. n.0) found.items ≡ bare_strings (seen nodes.now)) }
{
    let mut found = Vec::new(alloc);
    for node in nodes {
        add_bare(prologue(node), &mut found)?;
    }
    Ok(found)
}

/// Adds those of the first statements of these. Fails on allocation failure alone.
fn add_bare(statements: &[Node], found: &mut Vec<NodeId>) -> Result<(), AllocError>
    ensures { OnOk result (map (λ n. n.0) found.new.items ≡ map (λ n. n.0) found.old.items ++ bare_in (trees statements.now)) }
{
    for statement in statements {
        if is_bare_string(statement) {
            found.push(statement.node_id())?;
        } else if !is_directive(statement) {
            return Ok(());
        }
    }
    Ok(())
}

/// The statements that the directives of a node begin.
#[tactic(auto, using(crate::proofs::Bare::no_prologue))]
fn prologue(node: &Node) -> &[Node]
    ensures { trees result.now ≡ spec.prologue (kind_of node.now) (parts_in node.now) }
{
    match node.kind() {
        Kind::Program => ProgramRef::from_node(node, &[]).body,
        Kind::FunctionDeclaration => directives(FunctionDeclarationRef::from_node(node).body),
        Kind::FunctionExpression => directives(FunctionExpressionRef::from_node(node).body),
        Kind::ArrowFunctionExpression => {
            directives(ArrowFunctionExpressionRef::from_node(node).body)
        }
        _ => &[],
    }
}

/// Whether the statement is a string that is no directive: `('use strict');`.
#[tactic(auto, using(crate::proofs::Bare::no_statement))]
fn is_bare_string(statement: &Node) -> bool
    ensures { result ≡ is_bare_string (child statement.now) }
{
    match statement.kind() {
        Kind::ExpressionStatement => {
            let expression = ExpressionStatementRef::from_node(statement);
            expression.directive.is_none() && is_string(expression.expression)
        }
        _ => false,
    }
}

#[tactic(auto, using(crate::proofs::Bare::no_literal))]
fn is_string(expression: &Node) -> bool
    ensures { result ≡ is_string expression.now }
{
    match expression.kind() {
        Kind::Literal => is_string_value(LiteralRef::from_node(expression).value),
        _ => false,
    }
}

fn is_string_value(value: &LiteralValue) -> bool
    ensures { result ≡ is_string_value value.now }
{
    matches!(value, LiteralValue::String { .. })
}
