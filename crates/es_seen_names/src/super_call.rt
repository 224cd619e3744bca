// Which `super(..)` of a constructor runs the initializers, and the rest parameter of a function.

ghost use Rattle.std.specs.Prelude.{◌≡◌, MatchOption};
ghost use Rattle.std.specs.Str.{chars};
ghost use Rattle.es_base.specs.Tree.{Parts, child, more, nullable, nullable_trees, trees};
ghost use Rattle.es_node.specs.View.{parts_of};
ghost use Rattle.es_steps.specs.Context as spec;
ghost use Rattle.es_steps.specs.Context.{part_holds_super, rest_among, super_statement};
ghost use Rattle.es_steps.specs.Parts.{at, items};
ghost use Rattle.es_seen_names.specs.SuperCalls.{super_call};

use crate::parts::{Items, block_items_at, items_at, name_at};
use es_base::kind::Kind;
use es_binding_faults::hoisted::part_at;
use es_node::node::{Node, Part};
use es_tree::expression::CallExpressionRef;
use es_tree::statement::ExpressionStatementRef;
use es_validity::class::{list_holds_super, node_holds_super, part_holds_super};

/// The number of the call of a statement `super(..);`, if no argument holds a `super(..)`.
#[tactic(auto, using(crate::proofs::SuperCalls::no_statement, crate::proofs::SuperCalls::statement_is))]
fn super_statement(statement: &Node) -> Option<u32>
    ensures { result ≡ super_statement (child statement.now) }
{
    match statement.kind() {
        Kind::ExpressionStatement => {
            super_call(ExpressionStatementRef::from_node(statement).expression)
        }
        _ => None,
    }
}

/// The same of the call.
#[tactic(auto, using(crate::proofs::SuperCalls::no_call, crate::proofs::SuperCalls::no_super))]
fn super_call(expression: &Node) -> Option<u32>
    ensures { result ≡ super_call (child expression.now) }
{
    match expression.kind() {
        Kind::CallExpression => {
            let call = CallExpressionRef::from_node(expression);
            match call.callee.kind() {
                Kind::Super if !list_holds_super(call.arguments) => Some(call.node_id.0),
                _ => None,
            }
        }
        _ => None,
    }
}

/// The number of the first statement that is a `super(..)` call, if nothing before it and no argument of it holds one.
fn first_super(statements: &[Node]) -> Option<u32>
    ensures { result ≡ spec.first_super (trees statements.now) }
{
    for statement in statements {
        if node_holds_super(statement) {
            return super_statement(statement);
        }
    }
    None
}

/// The same of statements among which may be holes.
fn first_super_among(statements: &[Option<Node>]) -> Option<u32>
    ensures { result ≡ spec.first_super (nullable_trees statements.now) }
{
    for statement in statements {
        if hole_holds_super(statement) {
            return super_statement_at(statement);
        }
    }
    None
}

fn hole_holds_super(node: &Option<Node>) -> bool
    ensures { result ≡ part_holds_super (nullable node.now) }
{
    match node {
        Some(node) => node_holds_super(node),
        None => false,
    }
}

fn super_statement_at(node: &Option<Node>) -> Option<u32>
    ensures { result ≡ super_statement (nullable node.now) }
{
    match node {
        Some(node) => super_statement(node),
        None => None,
    }
}

/// The call `super(..)` of a constructor's function, of these parts, that runs the initializers of the class: none if
/// more than one may.
pub fn initializing_call(parts: &[Part]) -> Option<u32>
    ensures { result ≡ spec.initializing_call (parts_of parts.now) }
{
    if parameters_hold_super(parts) {
        return None;
    }
    match block_items_at(parts, 2) {
        Items::Nodes(nodes) => first_super(nodes),
        Items::Holes(nodes) => first_super_among(nodes),
        Items::None => None,
    }
}

fn parameters_hold_super(parts: &[Part]) -> bool
    ensures { result ≡ part_holds_super (at 1 (parts_of parts.now)) }
{
    match part_at(parts, 1) {
        Some(part) => part_holds_super(part),
        None => false,
    }
}

// ---- the rest parameter

/// The name of a rest parameter, if the node is one.
#[tactic(auto, using(crate::proofs::SuperCalls::no_rest, crate::proofs::SuperCalls::rest_here))]
fn rest_name(node: &Node) -> Option<&str>
    ensures { MatchOption result
        ((rest : Parts) → rest_among (more (child node.now) rest) ≡ rest_among rest)
        (λ s. (rest : Parts) → rest_among (more (child node.now) rest) ≡ chars s.now) }
{
    match node.kind() {
        Kind::RestElement => Some(name_at(node.parts(), 0)),
        _ => None,
    }
}

/// The name of the rest among these parameters; else nothing.
fn rest_of(parameters: &[Node]) -> &str
    ensures { chars result.now ≡ rest_among (trees parameters.now) }
{
    for parameter in parameters {
        if let Some(name) = rest_name(parameter) {
            return name;
        }
    }
    ""
}

fn rest_of_holes(parameters: &[Option<Node>]) -> &str
    ensures { chars result.now ≡ rest_among (nullable_trees parameters.now) }
{
    for parameter in parameters {
        if let Some(node) = parameter {
            if let Some(name) = rest_name(node) {
                return name;
            }
        }
    }
    ""
}

/// The name of the rest among the parameters at this place; else nothing.
#[tactic(auto, using(crate::proofs::Strings::no_characters))]
pub fn rest_at(parts: &[Part], i: usize) -> &str
    ensures { chars result.now ≡ rest_among (items (at i (parts_of parts.now))) }
{
    match items_at(parts, i) {
        Items::Nodes(nodes) => rest_of(nodes),
        Items::Holes(nodes) => rest_of_holes(nodes),
        Items::None => "",
    }
}
