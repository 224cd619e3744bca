// Lists of nodes.

use crate::builders::create_statement;
use es_base::kind::Kind;
use es_base::list::List;
use es_node::node::Node;
use es_tree::statement::ExpressionStatementRef;
use std::alloc::{AllocError, Global};

/// `a; b;` for `a` and `b`. What is such a statement already stays as it is.
pub fn exprs_into_stmts(alloc: Global, expressions: List<Node>) -> Result<List<Node>, AllocError> {
    let mut statements = List::new(alloc);
    for expression in expressions.into_vec() {
        if expression.kind() == Kind::ExpressionStatement {
            statements.push(expression)?;
        } else {
            statements.push(create_statement(alloc, expression)?)?;
        }
    }
    Ok(statements)
}

/// Adds these nodes.
pub fn append(nodes: &mut List<Node>, more: List<Node>) -> Result<(), AllocError> {
    for node in more.into_vec() {
        nodes.push(node)?;
    }
    Ok(())
}

/// The list with these nodes in front of the element at this place, and at its end where there is none.
pub fn with_nodes_at(
    alloc: Global,
    nodes: List<Node>,
    place: usize,
    more: List<Node>,
) -> Result<List<Node>, AllocError> {
    let mut joined = List::new(alloc);
    let mut behind = List::new(alloc);
    for node in nodes.into_vec() {
        if joined.len() < place {
            joined.push(node)?;
        } else {
            behind.push(node)?;
        }
    }
    append(&mut joined, more)?;
    append(&mut joined, behind)?;
    Ok(joined)
}

/// How many directives statements begin with (ECMA-262, 11.2.1).
pub fn directive_count(statements: &[Node]) -> usize {
    for (place, statement) in statements.iter().enumerate() {
        if !is_directive(statement) {
            return place;
        }
    }
    statements.len()
}

// "use strict";
fn is_directive(statement: &Node) -> bool {
    match statement.kind() {
        Kind::ExpressionStatement => ExpressionStatementRef::from_node(statement)
            .directive
            .is_some(),
        _ => false,
    }
}
