// Nodes that lowered classes are made of. Each call fails on allocation failure alone.

use es_base::list::List;
use es_base::literal::LiteralValue;
use es_base::name::Name;
use es_base::operator::AssignmentOperator;
use es_node::node::Node;
use es_tree::expression::{
    make_assignment_expression, make_call_expression, make_member_expression,
};
use es_tree::identifier::{
    IdentifierReference, make_binding_identifier, make_identifier_name, make_identifier_reference,
};
use es_tree::literal::make_literal;
use es_tree::statement::{make_expression_statement, make_variable_declarator};
use std::alloc::{AllocError, Global};

/// `name`, as an expression or a target.
pub fn create_reference(alloc: Global, name: &Name) -> Result<Node, AllocError> {
    make_identifier_reference(alloc, name.try_clone(alloc)?)
}

/// `name = value`
pub fn create_assignment(alloc: Global, name: &Name, value: Node) -> Result<Node, AllocError> {
    let target = create_reference(alloc, name)?;
    make_assignment_expression(alloc, AssignmentOperator::Assign, target, value)
}

/// `name`, in `var name;`
pub fn create_declarator(
    alloc: Global,
    name: &Name,
    init: Option<Node>,
) -> Result<Node, AllocError> {
    let id = make_binding_identifier(alloc, name.try_clone(alloc)?)?;
    make_variable_declarator(alloc, id, init)
}

/// `babelHelpers.helper(arguments)`
pub fn create_helper_call(
    alloc: Global,
    helper: &str,
    arguments: List<Node>,
) -> Result<Node, AllocError> {
    let object = make_identifier_reference(alloc, Name::from_ascii(alloc, "babelHelpers")?)?;
    let property = make_identifier_name(alloc, Name::new(alloc, helper)?)?;
    let callee = make_member_expression(alloc, object, property, false, false)?;
    make_call_expression(alloc, callee, arguments, false)
}

/// `"text"`
pub fn create_string(alloc: Global, text: Name) -> Result<Node, AllocError> {
    make_literal(
        alloc,
        LiteralValue::String {
            value: text,
            raw: None,
        },
    )
}

/// `null`
pub fn create_null(alloc: Global) -> Result<Node, AllocError> {
    make_literal(alloc, LiteralValue::Null)
}

/// `expression;`
pub fn create_statement(alloc: Global, expression: Node) -> Result<Node, AllocError> {
    make_expression_statement(alloc, expression, None)
}

/// `name` in the place of a node, whose number and span it takes.
pub fn create_reference_at(alloc: Global, name: &Name, node: &Node) -> Result<Node, AllocError> {
    let reference = make_identifier_reference(alloc, name.try_clone(alloc)?)?;
    let mut reference = IdentifierReference::from_node(reference);
    reference.node_id = node.node_id();
    reference.span = node.span();
    Ok(reference.into_node())
}

/// `name`, where it is declared.
pub fn create_binding(alloc: Global, name: &Name) -> Result<Node, AllocError> {
    make_binding_identifier(alloc, name.try_clone(alloc)?)
}
