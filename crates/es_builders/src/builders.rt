// Small expressions. Each call fails on allocation failure alone.

ghost use Rattle.std.specs.Prelude.{◌≡◌, IfOk, true};
ghost use Rattle.es_base.specs.Ascii.{is_ascii};
ghost use Rattle.es_builders.specs.Builders as builder;

use es_base::list::List;
use es_base::literal::LiteralValue;
use es_base::name::Name;
use es_base::operator::UnaryOperator;
use es_node::node::Node;
use es_tree::expression::{make_call_expression, make_member_expression, make_unary_expression};
use es_tree::identifier::make_identifier_name;
use es_tree::literal::make_literal;
use std::alloc::{AllocError, Global};

/// `object.name`
pub fn create_member_callee(alloc: Global, object: Node, name: &str) -> Result<Node, AllocError>
    requires { is_ascii name.now ≡ true }
    ensures { IfOk result (λ t. t ≡ builder.named_member object name.now) }
{
    let property = make_identifier_name(alloc, Name::from_ascii(alloc, name)?)?;
    make_member_expression(alloc, object, property, false, false)
}

/// `callee.call(this)`
pub fn create_call_call(alloc: Global, callee: Node, this: Node) -> Result<Node, AllocError>
    ensures { IfOk result (λ t. t ≡ builder.call_call callee this) }
{
    let callee = create_member_callee(alloc, callee, "call")?;
    let arguments = List::from_vec(vec![in alloc; this]?);
    make_call_expression(alloc, callee, arguments, false)
}

/// `callee.bind(this)`
pub fn create_bind_call(alloc: Global, callee: Node, this: Node) -> Result<Node, AllocError>
    ensures { IfOk result (λ t. t ≡ builder.bind_call callee this) }
{
    let callee = create_member_callee(alloc, callee, "bind")?;
    let arguments = List::from_vec(vec![in alloc; this]?);
    make_call_expression(alloc, callee, arguments, false)
}

/// `object.prototype`
pub fn create_prototype_member(alloc: Global, object: Node) -> Result<Node, AllocError>
    ensures { IfOk result (λ t. t ≡ builder.prototype_member object) }
{
    create_member_callee(alloc, object, "prototype")
}

/// `void 0`
pub fn create_void_0(alloc: Global) -> Result<Node, AllocError>
    ensures { IfOk result (λ t. t ≡ builder.void_0) }
{
    let raw = Name::from_ascii(alloc, "0")?;
    let zero = make_literal(alloc, LiteralValue::Number { raw })?;
    make_unary_expression(alloc, UnaryOperator::Void, zero)
}
