// Fields as statements of a constructor.

ghost use Rattle.std.specs.Prelude.{◌≡◌, IfOk};
ghost use Rattle.class_properties.specs.Form.{IsField};
ghost use Rattle.class_properties.specs.Lowering.{void_0, define_property_helper, define_property, definition};

use es_base::list::List;
use es_base::literal::LiteralValue;
use es_base::name::Name;
use es_base::operator::UnaryOperator;
use es_node::node::Node;
use es_tree::class::PropertyDefinition;
use es_tree::expression::{
    make_call_expression, make_member_expression, make_this_expression, make_unary_expression,
};
use es_tree::identifier::{IdentifierName, make_identifier_name, make_identifier_reference};
use es_tree::literal::make_literal;
use es_tree::statement::make_expression_statement;
use std::alloc::{AllocError, Global};

/// `key = value;` becomes `babelHelpers.defineProperty(this, "key", value);`, and `key;` the same with
/// `void 0` for a value.
pub fn convert_instance_property(alloc: Global, field: Node) -> Result<Node, AllocError>
    requires { IsField field }
    ensures { IfOk result (λ t. t ≡ definition field) }
{
    let field = PropertyDefinition::from_node(field);
    let key = IdentifierName::from_node(field.key).name;
    let value = field.value;
    match value {
        Some(value) => create_define_property(alloc, key, value),
        None => create_define_property(alloc, key, create_void_0(alloc)?),
    }
}

/// `babelHelpers.defineProperty(this, "key", value);`
fn create_define_property(alloc: Global, key: Name, value: Node) -> Result<Node, AllocError>
    ensures { IfOk result (λ t. t ≡ define_property key value) }
{
    let callee = create_define_property_helper(alloc)?;
    let this = make_this_expression(alloc)?;
    let raw = None;
    let key = make_literal(alloc, LiteralValue::String { value: key, raw })?;
    let arguments = List::from_vec(vec![in alloc; this, key, value]?);
    let call = make_call_expression(alloc, callee, arguments, false)?;
    make_expression_statement(alloc, call, None)
}

/// `babelHelpers.defineProperty`
fn create_define_property_helper(alloc: Global) -> Result<Node, AllocError>
    ensures { IfOk result (λ t. t ≡ define_property_helper) }
{
    let object = make_identifier_reference(alloc, Name::from_ascii(alloc, "babelHelpers")?)?;
    let property = make_identifier_name(alloc, Name::from_ascii(alloc, "defineProperty")?)?;
    make_member_expression(alloc, object, property, false, false)
}

/// `void 0`
fn create_void_0(alloc: Global) -> Result<Node, AllocError>
    ensures { IfOk result (λ t. t ≡ void_0) }
{
    let raw = Name::from_ascii(alloc, "0")?;
    let zero = make_literal(alloc, LiteralValue::Number { raw })?;
    make_unary_expression(alloc, UnaryOperator::Void, zero)
}
