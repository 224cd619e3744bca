// The constructor that defines the fields of a class.

ghost use Rattle.std.specs.Prelude.{◌≡◌, IfOk};
ghost use Rattle.class_properties.specs.Lowering.{constructor};

use es_base::list::List;
use es_base::name::Name;
use es_base::operator::MethodDefinitionKind;
use es_node::node::Node;
use es_tree::class::make_method_definition;
use es_tree::function::make_function_expression;
use es_tree::identifier::make_identifier_name;
use es_tree::statement::make_block_statement;
use std::alloc::{AllocError, Global};

/// `constructor() { statements }`
pub fn create_constructor(alloc: Global, statements: List<Node>) -> Result<Node, AllocError>
    ensures { IfOk result (λ t. t ≡ constructor statements) }
{
    let key = make_identifier_name(alloc, Name::from_ascii(alloc, "constructor")?)?;
    let body = make_block_statement(alloc, statements)?;
    let function = make_function_expression(alloc, None, List::new(alloc), body, false, false)?;
    let kind = MethodDefinitionKind::Constructor;
    make_method_definition(alloc, key, function, kind, false, false)
}
