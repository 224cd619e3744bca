// Functions that are called where they stand.

ghost use Rattle.std.specs.Prelude.{◌≡◌, All, IfOk, OnOk, length};
ghost use Rattle.es_iife.specs.FirstScopes.{first_scopes};
ghost use Rattle.es_iife.specs.Iife.{arrow_flags, called, called_with_value, made};
ghost use Rattle.es_iife.specs.ScopeBelow.{CanStandBelow, with_scope_below};
ghost use Rattle.es_scopes.specs.Table.{HasRoom, HasScope};

use crate::scope_below::insert_scope_below_expression;
use es_base::ids::ScopeId;
use es_base::list::List;
use es_node::node::Node;
use es_scopes::flags::ScopeFlags;
use es_scopes::scoping::Scoping;
use es_tree::expression::make_call_expression;
use es_tree::function::{ArrowFunctionExpression, make_arrow_function_expression};
use es_tree::statement::{make_block_statement, make_return_statement};
use std::alloc::{AllocError, Global};

/// `(() => { return expression; })()`, where the expression stood in the scope `around` (oxc_transformer,
/// `wrap_expression_in_arrow_function_iife`). The arrow has a new scope, in which the first scopes of the expression stand
/// from now on. Fails on allocation failure alone; then nothing is said of the table.
pub fn wrap_expression_in_arrow_function_iife(
    alloc: Global,
    expression: Node,
    around: ScopeId,
    scoping: &mut Scoping,
) -> Result<Node, AllocError>
    requires around { HasScope scoping.old around }
    requires room { HasRoom scoping.old.scopes }
    requires below { All (CanStandBelow scoping.old around) (first_scopes expression) }
    ensures node { IfOk result (λ t. t ≡ called_with_value (length scoping.old.scopes) expression) }
    ensures table { OnOk result (scoping.new ≡ with_scope_below scoping.old around arrow_flags (first_scopes expression)) }
{
    let flags = ScopeFlags::FUNCTION.with(ScopeFlags::ARROW);
    let scope = insert_scope_below_expression(alloc, &expression, flags, around, scoping)?;
    let value = make_return_statement(alloc, Some(expression))?;
    let statements = List::from_vec(vec![in alloc; value]?);
    wrap_statements_in_arrow_function_iife(alloc, statements, scope)
}

/// `(() => { statements })()`, where the arrow has this scope (oxc_transformer, `wrap_statements_in_arrow_function_iife`).
/// Fails on allocation failure alone.
pub fn wrap_statements_in_arrow_function_iife(
    alloc: Global,
    statements: List<Node>,
    scope: ScopeId,
) -> Result<Node, AllocError>
    ensures { IfOk result (λ t. t ≡ called (made scope.0) statements) }
{
    let body = make_block_statement(alloc, statements)?;
    let arrow = make_arrow_function_expression(alloc, List::new(alloc), body, false)?;
    let mut arrow = ArrowFunctionExpression::from_node(arrow);
    arrow.scope_id = Some(scope);
    make_call_expression(alloc, arrow.into_node(), List::new(alloc), false)
}
