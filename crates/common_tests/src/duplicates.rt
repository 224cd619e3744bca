// Expressions that are read more than once, in a program where `foo` is unbound.

ghost use Rattle.std.specs.Prelude.{◌≡◌, ◌+◌, ◌<◌, ◌≤◌, [], IfOk, OnOk, length};
ghost use Rattle.es_base.specs.declared.ids.ScopeId.{ScopeId};
ghost use Rattle.es_ctx.specs.ScopesAround.{current_block_scope_id, current_var_scope_id};
ghost use Rattle.es_scopes.specs.Table.{HasRoom, HasScope};
ghost use Rattle.es_uids.specs.Uids.{AreTaken};
ghost use Rattle.common_tests.specs.Root.{one_scope};

use crate::tables::{check_room, one_scope};
use es_base::kind::Kind;
use es_base::list::List;
use es_base::name::Name;
use es_base::operator::SourceType;
use es_ctx::ancestor::Parent;
use es_ctx::ctx::TraverseCtx;
use es_duplicates::computed_key::create_computed_key_temp_var;
use es_duplicates::duplicate::{
    duplicate_expression, duplicate_expression_multiple, duplicate_expression_twice,
};
use es_node::node::{Node, Part};
use es_steps::options::CompilerAssumptions;
use es_tree::expression::{
    AssignmentExpressionRef, CallExpressionRef, make_call_expression, make_this_expression,
};
use es_tree::identifier::{IdentifierReferenceRef, make_identifier_reference};
use es_tree::program::make_program;
use es_tree::statement::{make_block_statement, make_expression_statement};
use std::alloc::{AllocError, Global};
use std::test::Fail;

/// A context in the list of a block of the program `foo;`, whose only scope holds no name.
fn in_block(alloc: Global) -> Result<TraverseCtx, Fail>
    ensures { IfOk result (λ c. c.scoping.scoping ≡ one_scope) }
{
    let statement = make_expression_statement(alloc, foo(alloc)?, None)?;
    let body = List::from_vec(vec![in alloc; statement]?);
    let program = make_program(alloc, SourceType::Script, body)?;
    if !program.has_at_most(3) {
        return Err(Fail::new("too many nodes"));
    }
    let mut ctx = TraverseCtx::new(
        alloc,
        &program,
        one_scope(alloc)?,
        CompilerAssumptions::default(),
    )?;
    let block = make_block_statement(alloc, List::new(alloc))?;
    let parent = Parent::of(alloc, &block)?;
    ctx.open(&parent, 0, &Part::List(List::new(alloc)))?;
    Ok(ctx)
}

/// Fails where no temporary can be declared.
fn check_ready(ctx: &TraverseCtx) -> Result<(), Fail>
    ensures block { OnOk result (HasScope ctx.now.scoping.scoping (current_block_scope_id ctx.now.path)) }
    ensures hoisted { OnOk result (HasScope ctx.now.scoping.scoping (current_var_scope_id ctx.now.path)) }
    ensures symbols { OnOk result (HasRoom ctx.now.scoping.scoping.symbols) }
    ensures open { OnOk result (0 < length ctx.now.lists) }
{
    check_room(ctx.scoping(), ctx.current_block_scope_id())?;
    check_room(ctx.scoping(), ctx.current_var_scope_id())?;
    if !ctx.has_open_list() {
        return Err(Fail::new("no list is open"));
    }
    Ok(())
}

// foo
fn foo(alloc: Global) -> Result<Node, AllocError> {
    make_identifier_reference(alloc, Name::new(alloc, "foo")?)
}

// foo()
fn foo_called(alloc: Global) -> Result<Node, AllocError> {
    make_call_expression(alloc, foo(alloc)?, List::new(alloc), false)
}

/// Writes a name.
fn write_name(node: &Node, text: &mut String) -> Result<(), AllocError> {
    match node.kind() {
        Kind::IdentifierReference => {
            let name = IdentifierReferenceRef::from_node(node);
            text.push_str(name.name.as_str())
        }
        _ => text.push_str("?"),
    }
}

/// Writes a name, a call of one without arguments, or `this`.
fn write_operand(node: &Node, text: &mut String) -> Result<(), AllocError> {
    match node.kind() {
        Kind::CallExpression => {
            let call = CallExpressionRef::from_node(node);
            write_name(call.callee, text)?;
            text.push_str("()")
        }
        Kind::ThisExpression => text.push_str("this"),
        _ => write_name(node, text),
    }
}

/// Writes such an operand, or an assignment of one, with a semicolon behind it.
fn write_expression(node: &Node, text: &mut String) -> Result<(), AllocError> {
    match node.kind() {
        Kind::AssignmentExpression => {
            let assignment = AssignmentExpressionRef::from_node(node);
            write_name(assignment.left, text)?;
            text.push_str(" = ")?;
            write_operand(assignment.right, text)?;
            text.push_str("; ")
        }
        _ => {
            write_operand(node, text)?;
            text.push_str("; ")
        }
    }
}

// _foo = foo, _foo
#[tactic(auto, using(crate::proofs::Counted::duplicated_count))]
fn write_name_held(ctx: &mut TraverseCtx, text: &mut String) -> Result<(), Fail>
    requires taken { (s : ScopeId) → AreTaken ctx.old.scoping s }
    requires references { length ctx.old.scoping.scoping.references ≤ 8 }
    ensures taken { OnOk result ((s : ScopeId) → AreTaken ctx.new.scoping s) }
    ensures references { OnOk result (length ctx.new.scoping.scoping.references ≤ length ctx.old.scoping.scoping.references + 2) }
{
    check_ready(ctx)?;
    let name = foo(ctx.alloc)?;
    let (first, again) = duplicate_expression(name, false, ctx)?;
    write_expression(&first, text)?;
    write_expression(&again, text)?;
    Ok(())
}

// _foo = foo(), _foo, _foo
#[tactic(auto, using(crate::proofs::Counted::duplicated_count))]
fn write_call_held(ctx: &mut TraverseCtx, text: &mut String) -> Result<(), Fail>
    requires taken { (s : ScopeId) → AreTaken ctx.old.scoping s }
    requires references { length ctx.old.scoping.scoping.references ≤ 8 }
    ensures taken { OnOk result ((s : ScopeId) → AreTaken ctx.new.scoping s) }
    ensures references { OnOk result (length ctx.new.scoping.scoping.references ≤ length ctx.old.scoping.scoping.references + 3) }
{
    check_ready(ctx)?;
    let call = foo_called(ctx.alloc)?;
    let (first, second, third) = duplicate_expression_twice(call, false, ctx)?;
    write_expression(&first, text)?;
    write_expression(&second, text)?;
    write_expression(&third, text)?;
    Ok(())
}

// class { [foo()]; }
#[tactic(auto, using(crate::proofs::Counted::held_count))]
fn write_key_held(ctx: &mut TraverseCtx, text: &mut String) -> Result<(), Fail>
    requires taken { (s : ScopeId) → AreTaken ctx.old.scoping s }
    requires references { length ctx.old.scoping.scoping.references ≤ 8 }
    ensures taken { OnOk result ((s : ScopeId) → AreTaken ctx.new.scoping s) }
    ensures references { OnOk result (length ctx.new.scoping.scoping.references ≤ length ctx.old.scoping.scoping.references + 2) }
{
    check_ready(ctx)?;
    let key = foo_called(ctx.alloc)?;
    let (first, again) = create_computed_key_temp_var(key, ctx)?;
    write_expression(&first, text)?;
    write_expression(&again, text)?;
    Ok(())
}

// this, this, this, this
fn write_this_copied(ctx: &mut TraverseCtx, text: &mut String) -> Result<(), Fail>
    requires taken { (s : ScopeId) → AreTaken ctx.old.scoping s }
    requires references { length ctx.old.scoping.scoping.references ≤ 8 }
{
    check_ready(ctx)?;
    let this = make_this_expression(ctx.alloc)?;
    let (first, again) = duplicate_expression_multiple(this, false, 3, ctx)?;
    write_expression(&first, text)?;
    for copy in again.as_slice() {
        write_expression(copy, text)?;
    }
    Ok(())
}

/// Writes what is held and read again, one after another.
fn write_held(ctx: &mut TraverseCtx, text: &mut String) -> Result<(), Fail>
    requires taken { (s : ScopeId) → AreTaken ctx.old.scoping s }
    requires references { ctx.old.scoping.scoping.references ≡ [] }
{
    write_name_held(ctx, text)?;
    write_call_held(ctx, text)?;
    write_key_held(ctx, text)?;
    write_this_copied(ctx, text)
}

/// What is held and read again in a block.
#[tactic(auto, using(crate::proofs::Fresh::are_taken, crate::proofs::Fresh::no_references))]
fn held(alloc: Global) -> Result<String, Fail> {
    let mut ctx = in_block(alloc)?;
    let mut text = String::new(alloc);
    write_held(&mut ctx, &mut text)?;
    Ok(text)
}

#[test]
fn expressions_are_held_in_turn(rt: HostRuntime) -> Result<(), Fail> {
    let text = held(rt.alloc())?;
    assert_eq!(rt;
        text.as_str(),
        "_foo = foo; _foo; _foo2 = foo(); _foo2; _foo2; _foo3 = foo(); _foo3; this; this; this; this; "
    );
    Ok(())
}
