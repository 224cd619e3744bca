// The context of a walk: each of its calls.

ghost use Rattle.std.specs.Prelude.{◌≡◌, true, IfOk};
ghost use Rattle.es_node.specs.View.{is_list};
ghost use Rattle.es_base.specs.declared.kind.Kind as kind;

use bitflags::Flags;
use es_base::diagnostic::Diagnostic;
use es_base::ids::{NodeId, ScopeId};
use es_base::kind::Kind;
use es_base::list::List;
use es_base::literal::LiteralValue;
use es_base::name::Name;
use es_base::operator::{AssignmentOperator, SourceType};
use es_ctx::ancestor::{Parent, has_statements};
use es_ctx::ancestor_kind::AncestorKind;
use es_ctx::beside::{insert_after, insert_before, insert_many_after, insert_many_before};
use es_ctx::ctx::TraverseCtx;
use es_ctx::stores::Side;
use es_node::node::{Node, Part};
use es_scopes::flags::ScopeFlags;
use es_scopes::scoping::Scoping;
use es_steps::options::CompilerAssumptions;
use es_tree::class::{make_class_body, make_class_declaration};
use es_tree::expression::make_assignment_expression;
use es_tree::identifier::{make_binding_identifier, make_identifier_reference};
use es_tree::literal::make_literal;
use es_tree::program::make_program;
use es_tree::statement::{
    BlockStatement, BreakStatement, ExpressionStatement, make_block_statement,
    make_break_statement, make_expression_statement, make_variable_declarator,
};
use std::alloc::{AllocError, Global};
use std::test::Fail;

/// The context of an empty program.
fn context(alloc: Global) -> Result<TraverseCtx, Fail> {
    let program = make_program(alloc, SourceType::Script, List::new(alloc))?;
    if !program.has_at_most(1) {
        return Err(Fail::new("too many nodes"));
    }
    Ok(TraverseCtx::new(
        alloc,
        &program,
        Scoping::new(alloc),
        CompilerAssumptions::default(),
    )?)
}

/// A statement of this number.
fn statement(alloc: Global, number: u32) -> Result<Node, AllocError> {
    let mut statement = BreakStatement::from_node(make_break_statement(alloc, None)?);
    statement.node_id = NodeId(number);
    Ok(statement.into_node())
}

/// The directive `"use strict";` of this number.
fn directive(alloc: Global, number: u32) -> Result<Node, AllocError> {
    let value = LiteralValue::String {
        value: Name::new(alloc, "use strict")?,
        raw: None,
    };
    let directive = make_expression_statement(
        alloc,
        make_literal(alloc, value)?,
        Some(Name::new(alloc, "use strict")?),
    )?;
    let mut directive = ExpressionStatement::from_node(directive);
    directive.node_id = NodeId(number);
    Ok(directive.into_node())
}

/// A declarator of this name.
fn declarator(alloc: Global, name: &str) -> Result<Node, AllocError> {
    let name = make_binding_identifier(alloc, Name::new(alloc, name)?)?;
    make_variable_declarator(alloc, name, None)
}

/// Keeps a statement of a number beside the element of another.
fn keep(ctx: &mut TraverseCtx, side: Side, element: u32, number: u32) -> Result<(), Fail> {
    if !ctx.has_open_list() {
        return Err(Fail::new("no list is open"));
    }
    let statement = statement(ctx.alloc, number)?;
    match side {
        Side::Before => insert_before(NodeId(element), statement, ctx)?,
        Side::After => insert_after(NodeId(element), statement, ctx)?,
    }
    Ok(())
}

/// Keeps two statements on a side of an element.
fn keep_two(ctx: &mut TraverseCtx, side: Side, element: u32, first: u32) -> Result<(), Fail> {
    if !ctx.has_open_list() {
        return Err(Fail::new("no list is open"));
    }
    let statements = vec![in ctx.alloc;
        statement(ctx.alloc, first)?,
        statement(ctx.alloc, first)?,
    ]?;
    let statements = List::from_vec(statements);
    match side {
        Side::Before => insert_many_before(NodeId(element), statements, ctx)?,
        Side::After => insert_many_after(NodeId(element), statements, ctx)?,
    }
    Ok(())
}

/// Has a name declared by the `var`, or else by the `let`, of the innermost open list.
fn declare(ctx: &mut TraverseCtx, is_var: bool, name: &str) -> Result<(), Fail> {
    if !ctx.has_open_list() {
        return Err(Fail::new("no list is open"));
    }
    let declarator = declarator(ctx.alloc, name)?;
    if is_var {
        ctx.insert_var(declarator)?;
    } else {
        ctx.insert_let(declarator)?;
    }
    Ok(())
}

/// The kinds and numbers of the nodes of a list.
fn shown(alloc: Global, part: &Part) -> Result<String, AllocError> {
    let mut text = String::new(alloc);
    if let Part::List(nodes) = part {
        for node in nodes.as_slice() {
            write!(text, "{:?} {}\n", node.kind(), node.node_id().0)?;
        }
    }
    Ok(text)
}

/// What is told of a block.
fn block(alloc: Global) -> Result<Parent, AllocError>
    ensures { IfOk result (λ parent. parent.kind ≡ kind.Kind.BlockStatement) }
{
    let mut block = BlockStatement::from_node(make_block_statement(alloc, List::new(alloc))?);
    block.node_id = NodeId(9);
    Parent::of(alloc, &block.into_node())
}

// "use strict"; break; break;
fn statements(alloc: Global) -> Result<List<Node>, AllocError> {
    let mut nodes = List::new(alloc);
    nodes.push(directive(alloc, 1)?)?;
    nodes.push(statement(alloc, 2)?)?;
    nodes.push(statement(alloc, 3)?)?;
    Ok(nodes)
}

/// Keeps statements beside the second of them, and one beside an element that there is not.
fn keep_some(ctx: &mut TraverseCtx) -> Result<(), Fail> {
    keep(ctx, Side::After, 2, 22)?;
    keep(ctx, Side::Before, 2, 20)?;
    keep(ctx, Side::Before, 2, 21)?;
    keep_two(ctx, Side::Before, 3, 30)?;
    keep_two(ctx, Side::After, 3, 31)?;
    keep(ctx, Side::After, 77, 78)
}

/// The list of the statements, after it was opened and closed.
fn closed(alloc: Global) -> Result<String, Fail> {
    let mut part = Part::List(statements(alloc)?);
    fill(alloc, &mut part)?;
    Ok(shown(alloc, &part)?)
}

/// Opens and closes a list, and keeps statements and declarations for it in between.
fn fill(alloc: Global, part: &mut Part) -> Result<(), Fail>
    requires { is_list part.old ≡ true }
{
    let parent = block(alloc)?;
    let mut ctx = context(alloc)?;
    ctx.open(&parent, 0, part)?;
    keep_and_declare(&mut ctx)?;
    ctx.close(&parent, 0, part)?;
    Ok(())
}

/// Keeps statements, and has two names declared.
fn keep_and_declare(ctx: &mut TraverseCtx) -> Result<(), Fail> {
    keep_some(ctx)?;
    declare(ctx, false, "a")?;
    declare(ctx, true, "b")
}

#[test]
fn statements_go_beside_their_elements(rt: HostRuntime) -> Result<(), Fail> {
    let found = closed(rt.alloc())?;
    let wanted =
        "ExpressionStatement 1\nVariableDeclaration 4294967295\nVariableDeclaration 4294967295\nBreakStatement 20\nBreakStatement 21\nBreakStatement 2\nBreakStatement 22\nBreakStatement 30\nBreakStatement 30\nBreakStatement 3\nBreakStatement 31\nBreakStatement 31\nBreakStatement 78\n";
    assert!(rt; found.as_str() == wanted, "{found}");
    Ok(())
}

#[test]
fn numbers_are_given(rt: HostRuntime) -> Result<(), Fail> {
    let alloc = rt.alloc();
    let mut ctx = context(alloc)?;
    if ctx.next > 1 {
        return Err(Fail::new("no number is left"));
    }
    assert!(rt; ctx.fresh_id() == NodeId(1));
    assert!(rt; !ctx.has_open_list());
    let parent = block(alloc)?;
    assert!(rt; parent.node == 9);
    assert!(rt; has_statements(parent.kind, 0) && !has_statements(parent.kind, 1));
    Ok(())
}

/// The kinds of the places around, the innermost first.
fn kinds(alloc: Global, ctx: &TraverseCtx) -> Result<String, AllocError> {
    let mut text = String::new(alloc);
    for ancestor in ctx.ancestors() {
        write!(text, "{:?} ", ancestor.kind)?;
    }
    Ok(text)
}

// function f(a = { b }) {}
#[test]
fn places_are_named(rt: HostRuntime) -> Result<(), Fail> {
    let alloc = rt.alloc();
    let mut ctx = context(alloc)?;
    assert!(rt; ctx.is_root());
    let part = Part::List(List::new(alloc));
    let mut function = block(alloc)?;
    function.kind = Kind::FunctionDeclaration;
    function.scope = Some(7);
    ctx.open(&function, 1, &part)?;
    let mut default = function.try_clone(alloc)?;
    default.kind = Kind::AssignmentPattern;
    default.scope = None;
    ctx.open(&default, 1, &part)?;
    let found = kinds(alloc, &ctx)?;
    assert!(rt;
        found.as_str() == "FormalParameterInitializer FunctionParams ",
        "{found}"
    );
    assert!(rt; ctx.current_scope_id() == ScopeId(7));
    assert!(rt; ctx.current_hoist_scope_id() == ScopeId(7));
    assert!(rt; ctx.current_block_scope_id() == ScopeId(0));
    assert!(rt; ctx.current_var_scope_id() == ScopeId(0));
    Ok(())
}

#[test]
fn warnings_are_kept(rt: HostRuntime) -> Result<(), Fail> {
    let alloc = rt.alloc();
    let mut ctx = context(alloc)?;
    ctx.warn(Diagnostic {
        node: NodeId(3),
        span: None,
    })?;
    assert!(rt; ctx.diagnostics.len() == 1);
    Ok(())
}

// class C extends D {}
#[test]
fn heads_of_classes_are_told(rt: HostRuntime) -> Result<(), Fail> {
    let alloc = rt.alloc();
    let id = make_binding_identifier(alloc, Name::new(alloc, "C")?)?;
    let heritage = make_identifier_reference(alloc, Name::new(alloc, "D")?)?;
    let body = make_class_body(alloc, List::new(alloc))?;
    let class = make_class_declaration(alloc, Some(id), Some(heritage), body)?;
    let parent = Parent::of(alloc, &class)?;
    assert!(rt; parent.kind == Kind::ClassDeclaration && !parent.is_computed && !parent.is_static);
    match parent.class {
        Some(head) => {
            assert!(rt; head.is_declaration && head.has_name && head.has_heritage);
            assert!(rt; head.symbol.is_none());
        }
        None => return Err(Fail::new("no class")),
    }
    assert!(rt; is_named(&parent, "C") && !parent.is_plain_or_logical);
    Ok(())
}

/// Whether this name is told of the node.
fn is_named(parent: &Parent, name: &str) -> bool {
    match &parent.name {
        Some(told) => told.as_str() == name,
        None => false,
    }
}

// a = a, with this operator
fn assignment(alloc: Global, operator: AssignmentOperator) -> Result<Parent, AllocError> {
    let left = make_identifier_reference(alloc, Name::new(alloc, "a")?)?;
    let right = make_identifier_reference(alloc, Name::new(alloc, "a")?)?;
    Parent::of(
        alloc,
        &make_assignment_expression(alloc, operator, left, right)?,
    )
}

// a = a, a ||= a, a += a (ECMA-262, 13.15.2: the last names no function)
#[test]
fn assignments_are_told(rt: HostRuntime) -> Result<(), Fail> {
    let alloc = rt.alloc();
    let plain = assignment(alloc, AssignmentOperator::Assign)?;
    assert!(rt; is_named(&plain, "a") && plain.is_plain_or_logical);
    let logical = assignment(alloc, AssignmentOperator::LogicalOr)?;
    assert!(rt; is_named(&logical, "a") && logical.is_plain_or_logical);
    let sum = assignment(alloc, AssignmentOperator::Addition)?;
    assert!(rt; is_named(&sum, "a") && !sum.is_plain_or_logical);
    Ok(())
}

/// The context of an empty program whose scope is strict.
fn strict_context(alloc: Global) -> Result<TraverseCtx, Fail> {
    let mut ctx = context(alloc)?;
    if !ctx.scoping().has_room() {
        return Err(Fail::new("no number is left"));
    }
    ctx.scoping_mut().add_scope(None, ScopeFlags::STRICT)?;
    Ok(ctx)
}

/// Puts a scope below the current one, in which `1` is to stand.
fn put_below(ctx: &mut TraverseCtx) -> Result<ScopeId, Fail> {
    if !ctx.scoping().has_scope(ctx.current_scope_id()) || !ctx.scoping().has_room() {
        return Err(Fail::new("no scope"));
    }
    let value = LiteralValue::Number {
        raw: Name::new(ctx.alloc, "1")?,
    };
    let expression = make_literal(ctx.alloc, value)?;
    Ok(ctx.insert_scope_below_expression(&expression, ScopeFlags::ARROW)?)
}

/// Whether this is a strict scope below the first.
fn is_strict_below(scoping: &Scoping, scope: ScopeId) -> bool {
    scoping.has_scope(scope)
        && scoping.scope_parent_id(scope) == Some(ScopeId(0))
        && scoping.scope_flags(scope).contains(ScopeFlags::STRICT)
}

#[test]
fn scopes_are_put_below(rt: HostRuntime) -> Result<(), Fail> {
    let mut ctx = strict_context(rt.alloc())?;
    let below = put_below(&mut ctx)?;
    assert!(rt; below == ScopeId(1));
    assert!(rt; is_strict_below(ctx.scoping(), below));
    Ok(())
}
