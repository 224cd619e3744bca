// Functions and classes, each by the rule of its kind. (ECMA-262, 15.)

ghost use Rattle.std.specs.Prelude.{◌≡◌, IfOk, length};
ghost use Rattle.es_codes.specs.CodeView.{code_of};
ghost use Rattle.es_steps.specs.ClassHeads.{declared_or_named};
ghost use Rattle.es_steps.specs.Members.{at};
ghost use Rattle.es_steps.specs.Statements as spec;
ghost use Rattle.es_code_members.specs.MembersView.{members_of};
ghost use Rattle.es_code_reading.specs.Contexts.{context_of};

use crate::taking::{class_members, field_members, function_members, method_members};
use es_code_classes::arrow::arrow_code;
use es_code_classes::class::{class_declaration_code, class_expression_code};
use es_code_classes::field::field_code;
use es_code_classes::function::{function_declaration_code, function_expression_code};
use es_code_classes::method::method_code;
use es_code_members::member::Member;
use es_code_reading::context::Context;
use es_codes::code::Code;
use std::alloc::{AllocError, Global};

/// `function f() {}`, a declaration. Fails on allocation failure alone.
pub fn function_declaration(
    alloc: Global,
    c: &Context,
    node: u32,
    members: &mut [Member],
) -> Result<Code, AllocError>
    requires { length members.old ≡ 5 }
    ensures { IfOk result (λ e. code_of e ≡ spec.function_declaration_code (context_of c.now) node (members_of members.old)) }
{
    let mut function = function_members(members);
    function_declaration_code(alloc, c, node, &mut function)
}

/// `function f() {}`, an expression. Fails on allocation failure alone.
pub fn function_expression(
    alloc: Global,
    c: &Context,
    node: u32,
    members: &mut [Member],
) -> Result<Code, AllocError>
    requires { length members.old ≡ 5 }
    ensures { IfOk result (λ e. code_of e ≡ spec.function_expression_code (context_of c.now) node (members_of members.old)) }
{
    let mut function = function_members(members);
    function_expression_code(alloc, c, node, &mut function)
}

/// `() => a`. Fails on allocation failure alone.
pub fn arrow(
    alloc: Global,
    c: &Context,
    node: u32,
    members: &mut [Member],
) -> Result<Code, AllocError>
    requires { length members.old ≡ 3 }
    ensures { IfOk result (λ e. code_of e ≡ spec.arrow_code (context_of c.now) node (members_of members.old)) }
{
    match members {
        [parameters, body, is_async] => arrow_code(alloc, c, node, parameters, body, is_async),
        _ => unreachable!(),
    }
}

/// `class A {}`, a declaration. Fails on allocation failure alone.
pub fn class_declaration(
    alloc: Global,
    c: &Context,
    node: u32,
    members: &mut [Member],
) -> Result<Code, AllocError>
    requires { length members.old ≡ 3 }
    ensures { IfOk result (λ e. code_of e ≡ spec.class_of (declared_or_named node (context_of c.now).named (spec.declared_by (at 0 (members_of members.old)))) node (members_of members.old)) }
{
    let mut class = class_members(members);
    class_declaration_code(alloc, c, node, &mut class)
}

/// `class A {}`, an expression. Fails on allocation failure alone.
pub fn class_expression(
    alloc: Global,
    c: &Context,
    node: u32,
    members: &mut [Member],
) -> Result<Code, AllocError>
    requires { length members.old ≡ 3 }
    ensures { IfOk result (λ e. code_of e ≡ spec.class_of (spec.declared_by_let node (context_of c.now).named (context_of c.now).let_class) node (members_of members.old)) }
{
    let mut class = class_members(members);
    class_expression_code(alloc, c, node, &mut class)
}

/// `k = a;`, a field. Fails on allocation failure alone.
pub fn field(alloc: Global, c: &Context, members: &mut [Member]) -> Result<Code, AllocError>
    requires { length members.old ≡ 4 }
    ensures { IfOk result (λ e. code_of e ≡ spec.field_code (context_of c.now) (members_of members.old)) }
{
    let mut field = field_members(members);
    field_code(alloc, c, &mut field)
}

/// `k() {}`, a method or a constructor. Fails on allocation failure alone.
pub fn method(alloc: Global, c: &Context, members: &mut [Member]) -> Result<Code, AllocError>
    requires { length members.old ≡ 5 }
    ensures { IfOk result (λ e. code_of e ≡ spec.method_code (context_of c.now) (members_of members.old)) }
{
    let mut method = method_members(members);
    method_code(alloc, c, &mut method)
}
