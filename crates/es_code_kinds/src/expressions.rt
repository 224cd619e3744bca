// Expressions, each by the rule of its kind. (ECMA-262, 13.)

ghost use Rattle.std.specs.Prelude.{◌≡◌, IfOk, length};
ghost use Rattle.es_codes.specs.CodeView.{code_of};
ghost use Rattle.es_steps.specs.Expressions as spec;
ghost use Rattle.es_code_members.specs.MembersView.{members_of};
ghost use Rattle.es_code_reading.specs.Contexts.{context_of};

use crate::taking::property_members;
use es_code_assignments::assignment::assignment_code;
use es_code_assignments::binary::binary_code;
use es_code_calls::template::{tag_code, template_code, template_string_code};
use es_code_conditionals::conditional::conditional_code;
use es_code_expressions::operator::{chain_code, new_code, update_code};
use es_code_expressions::property::property_code;
use es_code_generated_calls::call::call_code;
use es_code_generated_members::member::member_code;
use es_code_members::member::Member;
use es_code_operators::logical::logical_code;
use es_code_operators::unary::unary_code;
use es_code_places::private::{private_field_code, private_in_code};
use es_code_reading::context::Context;
use es_codes::code::Code;
use std::alloc::{AllocError, Global};

/// `${a}b`. Fails on allocation failure alone.
pub fn template_string(alloc: Global, members: &mut [Member]) -> Result<Code, AllocError>
    requires { length members.old ≡ 3 }
    ensures { IfOk result (λ e. code_of e ≡ spec.template_string_code (members_of members.old)) }
{
    match members {
        [raw, cooked, is_tail] => template_string_code(alloc, raw, cooked, is_tail),
        _ => unreachable!(),
    }
}

/// ``a${b}c``. Fails on allocation failure alone.
pub fn template(alloc: Global, node: u32, members: &mut [Member]) -> Result<Code, AllocError>
    requires { length members.old ≡ 2 }
    ensures { IfOk result (λ e. code_of e ≡ spec.template_code node (members_of members.old)) }
{
    match members {
        [quasis, expressions] => template_code(alloc, node, quasis, expressions),
        _ => unreachable!(),
    }
}

/// `f`a``. Fails on allocation failure alone.
pub fn tag(alloc: Global, node: u32, members: &mut [Member]) -> Result<Code, AllocError>
    requires { length members.old ≡ 2 }
    ensures { IfOk result (λ e. code_of e ≡ spec.tag_code node (members_of members.old)) }
{
    match members {
        [tag, quasi] => tag_code(alloc, node, tag, quasi),
        _ => unreachable!(),
    }
}

/// `o.k`. Fails on allocation failure alone.
pub fn member(
    alloc: Global,
    c: &Context,
    node: u32,
    members: &mut [Member],
) -> Result<Code, AllocError>
    requires { length members.old ≡ 4 }
    ensures { IfOk result (λ e. code_of e ≡ spec.member_code (context_of c.now) node (members_of members.old)) }
{
    match members {
        [object, property, is_computed, is_optional] => member_code(
            alloc,
            c,
            node,
            object,
            property,
            is_computed,
            is_optional,
        ),
        _ => unreachable!(),
    }
}

/// `o.#k`. Fails on allocation failure alone.
pub fn private_field(
    alloc: Global,
    c: &Context,
    node: u32,
    members: &mut [Member],
) -> Result<Code, AllocError>
    requires { length members.old ≡ 4 }
    ensures { IfOk result (λ e. code_of e ≡ spec.private_field_code (context_of c.now) node (members_of members.old)) }
{
    match members {
        [object, key, is_computed, is_optional] => private_field_code(
            alloc,
            c,
            node,
            object,
            key,
            is_computed,
            is_optional,
        ),
        _ => unreachable!(),
    }
}

/// `#k in o`. Fails on allocation failure alone.
pub fn private_in(
    alloc: Global,
    c: &Context,
    node: u32,
    members: &mut [Member],
) -> Result<Code, AllocError>
    requires { length members.old ≡ 3 }
    ensures { IfOk result (λ e. code_of e ≡ spec.private_in_code (context_of c.now) node (members_of members.old)) }
{
    match members {
        [operator, key, object] => private_in_code(alloc, c, node, operator, key, object),
        _ => unreachable!(),
    }
}

/// `a = b`. Fails on allocation failure alone.
pub fn assignment(
    alloc: Global,
    c: &Context,
    node: u32,
    members: &mut [Member],
) -> Result<Code, AllocError>
    requires { length members.old ≡ 3 }
    ensures { IfOk result (λ e. code_of e ≡ spec.assignment_code (context_of c.now) node (members_of members.old)) }
{
    match members {
        [operator, target, right] => assignment_code(alloc, c, node, operator, target, right),
        _ => unreachable!(),
    }
}

/// `a++`. Fails on allocation failure alone.
pub fn update(alloc: Global, node: u32, members: &mut [Member]) -> Result<Code, AllocError>
    requires { length members.old ≡ 3 }
    ensures { IfOk result (λ e. code_of e ≡ spec.update_code node (members_of members.old)) }
{
    match members {
        [operator, argument, is_prefix] => update_code(alloc, node, operator, argument, is_prefix),
        _ => unreachable!(),
    }
}

/// `-a`. Fails on allocation failure alone.
pub fn unary(alloc: Global, node: u32, members: &mut [Member]) -> Result<Code, AllocError>
    requires { length members.old ≡ 2 }
    ensures { IfOk result (λ e. code_of e ≡ spec.unary_code node (members_of members.old)) }
{
    match members {
        [operator, argument] => unary_code(alloc, node, operator, argument),
        _ => unreachable!(),
    }
}

/// `a + b`. Fails on allocation failure alone.
pub fn binary(
    alloc: Global,
    c: &Context,
    node: u32,
    members: &mut [Member],
) -> Result<Code, AllocError>
    requires { length members.old ≡ 3 }
    ensures { IfOk result (λ e. code_of e ≡ spec.binary_code (context_of c.now) node (members_of members.old)) }
{
    match members {
        [operator, left, right] => binary_code(alloc, c, node, operator, left, right),
        _ => unreachable!(),
    }
}

/// `a && b`. Fails on allocation failure alone.
pub fn logical(
    alloc: Global,
    c: &Context,
    node: u32,
    members: &mut [Member],
) -> Result<Code, AllocError>
    requires { length members.old ≡ 3 }
    ensures { IfOk result (λ e. code_of e ≡ spec.logical_code (context_of c.now) node (members_of members.old)) }
{
    match members {
        [operator, left, right] => logical_code(alloc, c, node, operator, left, right),
        _ => unreachable!(),
    }
}

/// `a?.b`. Fails on allocation failure alone.
pub fn chain(alloc: Global, node: u32, members: &mut [Member]) -> Result<Code, AllocError>
    requires { length members.old ≡ 1 }
    ensures { IfOk result (λ e. code_of e ≡ spec.chain_code node (members_of members.old)) }
{
    match members {
        [expression] => chain_code(alloc, node, expression),
        _ => unreachable!(),
    }
}

/// `f(a)`. Fails on allocation failure alone.
pub fn call(
    alloc: Global,
    c: &Context,
    node: u32,
    members: &mut [Member],
) -> Result<Code, AllocError>
    requires { length members.old ≡ 3 }
    ensures { IfOk result (λ e. code_of e ≡ spec.call_code (context_of c.now) node (members_of members.old)) }
{
    match members {
        [callee, arguments, is_optional] => call_code(
            alloc,
            c,
            node,
            callee,
            arguments,
            is_optional,
        ),
        _ => unreachable!(),
    }
}

/// `new f(a)`. Fails on allocation failure alone.
pub fn new_expression(alloc: Global, node: u32, members: &mut [Member]) -> Result<Code, AllocError>
    requires { length members.old ≡ 2 }
    ensures { IfOk result (λ e. code_of e ≡ spec.new_code node (members_of members.old)) }
{
    match members {
        [callee, arguments] => new_code(alloc, node, callee, arguments),
        _ => unreachable!(),
    }
}

/// `a ? b : c`. Fails on allocation failure alone.
pub fn conditional(
    alloc: Global,
    c: &Context,
    node: u32,
    members: &mut [Member],
) -> Result<Code, AllocError>
    requires { length members.old ≡ 3 }
    ensures { IfOk result (λ e. code_of e ≡ spec.conditional_code (context_of c.now) node (members_of members.old)) }
{
    match members {
        [test, consequent, alternate] => conditional_code(
            alloc, c, node, test, consequent, alternate,
        ),
        _ => unreachable!(),
    }
}

/// `{ k: a }`, a property of an object. Fails on allocation failure alone.
pub fn property(alloc: Global, members: &mut [Member]) -> Result<Code, AllocError>
    requires { length members.old ≡ 6 }
    ensures { IfOk result (λ e. code_of e ≡ spec.property_code (members_of members.old)) }
{
    let mut property = property_members(members);
    property_code(alloc, &mut property)
}
