// Statements, each by the rule of its kind. (ECMA-262, 14 and 16.2.)

ghost use Rattle.std.specs.Prelude.{◌≡◌, IfOk, length};
ghost use Rattle.es_base.specs.declared.kind.Kind.{Kind};
ghost use Rattle.es_codes.specs.CodeView.{code_of};
ghost use Rattle.es_steps.specs.Code as of;
ghost use Rattle.es_steps.specs.Members.{at, codes_of};
ghost use Rattle.es_steps.specs.Statements as spec;
ghost use Rattle.es_code_members.specs.MembersView.{members_of};
ghost use Rattle.es_code_reading.specs.Contexts.{context_of};

use crate::taking::{for_in_members, for_of_members};
use es_base::kind::Kind;
use es_code_declarations::declarator::declarator_code;
use es_code_loops::loops::for_each_code;
use es_code_members::member::Member;
use es_code_reading::context::Context;
use es_code_statements::{held, steps};
use es_code_targets::caught;
use es_codes::code::Code;
use std::alloc::{AllocError, Global};

/// `a = b`, in a declaration. Fails on allocation failure alone.
pub fn variable_declarator(
    alloc: Global,
    c: &Context,
    node: u32,
    members: &mut [Member],
) -> Result<Code, AllocError>
    requires { length members.old ≡ 2 }
    ensures { IfOk result (λ e. code_of e ≡ spec.declarator_code (context_of c.now) node (members_of members.old)) }
{
    match members {
        [target, init] => declarator_code(alloc, c, node, target, init),
        _ => unreachable!(),
    }
}

/// `case a: b;`. Fails on allocation failure alone.
pub fn switch_case(alloc: Global, node: u32, members: &mut [Member]) -> Result<Code, AllocError>
    requires { length members.old ≡ 2 }
    ensures { IfOk result (λ e. code_of e ≡ spec.case_code node (members_of members.old)) }
{
    match members {
        [test, consequent] => held::case_code(alloc, node, test, consequent),
        _ => unreachable!(),
    }
}

/// `catch (a) {}`. Fails on allocation failure alone.
pub fn catch_clause(alloc: Global, node: u32, members: &mut [Member]) -> Result<Code, AllocError>
    requires { length members.old ≡ 2 }
    ensures { IfOk result (λ e. code_of e ≡ spec.catch_code node (members_of members.old)) }
{
    match members {
        [parameter, body] => caught::catch_code(alloc, node, parameter, body),
        _ => unreachable!(),
    }
}

/// `export { a };`. Fails on allocation failure alone.
pub fn named_export(alloc: Global, members: &mut [Member]) -> Result<Code, AllocError>
    requires { length members.old ≡ 3 }
    ensures { IfOk result (λ e. code_of e ≡ of.steps (codes_of (at 0 (members_of members.old)))) }
{
    match members {
        [declaration, _, _] => steps::named_export_code(alloc, declaration),
        _ => unreachable!(),
    }
}

/// `export default a;`. Fails on allocation failure alone.
pub fn default_export(alloc: Global, members: &mut [Member]) -> Result<Code, AllocError>
    requires { length members.old ≡ 1 }
    ensures { IfOk result (λ e. code_of e ≡ spec.default_export_code (members_of members.old)) }
{
    match members {
        [declaration] => steps::default_export_code(alloc, declaration),
        _ => unreachable!(),
    }
}

/// `for (a in b) c`. Fails on allocation failure alone.
pub fn for_in(
    alloc: Global,
    c: &Context,
    node: u32,
    members: &mut [Member],
) -> Result<Code, AllocError>
    requires { length members.old ≡ 3 }
    ensures { IfOk result (λ e. code_of e ≡ spec.for_each_code (context_of c.now) Kind.ForInStatement node (members_of members.old)) }
{
    let mut parts = for_in_members(members);
    for_each_code(alloc, c, Kind::ForInStatement, node, &mut parts)
}

/// `for (a of b) c`. Fails on allocation failure alone.
pub fn for_of(
    alloc: Global,
    c: &Context,
    node: u32,
    members: &mut [Member],
) -> Result<Code, AllocError>
    requires { length members.old ≡ 4 }
    ensures { IfOk result (λ e. code_of e ≡ spec.for_each_code (context_of c.now) Kind.ForOfStatement node (members_of members.old)) }
{
    let mut parts = for_of_members(members);
    for_each_code(alloc, c, Kind::ForOfStatement, node, &mut parts)
}
