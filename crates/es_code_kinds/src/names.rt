// Names and constants, each by the rule of its kind. (ECMA-262, 12.7, 12.9 and 13.1.)

ghost use Rattle.std.specs.Prelude.{◌≡◌, IfOk, length};
ghost use Rattle.es_codes.specs.CodeView.{code_of};
ghost use Rattle.es_steps.specs.Code as of;
ghost use Rattle.es_steps.specs.Context.{name_kind};
ghost use Rattle.es_steps.specs.Expressions as spec;
ghost use Rattle.es_steps.specs.Members.{at, word_of};
ghost use Rattle.es_code_members.specs.MembersView.{members_of};
ghost use Rattle.es_code_reading.specs.Contexts.{context_of};

use es_code_expressions::literal;
use es_code_members::member::Member;
use es_code_places::name::{binding_code, name_code, private_name_code, spelled_code};
use es_code_reading::context::Context;
use es_codes::code::Code;
use std::alloc::{AllocError, Global};

/// `a`, a reference. Fails on allocation failure alone.
pub fn identifier_reference(
    alloc: Global,
    c: &Context,
    node: u32,
    members: &mut [Member],
) -> Result<Code, AllocError>
    requires { length members.old ≡ 1 }
    ensures { IfOk result (λ e. code_of e ≡ spec.name_code (context_of c.now) node (word_of (at 0 (members_of members.old)))) }
{
    match members {
        [name] => name_code(alloc, c, node, name),
        _ => unreachable!(),
    }
}

/// `a`, declared here. Fails on allocation failure alone.
pub fn binding_identifier(
    alloc: Global,
    c: &Context,
    node: u32,
    members: &mut [Member],
) -> Result<Code, AllocError>
    requires { length members.old ≡ 1 }
    ensures { IfOk result (λ e. code_of e ≡ of.binding node (word_of (at 0 (members_of members.old))) (name_kind (context_of c.now) (word_of (at 0 (members_of members.old))))) }
{
    match members {
        [name] => binding_code(alloc, c, node, name),
        _ => unreachable!(),
    }
}

/// `a`, the name of a member or a label. Fails on allocation failure alone.
pub fn identifier_name(alloc: Global, members: &mut [Member]) -> Result<Code, AllocError>
    requires { length members.old ≡ 1 }
    ensures { IfOk result (λ e. code_of e ≡ of.spelled (word_of (at 0 (members_of members.old)))) }
{
    match members {
        [name] => spelled_code(alloc, name),
        _ => unreachable!(),
    }
}

/// `#a`. Fails on allocation failure alone.
pub fn private_identifier(
    alloc: Global,
    c: &Context,
    node: u32,
    members: &mut [Member],
) -> Result<Code, AllocError>
    requires { length members.old ≡ 1 }
    ensures { IfOk result (λ e. code_of e ≡ spec.private_name_code (context_of c.now) node (word_of (at 0 (members_of members.old)))) }
{
    match members {
        [name] => private_name_code(alloc, c, node, name),
        _ => unreachable!(),
    }
}

/// `1`. Fails on allocation failure alone.
pub fn literal_constant(
    alloc: Global,
    node: u32,
    members: &mut [Member],
) -> Result<Code, AllocError>
    requires { length members.old ≡ 1 }
    ensures { IfOk result (λ e. code_of e ≡ spec.literal_code node (at 0 (members_of members.old))) }
{
    match members {
        [value] => literal::literal_code(alloc, node, value),
        _ => unreachable!(),
    }
}
