// Patterns, each by the rule of its kind. (ECMA-262, 13.15.5 and 14.3.3.)

ghost use Rattle.std.specs.Prelude.{◌≡◌, IfOk, length};
ghost use Rattle.es_codes.specs.CodeView.{code_of};
ghost use Rattle.es_steps.specs.Statements as spec;
ghost use Rattle.es_code_members.specs.MembersView.{members_of};

use crate::taking::property_members;
use es_code_members::member::Member;
use es_code_targets::pattern::{
    array_pattern_code, default_code, object_pattern_code, pattern_property_code, rest_code,
};
use es_codes::code::Code;
use std::alloc::{AllocError, Global};

/// `{ k: a }`. Fails on allocation failure alone.
pub fn object_pattern(alloc: Global, node: u32, members: &mut [Member]) -> Result<Code, AllocError>
    requires { length members.old ≡ 1 }
    ensures { IfOk result (λ e. code_of e ≡ spec.object_pattern_code node (members_of members.old)) }
{
    match members {
        [properties] => object_pattern_code(alloc, node, properties),
        _ => unreachable!(),
    }
}

/// `[a]`. Fails on allocation failure alone.
pub fn array_pattern(alloc: Global, node: u32, members: &mut [Member]) -> Result<Code, AllocError>
    requires { length members.old ≡ 1 }
    ensures { IfOk result (λ e. code_of e ≡ spec.array_pattern_code node (members_of members.old)) }
{
    match members {
        [elements] => array_pattern_code(alloc, node, elements),
        _ => unreachable!(),
    }
}

/// `a = b`. Fails on allocation failure alone.
pub fn pattern_with_default(
    alloc: Global,
    node: u32,
    members: &mut [Member],
) -> Result<Code, AllocError>
    requires { length members.old ≡ 2 }
    ensures { IfOk result (λ e. code_of e ≡ spec.default_code node (members_of members.old)) }
{
    match members {
        [target, default] => default_code(alloc, node, target, default),
        _ => unreachable!(),
    }
}

/// `...a`. Fails on allocation failure alone.
pub fn rest_element(alloc: Global, members: &mut [Member]) -> Result<Code, AllocError>
    requires { length members.old ≡ 1 }
    ensures { IfOk result (λ e. code_of e ≡ spec.rest_code (members_of members.old)) }
{
    match members {
        [target] => rest_code(alloc, target),
        _ => unreachable!(),
    }
}

/// `k: a`, a property of a pattern. Fails on allocation failure alone.
pub fn pattern_property(
    alloc: Global,
    node: u32,
    members: &mut [Member],
) -> Result<Code, AllocError>
    requires { length members.old ≡ 6 }
    ensures { IfOk result (λ e. code_of e ≡ spec.pattern_property_code node (members_of members.old)) }
{
    let mut property = property_members(members);
    pattern_property_code(alloc, node, &mut property)
}
