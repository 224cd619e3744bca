// Members that rules take by name.

ghost use Rattle.std.specs.Prelude.{◌≡◌, length};
ghost use Rattle.es_code_classes.specs.Classes.{class_members};
ghost use Rattle.es_code_classes.specs.Elements.{field_members, method_members};
ghost use Rattle.es_code_classes.specs.Functions.{function_members};
ghost use Rattle.es_code_loops.specs.LoopView.{members_of_loop};
ghost use Rattle.es_code_members.specs.MembersView.{members_of};
ghost use Rattle.es_code_targets.specs.PropertyView.{members_of_property};

use es_code_classes::class::ClassMembers;
use es_code_classes::field::FieldMembers;
use es_code_classes::function::FunctionMembers;
use es_code_classes::method::MethodMembers;
use es_code_loops::loops::LoopMembers;
use es_code_members::member::Member;
use es_code_targets::pattern::PropertyMembers;
use std::mem;

fn taken(member: &mut Member) -> Member
    ensures { result ≡ member.old }
{
    mem::replace(member, Member::Absent)
}

/// The members of a property.
pub fn property_members(members: &mut [Member]) -> PropertyMembers
    requires { length members.old ≡ 6 }
    ensures { members_of_property result ≡ members_of members.old }
{
    match members {
        [key, value, kind, is_method, is_shorthand, is_computed] => PropertyMembers {
            key: taken(key),
            value: taken(value),
            kind: taken(kind),
            is_method: taken(is_method),
            is_shorthand: taken(is_shorthand),
            is_computed: taken(is_computed),
        },
        _ => unreachable!(),
    }
}

/// The members of a function that is no arrow.
pub fn function_members(members: &mut [Member]) -> FunctionMembers
    requires { length members.old ≡ 5 }
    ensures { function_members result ≡ members_of members.old }
{
    match members {
        [name, parameters, body, is_async, is_generator] => FunctionMembers {
            name: taken(name),
            parameters: taken(parameters),
            body: taken(body),
            is_async: taken(is_async),
            is_generator: taken(is_generator),
        },
        _ => unreachable!(),
    }
}

/// The members of a class.
pub fn class_members(members: &mut [Member]) -> ClassMembers
    requires { length members.old ≡ 3 }
    ensures { class_members result ≡ members_of members.old }
{
    match members {
        [name, heritage, body] => ClassMembers {
            name: taken(name),
            heritage: taken(heritage),
            body: taken(body),
        },
        _ => unreachable!(),
    }
}

/// The members of a method.
pub fn method_members(members: &mut [Member]) -> MethodMembers
    requires { length members.old ≡ 5 }
    ensures { method_members result ≡ members_of members.old }
{
    match members {
        [key, value, kind, is_computed, is_static] => MethodMembers {
            key: taken(key),
            value: taken(value),
            kind: taken(kind),
            is_computed: taken(is_computed),
            is_static: taken(is_static),
        },
        _ => unreachable!(),
    }
}

/// The members of a field.
pub fn field_members(members: &mut [Member]) -> FieldMembers
    requires { length members.old ≡ 4 }
    ensures { field_members result ≡ members_of members.old }
{
    match members {
        [key, value, is_computed, is_static] => FieldMembers {
            key: taken(key),
            value: taken(value),
            is_computed: taken(is_computed),
            is_static: taken(is_static),
        },
        _ => unreachable!(),
    }
}

/// The members of a `for`-`in`.
pub fn for_in_members(members: &mut [Member]) -> LoopMembers
    requires { length members.old ≡ 3 }
    ensures { members_of_loop result ≡ members_of members.old }
{
    match members {
        [head, right, body] => LoopMembers {
            head: taken(head),
            right: taken(right),
            body: taken(body),
            is_await: None,
        },
        _ => unreachable!(),
    }
}

/// The members of a `for`-`of`.
pub fn for_of_members(members: &mut [Member]) -> LoopMembers
    requires { length members.old ≡ 4 }
    ensures { members_of_loop result ≡ members_of members.old }
{
    match members {
        [head, right, body, is_await] => LoopMembers {
            head: taken(head),
            right: taken(right),
            body: taken(body),
            is_await: Some(taken(is_await)),
        },
        _ => unreachable!(),
    }
}
