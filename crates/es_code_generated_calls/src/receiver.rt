// Calls of a new member `call` or `bind`, on what stands for a function. (ECMA-262, 20.2.3.2 and 20.2.3.3; what they stand for
// is our own.)

ghost use Rattle.std.specs.Prelude.{◌≡◌, IfOk, option_map};
ghost use Rattle.es_codes.specs.CodeView.{code_of, codes_of, helper_of, opened_of};
ghost use Rattle.es_codes.specs.View.{kind_of};
ghost use Rattle.es_seen_names.specs.PrivateMembers.{private_member_of};
ghost use Rattle.es_steps.specs.Code as of;
ghost use Rattle.es_steps.specs.GeneratedForms as spec;
ghost use Rattle.es_steps.specs.PrivateNames.{reference_of};
ghost use Rattle.es_validity.specs.Reached.{kind_in};
ghost use Rattle.es_code_reading.specs.Contexts.{context_of};
ghost use Rattle.es_code_generated_calls.specs.Receivers.{asserted_getter, branded_getter, called_name, static_getter, super_function_class, super_received};

use es_base::ledger::GeneratedKind;
use es_base::list::List;
use es_base::name::Name;
use es_code_helpers::moved::{from_call, take_boxed};
use es_code_reading::context::Context;
use es_code_reading::letters::{is_brand, is_class_named, private_function};
use es_code_reading::private_name::reference_to;
use es_codes::boxed::Boxed;
use es_codes::code::{Callee, Code, Helper, Opened};
use es_codes::name::NameKind;
use es_seen_names::private_member::PrivateMember;
use es_validity::privates::PrivateKind;
use std::alloc::{AllocError, Global};
use std::mem;

// ---- getters

/// Whether a private member is a getter.
fn is_getter_kind(kind: PrivateKind) -> bool
    ensures { result ≡ spec.is_getter_kind (kind_in kind) }
{
    matches!(kind, PrivateKind::Getter)
}

/// `o.#x`. Fails on allocation failure alone.
fn read(alloc: Global, node: u32, member: &PrivateMember, object: Code) -> Result<Code, AllocError>
    ensures { IfOk result (λ e. code_of e ≡ of.from_call (of.private_member node (reference_of (private_member_of member.now)) (code_of object))) }
{
    let object = Boxed::new(alloc, object)?;
    from_call(
        alloc,
        Code::private_member(node, reference_to(member), object),
    )
}

/// Where these are asserted to have the brand of the getter. Fails on allocation failure alone.
#[tactic(auto, using(crate::proofs::ReceiverForms::not_two_asserted))]
fn asserted_getter(
    alloc: Global,
    node: u32,
    member: &PrivateMember,
    asserted: &mut [Code],
) -> Result<Code, AllocError>
    ensures { IfOk result (λ e. code_of e ≡ asserted_getter node (private_member_of member.now) (codes_of asserted.old)) }
{
    match asserted {
        [brand, object] => {
            if is_brand(member, brand) {
                read(alloc, node, member, mem::replace(object, Code::nothing()))
            } else {
                Ok(Code::no_rule())
            }
        }
        _ => Ok(Code::no_rule()),
    }
}

/// `G.call(babelHelpers.assertClassBrand(Q, o))`. Fails on allocation failure alone.
fn branded_getter(
    alloc: Global,
    node: u32,
    member: &PrivateMember,
    helper: Helper,
    mut asserted: List<Code>,
) -> Result<Code, AllocError>
    ensures { IfOk result (λ e. code_of e ≡ branded_getter node (private_member_of member.now) (helper_of helper) (codes_of asserted)) }
{
    match helper {
        Helper::AssertClassBrand => {
            asserted_getter(alloc, node, member, asserted.as_mut_slice())
        }
        _ => Ok(Code::no_rule()),
    }
}

/// `G.call(Z)`, for a static getter of the class that `Z` names. Fails on allocation failure alone.
fn static_getter(
    alloc: Global,
    node: u32,
    member: &PrivateMember,
    object: Code,
) -> Result<Code, AllocError>
    ensures { IfOk result (λ e. code_of e ≡ static_getter node (private_member_of member.now) (code_of object)) }
{
    if member.is_static && is_class_named(member.class, &object) {
        read(alloc, node, member, object)
    } else {
        drop(object);
        Ok(Code::no_rule())
    }
}

#[tactic(auto, using(crate::proofs::ReceiverForms::on_branded, crate::proofs::ReceiverForms::on_class))]
fn getter_on(
    alloc: Global,
    node: u32,
    member: &PrivateMember,
    object: Code,
) -> Result<Code, AllocError>
    ensures { IfOk result (λ e. code_of e ≡ spec.getter_call node (private_member_of member.now) (of.and (code_of object) of.done)) }
{
    match object {
        Code::HelperCall {
            helper,
            arguments,
            ..
        } => branded_getter(alloc, node, member, helper, arguments),
        other => static_getter(alloc, node, member, other),
    }
}

#[tactic(auto, using(crate::proofs::ReceiverForms::not_one_read))]
fn getter_on_first(
    alloc: Global,
    node: u32,
    member: &PrivateMember,
    objects: &mut [Code],
) -> Result<Code, AllocError>
    ensures { IfOk result (λ e. code_of e ≡ spec.getter_call node (private_member_of member.now) (codes_of objects.old)) }
{
    match objects {
        [object] => getter_on(alloc, node, member, mem::replace(object, Code::nothing())),
        _ => Ok(Code::no_rule()),
    }
}

/// What the getter gives of its only argument, which is known to have it. Fails on allocation failure alone.
fn getter_call(
    alloc: Global,
    node: u32,
    member: &PrivateMember,
    mut arguments: List<Code>,
) -> Result<Code, AllocError>
    ensures { IfOk result (λ e. code_of e ≡ spec.getter_call node (private_member_of member.now) (codes_of arguments)) }
{
    getter_on_first(alloc, node, member, arguments.as_mut_slice())
}

// ---- functions that are given a receiver

/// `f.call(o, a)`. Fails on allocation failure alone.
#[tactic(auto, using(crate::proofs::ReceiverForms::none_given, crate::proofs::ReceiverForms::some_given, crate::proofs::ReceiverForms::first_given))]
fn received_call(
    alloc: Global,
    node: u32,
    function: Code,
    mut arguments: List<Code>,
) -> Result<Code, AllocError>
    ensures { IfOk result (λ e. code_of e ≡ spec.received_call node (code_of function) (codes_of arguments)) }
{
    if arguments.is_empty() {
        drop(function);
        drop(arguments);
        Ok(Code::no_rule())
    } else {
        let function = Boxed::new(alloc, function)?;
        let object = Boxed::new(alloc, arguments.remove(0))?;
        let callee = Boxed::new(alloc, Callee::with_receiver(function, object))?;
        Ok(Code::call(node, callee, arguments))
    }
}

/// `f.call(o, a)`, where `f` is the function of this private member, if of any: a getter gives what it reads. Fails on
/// allocation failure alone.
fn getter_or_received(
    alloc: Global,
    node: u32,
    member: Option<PrivateMember>,
    function: Code,
    arguments: List<Code>,
) -> Result<Code, AllocError>
    ensures { IfOk result (λ e. code_of e ≡ spec.getter_or_received node (option_map private_member_of member.entry) (code_of function) (codes_of arguments)) }
{
    match member {
        Some(member) => {
            if is_getter_kind(member.kind) {
                drop(function);
                getter_call(alloc, node, &member, arguments)
            } else {
                received_call(alloc, node, function, arguments)
            }
        }
        None => received_call(alloc, node, function, arguments),
    }
}

fn function_received(
    alloc: Global,
    c: &Context,
    node: u32,
    function: Code,
    arguments: List<Code>,
) -> Result<Code, AllocError>
    ensures { IfOk result (λ e. code_of e ≡ spec.getter_or_received node (spec.private_function (context_of c.now) (code_of function)) (code_of function) (codes_of arguments)) }
{
    let member = private_function(c, &function);
    getter_or_received(alloc, node, member, function, arguments)
}

// ---- functions that stand for what a constructor does behind `super(..)`

/// Whether it is a `super(..)` itself, and no call of what stands for one.
fn is_super_itself(behind: &Option<Opened>) -> bool
    ensures { result ≡ spec.is_super_itself (option_map opened_of behind.now) }
{
    match behind {
        Some(opened) => matches!(opened, Opened::InitializersOf(_)),
        None => true,
    }
}

/// What `super(a)` with this class and what is behind it is called as. It is no call of another class.
fn super_received(
    node: u32,
    class: u32,
    name: Name,
    constructed: u32,
    behind: Option<Opened>,
    arguments: List<Code>,
) -> Code
    ensures { code_of result ≡ super_received node class name constructed (option_map opened_of behind) (codes_of arguments) }
{
    if class == constructed && is_super_itself(&behind) {
        drop(behind);
        Code::super_call(node, class, Some(Opened::CalledBodyOf(name)), arguments)
    } else {
        drop(name);
        drop(behind);
        drop(arguments);
        Code::no_rule()
    }
}

#[tactic(auto, using(crate::proofs::ReceiverForms::on_super_call, crate::proofs::ReceiverForms::on_no_super_call))]
fn called_with_super(node: u32, class: u32, name: Name, constructed: Code) -> Code
    ensures { code_of result ≡ spec.super_function_call node class name (of.and (code_of constructed) of.done) }
{
    match constructed {
        Code::SuperCall {
            class: constructed,
            behind,
            arguments,
            ..
        } => super_received(node, class, name, constructed, behind, arguments),
        other => {
            drop(other);
            Code::no_rule()
        }
    }
}

#[tactic(auto, using(crate::proofs::ReceiverForms::not_one_constructed))]
fn called_with_first(node: u32, class: u32, name: Name, constructed: &mut [Code]) -> Code
    ensures { code_of result ≡ spec.super_function_call node class name (codes_of constructed.old) }
{
    match constructed {
        [constructed] => {
            called_with_super(
                node,
                class,
                name,
                mem::replace(constructed, Code::nothing()),
            )
        }
        _ => {
            drop(name);
            Code::no_rule()
        }
    }
}

/// `F.call(super(a))`
fn super_function_call(node: u32, class: u32, name: Name, mut arguments: List<Code>) -> Code
    ensures { code_of result ≡ spec.super_function_call node class name (codes_of arguments) }
{
    called_with_first(node, class, name, arguments.as_mut_slice())
}

// ---- `call` and `bind`

/// The class whose `super(..)` a generated name stands for.
pub fn super_function_class(kind: &NameKind) -> Option<u32>
    ensures { result ≡ super_function_class (kind_of kind.now) }
{
    match kind {
        NameKind::Generated(GeneratedKind::SuperFn(class)) => Some(class.0),
        _ => None,
    }
}

#[tactic(auto, using(crate::proofs::ReceiverForms::super_function, crate::proofs::ReceiverForms::no_super_function))]
fn called_name(
    alloc: Global,
    c: &Context,
    node: u32,
    identifier: u32,
    name: Name,
    kind: NameKind,
    arguments: List<Code>,
) -> Result<Code, AllocError>
    ensures { IfOk result (λ e. code_of e ≡ called_name (context_of c.now) node identifier name (kind_of kind) (codes_of arguments)) }
{
    match super_function_class(&kind) {
        Some(class) => {
            drop(kind);
            Ok(super_function_call(node, class, name, arguments))
        }
        None => {
            let function = Code::name(identifier, name, kind);
            function_received(alloc, c, node, function, arguments)
        }
    }
}

/// `f.call(o, a)`, `F.call(super(a))`. Fails on allocation failure alone.
#[tactic(auto, using(crate::proofs::ReceiverForms::on_name, crate::proofs::ReceiverForms::on_no_name))]
pub fn called_with(
    alloc: Global,
    c: &Context,
    node: u32,
    function: Code,
    arguments: List<Code>,
) -> Result<Code, AllocError>
    ensures { IfOk result (λ e. code_of e ≡ spec.called_with (context_of c.now) node (code_of function) (codes_of arguments)) }
{
    match function {
        Code::Name {
            node: identifier,
            spelling,
            kind,
        } => called_name(alloc, c, node, identifier, spelling, kind, arguments),
        other => function_received(alloc, c, node, other, arguments),
    }
}

#[tactic(auto, using(crate::proofs::ReceiverForms::not_one_bound))]
fn bound_to_first(
    alloc: Global,
    function: Boxed<Code>,
    objects: &mut [Code],
) -> Result<Code, AllocError>
    ensures { IfOk result (λ e. code_of e ≡ spec.bound_to (code_of function) (codes_of objects.old)) }
{
    match objects {
        [object] => {
            let object = take_boxed(alloc, object)?;
            Ok(Code::bound(function, object))
        }
        _ => {
            drop(function);
            Ok(Code::no_rule())
        }
    }
}

/// `f.bind(o)`. Fails on allocation failure alone.
pub fn bound_to(
    alloc: Global,
    function: Boxed<Code>,
    mut arguments: List<Code>,
) -> Result<Code, AllocError>
    ensures { IfOk result (λ e. code_of e ≡ spec.bound_to (code_of function) (codes_of arguments)) }
{
    bound_to_first(alloc, function, arguments.as_mut_slice())
}
