// Calls of members that a lowering may have made: `has` of a generated name, `Object.defineProperty`, and a new `call` or
// `bind`. (ECMA-262, 13.3.6; what they stand for is our own.)

ghost use Rattle.std.specs.Prelude.{◌≡◌, IfOk, Some, option_map};
ghost use Rattle.es_codes.specs.CodeView.{code_of, codes_of, helper_of};
ghost use Rattle.es_codes.specs.View.{kind_of, referent_of, test_of};
ghost use Rattle.es_seen_names.specs.PrivateMembers.{private_member_of};
ghost use Rattle.es_steps.specs.Code as of;
ghost use Rattle.es_steps.specs.GeneratedForms as spec;
ghost use Rattle.es_code_reading.specs.Contexts.{context_of, this_of};
ghost use Rattle.es_code_generated_calls.specs.MemberCalls.{asked, asked_by, asked_of, call_on, free_receiver, generated_receiver, initialized_as, initialized_loosely, loose_number, named_receiver, new_member, number_of, receiver_of};

use crate::receiver::{bound_to, called_with};
use es_base::ledger::GeneratedKind;
use es_base::list::List;
use es_base::name::Name;
use es_base::strings::spells;
use es_code_helpers::known::known_value;
use es_code_helpers::moved::take_boxed;
use es_code_new_literals::writable::writable_value;
use es_code_reading::context::{Context, This};
use es_code_reading::letters::{known_object, loose_key, weak_map};
use es_code_reading::literals::is_string;
use es_codes::boxed::Boxed;
use es_codes::code::{Callee, Code, Helper};
use es_codes::event::PrivateTest;
use es_codes::name::{NameKind, Referent};
use es_codes::value::Value;
use es_generated::numbers::is_new;
use es_seen_names::private_member::PrivateMember;
use std::alloc::{AllocError, Global};
use std::mem;

// ---- `has`

#[tactic(auto, using(crate::proofs::MemberForms::not_one_asked))]
fn asked_of(
    alloc: Global,
    node: u32,
    test: PrivateTest,
    objects: &mut [Code],
) -> Result<Code, AllocError>
    ensures { IfOk result (λ e. code_of e ≡ asked_of node (test_of test) (codes_of objects.old)) }
{
    match objects {
        [object] => {
            let object = take_boxed(alloc, object)?;
            Ok(Code::private_in(node, test, object))
        }
        _ => Ok(Code::no_rule()),
    }
}

fn asked_by(
    alloc: Global,
    node: u32,
    test: PrivateTest,
    helper: Helper,
    mut objects: List<Code>,
) -> Result<Code, AllocError>
    ensures { IfOk result (λ e. code_of e ≡ asked_by node (test_of test) (helper_of helper) (codes_of objects)) }
{
    match helper {
        Helper::CheckInRHS => asked_of(alloc, node, test, objects.as_mut_slice()),
        _ => Ok(Code::no_rule()),
    }
}

#[tactic(auto, using(crate::proofs::MemberForms::asked_by_call, crate::proofs::MemberForms::asked_by_none))]
fn asked_of_checked(
    alloc: Global,
    node: u32,
    test: PrivateTest,
    checked: Code,
) -> Result<Code, AllocError>
    ensures { IfOk result (λ e. code_of e ≡ asked node (test_of test) (of.and (code_of checked) of.done)) }
{
    match checked {
        Code::HelperCall {
            helper,
            arguments,
            ..
        } => asked_by(alloc, node, test, helper, arguments),
        other => {
            drop(other);
            Ok(Code::no_rule())
        }
    }
}

/// What `has(babelHelpers.checkInRHS(o))` asks of `o`. Fails on allocation failure alone.
#[tactic(auto, using(crate::proofs::MemberForms::not_one_checked))]
fn asked(
    alloc: Global,
    node: u32,
    test: PrivateTest,
    arguments: &mut [Code],
) -> Result<Code, AllocError>
    ensures { IfOk result (λ e. code_of e ≡ asked node (test_of test) (codes_of arguments.old)) }
{
    match arguments {
        [checked] => { asked_of_checked(alloc, node, test, mem::replace(checked, Code::nothing())) }
        _ => Ok(Code::no_rule()),
    }
}

fn has_field(
    alloc: Global,
    node: u32,
    member: Option<PrivateMember>,
    arguments: &mut [Code],
) -> Result<Code, AllocError>
    ensures { IfOk result (λ e. code_of e ≡ spec.has_field node (option_map private_member_of member.entry) (codes_of arguments.old)) }
{
    match member {
        Some(member) => asked(alloc, node, PrivateTest::HasField(member.node), arguments),
        None => Ok(Code::no_rule()),
    }
}

/// `W.has(babelHelpers.checkInRHS(o))`. Fails on allocation failure alone.
fn has_field_of(
    alloc: Global,
    c: &Context,
    node: u32,
    map: Boxed<Code>,
    mut arguments: List<Code>,
) -> Result<Code, AllocError>
    ensures { IfOk result (λ e. code_of e ≡ spec.has_field node (spec.weak_map (context_of c.now) (code_of map)) (codes_of arguments)) }
{
    let member = weak_map(c, map.get());
    has_field(alloc, node, member, arguments.as_mut_slice())
}

/// `Q.has(babelHelpers.checkInRHS(o))`. Fails on allocation failure alone.
#[tactic(auto, using(crate::proofs::MemberForms::brand_asked))]
fn has_brand(
    alloc: Global,
    node: u32,
    class: u32,
    mut arguments: List<Code>,
) -> Result<Code, AllocError>
    ensures { IfOk result (λ e. code_of e ≡ spec.has_brand node class (codes_of arguments)) }
{
    asked(
        alloc,
        node,
        PrivateTest::HasBrand(class),
        arguments.as_mut_slice(),
    )
}

// ---- `Object.defineProperty`

fn number_of(member: Option<PrivateMember>) -> Option<u32>
    ensures { result ≡ number_of (option_map private_member_of member.entry) }
{
    match member {
        Some(member) => Some(member.node),
        None => None,
    }
}

#[tactic(auto, using(crate::proofs::MemberForms::not_three_keyed))]
fn number_of_second(c: &Context, arguments: &[Code]) -> Option<u32>
    ensures { result ≡ loose_number (context_of c.now) (codes_of arguments.now) }
{
    match arguments {
        [_, key, _] => number_of(loose_key(c, key)),
        _ => None,
    }
}

/// The number of the private member that is kept as a property, where its key is the second of three arguments.
fn loose_number(c: &Context, arguments: &List<Code>) -> Option<u32>
    ensures { result ≡ loose_number (context_of c.now) (codes_of arguments.now) }
{
    number_of_second(c, arguments.as_slice())
}

#[tactic(auto, using(crate::proofs::MemberForms::with_value, crate::proofs::MemberForms::without_value))]
fn initialized_on(
    alloc: Global,
    c: &Context,
    node: u32,
    key: u32,
    object: Value,
    form: &mut Code,
) -> Result<Code, AllocError>
    ensures { IfOk result (λ e. code_of e ≡ initialized_as node key (Some object) (spec.writable_value (context_of c.now) (code_of form.old))) }
{
    match writable_value(c, mem::replace(form, Code::nothing())) {
        Some(value) => {
            let value = Boxed::new(alloc, value)?;
            Ok(Code::private_initialize(node, key, object, value))
        }
        None => {
            drop(object);
            Ok(Code::no_rule())
        }
    }
}

fn initialized_as(
    alloc: Global,
    c: &Context,
    node: u32,
    key: u32,
    object: Option<This>,
    form: &mut Code,
) -> Result<Code, AllocError>
    ensures { IfOk result (λ e. code_of e ≡ initialized_as node key (option_map this_of object) (spec.writable_value (context_of c.now) (code_of form.old))) }
{
    match object {
        Some(object) => initialized_on(alloc, c, node, key, known_value(object), form),
        None => Ok(Code::no_rule()),
    }
}

#[tactic(auto, using(crate::proofs::MemberForms::not_three_initialized))]
fn initialized_by(
    alloc: Global,
    c: &Context,
    node: u32,
    key: u32,
    arguments: &mut [Code],
) -> Result<Code, AllocError>
    ensures { IfOk result (λ e. code_of e ≡ initialized_loosely (context_of c.now) node key (codes_of arguments.old)) }
{
    match arguments {
        [object, _, form] => initialized_as(alloc, c, node, key, known_object(object), form),
        _ => Ok(Code::no_rule()),
    }
}

/// `Object.defineProperty(o, L, { writable: true, value: v })`. Fails on allocation failure alone.
fn initialized_loosely(
    alloc: Global,
    c: &Context,
    node: u32,
    key: u32,
    mut arguments: List<Code>,
) -> Result<Code, AllocError>
    ensures { IfOk result (λ e. code_of e ≡ initialized_loosely (context_of c.now) node key (codes_of arguments)) }
{
    initialized_by(alloc, c, node, key, arguments.as_mut_slice())
}

/// A call of a member as it stands. Fails on allocation failure alone.
fn member_called(
    alloc: Global,
    node: u32,
    member: u32,
    object: Boxed<Code>,
    key: Boxed<Code>,
    arguments: List<Code>,
) -> Result<Code, AllocError>
    ensures { IfOk result (λ e. code_of e ≡ of.call node (of.on_member member (code_of object) (code_of key)) (codes_of arguments)) }
{
    let callee = Boxed::new(alloc, Callee::on_member(member, object, key))?;
    Ok(Code::call(node, callee, arguments))
}

#[tactic(auto, using(crate::proofs::MemberForms::loosely, crate::proofs::MemberForms::not_loosely))]
fn object_call(
    alloc: Global,
    c: &Context,
    node: u32,
    member: u32,
    object: Boxed<Code>,
    key: Boxed<Code>,
    arguments: List<Code>,
) -> Result<Code, AllocError>
    ensures { IfOk result (λ e. code_of e ≡ spec.object_call (context_of c.now) node (codes_of arguments) (of.call node (of.on_member member (code_of object) (code_of key)) (codes_of arguments))) }
{
    match loose_number(c, &arguments) {
        Some(number) => {
            drop(object);
            drop(key);
            initialized_loosely(alloc, c, node, number, arguments)
        }
        None => member_called(alloc, node, member, object, key, arguments),
    }
}

// ---- calls of members

/// What a member is called on.
#[derive(Debug, Clone, Copy, PartialEq, Eq)]
pub enum Receiver {
    /// A generated name of the `WeakMap` of a field.
    WeakMap,
    /// A generated name of the `WeakSet` of a class.
    Brand(u32),
    /// The free name `Object`.
    Object,
    Other,
}

fn generated_receiver(kind: GeneratedKind) -> Receiver
    ensures { result ≡ generated_receiver kind }
{
    match kind {
        GeneratedKind::WeakMap(_) => Receiver::WeakMap,
        GeneratedKind::Brand(class) => Receiver::Brand(class.0),
        _ => Receiver::Other,
    }
}

fn free_receiver(name: &Name, referent: &Referent) -> Receiver
    ensures { result ≡ free_receiver name.now (referent_of referent.now) }
{
    match referent {
        Referent::Free(_) => {
            if spells(name.as_str(), "Object") {
                Receiver::Object
            } else {
                Receiver::Other
            }
        }
        Referent::Bound(_) => Receiver::Other,
    }
}

fn named_receiver(name: &Name, kind: &NameKind) -> Receiver
    ensures { result ≡ named_receiver name.now (kind_of kind.now) }
{
    match kind {
        NameKind::Generated(generated) => generated_receiver(*generated),
        NameKind::Changing(referent) => free_receiver(name, referent),
        _ => Receiver::Other,
    }
}

#[tactic(auto, using(crate::proofs::MemberForms::on_a_name, crate::proofs::MemberForms::on_another))]
fn receiver_of(object: &Code) -> Receiver
    ensures { result ≡ receiver_of (code_of object.now) }
{
    match object {
        Code::Name { spelling, kind, .. } => named_receiver(spelling, kind),
        _ => Receiver::Other,
    }
}

/// What a call of a member stands for.
#[derive(Debug, Clone, Copy, PartialEq, Eq)]
pub enum MemberCall {
    /// `W.has(..)`
    HasField,
    /// `Q.has(..)`, with the class that is branded.
    HasBrand(u32),
    /// `Object.defineProperty(..)`
    Defines,
    /// Nothing that a lowering makes.
    NoRule,
    /// A call of a member, as it stands.
    Other,
}

fn call_on(receiver: Receiver, key: &Code) -> MemberCall
    ensures { result ≡ call_on receiver (code_of key.now) }
{
    match receiver {
        Receiver::WeakMap => {
            if is_string("has", key) {
                MemberCall::HasField
            } else {
                MemberCall::NoRule
            }
        }
        Receiver::Brand(class) => {
            if is_string("has", key) {
                MemberCall::HasBrand(class)
            } else {
                MemberCall::NoRule
            }
        }
        Receiver::Object => {
            if is_string("defineProperty", key) {
                MemberCall::Defines
            } else {
                MemberCall::Other
            }
        }
        Receiver::Other => MemberCall::Other,
    }
}

fn call_of(object: &Boxed<Code>, key: &Boxed<Code>) -> MemberCall
    ensures { result ≡ call_on (receiver_of (code_of object.now)) (code_of key.now) }
{
    call_on(receiver_of(object.get()), key.get())
}

/// `o.has(a)`, `Object.defineProperty(a)`. Fails on allocation failure alone.
#[tactic(auto, using(crate::proofs::MemberForms::asks_field, crate::proofs::MemberForms::asks_brand, crate::proofs::MemberForms::defines, crate::proofs::MemberForms::by_no_rule, crate::proofs::MemberForms::as_it_stands))]
fn member_call(
    alloc: Global,
    c: &Context,
    node: u32,
    member: u32,
    object: Boxed<Code>,
    key: Boxed<Code>,
    arguments: List<Code>,
) -> Result<Code, AllocError>
    ensures { IfOk result (λ e. code_of e ≡ spec.member_call (context_of c.now) node (code_of object) (code_of key) (codes_of arguments) (of.call node (of.on_member member (code_of object) (code_of key)) (codes_of arguments))) }
{
    match call_of(&object, &key) {
        MemberCall::HasField => {
            drop(key);
            has_field_of(alloc, c, node, object, arguments)
        }
        MemberCall::HasBrand(class) => {
            drop(object);
            drop(key);
            has_brand(alloc, node, class, arguments)
        }
        MemberCall::Defines => object_call(alloc, c, node, member, object, key, arguments),
        MemberCall::NoRule => {
            drop(object);
            drop(key);
            drop(arguments);
            Ok(Code::no_rule())
        }
        MemberCall::Other => member_called(alloc, node, member, object, key, arguments),
    }
}

/// What a member is that may be new.
#[derive(Debug, Clone, Copy, PartialEq, Eq)]
pub enum NewMember {
    /// A new `call`.
    Call,
    /// A new `bind`.
    Bind,
    Other,
}

fn new_member(c: &Context, member: u32, key: &Boxed<Code>) -> NewMember
    ensures { result ≡ new_member (context_of c.now) member (code_of key.now) }
{
    if !is_new(c.terms.first_new, member) {
        NewMember::Other
    } else if is_string("call", key.get()) {
        NewMember::Call
    } else if is_string("bind", key.get()) {
        NewMember::Bind
    } else {
        NewMember::Other
    }
}

/// `o.k(a)`: a new `call` or `bind`, or another member. Fails on allocation failure alone.
#[tactic(auto, using(crate::proofs::MemberForms::a_call, crate::proofs::MemberForms::a_bind, crate::proofs::MemberForms::another_member))]
pub fn new_member_call(
    alloc: Global,
    c: &Context,
    node: u32,
    member: u32,
    object: Boxed<Code>,
    key: Boxed<Code>,
    arguments: List<Code>,
) -> Result<Code, AllocError>
    ensures { IfOk result (λ e. code_of e ≡ spec.new_member_call (context_of c.now) node member (code_of object) (code_of key) (codes_of arguments) (of.call node (of.on_member member (code_of object) (code_of key)) (codes_of arguments))) }
{
    match new_member(c, member, &key) {
        NewMember::Call => {
            drop(key);
            called_with(alloc, c, node, object.into_inner(), arguments)
        }
        NewMember::Bind => {
            drop(key);
            bound_to(alloc, object, arguments)
        }
        NewMember::Other => member_call(alloc, c, node, member, object, key, arguments),
    }
}
