// Setters of private members, as `babelHelpers.toSetter` makes them.

ghost use Rattle.std.specs.Prelude.{◌≡◌, ◌&&◌, IfOk, Some, cond, option_map};
ghost use Rattle.es_codes.specs.CodeView.{code_of, codes_of, helper_of};
ghost use Rattle.es_seen_names.specs.PrivateMembers.{private_member_of};
ghost use Rattle.es_steps.specs.Code as of;
ghost use Rattle.es_steps.specs.GeneratedForms as generated;
ghost use Rattle.es_validity.specs.Reached.{kind_in};
ghost use Rattle.es_code_reading.specs.Contexts.{context_of};
ghost use Rattle.es_code_generated_members.specs.Setters as spec;

use es_base::list::List;
use es_code_helpers::moved::take_boxed;
use es_code_new_literals::array::array_elements;
use es_code_reading::context::Context;
use es_code_reading::letters::{is_brand, is_class_named, private_function, weak_map};
use es_codes::boxed::Boxed;
use es_codes::code::{Code, Helper};
use es_seen_names::private_member::PrivateMember;
use es_validity::privates::PrivateKind;
use std::alloc::{AllocError, Global};
use std::mem;

fn is_setter_kind(kind: PrivateKind) -> bool
    ensures { result ≡ generated.is_setter_kind (kind_in kind) }
{
    matches!(kind, PrivateKind::Setter)
}

// ---- `a.bind(o)`

/// The setter of a brand, on `o` in `a.bind(babelHelpers.assertClassBrand(q, o))`. Fails on allocation failure alone.
fn setter_on_brand(
    alloc: Global,
    node: u32,
    member: &PrivateMember,
    brand: &Code,
    object: &mut Code,
) -> Result<Code, AllocError>
    ensures { IfOk result (λ e. code_of e ≡ cond (generated.is_setter_kind (private_member_of member.now).kind && generated.is_brand (private_member_of member.now) (code_of brand.now)) (of.setter node (private_member_of member.now).number (code_of object.old)) of.no_rule) }
{
    if is_setter_kind(member.kind) && is_brand(member, brand) {
        Ok(Code::setter(node, member.node, take_boxed(alloc, object)?))
    } else {
        Ok(Code::no_rule())
    }
}

/// The same, by the arguments of the helper. Fails on allocation failure alone.
#[tactic(auto, using(crate::proofs::SetterForms::no_branded))]
fn branded_setter(
    alloc: Global,
    node: u32,
    member: &PrivateMember,
    arguments: &mut [Code],
) -> Result<Code, AllocError>
    ensures { IfOk result (λ e. code_of e ≡ spec.branded_setter node (private_member_of member.now) (codes_of arguments.old)) }
{
    match arguments {
        [brand, object] => setter_on_brand(alloc, node, member, brand, object),
        _ => Ok(Code::no_rule()),
    }
}

/// The same, where a helper is called. Fails on allocation failure alone.
#[tactic(auto, using(crate::proofs::SetterForms::other_helper))]
fn setter_behind(
    alloc: Global,
    node: u32,
    member: &PrivateMember,
    helper: Helper,
    arguments: &mut [Code],
) -> Result<Code, AllocError>
    ensures { IfOk result (λ e. code_of e ≡ spec.setter_behind node (private_member_of member.now) (helper_of helper) (codes_of arguments.old)) }
{
    match helper {
        Helper::AssertClassBrand => branded_setter(alloc, node, member, arguments),
        _ => Ok(Code::no_rule()),
    }
}

/// Whether it is a name of the class of a static member.
fn names_own_class(member: &PrivateMember, object: &Code) -> bool
    ensures { result ≡ ((private_member_of member.now).is_static && generated.is_class_named (private_member_of member.now).class (code_of object.now)) }
{
    member.is_static && is_class_named(member.class, object)
}

/// The setter of a class, on `z` in `a.bind(z)`. Fails on allocation failure alone.
fn setter_of_class(
    alloc: Global,
    node: u32,
    member: &PrivateMember,
    object: Code,
) -> Result<Code, AllocError>
    ensures { IfOk result (λ e. code_of e ≡ spec.setter_of_class node (private_member_of member.now) (code_of object)) }
{
    if is_setter_kind(member.kind) && names_own_class(member, &object) {
        Ok(Code::setter(node, member.node, Boxed::new(alloc, object)?))
    } else {
        drop(object);
        Ok(Code::no_rule())
    }
}

#[tactic(auto, using(crate::proofs::SetterForms::on_helper_call, crate::proofs::SetterForms::on_other))]
fn setter_for(
    alloc: Global,
    node: u32,
    member: &PrivateMember,
    object: Code,
) -> Result<Code, AllocError>
    ensures { IfOk result (λ e. code_of e ≡ generated.setter_on node (Some (private_member_of member.now)) (code_of object)) }
{
    match object {
        Code::HelperCall {
            helper,
            mut arguments,
            ..
        } => setter_behind(alloc, node, member, helper, arguments.as_mut_slice()),
        other => setter_of_class(alloc, node, member, other),
    }
}

/// What a setter is bound to: a branded object, or a name of the class of a static one. Fails on allocation failure alone.
fn setter_on(
    alloc: Global,
    node: u32,
    member: Option<PrivateMember>,
    object: Code,
) -> Result<Code, AllocError>
    ensures { IfOk result (λ e. code_of e ≡ generated.setter_on node (option_map private_member_of member.entry) (code_of object)) }
{
    match member {
        Some(member) => setter_for(alloc, node, &member, object),
        None => {
            drop(object);
            Ok(Code::no_rule())
        }
    }
}

/// `a.bind(o)`, where `a` is the function of a setter. Fails on allocation failure alone.
#[tactic(auto, using(crate::proofs::SetterForms::a_bound, crate::proofs::SetterForms::no_bound))]
fn setter_of_bound(alloc: Global, c: &Context, node: u32, setter: Code) -> Result<Code, AllocError>
    ensures { IfOk result (λ e. code_of e ≡ generated.setter_of (context_of c.now) node (of.and (code_of setter) of.done)) }
{
    match setter {
        Code::Bound { function, object } => {
            let member = private_function(c, function.get());
            setter_on(alloc, node, member, object.into_inner())
        }
        other => {
            drop(other);
            Ok(Code::no_rule())
        }
    }
}

// ---- `babelHelpers.classPrivateFieldSet2, [w, o]`

fn field_setter(
    alloc: Global,
    node: u32,
    member: Option<PrivateMember>,
    object: &mut Code,
) -> Result<Code, AllocError>
    ensures { IfOk result (λ e. code_of e ≡ generated.field_setter node (option_map private_member_of member.entry) (code_of object.old)) }
{
    match member {
        Some(member) => Ok(Code::setter(node, member.node, take_boxed(alloc, object)?)),
        None => Ok(Code::no_rule()),
    }
}

/// The setter of the field of a `WeakMap`, on an object. Fails on allocation failure alone.
fn setter_of_map(
    alloc: Global,
    c: &Context,
    node: u32,
    map: &Code,
    object: &mut Code,
) -> Result<Code, AllocError>
    ensures { IfOk result (λ e. code_of e ≡ generated.field_setter node (generated.weak_map (context_of c.now) (code_of map.now)) (code_of object.old)) }
{
    field_setter(alloc, node, weak_map(c, map), object)
}

#[tactic(auto, using(crate::proofs::SetterForms::no_pair))]
fn setter_of_elements(
    alloc: Global,
    c: &Context,
    node: u32,
    elements: &mut [Code],
) -> Result<Code, AllocError>
    ensures { IfOk result (λ e. code_of e ≡ generated.setter_of_pair (context_of c.now) node (Some (codes_of elements.old))) }
{
    match elements {
        [map, object] => setter_of_map(alloc, c, node, map, object),
        _ => Ok(Code::no_rule()),
    }
}

/// `[w, o]`, a new array. Fails on allocation failure alone.
fn setter_of_pair(alloc: Global, c: &Context, node: u32, pair: Code) -> Result<Code, AllocError>
    ensures { IfOk result (λ e. code_of e ≡ generated.setter_of_pair (context_of c.now) node (generated.array_elements (context_of c.now) (code_of pair))) }
{
    match array_elements(c, pair) {
        Some(mut elements) => setter_of_elements(alloc, c, node, elements.as_mut_slice()),
        None => Ok(Code::no_rule()),
    }
}

fn sets_field(helper: Helper) -> bool
    ensures { result ≡ spec.sets_field (helper_of helper) }
{
    matches!(helper, Helper::ClassPrivateFieldSet2)
}

#[tactic(auto, using(crate::proofs::SetterForms::a_helper, crate::proofs::SetterForms::no_helper))]
fn is_field_set(code: &Code) -> bool
    ensures { result ≡ spec.is_field_set (code_of code.now) }
{
    match code {
        Code::Helper { helper } => sets_field(*helper),
        _ => false,
    }
}

/// The setter of a helper and a pair. Fails on allocation failure alone.
#[tactic(auto, using(crate::proofs::SetterForms::of_two, crate::proofs::SetterForms::of_no_pair))]
fn setter_of_two(
    alloc: Global,
    c: &Context,
    node: u32,
    helper: &Code,
    pair: &mut Code,
) -> Result<Code, AllocError>
    ensures { IfOk result (λ e. code_of e ≡ generated.setter_of (context_of c.now) node (of.and (code_of helper.now) (of.and (code_of pair.old) of.done))) }
{
    if is_field_set(helper) {
        setter_of_pair(alloc, c, node, mem::replace(pair, Code::nothing()))
    } else {
        Ok(Code::no_rule())
    }
}

// ---- both

/// What `babelHelpers.toSetter(..)._` writes, by the arguments of the helper. Fails on allocation failure alone.
#[tactic(auto, using(crate::proofs::SetterForms::of_none))]
pub fn setter_of(
    alloc: Global,
    c: &Context,
    node: u32,
    arguments: &mut [Code],
) -> Result<Code, AllocError>
    ensures { IfOk result (λ e. code_of e ≡ generated.setter_of (context_of c.now) node (codes_of arguments.old)) }
{
    match arguments {
        [setter] => setter_of_bound(alloc, c, node, mem::replace(setter, Code::nothing())),
        [helper, pair] => setter_of_two(alloc, c, node, helper, pair),
        _ => Ok(Code::no_rule()),
    }
}
