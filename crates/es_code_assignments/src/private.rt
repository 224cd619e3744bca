// What private members are assigned. (ECMA-262, 13.15.2 and 7.3.32.)

ghost use Rattle.std.specs.Prelude.{◌≡◌, ◌&&◌, IfOk, cond};
ghost use Rattle.es_codes.specs.CodeView.{code_of, codes_of, helper_of};
ghost use Rattle.es_codes.specs.View.{reference_of};
ghost use Rattle.es_steps.specs.Code as of;
ghost use Rattle.es_steps.specs.GeneratedForms as spec;
ghost use Rattle.es_code_assignments.specs.declared.private.PrivateForm.{PrivateForm};
ghost use Rattle.es_code_assignments.specs.Privates.{asserts_brand, arguments_of, branded_by, branded_form, is_class, private_form, written_by};

use crate::value::take_assigned;
use es_base::list::List;
use es_code_reading::letters::is_class_named;
use es_codes::boxed::Boxed;
use es_codes::code::{Code, Helper, Target};
use es_codes::name::PrivateReference;
use std::alloc::{AllocError, Global};
use std::mem;

// ---- the form

/// What an assignment to a private member is.
#[derive(Debug, Clone, Copy, PartialEq, Eq)]
pub enum PrivateForm {
    /// `S._ = B.assertClassBrand(Z, o, e)`: `o.#x = e`, x static.
    Branded,
    /// Nothing that a lowering makes, though it is assigned so.
    NoRule,
    /// `o.#x = e`
    Plain,
}

#[tactic(auto, using(crate::proofs::PrivateForms::a_class, crate::proofs::PrivateForms::no_class))]
fn is_class(class: u32, code: &Code) -> bool
    ensures { result ≡ is_class class (code_of code.now) }
{
    match code {
        Code::Value { value } => value.is_class(class),
        _ => false,
    }
}

/// Whether the object is the class of a static member.
#[tactic(auto, using(crate::proofs::PrivateForms::its_class, crate::proofs::PrivateForms::no_static))]
fn is_own_class(means: PrivateReference, own: &Code) -> bool
    ensures { result ≡ spec.is_own_class (reference_of means) (code_of own.now) }
{
    means.is_static && is_class(means.class, own)
}

fn asserts_brand(helper: Helper) -> bool
    ensures { result ≡ asserts_brand (helper_of helper) }
{
    matches!(helper, Helper::AssertClassBrand)
}

/// By the class whose brand is asserted.
fn branded_by(means: PrivateReference, own: &Code, class: &Code) -> PrivateForm
    ensures { result ≡ branded_by (spec.is_own_class (reference_of means) (code_of own.now) && spec.is_class_named (reference_of means).class (code_of class.now)) }
{
    if is_own_class(means, own) && is_class_named(means.class, class) {
        PrivateForm::Branded
    } else {
        PrivateForm::NoRule
    }
}

/// By the arguments of `B.assertClassBrand`.
#[tactic(auto, using(crate::proofs::PrivateForms::three_arguments, crate::proofs::PrivateForms::fewer_arguments, crate::proofs::PrivateForms::more_arguments))]
fn branded_form(means: PrivateReference, own: &Code, arguments: &[Code]) -> PrivateForm
    ensures { result ≡ branded_form (reference_of means) (code_of own.now) (codes_of arguments.now) }
{
    match arguments {
        [class, _, _] => branded_by(means, own, class),
        _ => PrivateForm::Plain,
    }
}

fn called_form(
    means: PrivateReference,
    own: &Code,
    helper: Helper,
    arguments: &List<Code>,
) -> PrivateForm
    ensures { result ≡ cond (asserts_brand (helper_of helper)) (branded_form (reference_of means) (code_of own.now) (codes_of arguments.now)) PrivateForm.Plain }
{
    if asserts_brand(helper) {
        branded_form(means, own, arguments.as_slice())
    } else {
        PrivateForm::Plain
    }
}

#[tactic(auto, using(crate::proofs::PrivateForms::a_call, crate::proofs::PrivateForms::no_call))]
fn private_form(means: PrivateReference, own: &Code, right: &Code) -> PrivateForm
    ensures { result ≡ private_form (reference_of means) (code_of own.now) (code_of right.now) }
{
    match right {
        Code::HelperCall {
            helper,
            arguments,
            ..
        } => called_form(means, own, *helper, arguments),
        _ => PrivateForm::Plain,
    }
}

// ---- its code

/// What a write of a private member gives: one that always throws, nothing else than the value, which is taken out. Fails on
/// allocation failure alone.
fn take_value(
    alloc: Global,
    writes: Option<u32>,
    is_new: bool,
    node: u32,
    value: &mut Code,
) -> Result<Boxed<Code>, AllocError>
    ensures { IfOk result (λ e. code_of e ≡ spec.value_of_private writes is_new node (code_of value.old)) }
{
    match writes {
        Some(_) => take_assigned(alloc, is_new, node, value),
        None => Boxed::new(alloc, mem::replace(value, Code::nothing())),
    }
}

/// `o.#x = v`, where v is taken out. Fails on allocation failure alone.
fn written(
    alloc: Global,
    is_new: bool,
    node: u32,
    member: u32,
    means: PrivateReference,
    object: Boxed<Code>,
    value: &mut Code,
) -> Result<Code, AllocError>
    ensures { IfOk result (λ e. code_of e ≡ of.assign (of.to_private member (reference_of means) (code_of object)) (spec.value_of_private (reference_of means).writes is_new node (code_of value.old))) }
{
    let right = take_value(alloc, means.writes, is_new, node, value)?;
    let to = Boxed::new(alloc, Target::to_private(member, means, object))?;
    Ok(Code::assign(to, right))
}

/// `o.#x = v`, where both are taken out. Fails on allocation failure alone.
fn written_of(
    alloc: Global,
    is_new: bool,
    node: u32,
    member: u32,
    means: PrivateReference,
    object: &mut Code,
    value: &mut Code,
) -> Result<Code, AllocError>
    ensures { IfOk result (λ e. code_of e ≡ of.assign (of.to_private member (reference_of means) (code_of object.old)) (spec.value_of_private (reference_of means).writes is_new node (code_of value.old))) }
{
    let object = Boxed::new(alloc, mem::replace(object, Code::nothing()))?;
    written(alloc, is_new, node, member, means, object, value)
}

/// `o.#x = v`, by the arguments of `B.assertClassBrand(Z, o, v)`, which are taken out. Fails on allocation failure alone.
#[tactic(auto, using(crate::proofs::PrivateForms::written_three, crate::proofs::PrivateForms::written_fewer, crate::proofs::PrivateForms::written_more))]
fn written_by(
    alloc: Global,
    is_new: bool,
    node: u32,
    member: u32,
    means: PrivateReference,
    arguments: &mut [Code],
) -> Result<Code, AllocError>
    ensures { IfOk result (λ e. code_of e ≡ written_by is_new node member (reference_of means) (codes_of arguments.old)) }
{
    match arguments {
        [_, object, value] => written_of(alloc, is_new, node, member, means, object, value),
        _ => Ok(Code::no_rule()),
    }
}

/// `o.#x = v`, by `B.assertClassBrand(Z, o, v)`. Fails on allocation failure alone.
#[tactic(auto, using(crate::proofs::PrivateForms::arguments_taken, crate::proofs::PrivateForms::no_arguments))]
fn written_branded(
    alloc: Global,
    is_new: bool,
    node: u32,
    member: u32,
    means: PrivateReference,
    right: &mut Code,
) -> Result<Code, AllocError>
    ensures { IfOk result (λ e. code_of e ≡ written_by is_new node member (reference_of means) (arguments_of (code_of right.old))) }
{
    match right {
        Code::HelperCall { arguments, .. } => {
            written_by(alloc, is_new, node, member, means, arguments.as_mut_slice())
        }
        _ => Ok(Code::no_rule()),
    }
}

/// `o.#x = e`, where `o.#x` is the node `member`, and e is taken out; `S._ = B.assertClassBrand(Z, o, e)` is one too. Fails on
/// allocation failure alone.
#[tactic(auto, using(crate::proofs::PrivateForms::by_branded, crate::proofs::PrivateForms::by_no_rule, crate::proofs::PrivateForms::by_plain))]
pub fn private_assignment(
    alloc: Global,
    is_new: bool,
    node: u32,
    member: u32,
    means: PrivateReference,
    object: Boxed<Code>,
    right: &mut Code,
) -> Result<Code, AllocError>
    ensures { IfOk result (λ e. code_of e ≡ spec.private_assignment is_new node member (reference_of means) (code_of object) (code_of right.old)) }
{
    match private_form(means, object.get(), right) {
        PrivateForm::Branded => {
            drop(object);
            written_branded(alloc, is_new, node, member, means, right)
        }
        PrivateForm::NoRule => {
            drop(object);
            Ok(Code::no_rule())
        }
        PrivateForm::Plain => written(alloc, is_new, node, member, means, object, right),
    }
}
