// New object literals of one property.

ghost use Rattle.std.specs.Prelude.{◌≡◌, IfOk, Some, option_map};
ghost use Rattle.es_codes.specs.CodeView.{code_of, codes_of};
ghost use Rattle.es_codes.specs.Constants.{constant_of};
ghost use Rattle.es_codes.specs.View.{detail_of, details_of, operation_of};
ghost use Rattle.es_steps.specs.Code as of;
ghost use Rattle.es_steps.specs.GeneratedForms as generated;
ghost use Rattle.es_steps.specs.Values as values;
ghost use Rattle.es_code_reading.specs.Contexts.{context_of};
ghost use Rattle.es_code_new_literals.specs.Details.{is_plain_end};
ghost use Rattle.es_code_new_literals.specs.Literals as spec;
ghost use Rattle.es_code_new_literals.specs.Views.{property_of};

use crate::detail::{is_closing, is_opening, is_operand, is_plain};
use crate::operation::{new_operation, new_operation_ref};
use crate::same_key::{is_same_constant_key, is_same_key};
use es_base::kind::Kind;
use es_base::list::List;
use es_code_reading::context::Context;
use es_codes::boxed::Boxed;
use es_codes::code::Code;
use es_codes::event::{Detail, Operation};
use es_codes::value::{Constant, Origin, Value};
use std::alloc::{AllocError, Global};
use std::mem;

/// A property: what its key is, and its value.
#[derive(Drop)]
pub struct Property {
    pub key: Boxed<Code>,
    pub value: Boxed<Code>,
}

/// Whether these details stand behind the key of `k: v` that is the only property.
#[tactic(auto, using(crate::proofs::DetailForms::four_details, crate::proofs::DetailForms::no_end))]
fn is_plain_end(details: &[Detail]) -> bool
    ensures { result ≡ is_plain_end (details_of details.now) }
{
    match details {
        [value, kind, is_method, end] => {
            is_operand(value) && is_plain(kind, is_method) && is_closing(end)
        }
        _ => false,
    }
}

/// An object expression.
pub fn is_object(kind: Kind) -> bool
    ensures { result ≡ spec.is_object kind }
{
    matches!(kind, Kind::ObjectExpression)
}

// ---- taking a property out

fn take_constant(constant: &mut Constant) -> Code
    ensures { code_of result ≡ of.value (values.ConstantOf (constant_of constant.old)) }
{
    let constant = mem::replace(constant, Constant::Null);
    Code::value(Value::of(Origin::ConstantOf(constant)))
}

/// `{ k: v }`
#[tactic(auto, using(crate::proofs::PropertyForms::no_constant_property))]
fn constant_property(
    alloc: Global,
    key: &mut Constant,
    operands: &mut [Code],
) -> Result<Option<Property>, AllocError>
    ensures { IfOk result (λ p. option_map property_of p ≡ spec.constant_property (constant_of key.old) (codes_of operands.old)) }
{
    match operands {
        [value] => Ok(Some(Property {
            key: Boxed::new(alloc, take_constant(key))?,
            value: Boxed::new(alloc, mem::replace(value, Code::nothing()))?,
        })),
        _ => Ok(None),
    }
}

/// A computed key, without its conversion.
#[tactic(auto, using(crate::proofs::PropertyForms::an_inner_key, crate::proofs::PropertyForms::no_inner_key))]
fn inner_key(code: Code) -> Option<Boxed<Code>>
    ensures { option_map code_of result ≡ spec.inner_key (code_of code) }
{
    match code {
        Code::KeyOf { expression } => Some(expression),
        other => {
            drop(other);
            None
        }
    }
}

/// The property of this key. Fails on allocation failure alone.
fn property_with(
    alloc: Global,
    key: Boxed<Code>,
    value: &mut Code,
) -> Result<Option<Property>, AllocError>
    ensures { IfOk result (λ p. option_map property_of p ≡ Some (code_of key, code_of value.old)) }
{
    let value = Boxed::new(alloc, mem::replace(value, Code::nothing()))?;
    Ok(Some(Property { key, value }))
}

/// `{ [k]: v }`
#[tactic(auto, using(crate::proofs::PropertyForms::two_computed, crate::proofs::PropertyForms::not_computed, crate::proofs::PropertyForms::no_computed_property))]
fn computed_property(alloc: Global, operands: &mut [Code]) -> Result<Option<Property>, AllocError>
    ensures { IfOk result (λ p. option_map property_of p ≡ spec.computed_property (codes_of operands.old)) }
{
    match operands {
        [key, value] => match inner_key(mem::replace(key, Code::nothing())) {
            Some(key) => property_with(alloc, key, value),
            None => Ok(None),
        },
        _ => Ok(None),
    }
}

fn keyed_property(
    alloc: Global,
    key: &mut Detail,
    operands: &mut [Code],
) -> Result<Option<Property>, AllocError>
    ensures { IfOk result (λ p. option_map property_of p ≡ spec.keyed_property (detail_of key.old) (codes_of operands.old)) }
{
    match key {
        Detail::Key(constant) => constant_property(alloc, constant, operands),
        Detail::Operand => computed_property(alloc, operands),
        _ => Ok(None),
    }
}

#[tactic(auto, using(crate::proofs::PropertyForms::no_property))]
fn property_among(
    alloc: Global,
    details: &mut [Detail],
    operands: &mut [Code],
) -> Result<Option<Property>, AllocError>
    ensures { IfOk result (λ p. option_map property_of p ≡ spec.property_among (details_of details.old) (codes_of operands.old)) }
{
    match details {
        [opens, key, rest @ ..] => {
            if is_opening(opens) && is_plain_end(rest) {
                keyed_property(alloc, key, operands)
            } else {
                Ok(None)
            }
        }
        _ => Ok(None),
    }
}

fn property_in(
    alloc: Global,
    operation: Operation,
    operands: List<Code>,
) -> Result<Option<Property>, AllocError>
    ensures { IfOk result (λ p. option_map property_of p ≡ spec.property_in (operation_of operation, codes_of operands)) }
{
    match operation {
        Operation::OfKind { kind, details } => {
            if is_object(kind) {
                let mut details = details;
                let mut operands = operands;
                property_among(alloc, details.as_mut_slice(), operands.as_mut_slice())
            } else {
                Ok(None)
            }
        }
        _ => Ok(None),
    }
}

/// The property of a new object literal, if it has one alone and that is `k: v` or `[k]: v`, no method, getter or setter: its
/// key and its value. Fails on allocation failure alone.
#[tactic(auto, using(crate::proofs::Literals::single_property, crate::proofs::Literals::no_single_property))]
pub fn single_property(
    alloc: Global,
    c: &Context,
    code: Code,
) -> Result<Option<Property>, AllocError>
    ensures { IfOk result (λ p. option_map property_of p ≡ generated.single_property (context_of c.now) (code_of code)) }
{
    match new_operation(c, code) {
        Some(new) => property_in(alloc, new.operation, new.operands),
        None => Ok(None),
    }
}

// ---- asking for its key

#[tactic(auto, using(crate::proofs::PropertyForms::an_inner_key, crate::proofs::PropertyForms::no_inner_key))]
fn is_inner_key(key: &Code, code: &Code) -> bool
    ensures { result ≡ spec.is_inner_key (code_of key.now) (spec.inner_key (code_of code.now)) }
{
    match code {
        Code::KeyOf { expression } => is_same_key(key, expression.get()),
        _ => false,
    }
}

#[tactic(auto, using(crate::proofs::PropertyForms::computed_key, crate::proofs::PropertyForms::no_computed_key))]
fn is_computed_key(key: &Code, operands: &[Code]) -> bool
    ensures { result ≡ spec.is_keyed_by (code_of key.now) (spec.computed_property (codes_of operands.now)) }
{
    match operands {
        [computed, _value] => is_inner_key(key, computed),
        _ => false,
    }
}

#[tactic(auto, using(crate::proofs::PropertyForms::no_constant_key))]
fn is_constant_key(key: &Code, constant: &Constant, operands: &[Code]) -> bool
    ensures { result ≡ spec.is_keyed_by (code_of key.now) (spec.constant_property (constant_of constant.now) (codes_of operands.now)) }
{
    match operands {
        [_value] => is_same_constant_key(key, constant),
        _ => false,
    }
}

fn is_key_at(key: &Code, detail: &Detail, operands: &[Code]) -> bool
    ensures { result ≡ spec.is_keyed_by (code_of key.now) (spec.keyed_property (detail_of detail.now) (codes_of operands.now)) }
{
    match detail {
        Detail::Key(constant) => is_constant_key(key, constant, operands),
        Detail::Operand => is_computed_key(key, operands),
        _ => false,
    }
}

#[tactic(auto, using(crate::proofs::PropertyForms::key_among, crate::proofs::PropertyForms::no_key_among, crate::proofs::PropertyForms::no_key))]
fn is_key_among(key: &Code, details: &[Detail], operands: &[Code]) -> bool
    ensures { result ≡ spec.is_keyed_by (code_of key.now) (spec.property_among (details_of details.now) (codes_of operands.now)) }
{
    match details {
        [opens, detail, rest @ ..] => {
            if is_opening(opens) && is_plain_end(rest) {
                is_key_at(key, detail, operands)
            } else {
                false
            }
        }
        _ => false,
    }
}

#[tactic(auto, using(crate::proofs::PropertyForms::key_of_object, crate::proofs::PropertyForms::key_of_no_object))]
fn is_key_in(key: &Code, operation: &Operation, operands: &[Code]) -> bool
    ensures { result ≡ spec.is_keyed_by (code_of key.now) (spec.property_in (operation_of operation.now, codes_of operands.now)) }
{
    match operation {
        Operation::OfKind { kind, details } => {
            if is_object(*kind) {
                is_key_among(key, details.as_slice(), operands)
            } else {
                false
            }
        }
        _ => false,
    }
}

/// Whether a code is a new object literal of one property, as `single_property` takes it apart, and its key is the same as
/// this: the object of `({ k: e })[k]`.
#[tactic(auto, using(crate::proofs::Literals::single_property, crate::proofs::Literals::no_single_property))]
pub fn is_keyed_by(c: &Context, object: &Code, key: &Code) -> bool
    ensures { result ≡ spec.is_keyed_by (code_of key.now) (generated.single_property (context_of c.now) (code_of object.now)) }
{
    match new_operation_ref(c, object) {
        Some(new) => is_key_in(key, new.operation, new.operands),
        None => false,
    }
}
