// `{ writable: true, value: v }`, new.

ghost use Rattle.std.specs.Prelude.{◌≡◌, option_map};
ghost use Rattle.es_codes.specs.CodeView.{code_of, codes_of};
ghost use Rattle.es_codes.specs.Constants.{constant_of, origin_of};
ghost use Rattle.es_codes.specs.View.{details_of, operation_of};
ghost use Rattle.es_steps.specs.Code as of;
ghost use Rattle.es_steps.specs.GeneratedForms as generated;
ghost use Rattle.es_steps.specs.Values as values;
ghost use Rattle.es_code_reading.specs.Contexts.{context_of};
ghost use Rattle.es_code_new_literals.specs.Details.{are_writable, is_value_end, is_writable};
ghost use Rattle.es_code_new_literals.specs.Literals as spec;

use crate::detail::{behind_property, is_end, is_opening};
use crate::operation::{NewOperation, new_operation};
use crate::property::is_object;
use es_base::list::List;
use es_code_reading::context::Context;
use es_codes::code::Code;
use es_codes::event::{Detail, Operation};
use es_codes::value::{Constant, Origin, Value};
use std::mem;

/// Whether these details stand behind `writable: a` in `{ writable: a, value: v }`.
fn is_value_end(details: &[Detail]) -> bool
    ensures { result ≡ is_value_end (details_of details.now) }
{
    match behind_property("value", details) {
        Some(rest) => is_end(rest),
        None => false,
    }
}

/// Whether these details stand behind the opening of `{ writable: a, value: v }`.
fn are_writable(details: &[Detail]) -> bool
    ensures { result ≡ are_writable (details_of details.now) }
{
    match behind_property("writable", details) {
        Some(rest) => is_value_end(rest),
        None => false,
    }
}

/// Whether these details are those of `{ writable: a, value: v }`.
fn is_writable(details: &[Detail]) -> bool
    ensures { result ≡ is_writable (details_of details.now) }
{
    match details {
        [opens, rest @ ..] => is_opening(opens) && are_writable(rest),
        [] => false,
    }
}

fn is_true_constant(constant: &Constant) -> bool
    ensures { result ≡ spec.is_true (of.value (values.ConstantOf (constant_of constant.now))) }
{
    match constant {
        Constant::BooleanOf(boolean) => *boolean,
        _ => false,
    }
}

fn is_true_origin(origin: &Origin) -> bool
    ensures { result ≡ spec.is_true (of.value (origin_of origin.now)) }
{
    match origin {
        Origin::ConstantOf(constant) => is_true_constant(constant),
        _ => false,
    }
}

#[tactic(auto, using(crate::proofs::TrueForms::key_no_true))]
fn is_true_value(value: &Value) -> bool
    ensures { result ≡ spec.is_true (of.value value.now) }
{
    match value.origin() {
        Some(origin) => is_true_origin(origin),
        None => false,
    }
}

/// `true`
#[tactic(auto, using(crate::proofs::TrueForms::a_value, crate::proofs::TrueForms::no_value))]
fn is_true(code: &Code) -> bool
    ensures { result ≡ spec.is_true (code_of code.now) }
{
    match code {
        Code::Value { value } => is_true_value(value),
        _ => false,
    }
}

#[tactic(auto, using(crate::proofs::TrueForms::not_two))]
fn behind_true(operands: &mut [Code]) -> Option<Code>
    ensures { option_map code_of result ≡ spec.behind_true (codes_of operands.old) }
{
    match operands {
        [writable, value] => {
            if is_true(writable) {
                Some(mem::replace(value, Code::nothing()))
            } else {
                None
            }
        }
        _ => None,
    }
}

fn writable_in(operation: Operation, operands: List<Code>) -> Option<Code>
    ensures { option_map code_of result ≡ spec.writable_in (operation_of operation, codes_of operands) }
{
    match operation {
        Operation::OfKind { kind, details } => {
            if is_object(kind) && is_writable(details.as_slice()) {
                let mut operands = operands;
                behind_true(operands.as_mut_slice())
            } else {
                None
            }
        }
        _ => None,
    }
}

/// The value `v` of a new `{ writable: true, value: v }`.
#[tactic(auto, using(crate::proofs::Literals::writable_value, crate::proofs::Literals::no_writable_value))]
pub fn writable_value(c: &Context, code: Code) -> Option<Code>
    ensures { option_map code_of result ≡ generated.writable_value (context_of c.now) (code_of code) }
{
    let NewOperation {
        operation,
        operands,
    } = new_operation(c, code)?;
    writable_in(operation, operands)
}
