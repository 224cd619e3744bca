// The bodies of functions that generated names are given, as codes that are evaluated where such a name is called.

ghost use Rattle.std.specs.Prelude.{◌≡◌, cond, IfOk, OnOk};
ghost use Rattle.es_codes.specs.CodeView.{code_of, codes_of, form_of};
ghost use Rattle.es_steps.specs.Code as of;
ghost use Rattle.es_steps.specs.Code.{and, done, joined};
ghost use Rattle.es_steps.specs.GeneratedForms as generated;
ghost use Rattle.es_steps.specs.Opening as spec;
ghost use Rattle.es_definitions.specs.Behind.{begins_with_super, is_super_of, with_initializers};

use es_base::list::List;
use es_code_bodies::constructing::is_plain;
use es_code_classes::arrow::opened_steps;
use es_code_copies::copy::{copy_code, copy_codes};
use es_codes::code::{Code, FunctionForm};
use std::alloc::{AllocError, Global};
use std::mem;

/// The body of a function as one code. Fails on allocation failure alone.
#[tactic(auto, using(es_codes::proofs::Forms::steps_is, crate::proofs::Opened::other_body))]
pub fn opened_body(alloc: Global, body: &Code) -> Result<Code, AllocError>
    ensures { IfOk result (λ e. code_of e ≡ generated.opened_body (code_of body.now)) }
{
    match body {
        Code::Steps { all } => opened_steps(copy_codes(alloc, all.as_slice())?),
        other => copy_code(alloc, other),
    }
}

/// What follows `super(..._args)` in the function that stands for `super(..)` of a class: its initializers in place of the call.
/// Where the body begins with something else it has no rule.
#[tactic(auto, using(es_codes::proofs::Forms::sequence_is, crate::proofs::Opened::no_sequence))]
pub fn behind_super(class: u32, body: Code) -> Code
    ensures { code_of result ≡ spec.behind_super class (code_of body) }
{
    match body {
        Code::Sequence { all } => behind_first(class, all),
        other => {
            drop(other);
            Code::no_rule()
        }
    }
}

#[tactic(auto, using(crate::proofs::Opened::initialized_behind))]
fn behind_first(class: u32, mut all: List<Code>) -> Code
    ensures { code_of result ≡ spec.behind_super class (of.sequence (codes_of all)) }
{
    if !begins_with_super(class, all.as_slice()) {
        return Code::no_rule();
    }
    initialize_first(class, all.as_mut_slice());
    Code::sequence(all)
}

/// Whether `super(..._args)` of a class is the first of these.
fn begins_with_super(class: u32, codes: &[Code]) -> bool
    ensures { result ≡ begins_with_super class (codes_of codes.now) }
{
    match codes {
        [first, ..] => is_super_of(class, first),
        [] => false,
    }
}

/// `super(..._args)` of a class.
#[tactic(auto, using(es_codes::proofs::Forms::super_call_with_all_is, crate::proofs::Opened::no_super_call))]
fn is_super_of(class: u32, code: &Code) -> bool
    ensures { result ≡ is_super_of class (code_of code.now) }
{
    match code {
        Code::SuperCallWithAll { class: called } => class == *called,
        _ => false,
    }
}

/// Puts the initializers of a class in the place of the first.
fn initialize_first(class: u32, codes: &mut [Code])
    ensures { codes_of codes.new ≡ with_initializers class (codes_of codes.old) }
{
    match codes {
        [first, ..] => drop(mem::replace(first, Code::initializers(class))),
        [] => (),
    }
}

/// Adds the body of a function as one code. Fails on allocation failure alone.
#[tactic(auto, using(es_code_members::proofs::Chaining::joined_one))]
fn add_opened(alloc: Global, body: &Code, to: &mut List<Code>) -> Result<(), AllocError>
    ensures { OnOk result (codes_of to.new ≡ joined (codes_of to.old) (and (generated.opened_body (code_of body.now)) done)) }
{
    let body = opened_body(alloc, body)?;
    to.push(body)
}

/// The initializers of a class, and the body of a function behind them. Fails on allocation failure alone.
pub fn initialized_body(alloc: Global, class: u32, body: &Code) -> Result<Code, AllocError>
    ensures { IfOk result (λ e. code_of e ≡ of.sequence (and (of.initializers class) (and (generated.opened_body (code_of body.now)) done))) }
{
    let mut all = List::new(alloc);
    all.push(Code::initializers(class))?;
    add_opened(alloc, body, &mut all)?;
    Ok(Code::sequence(all))
}

/// An arrow that is neither async nor a generator.
fn is_plain_arrow(form: FunctionForm) -> bool
    ensures { result ≡ generated.is_plain_arrow (form_of form) }
{
    form.is_arrow && is_plain(form)
}

/// The body of a function without parameters, if that is a plain arrow.
fn arrow_body(alloc: Global, form: FunctionForm, body: &Code) -> Result<Code, AllocError>
    ensures { IfOk result (λ e. code_of e ≡ cond (generated.is_plain_arrow (form_of form)) (generated.opened_body (code_of body.now)) of.no_rule) }
{
    if is_plain_arrow(form) {
        opened_body(alloc, body)
    } else {
        Ok(Code::no_rule())
    }
}

/// The body of the arrow that trailing static blocks became. Another function has no rule. Fails on allocation failure alone.
pub fn closure_body(
    alloc: Global,
    form: FunctionForm,
    parameters: &[Code],
    body: &Code,
) -> Result<Code, AllocError>
    ensures { IfOk result (λ e. code_of e ≡ spec.closure_body (form_of form) (codes_of parameters.now) (code_of body.now)) }
{
    match parameters {
        [] => arrow_body(alloc, form, body),
        [_, ..] => Ok(Code::no_rule()),
    }
}
