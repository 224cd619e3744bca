// New arrows that are called where they stand. (ECMA-262, 13.3.6 and 15.3; what they stand for is our own.)

ghost use Rattle.std.specs.Prelude.{◌≡◌, ◌&&◌, IfOk, Some, bytes_eq, option_map};
ghost use Rattle.es_codes.specs.CodeView.{code_of, codes_of, form_of};
ghost use Rattle.es_codes.specs.View.{kind_of};
ghost use Rattle.es_steps.specs.GeneratedForms as spec;
ghost use Rattle.es_code_new_literals.specs.Views.{property_of};
ghost use Rattle.es_code_reading.specs.Contexts.{context_of};
ghost use Rattle.es_code_generated_calls.specs.Arrows.{has_two, is_generated_kind, is_generated_named, is_parameter, parameter_name, pick_in, pick_of, picked_from, picks};

use es_base::ledger::GeneratedKind;
use es_base::list::List;
use es_base::name::Name;
use es_base::strings::is_word;
use es_code_classes::arrow::opened_steps;
use es_code_helpers::key::with_key;
use es_code_new_literals::property::{Property, single_property};
use es_code_new_literals::same_key::is_same_key;
use es_code_reading::context::Context;
use es_code_reading::spread::no_spread;
use es_codes::boxed::Boxed;
use es_codes::code::{Code, FunctionForm};
use es_codes::name::NameKind;
use std::alloc::{AllocError, Global};
use std::mem;

// ---- parameters

/// Whether it is a generated name of a parameter.
fn is_parameter(kind: &NameKind) -> bool
    ensures { result ≡ is_parameter (kind_of kind.now) }
{
    matches!(kind, NameKind::Generated(GeneratedKind::Param))
}

/// The generated name of a parameter.
#[tactic(auto, using(crate::proofs::ArrowForms::a_parameter, crate::proofs::ArrowForms::another_binding, crate::proofs::ArrowForms::no_parameter))]
fn parameter_name(code: &Code) -> Option<&Name>
    ensures { option_map (λ s. s.now) result ≡ parameter_name (code_of code.now) }
{
    match code {
        Code::Binding { spelling, kind, .. } => {
            if is_parameter(kind) {
                Some(spelling)
            } else {
                None
            }
        }
        _ => None,
    }
}

/// The names of parameters that are all generated. Fails on allocation failure alone.
#[tactic(auto, using(crate::proofs::ArrowForms::names_first))]
fn parameter_names(alloc: Global, parameters: &[Code]) -> Result<Option<List<Name>>, AllocError>
    ensures { IfOk result (λ names. names ≡ spec.parameter_names (codes_of parameters.now)) }
{
    let mut names = List::new(alloc);
    for parameter in parameters {
        match parameter_name(parameter) {
            Some(name) => names.push(name.try_clone(alloc)?)?,
            None => return Ok(None),
        }
    }
    Ok(Some(names))
}

// ---- calls of arrows

/// Whether an arrow is neither asynchronous nor a generator.
fn is_plain_arrow(form: FunctionForm) -> bool
    ensures { result ≡ spec.is_plain_arrow (form_of form) }
{
    form.is_arrow && !(form.is_async || form.is_generator)
}

/// The body of an arrow as one code: statements in order, and what a new `return` at their end gives. Fails on allocation
/// failure alone.
#[tactic(auto, using(crate::proofs::ArrowForms::steps_opened, crate::proofs::ArrowForms::other_opened))]
fn opened_body(body: Code) -> Result<Code, AllocError>
    ensures { IfOk result (λ e. code_of e ≡ spec.opened_body (code_of body)) }
{
    match body {
        Code::Steps { all } => opened_steps(all),
        other => Ok(other),
    }
}

/// Whether an arrow can be called where it stands with these arguments: it is a plain one, and none of them is a spread element.
fn is_plain_call(form: FunctionForm, arguments: &List<Code>) -> bool
    ensures { result ≡ (spec.is_plain_arrow (form_of form) && spec.no_spread (codes_of arguments.now)) }
{
    is_plain_arrow(form) && no_spread(arguments.as_slice())
}

/// `((p) => e)(a)`, where `p` was generated. Fails on allocation failure alone.
fn call_by_names(
    alloc: Global,
    form: FunctionForm,
    names: List<Name>,
    body: Boxed<Code>,
    arguments: List<Code>,
) -> Result<Code, AllocError>
    ensures { IfOk result (λ e. code_of e ≡ spec.arrow_call (form_of form) (Some names) (code_of body) (codes_of arguments)) }
{
    if is_plain_call(form, &arguments) {
        let opened = opened_body(body.into_inner())?;
        let opened = Boxed::new(alloc, opened)?;
        Ok(Code::call_arrow(names, opened, arguments))
    } else {
        drop(names);
        drop(body);
        drop(arguments);
        Ok(Code::no_rule())
    }
}

fn call_by_parameters(
    alloc: Global,
    form: FunctionForm,
    names: Option<List<Name>>,
    body: Boxed<Code>,
    arguments: List<Code>,
) -> Result<Code, AllocError>
    ensures { IfOk result (λ e. code_of e ≡ spec.arrow_call (form_of form) names (code_of body) (codes_of arguments)) }
{
    match names {
        Some(names) => call_by_names(alloc, form, names, body, arguments),
        None => {
            drop(body);
            drop(arguments);
            Ok(Code::no_rule())
        }
    }
}

/// `((p) => e)(a)`. Fails on allocation failure alone.
fn arrow_call(
    alloc: Global,
    form: FunctionForm,
    parameters: List<Code>,
    body: Boxed<Code>,
    arguments: List<Code>,
) -> Result<Code, AllocError>
    ensures { IfOk result (λ e. code_of e ≡ spec.arrow_call (form_of form) (spec.parameter_names (codes_of parameters)) (code_of body) (codes_of arguments)) }
{
    let names = parameter_names(alloc, parameters.as_slice())?;
    call_by_parameters(alloc, form, names, body, arguments)
}

// ---- picking a property

fn is_generated_kind(kind: &NameKind) -> bool
    ensures { result ≡ is_generated_kind (kind_of kind.now) }
{
    matches!(kind, NameKind::Generated(_))
}

fn is_generated_spelled(name: &Name, spelling: &Name, kind: &NameKind) -> bool
    ensures { result ≡ (is_generated_kind (kind_of kind.now) && bytes_eq spelling.now name.now) }
{
    is_generated_kind(kind) && is_word(name.as_str(), spelling.as_str())
}

/// Whether it is a generated name of this spelling.
#[tactic(auto, using(crate::proofs::ArrowForms::a_name, crate::proofs::ArrowForms::no_name))]
fn is_generated_named(name: &Name, code: &Code) -> bool
    ensures { result ≡ is_generated_named name.now (code_of code.now) }
{
    match code {
        Code::Name { spelling, kind, .. } => is_generated_spelled(name, spelling, kind),
        _ => false,
    }
}

fn picks_key(first: &Name, second: &Name, object: &Boxed<Code>, key: &Boxed<Code>) -> bool
    ensures { result ≡ (is_generated_named second.now (code_of object.now) && is_generated_named first.now (code_of key.now)) }
{
    is_generated_named(second, object.get()) && is_generated_named(first, key.get())
}

/// `q[p]`
#[tactic(auto, using(crate::proofs::ArrowForms::a_member, crate::proofs::ArrowForms::no_member))]
fn picks(first: &Name, second: &Name, body: &Code) -> bool
    ensures { result ≡ picks first.now second.now (code_of body.now) }
{
    match body {
        Code::Member { object, key, .. } => picks_key(first, second, object, key),
        _ => false,
    }
}

fn is_pick_of(first: &Code, second: &Code, body: &Code) -> bool
    ensures { result ≡ pick_of (parameter_name (code_of first.now)) (parameter_name (code_of second.now)) (code_of body.now) }
{
    match parameter_name(first) {
        Some(p) => match parameter_name(second) {
            Some(q) => picks(p, q, body),
            None => false,
        },
        None => false,
    }
}

/// Whether these are the parameters and the body of `(p, q) => q[p]`.
#[tactic(auto, using(crate::proofs::ArrowForms::not_two_parameters))]
fn is_pick(parameters: &[Code], body: &Code) -> bool
    ensures { result ≡ pick_in (codes_of parameters.now) (code_of body.now) }
{
    match parameters {
        [first, second] => is_pick_of(first, second, body),
        _ => false,
    }
}

/// Whether there are two.
#[tactic(auto, using(crate::proofs::ArrowForms::not_two))]
fn has_two(codes: &[Code]) -> bool
    ensures { result ≡ has_two (codes_of codes.now) }
{
    match codes {
        [_, _] => true,
        _ => false,
    }
}

#[tactic(auto, using(crate::proofs::ArrowForms::picked_property, crate::proofs::ArrowForms::unpicked_property))]
fn picked_of(alloc: Global, key: &mut Code, property: Property) -> Result<Code, AllocError>
    ensures { IfOk result (λ e. code_of e ≡ spec.picked (code_of key.old) (Some (property_of property))) }
{
    let Property {
        key: property_key,
        value,
    } = property;
    if is_same_key(key, property_key.get()) {
        drop(property_key);
        let mut value = value.into_inner();
        let code = with_key(alloc, key, &mut value);
        drop(value);
        code
    } else {
        drop(property_key);
        drop(value);
        Ok(Code::no_rule())
    }
}

/// What `((p, q) => q[p])(k, { [k]: e })` gives. Fails on allocation failure alone.
#[tactic(auto, using(crate::proofs::ArrowForms::of_property, crate::proofs::ArrowForms::of_no_property))]
fn picked(alloc: Global, c: &Context, key: &mut Code, object: &mut Code) -> Result<Code, AllocError>
    ensures { IfOk result (λ e. code_of e ≡ spec.picked (code_of key.old) (spec.single_property (context_of c.now) (code_of object.old))) }
{
    match single_property(alloc, c, mem::replace(object, Code::nothing()))? {
        Some(property) => picked_of(alloc, key, property),
        None => Ok(Code::no_rule()),
    }
}

#[tactic(auto, using(crate::proofs::ArrowForms::not_two_picked))]
fn picked_of_two(alloc: Global, c: &Context, arguments: &mut [Code]) -> Result<Code, AllocError>
    ensures { IfOk result (λ e. code_of e ≡ picked_from (context_of c.now) (codes_of arguments.old)) }
{
    match arguments {
        [key, object] => picked(alloc, c, key, object),
        _ => Ok(Code::no_rule()),
    }
}

fn picked_from(alloc: Global, c: &Context, mut arguments: List<Code>) -> Result<Code, AllocError>
    ensures { IfOk result (λ e. code_of e ≡ picked_from (context_of c.now) (codes_of arguments)) }
{
    picked_of_two(alloc, c, arguments.as_mut_slice())
}

// ---- all calls of new functions

/// Whether it is a call of `(p, q) => q[p]` with two arguments.
fn is_pick_call(
    form: FunctionForm,
    parameters: &List<Code>,
    body: &Boxed<Code>,
    arguments: &List<Code>,
) -> bool
    ensures { result ≡ (has_two (codes_of arguments.now) && (spec.is_plain_arrow (form_of form) && pick_in (codes_of parameters.now) (code_of body.now))) }
{
    has_two(arguments.as_slice())
        && (is_plain_arrow(form) && is_pick(parameters.as_slice(), body.get()))
}

/// `((p) => e)(a)`, `((p, q) => q[p])(k, { [k]: e })`. Fails on allocation failure alone.
#[tactic(auto, using(crate::proofs::ArrowForms::by_pick, crate::proofs::ArrowForms::by_names))]
pub fn new_function_call(
    alloc: Global,
    c: &Context,
    form: FunctionForm,
    parameters: List<Code>,
    body: Boxed<Code>,
    arguments: List<Code>,
) -> Result<Code, AllocError>
    ensures { IfOk result (λ e. code_of e ≡ spec.new_function_call (context_of c.now) (form_of form) (codes_of parameters) (code_of body) (codes_of arguments)) }
{
    if is_pick_call(form, &parameters, &body, &arguments) {
        drop(parameters);
        drop(body);
        picked_from(alloc, c, arguments)
    } else {
        arrow_call(alloc, form, parameters, body, arguments)
    }
}
