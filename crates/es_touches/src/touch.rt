// What code touches.

ghost use Rattle.std.specs.Prelude.{◌≡◌, IfOk};
ghost use Rattle.es_lowered.specs.DeadZones as spec;
ghost use Rattle.es_touches.specs.Comparison as compared;
ghost use Rattle.es_touches.specs.Touches.{form_of, kept_touches, touches_of};

use es_marks::around::HeldPart;
use std::alloc::{AllocError, Global};

/// What is touched.
#[derive(Debug, Clone, Copy, PartialEq, Eq)]
pub enum TouchForm {
    /// A variable, by the first identifier that declares it.
    Reads(u32),
    /// The name of a class, by a reference of the source.
    NamesClass,
    ReadsThis,
    MakesClass,
    CallsSuper,
    /// A call of the closure that this arrow is.
    RunsClosure(u32),
    /// A field that is defined, or what stands for that.
    DefinesField,
    /// An event of a node between its parts.
    BetweenParts,
    /// Any other reference, an identifier that declares, or what runs other code.
    Another,
}

/// What code touches at a node, and the parts around it in its body that may run or not, or again.
#[derive(Debug, Clone, Copy)]
pub struct Touch<'a> {
    pub number: u32,
    pub form: TouchForm,
    pub held: &'a [HeldPart],
}

/// The same, kept.
#[derive(Debug, Drop)]
pub struct KeptTouch {
    pub number: u32,
    pub form: TouchForm,
    pub held: Vec<HeldPart>,
}

/// The touches that are kept, in their order. Fails on allocation failure alone.
pub fn lent(alloc: Global, kept: &[KeptTouch]) -> Result<Vec<Touch<'_>>, AllocError>
    ensures { IfOk result (λ r. touches_of r.items ≡ kept_touches kept.now) }
{
    let mut touches = Vec::new(alloc);
    for touch in kept {
        touches.push(Touch {
            number: touch.number,
            form: touch.form,
            held: touch.held.as_slice(),
        })?;
    }
    Ok(touches)
}

// ---- forms

pub fn is_this(form: TouchForm) -> bool
    ensures { result ≡ spec.is_this (form_of form) }
{
    matches!(form, TouchForm::ReadsThis)
}

pub fn is_definition(form: TouchForm) -> bool
    ensures { result ≡ spec.is_definition (form_of form) }
{
    matches!(form, TouchForm::DefinesField)
}

pub fn is_call_of_super(form: TouchForm) -> bool
    ensures { result ≡ spec.is_call_of_super (form_of form) }
{
    matches!(form, TouchForm::CallsSuper)
}

pub fn is_between(form: TouchForm) -> bool
    ensures { result ≡ spec.is_between (form_of form) }
{
    matches!(form, TouchForm::BetweenParts)
}

/// Whether it reads without an event, or is made of such: where `this` is there behind `super(..)` alone, or not.
pub fn is_asked(derives: bool, form: TouchForm) -> bool
    ensures { result ≡ spec.is_asked derives (form_of form) }
{
    match form {
        TouchForm::Reads(_) | TouchForm::NamesClass | TouchForm::MakesClass => true,
        TouchForm::ReadsThis => derives,
        _ => false,
    }
}

/// Whether both are the same form of what reads without an event.
pub fn is_same_form(form: TouchForm, other: TouchForm) -> bool
    ensures { result ≡ spec.is_same_form (form_of form) (form_of other) }
{
    match form {
        TouchForm::Reads(variable) => reads_variable(variable, other),
        TouchForm::NamesClass => names_class(other),
        TouchForm::ReadsThis => is_this(other),
        TouchForm::MakesClass => makes_class(other),
        _ => false,
    }
}

fn reads_variable(variable: u32, form: TouchForm) -> bool
    ensures { result ≡ spec.is_same_form (spec.reads variable) (form_of form) }
{
    match form {
        TouchForm::Reads(other) => variable == other,
        _ => false,
    }
}

fn names_class(form: TouchForm) -> bool
    ensures { result ≡ spec.is_same_form spec.names_class (form_of form) }
{
    matches!(form, TouchForm::NamesClass)
}

fn makes_class(form: TouchForm) -> bool
    ensures { result ≡ spec.is_same_form spec.makes_class (form_of form) }
{
    matches!(form, TouchForm::MakesClass)
}

/// Whether the form is the call of a closure.
pub fn is_any_run(form: TouchForm) -> bool
    ensures { result ≡ compared.is_any_run (form_of form) }
{
    matches!(form, TouchForm::RunsClosure(_))
}
