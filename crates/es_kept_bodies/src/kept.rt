// Bodies that touch what they touched in the source.

ghost use Rattle.std.specs.Prelude.{◌≡◌};
ghost use Rattle.es_kept_bodies.specs.Indexed.{any_of_closure, bodies_seen};
ghost use Rattle.es_kept_bodies.specs.Kept as spec;
ghost use Rattle.es_lowered.specs.DeadZones.{stands_in_closure};
ghost use Rattle.es_marks.specs.Around.{held_parts};
ghost use Rattle.es_steps.specs.SameMeanings.{same_list};
ghost use Rattle.es_touches.specs.Comparison.{none_in_closure};
ghost use Rattle.es_touches.specs.Touches.{bodies_of, body_of, closures_of, form_of, touch_of, touches_of};

use crate::indexed::{IndexedSource, SourceBody};
use es_marks::around::HeldPart;
use es_touches::source::Body;
use es_touches::touch::{Touch, TouchForm};

/// Whether a body touches what one of the source of its number does, in that order, and nothing in a closure that is run
/// elsewhere.
pub fn is_kept_body(indexed: &IndexedSource, body: &Body) -> bool
    ensures { result ≡ spec.is_kept_body (closures_of indexed.now.source.now.called.now) (bodies_of indexed.now.source.now.bodies.now) (body_of body.now) }
{
    none_in_closure(indexed, body.touches.as_slice())
        && any_same(body, indexed.numbered(body.number))
}

fn none_in_closure(indexed: &IndexedSource, touches: &[Touch]) -> bool
    ensures { result ≡ none_in_closure (closures_of indexed.now.source.now.called.now) (touches_of touches.now) }
{
    for touch in touches {
        if stands_in_closure(indexed, *touch) {
            return false;
        }
    }
    true
}

fn stands_in_closure(indexed: &IndexedSource, touch: Touch) -> bool
    ensures { result ≡ stands_in_closure (closures_of indexed.now.source.now.called.now) (touch_of touch.entry) }
{
    any_of_closure(indexed, touch.held)
}

/// Whether one of these parts is of the arrow of a closure.
fn any_of_closure(indexed: &IndexedSource, parts: &[HeldPart]) -> bool
    ensures { result ≡ any_of_closure (closures_of indexed.now.source.now.called.now) (held_parts parts.now) }
{
    for part in parts {
        if indexed.is_arrow(part.node) {
            return true;
        }
    }
    false
}

fn any_same(body: &Body, others: &[SourceBody]) -> bool
    ensures { result ≡ spec.any_same (body_of body.now) (bodies_seen others.now) }
{
    for other in others {
        if is_same_body(body, other.body) {
            return true;
        }
    }
    false
}

fn is_same_body(body: &Body, other: &Body) -> bool
    ensures { result ≡ spec.is_same_body (body_of body.now) (body_of other.now) }
{
    body.number == other.number
        && (other.derives || !body.derives)
        && same_touches(body.touches.as_slice(), other.touches.as_slice())
}

// ---- touches

#[tactic(auto, using(crate::proofs::SameTouches::other_touches))]
fn same_touches(touches: &[Touch], others: &[Touch]) -> bool
    ensures { result ≡ same_list spec.same_touch (touches_of touches.now) (touches_of others.now) }
{
    if touches.len() != others.len() {
        return false;
    }
    for (i, touch) in touches.iter().enumerate() {
        if !is_same_touch(*touch, others[i]) {
            return false;
        }
    }
    true
}

fn is_same_touch(touch: Touch, other: Touch) -> bool
    ensures { result ≡ spec.same_touch (touch_of touch.entry) (touch_of other.entry) }
{
    touch.number == other.number
        && is_one_form(touch.form, other.form)
        && same_held(touch.held, other.held)
}

fn is_one_form(form: TouchForm, other: TouchForm) -> bool
    ensures { result ≡ spec.same_form (form_of form) (form_of other) }
{
    tag_of(form) == tag_of(other) && number_of(form) == number_of(other)
}

fn tag_of(form: TouchForm) -> u32
    ensures { result ≡ spec.tag_of (form_of form) }
{
    match form {
        TouchForm::Reads(_) => 0,
        TouchForm::NamesClass => 1,
        TouchForm::ReadsThis => 2,
        TouchForm::MakesClass => 3,
        TouchForm::CallsSuper => 4,
        TouchForm::RunsClosure(_) => 5,
        TouchForm::DefinesField => 6,
        TouchForm::BetweenParts => 7,
        TouchForm::Another => 8,
    }
}

fn number_of(form: TouchForm) -> u32
    ensures { result ≡ spec.number_of (form_of form) }
{
    match form {
        TouchForm::Reads(variable) => variable,
        TouchForm::RunsClosure(arrow) => arrow,
        _ => 0,
    }
}

// ---- what touches stand in

#[tactic(auto, using(crate::proofs::SameTouches::other_parts))]
fn same_held(parts: &[HeldPart], others: &[HeldPart]) -> bool
    ensures { result ≡ same_list spec.same_part (held_parts parts.now) (held_parts others.now) }
{
    if parts.len() != others.len() {
        return false;
    }
    for (i, part) in parts.iter().enumerate() {
        if !is_same_part(*part, others[i]) {
            return false;
        }
    }
    true
}

fn is_same_part(part: HeldPart, other: HeldPart) -> bool
    ensures { result ≡ spec.same_part (part.node, part.part) (other.node, other.part) }
{
    part.node == other.node && part.part == other.part
}
