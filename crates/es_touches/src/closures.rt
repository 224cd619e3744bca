// The closures of generated names: what stands in them, and what they do where they are run.

ghost use Rattle.std.specs.Prelude.{◌≡◌, ◌++◌, ◌∷◌, [], cond, not, ◌||◌, IfOk, OnOk};
ghost use Rattle.es_lowered.specs.DeadZones as spec;
ghost use Rattle.es_marks.specs.Around.{held_parts};
ghost use Rattle.es_steps.specs.References as references;
ghost use Rattle.es_touches.specs.Comparison.{none_in_closure, turned};
ghost use Rattle.es_touches.specs.Touches.{closure_of, closures_of, form_of, touch_of, touches_of};

use crate::touch::{Touch, TouchForm, is_any_run, is_definition};
use es_generated::numbers::has_number;
use es_marks::around::HeldPart;
use std::alloc::{AllocError, Global};

/// A closure of a generated name.
#[derive(Debug, Clone, Copy)]
pub struct Closure<'a> {
    pub name: &'a str,
    pub arrow: u32,
}

// ---- what stands in a closure

/// Whether one of these parts is of this node.
pub fn stands_in_node(node: u32, held: &[HeldPart]) -> bool
    ensures { result ≡ spec.stands_in_node node (held_parts held.now) }
{
    for part in held {
        if node == part.node {
            return true;
        }
    }
    false
}

/// Whether the touch stands in one of these closures.
pub fn stands_in_closure(called: &[Closure], touch: Touch) -> bool
    ensures { result ≡ spec.stands_in_closure (closures_of called.now) (touch_of touch.entry) }
{
    for closure in called {
        if stands_in_node(closure.arrow, touch.held) {
            return true;
        }
    }
    false
}

/// Whether none of these touches stands in one of these closures.
pub fn none_in_closure(called: &[Closure], touches: &[Touch]) -> bool
    ensures { result ≡ none_in_closure (closures_of called.now) (touches_of touches.now) }
{
    for touch in touches {
        if stands_in_closure(called, *touch) {
            return false;
        }
    }
    true
}

/// Whether the other touch stands in each of these closures in which the touch stands.
pub fn is_in_same(called: &[Closure], touch: Touch, other: Touch) -> bool
    ensures { result ≡ spec.is_in_same (closures_of called.now) (touch_of touch.entry) (touch_of other.entry) }
{
    for closure in called {
        if stands_in_node(closure.arrow, touch.held) && !stands_in_node(closure.arrow, other.held) {
            return false;
        }
    }
    true
}

/// How many fields these touches define, but for those in other closures than the touch stands in.
pub fn definitions_touched(called: &[Closure], touch: Touch, others: &[Touch]) -> usize
    ensures { result ≡ spec.definitions_touched (closures_of called.now) (touch_of touch.entry) (touches_of others.now) }
{
    let mut count = 0;
    for other in others {
        if is_definition(other.form) && is_in_same(called, *other, touch) {
            count += 1;
        }
    }
    count
}

// ---- what runs a closure

/// Whether this arrow is one of these closures.
pub fn is_arrow_of(arrow: u32, called: &[Closure]) -> bool
    ensures { result ≡ spec.is_arrow_of arrow (closures_of called.now) }
{
    for closure in called {
        if arrow == closure.arrow {
            return true;
        }
    }
    false
}

/// Whether this form is the call of one of these closures, in which the touch stands.
pub fn is_run_by(called: &[Closure], touch: Touch, form: TouchForm) -> bool
    ensures { result ≡ spec.is_run_by (closures_of called.now) (touch_of touch.entry) (form_of form) }
{
    match form {
        TouchForm::RunsClosure(arrow) => {
            is_arrow_of(arrow, called) && stands_in_node(arrow, touch.held)
        }
        _ => false,
    }
}

/// What is around the other touch where this one runs the closure in which it stands. Fails on allocation failure alone.
pub fn held_where_run(
    alloc: Global,
    touch: Touch,
    other: Touch,
) -> Result<Vec<HeldPart>, AllocError>
    ensures { IfOk result (λ r. held_parts r.items ≡ (spec.where_run (touch_of touch.entry) (touch_of other.entry)).held) }
{
    let mut held = Vec::new(alloc);
    if let TouchForm::RunsClosure(arrow) = touch.form {
        add_within(arrow, other.held, &mut held)?;
    }
    add_parts(touch.held, &mut held)?;
    Ok(held)
}

/// What is around the other touch, and what is around this one. Fails on allocation failure alone.
pub fn held_in_both(alloc: Global, touch: Touch, other: Touch) -> Result<Vec<HeldPart>, AllocError>
    ensures { IfOk result (λ r. held_parts r.items ≡ (spec.in_both (touch_of touch.entry) (touch_of other.entry)).held) }
{
    let mut held = Vec::new(alloc);
    add_parts(other.held, &mut held)?;
    add_parts(touch.held, &mut held)?;
    Ok(held)
}

/// Adds those of these parts that are in this closure. Fails on allocation failure alone.
fn add_within(arrow: u32, parts: &[HeldPart], held: &mut Vec<HeldPart>) -> Result<(), AllocError>
    ensures { OnOk result (held_parts held.new.items ≡ held_parts held.old.items ++ spec.held_within arrow (held_parts parts.now)) }
{
    for part in parts {
        if arrow == part.node {
            return Ok(());
        }
        held.push(*part)?;
    }
    Ok(())
}

fn add_parts(parts: &[HeldPart], held: &mut Vec<HeldPart>) -> Result<(), AllocError>
    ensures { OnOk result (held_parts held.new.items ≡ held_parts held.old.items ++ held_parts parts.now) }
{
    for part in parts {
        held.push(*part)?;
    }
    Ok(())
}

// ---- what was made in front and is run behind

/// Whether the other touch does not stand in this closure, or the touch does, too, or the closure is one of these arrows.
fn is_run_with(closure: Closure, ran: &[u32], touch: Touch, other: Touch) -> bool
    ensures { result ≡ (not (spec.stands_in_node (closure_of closure.entry).1 (touch_of other.entry).held) || (spec.stands_in_node (closure_of closure.entry).1 (touch_of touch.entry).held || references.has_number (closure_of closure.entry).1 ran.now)) }
{
    !stands_in_node(closure.arrow, other.held)
        || stands_in_node(closure.arrow, touch.held)
        || has_number(closure.arrow, ran)
}

/// Whether the other touch, which stands in front of the touch, runs there: in no closures but those that the touch stands in,
/// and these.
fn is_run_before(called: &[Closure], ran: &[u32], touch: Touch, other: Touch) -> bool
    ensures { result ≡ spec.is_run_before (closures_of called.now) ran.now (touch_of touch.entry) (touch_of other.entry) }
{
    for closure in called {
        if !is_run_with(*closure, ran, touch, other) {
            return false;
        }
    }
    true
}

/// Adds the closure that this form calls, if so.
fn add_run_if(is_asked: bool, form: TouchForm, ran: &mut Vec<u32>) -> Result<(), AllocError>
    ensures { OnOk result (ran.new.items ≡ ran.old.items ++ cond is_asked (spec.closure_run (form_of form)) []) }
{
    if !is_asked {
        return Ok(());
    }
    if let TouchForm::RunsClosure(arrow) = form {
        ran.push(arrow)?;
    }
    Ok(())
}

/// Adds the closure that the other touch calls, if it calls one and runs in front of the touch.
#[tactic(auto, using(crate::proofs::Comparing::none_added))]
fn add_run(
    called: &[Closure],
    touch: Touch,
    other: Touch,
    ran: &mut Vec<u32>,
) -> Result<(), AllocError>
    ensures { OnOk result (ran.new.items ≡ ran.old.items ++ cond (spec.is_run_before (closures_of called.now) ran.old.items (touch_of touch.entry) (touch_of other.entry)) (spec.closure_run (touch_of other.entry).form) []) }
{
    if !is_any_run(other.form) {
        return Ok(());
    }
    let is_run = is_run_before(called, ran.as_slice(), touch, other);
    add_run_if(is_run, other.form, ran)
}

/// The closures that are run in front of the touch, by calls that run there: the last call first, since it may run the closures
/// that others stand in. Fails on allocation failure alone.
fn were_run(
    alloc: Global,
    called: &[Closure],
    touch: Touch,
    front: &[Touch],
) -> Result<Vec<u32>, AllocError>
    ensures { IfOk result (λ r. r.items ≡ spec.were_run (closures_of called.now) (touch_of touch.entry) [] (turned (touches_of front.now) [])) }
{
    let mut ran = Vec::new(alloc);
    for i in (0..front.len()).rev() {
        add_run(called, touch, front[i], &mut ran)?;
    }
    Ok(ran)
}

/// Whether the other touch, which stands in front of the touch, is behind it by the run of a closure.
fn is_put_off(called: &[Closure], ran: &[u32], touch: Touch, other: Touch) -> bool
    ensures { result ≡ not (spec.is_run_before (closures_of called.now) ran.now (touch_of touch.entry) (touch_of other.entry)) }
{
    !is_run_before(called, ran, touch, other)
}

/// Adds what stands in front of the touch and is behind it, where these closures are run in front of it, the last first. Fails
/// on allocation failure alone.
fn add_put_off<'a>(
    called: &[Closure],
    ran: &[u32],
    touch: Touch,
    front: &[Touch<'a>],
    behind: &mut Vec<Touch<'a>>,
) -> Result<(), AllocError>
    ensures { OnOk result (touches_of behind.new.items ≡ touches_of behind.old.items ++ spec.put_off (closures_of called.now) ran.now (touch_of touch.entry) (turned (touches_of front.now) [])) }
{
    for i in (0..front.len()).rev() {
        let other = front[i];
        add_if(is_put_off(called, ran, touch, other), other, behind)?;
    }
    Ok(())
}

/// What stands in front of the touch and is behind it by the run of a closure, the last first. Fails on allocation failure
/// alone.
pub fn put_off<'a>(
    alloc: Global,
    called: &[Closure],
    touch: Touch,
    front: &[Touch<'a>],
) -> Result<Vec<Touch<'a>>, AllocError>
    ensures { IfOk result (λ r. touches_of r.items ≡ spec.put_off_behind (closures_of called.now) (touch_of touch.entry) (turned (touches_of front.now) [])) }
{
    // _c = () => a(), _k = () => _c(), b, _k()
    let ran = were_run(alloc, called, touch, front)?;
    let mut behind = Vec::new(alloc);
    add_put_off(called, ran.as_slice(), touch, front, &mut behind)?;
    Ok(behind)
}

/// Adds the touch, if so. Fails on allocation failure alone.
pub fn add_if<'a>(
    is_asked: bool,
    touch: Touch<'a>,
    touches: &mut Vec<Touch<'a>>,
) -> Result<(), AllocError>
    ensures { OnOk result (touches_of touches.new.items ≡ touches_of touches.old.items ++ cond is_asked (touch_of touch.entry ∷ []) []) }
{
    if is_asked {
        touches.push(touch)?;
    }
    Ok(())
}
