// Whether the bodies of a lowered program fit those of the source.

ghost use Rattle.std.specs.Prelude.{◌≡◌, ◌++◌, ◌&&◌, ◌||◌, [], cond, not, true, IfOk, OnOk};
ghost use Rattle.es_steps.specs.KeptNodes.{all_pairs_stand};
ghost use Rattle.es_steps.specs.References as references;
ghost use Rattle.es_lowered.specs.DeadZones as spec;
ghost use Rattle.es_touches.specs.Comparison as compared;
ghost use Rattle.es_touches.specs.Comparison.{none_in_closure, turned};
ghost use Rattle.es_touches.specs.Counts.{AreFound};
ghost use Rattle.es_touches.specs.Supers.{any_super_call};
ghost use Rattle.es_touches.specs.Touches.{bodies_of, body_of, class_of, classes_of, closures_of, form_of, touch_of, touches_of};

use crate::behind::stands_like;
use crate::closures::{
    add_if, held_in_both, held_where_run, is_in_same, is_run_by, none_in_closure, put_off,
    stands_in_closure,
};
use crate::found::{found_touches, places_of};
use crate::source::{Body, ClassParts, Source};
use crate::touch::{
    Touch, TouchForm, is_any_run, is_asked, is_between, is_call_of_super, is_same_form, is_this,
};
use es_generated::numbers::{has_number, is_new};
use es_grouped::Grouped;
use es_marks::in_time::all_held;
use std::alloc::{AllocError, Global};

/// Whether what the bodies of a lowered program touch stands behind what it stood behind in the source. Fails on allocation
/// failure alone.
pub fn bodies_fit(alloc: Global, source: &Source, bodies: &[Body]) -> Result<bool, AllocError>
    ensures { IfOk result (λ holds. holds ≡ compared.bodies_fit source.now (bodies_of bodies.now)) }
{
    let places = places_of(alloc, source.bodies)?;
    bodies_fit_among(alloc, source, &places, bodies)
}

/// The same, where these are the places of the bodies of the source (`places_of`). Fails on allocation failure alone.
pub fn bodies_fit_among(
    alloc: Global,
    source: &Source,
    places: &Grouped<usize>,
    bodies: &[Body],
) -> Result<bool, AllocError>
    ensures { IfOk result (λ holds. holds ≡ compared.bodies_fit source.now (bodies_of bodies.now)) }
{
    for body in bodies {
        if !body_fits(alloc, source, places, body)? {
            return Ok(false);
        }
    }
    Ok(true)
}

/// Whether what one body touches does. Fails on allocation failure alone.
fn body_fits<'a>(
    alloc: Global,
    source: &Source,
    places: &Grouped<usize>,
    body: &Body<'a>,
) -> Result<bool, AllocError>
    ensures { IfOk result (λ holds. holds ≡ compared.touches_fit source.now (body_of body.now) [] (touches_of body.now.touches.items)) }
{
    if none_in_closure(source.called, body.touches.as_slice()) {
        open_body_fits(alloc, source, places, body)
    } else {
        touches_fit(alloc, source, body)
    }
}

// ---- touches in no closure that is run elsewhere

/// The same of a body of which no touch stands in a closure that is run elsewhere, so that what is behind a touch is what stands
/// behind it. Fails on allocation failure alone.
fn open_body_fits<'a>(
    alloc: Global,
    source: &Source,
    places: &Grouped<usize>,
    body: &Body<'a>,
) -> Result<bool, AllocError>
    requires { none_in_closure (closures_of source.now.called.now) (touches_of body.now.touches.items) ≡ true }
    ensures { IfOk result (λ holds. holds ≡ compared.touches_fit source.now (body_of body.now) [] (touches_of body.now.touches.items)) }
{
    let touches = body.touches.as_slice();
    let found = found_touches(alloc, source, places, body, touches)?;
    Ok(open_touches_fit(source, body, touches, found))
}

/// The same of its touches, where these are found to fit.
fn open_touches_fit(source: &Source, body: &Body, touches: &[Touch], found: Vec<bool>) -> bool
    requires own { touches.now ≡ body.now.touches.items }
    requires outside { none_in_closure (closures_of source.now.called.now) (touches_of body.now.touches.items) ≡ true }
    requires found { AreFound source.now (body_of body.now) touches.now found.items }
    ensures { result ≡ compared.touches_fit source.now (body_of body.now) [] (touches_of touches.now) }
{
    for (i, touch) in touches.iter().enumerate() {
        let front = &touches[..i];
        let behind = &touches[i + 1..];
        if !open_touch_fits(source, body, front, *touch, behind, found[i]) {
            return false;
        }
    }
    true
}

/// Whether a touch, with these in front of it and these behind, is found to fit, or does.
fn open_touch_fits(
    source: &Source,
    body: &Body,
    front: &[Touch],
    touch: Touch,
    behind: &[Touch],
    is_found: bool,
) -> bool
    requires { is_found ≡ true → compared.touch_fits source.now (body_of body.now) (turned (touches_of front.now) []) (touch_of touch) (touches_of behind.now) ≡ true }
    ensures { result ≡ compared.touch_fits source.now (body_of body.now) (turned (touches_of front.now) []) (touch_of touch.entry) (touches_of behind.now) }
{
    if is_found {
        return true;
    }
    touch_fits(source, body, front, touch, behind)
}

// ---- touches in closures

/// Whether what one body touches does. Fails on allocation failure alone.
fn touches_fit<'a>(alloc: Global, source: &Source, body: &Body<'a>) -> Result<bool, AllocError>
    ensures { IfOk result (λ holds. holds ≡ compared.touches_fit source.now (body_of body.now) [] (touches_of body.now.touches.items)) }
{
    let touches = body.touches.as_slice();
    for (i, touch) in touches.iter().enumerate() {
        let front = &touches[..i];
        let front_with = &touches[..i + 1];
        let behind = &touches[i + 1..];
        if !fits_here(alloc, source, body, front, front_with, *touch, behind)? {
            return Ok(false);
        }
    }
    Ok(true)
}

/// Whether a touch of a body does, with these in front of it, these with it, and these behind, and with what the closure does
/// that it runs. Fails on allocation failure alone.
fn fits_here<'a>(
    alloc: Global,
    source: &Source,
    body: &Body<'a>,
    front: &[Touch<'a>],
    front_with: &[Touch<'a>],
    touch: Touch<'a>,
    behind: &[Touch<'a>],
) -> Result<bool, AllocError>
    ensures { IfOk result (λ holds. holds ≡ (compared.touch_fits source.now (body_of body.now) (turned (touches_of front.now) []) (touch_of touch.entry) (spec.put_off_behind (closures_of source.now.called.now) (touch_of touch.entry) (turned (touches_of front.now) []) ++ compared.in_same source.now (touch_of touch.entry) (touches_of behind.now)) && compared.runs_fit source.now (body_of body.now) (turned (touches_of front_with.now) []) (touch_of touch.entry) (touches_of behind.now) [] (touches_of body.now.touches.items))) }
{
    Ok(
        fits_alone(alloc, source, body, front, touch, behind)?
            && runs_fit(alloc, source, body, front_with, touch, behind)?,
    )
}

/// Whether a touch does, with these in front of it, of which those are behind it that stand in closures which are run there, and
/// these behind, of which those count that stand in its closures. Fails on allocation failure alone.
fn fits_alone<'a>(
    alloc: Global,
    source: &Source,
    body: &Body<'a>,
    front: &[Touch<'a>],
    touch: Touch<'a>,
    behind: &[Touch<'a>],
) -> Result<bool, AllocError>
    ensures { IfOk result (λ holds. holds ≡ compared.touch_fits source.now (body_of body.now) (turned (touches_of front.now) []) (touch_of touch.entry) (spec.put_off_behind (closures_of source.now.called.now) (touch_of touch.entry) (turned (touches_of front.now) []) ++ compared.in_same source.now (touch_of touch.entry) (touches_of behind.now))) }
{
    if !is_asked(body.derives, touch.form) {
        return Ok(true);
    }
    let in_same = in_same(alloc, source, touch, behind)?;
    let mut all_behind = put_off(alloc, source.called, touch, front)?;
    add_all(in_same.as_slice(), &mut all_behind)?;
    let all_behind = all_behind.as_slice();
    Ok(touch_fits(source, body, front, touch, all_behind))
}

// ---- closures that are run

/// Whether what the closure does that a touch runs, if it runs one, fits where it is run, with these in front, the touch among
/// them, and these behind. Fails on allocation failure alone.
#[tactic(auto, using(crate::proofs::Comparing::no_runs))]
fn runs_fit<'a>(
    alloc: Global,
    source: &Source,
    body: &Body<'a>,
    front: &[Touch<'a>],
    touch: Touch<'a>,
    behind: &[Touch<'a>],
) -> Result<bool, AllocError>
    ensures { IfOk result (λ holds. holds ≡ compared.runs_fit source.now (body_of body.now) (turned (touches_of front.now) []) (touch_of touch.entry) (touches_of behind.now) [] (touches_of body.now.touches.items)) }
{
    if !is_any_run(touch.form) {
        return Ok(true);
    }
    all_runs_fit(alloc, source, body, front, touch, behind)
}

/// Whether each touch of the body that a touch runs does. Fails on allocation failure alone.
fn all_runs_fit<'a>(
    alloc: Global,
    source: &Source,
    body: &Body<'a>,
    front: &[Touch<'a>],
    touch: Touch<'a>,
    behind: &[Touch<'a>],
) -> Result<bool, AllocError>
    ensures { IfOk result (λ holds. holds ≡ compared.runs_fit source.now (body_of body.now) (turned (touches_of front.now) []) (touch_of touch.entry) (touches_of behind.now) [] (touches_of body.now.touches.items)) }
{
    let touches = body.touches.as_slice();
    for (i, other) in touches.iter().enumerate() {
        let before = &touches[..i];
        let others = &touches[i + 1..];
        if !run_fits(
            alloc, source, body, front, touch, behind, before, *other, others,
        )? {
            return Ok(false);
        }
    }
    Ok(true)
}

/// Whether the other touch, with these before it in its body and these others behind, fits where the touch runs it, if it does.
/// Fails on allocation failure alone.
fn run_fits<'a>(
    alloc: Global,
    source: &Source,
    body: &Body<'a>,
    front: &[Touch<'a>],
    touch: Touch<'a>,
    behind: &[Touch<'a>],
    before: &[Touch<'a>],
    other: Touch<'a>,
    others: &[Touch<'a>],
) -> Result<bool, AllocError>
    ensures { IfOk result (λ holds. holds ≡ (not (spec.is_run_by (closures_of source.now.called.now) (touch_of other.entry) (touch_of touch.entry).form) || compared.touch_fits source.now (body_of body.now) (turned (touches_of front.now) []) (spec.where_run (touch_of touch.entry) (touch_of other.entry)) (spec.put_off_behind (closures_of source.now.called.now) (spec.in_both (touch_of touch.entry) (touch_of other.entry)) (compared.front_of_run source.now (turned (touches_of front.now) []) (touch_of touch.entry) (turned (touches_of before.now) [])) ++ (compared.run_with source.now (touch_of touch.entry) (touches_of others.now) ++ touches_of behind.now)))) }
{
    if !is_run_by(source.called, other, touch.form) {
        return Ok(true);
    }
    fits_where_run(
        alloc, source, body, front, touch, behind, before, other, others,
    )
}

/// Whether it fits where the touch runs it. Fails on allocation failure alone.
fn fits_where_run<'a>(
    alloc: Global,
    source: &Source,
    body: &Body<'a>,
    front: &[Touch<'a>],
    touch: Touch<'a>,
    behind: &[Touch<'a>],
    before: &[Touch<'a>],
    other: Touch<'a>,
    others: &[Touch<'a>],
) -> Result<bool, AllocError>
    ensures { IfOk result (λ holds. holds ≡ compared.touch_fits source.now (body_of body.now) (turned (touches_of front.now) []) (spec.where_run (touch_of touch.entry) (touch_of other.entry)) (spec.put_off_behind (closures_of source.now.called.now) (spec.in_both (touch_of touch.entry) (touch_of other.entry)) (compared.front_of_run source.now (turned (touches_of front.now) []) (touch_of touch.entry) (turned (touches_of before.now) [])) ++ (compared.run_with source.now (touch_of touch.entry) (touches_of others.now) ++ touches_of behind.now))) }
{
    if !is_asked(body.derives, other.form) {
        return Ok(true);
    }
    let mut all_behind = put_off_where_run(alloc, source, front, touch, before, other)?;
    let mut rest = run_with(alloc, source, touch, others)?;
    add_all(behind, &mut rest)?;
    add_all(rest.as_slice(), &mut all_behind)?;
    let held = held_where_run(alloc, touch, other)?;
    let run = Touch {
        number: other.number,
        form: other.form,
        held: held.as_slice(),
    };
    let all_behind = all_behind.as_slice();
    Ok(touch_fits(source, body, front, run, all_behind))
}

/// What stands in front of the other touch where the touch runs it, and is behind it by the run of a closure. Fails on
/// allocation failure alone.
fn put_off_where_run<'a>(
    alloc: Global,
    source: &Source,
    front: &[Touch<'a>],
    touch: Touch<'a>,
    before: &[Touch<'a>],
    other: Touch<'a>,
) -> Result<Vec<Touch<'a>>, AllocError>
    ensures { IfOk result (λ r. touches_of r.items ≡ spec.put_off_behind (closures_of source.now.called.now) (spec.in_both (touch_of touch.entry) (touch_of other.entry)) (compared.front_of_run source.now (turned (touches_of front.now) []) (touch_of touch.entry) (turned (touches_of before.now) []))) }
{
    let made = front_of_run(alloc, source, front, touch, before)?;
    let held = held_in_both(alloc, touch, other)?;
    let run = Touch {
        number: other.number,
        form: other.form,
        held: held.as_slice(),
    };
    put_off(alloc, source.called, run, made.as_slice())
}

/// What stands in front of what the touch runs: what stands in front of the touch but in the closure, and behind that these, as far
/// as the touch runs them. Fails on allocation failure alone.
#[tactic(auto, using(crate::proofs::Comparing::front_turned))]
fn front_of_run<'a>(
    alloc: Global,
    source: &Source,
    front: &[Touch<'a>],
    touch: Touch,
    before: &[Touch<'a>],
) -> Result<Vec<Touch<'a>>, AllocError>
    ensures { IfOk result (λ r. turned (touches_of r.items) [] ≡ compared.front_of_run source.now (turned (touches_of front.now) []) (touch_of touch.entry) (turned (touches_of before.now) [])) }
{
    let run = run_with(alloc, source, touch, before)?;
    let mut touches = run_without(alloc, source, touch, front)?;
    add_all(run.as_slice(), &mut touches)?;
    Ok(touches)
}

/// Those of these touches that stand in the closures of this one. Fails on allocation failure alone.
fn in_same<'a>(
    alloc: Global,
    source: &Source,
    touch: Touch,
    others: &[Touch<'a>],
) -> Result<Vec<Touch<'a>>, AllocError>
    ensures { IfOk result (λ r. touches_of r.items ≡ compared.in_same source.now (touch_of touch.entry) (touches_of others.now)) }
{
    let mut touches = Vec::new(alloc);
    for other in others {
        add_if(
            is_in_same(source.called, touch, *other),
            *other,
            &mut touches,
        )?;
    }
    Ok(touches)
}

/// Those of these touches that this one runs. Fails on allocation failure alone.
fn run_with<'a>(
    alloc: Global,
    source: &Source,
    touch: Touch,
    others: &[Touch<'a>],
) -> Result<Vec<Touch<'a>>, AllocError>
    ensures { IfOk result (λ r. touches_of r.items ≡ compared.run_with source.now (touch_of touch.entry) (touches_of others.now)) }
{
    let mut touches = Vec::new(alloc);
    for other in others {
        add_if(
            is_run_by(source.called, *other, touch.form),
            *other,
            &mut touches,
        )?;
    }
    Ok(touches)
}

/// Those of these touches that this one does not run. Fails on allocation failure alone.
fn run_without<'a>(
    alloc: Global,
    source: &Source,
    touch: Touch,
    others: &[Touch<'a>],
) -> Result<Vec<Touch<'a>>, AllocError>
    ensures { IfOk result (λ r. touches_of r.items ≡ compared.run_without source.now (touch_of touch.entry) (touches_of others.now)) }
{
    let mut touches = Vec::new(alloc);
    for other in others {
        add_if(
            !is_run_by(source.called, *other, touch.form),
            *other,
            &mut touches,
        )?;
    }
    Ok(touches)
}

/// Adds these touches. Fails on allocation failure alone.
fn add_all<'a>(more: &[Touch<'a>], touches: &mut Vec<Touch<'a>>) -> Result<(), AllocError>
    ensures { OnOk result (touches_of touches.new.items ≡ touches_of touches.old.items ++ touches_of more.now) }
{
    for touch in more {
        touches.push(*touch)?;
    }
    Ok(())
}

// ---- one touch

/// Whether a touch of a body, with these in front of it and these behind, stands as one of the source does, or needs not.
fn touch_fits(source: &Source, body: &Body, front: &[Touch], touch: Touch, behind: &[Touch]) -> bool
    ensures { result ≡ compared.touch_fits source.now (body_of body.now) (turned (touches_of front.now) []) (touch_of touch.entry) (touches_of behind.now) }
{
    if !is_asked(body.derives, touch.form) || is_there(source, body, front, touch) {
        return true;
    }
    let is_ready = !body.derives || is_behind_super(source, touch, front);
    stands_in_any(source, is_ready, body, touch, behind)
}

/// Whether a touch is one of `this` behind `super(..)`, or one that reads the key of a field again.
fn is_there(source: &Source, body: &Body, front: &[Touch], touch: Touch) -> bool
    ensures { result ≡ cond (spec.is_this (touch_of touch.entry).form) (compared.is_behind_super source.now (touch_of touch.entry) (turned (touches_of front.now) [])) (compared.reads_key source.now (body_of body.now).of_class (touch_of touch.entry).form (classes_of source.now.classes.now)) }
{
    if is_this(touch.form) {
        is_behind_super(source, touch, front)
    } else {
        reads_key(source, body.of_class, touch.form)
    }
}

// ---- behind `super(..)`

/// Whether the other touch is a call of `super` that runs wherever the touch does.
fn is_super_of(source: &Source, touch: Touch, other: Touch) -> bool
    ensures { result ≡ ((spec.is_call_of_super (touch_of other.entry).form || (references.has_number (touch_of other.entry).number source.now.supers.now && not (spec.is_between (touch_of other.entry).form))) && all_pairs_stand (touch_of other.entry).held (touch_of touch.entry).held) }
{
    (is_call_of_super(other.form)
        || (has_number(other.number, source.supers) && !is_between(other.form)))
        && all_held(other.held, touch.held)
}

/// Whether the touch, with these in front of it, stands behind a call of `super`.
#[tactic(auto, using(crate::proofs::Comparing::super_front))]
pub fn is_behind_super(source: &Source, touch: Touch, front: &[Touch]) -> bool
    ensures { result ≡ compared.is_behind_super source.now (touch_of touch.entry) (turned (touches_of front.now) []) }
{
    any_super(source, touch, front)
}

/// Whether one of these touches is a call of `super` that runs wherever the touch does.
fn any_super(source: &Source, touch: Touch, others: &[Touch]) -> bool
    ensures { result ≡ compared.is_behind_super source.now (touch_of touch.entry) (touches_of others.now) }
{
    // a call that stands as one is told by its form, with no look at those of the source
    if any_super_call(touch, others) {
        return true;
    }
    any_super_of_source(source, touch, others)
}

fn any_super_call(touch: Touch, others: &[Touch]) -> bool
    ensures { result ≡ any_super_call (touch_of touch.entry) (touches_of others.now) }
{
    for other in others {
        if is_call_of_super(other.form) && all_held(other.held, touch.held) {
            return true;
        }
    }
    false
}

fn any_super_of_source(source: &Source, touch: Touch, others: &[Touch]) -> bool
    ensures { result ≡ compared.is_behind_super source.now (touch_of touch.entry) (touches_of others.now) }
{
    for other in others {
        if is_super_of(source, touch, *other) {
            return true;
        }
    }
    false
}

// ---- keys of fields

/// Whether one of these touches is of this form, at one of these nodes.
fn is_touched_as(source: &Source, nodes: &[u32], form: TouchForm, touches: &[Touch]) -> bool
    ensures { result ≡ compared.is_touched_as source.now nodes.now (form_of form) (touches_of touches.now) }
{
    for touch in touches {
        if has_number(touch.number, nodes) && is_same_form(form, touch.form) {
            return true;
        }
    }
    false
}

/// Whether a body of these has such a touch.
fn is_touched_in(source: &Source, nodes: &[u32], form: TouchForm, bodies: &[Body]) -> bool
    ensures { result ≡ compared.is_touched_in source.now nodes.now (form_of form) (bodies_of bodies.now) }
{
    for body in bodies {
        if is_touched_as(source, nodes, form, body.touches.as_slice()) {
            return true;
        }
    }
    false
}

fn is_key_of(source: &Source, of_class: &[u32], form: TouchForm, class: &ClassParts) -> bool
    ensures { result ≡ (references.has_number (class_of class.now).number of_class.now && compared.is_touched_in source.now (class_of class.now).keys (form_of form) (bodies_of source.now.bodies.now)) }
{
    has_number(class.number, of_class)
        && is_touched_in(source, class.keys.as_slice(), form, source.bodies)
}

/// Whether a key of these classes is read so in the source.
fn reads_key(source: &Source, of_class: &[u32], form: TouchForm) -> bool
    ensures { result ≡ compared.reads_key source.now of_class.now (form_of form) (classes_of source.now.classes.now) }
{
    for class in source.classes {
        if is_key_of(source, of_class, form, class) {
            return true;
        }
    }
    false
}

// ---- bodies of the source

/// Whether the other body is the same in the source, or is of the fields that may be defined where the body is new, or where
/// the touch stands in a closure.
pub fn is_of_body(
    source: &Source,
    is_ready: bool,
    is_inner: bool,
    body: &Body,
    other: &Body,
) -> bool
    ensures { result ≡ compared.is_of_body source.now is_ready is_inner (body_of body.now) (body_of other.now) }
{
    body.number == other.number
        || ((is_new(source.first, body.number) || is_inner)
            && other.is_of_fields
            && is_ready
            && has_number(other.number, body.of_class))
}

/// Whether a touch of a body, with these behind it, stands so in this body of the source.
fn stands_in(
    source: &Source,
    is_ready: bool,
    body: &Body,
    touch: Touch,
    behind: &[Touch],
    other: &Body,
) -> bool
    ensures { result ≡ (compared.is_of_body source.now is_ready (spec.stands_in_closure (closures_of source.now.called.now) (touch_of touch.entry)) (body_of body.now) (body_of other.now) && (((body_of other.now).derives || not (spec.is_this (touch_of touch.entry).form)) && compared.stands_like source.now (touch_of touch.entry) (touches_of behind.now) (body_of other.now).touches (body_of other.now).touches)) }
{
    let is_inner = stands_in_closure(source.called, touch);
    is_of_body(source, is_ready, is_inner, body, other)
        && (other.derives || !is_this(touch.form))
        && stands_like(source, touch, behind, other.touches.as_slice())
}

/// Whether it does in a body of the source.
fn stands_in_any(
    source: &Source,
    is_ready: bool,
    body: &Body,
    touch: Touch,
    behind: &[Touch],
) -> bool
    ensures { result ≡ compared.stands_in_any source.now is_ready (body_of body.now) (touch_of touch.entry) (touches_of behind.now) (bodies_of source.now.bodies.now) }
{
    for other in source.bodies {
        if stands_in(source, is_ready, body, touch, behind, other) {
            return true;
        }
    }
    false
}
