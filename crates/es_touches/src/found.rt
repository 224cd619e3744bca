// Which touches of a body are found to fit by what is counted of it and of the bodies of the source.

ghost use Rattle.std.specs.Prelude.{◌≡◌, ◌&&◌, ◌||◌, ◌<◌, [], length, not, true, IfOk};
ghost use Rattle.es_lowered.specs.DeadZones as spec;
ghost use Rattle.es_touches.specs.Comparison as compared;
ghost use Rattle.es_touches.specs.Comparison.{none_in_closure, turned};
ghost use Rattle.es_touches.specs.Counts.{AreFound, FitsAt, IsOfSource};
ghost use Rattle.es_touches.specs.Touches.{body_of, closures_of, form_of, touch_of, touches_of};

use crate::closures::{none_in_closure, stands_in_closure};
use crate::fits::{is_behind_super, is_of_body};
use crate::pairs::{TouchPair, all_three};
use crate::source::{Body, Source};
use crate::touch::{Touch, TouchForm, is_asked, is_this};
use es_generated::numbers::is_new;
use es_grouped::Grouped;
use std::alloc::{AllocError, Global};

/// The places of these bodies by their numbers: what stands at a place is looked at before it is used. Fails on allocation failure
/// alone.
pub fn places_of(alloc: Global, bodies: &[Body]) -> Result<Grouped<usize>, AllocError> {
    let mut places = Grouped::new(alloc);
    for (i, body) in bodies.iter().enumerate() {
        places.add(alloc, body.number, i)?;
    }
    Ok(places)
}

/// For each touch of a body whether it is found to fit, where what is behind it is what stands behind it; these are the places of
/// the bodies of the source. What is not found may fit all the same. Fails on allocation failure alone.
pub fn found_touches<'a>(
    alloc: Global,
    source: &Source,
    places: &Grouped<usize>,
    body: &Body<'a>,
    touches: &[Touch<'a>],
) -> Result<Vec<bool>, AllocError>
    ensures { IfOk result (λ r. AreFound source.now (body_of body.now) touches.now r.items) }
{
    let mut found = found_anywhere(alloc, source, body, touches)?;
    let candidates = candidates(alloc, source.first, places, body)?;
    for place in candidates.as_slice() {
        found = found_at(alloc, source, body, touches, *place, found)?;
    }
    Ok(found)
}

/// The places of the bodies of the source that a body may be held against: those of its number, and, if it is new, those of the
/// classes whose constructor it is. Fails on allocation failure alone.
fn candidates(
    alloc: Global,
    first: u32,
    places: &Grouped<usize>,
    body: &Body,
) -> Result<Vec<usize>, AllocError> {
    let mut candidates = Vec::new(alloc);
    add_places(places.get(body.number), &mut candidates)?;
    if is_new(first, body.number) {
        for class in body.of_class {
            add_places(places.get(*class), &mut candidates)?;
        }
    }
    Ok(candidates)
}

fn add_places(places: &[usize], candidates: &mut Vec<usize>) -> Result<(), AllocError> {
    for place in places {
        candidates.push(*place)?;
    }
    Ok(())
}

// ---- touches that fit wherever they stand

/// For each touch whether it fits whatever stands behind it. Fails on allocation failure alone.
fn found_anywhere<'a>(
    alloc: Global,
    source: &Source,
    body: &Body<'a>,
    touches: &[Touch<'a>],
) -> Result<Vec<bool>, AllocError>
    ensures { IfOk result (λ r. AreFound source.now (body_of body.now) touches.now r.items) }
{
    let mut found = Vec::new(alloc);
    for (i, touch) in touches.iter().enumerate() {
        found.push(fits_anywhere(source, body, &touches[..i], *touch))?;
    }
    Ok(found)
}

/// Whether a touch, with these in front of it, is not asked for, or is of `this` behind `super(..)`.
fn fits_anywhere(source: &Source, body: &Body, front: &[Touch], touch: Touch) -> bool
    ensures { result ≡ (not (spec.is_asked (body_of body.now).derives (touch_of touch.entry).form) || (spec.is_this (touch_of touch.entry).form && compared.is_behind_super source.now (touch_of touch.entry) (turned (touches_of front.now) []))) }
{
    !is_asked(body.derives, touch.form)
        || (is_this(touch.form) && is_behind_super(source, touch, front))
}

// ---- touches that stand as one of a body of the source

/// The same with what stands as one of the body of the source at this place. Fails on allocation failure alone.
fn found_at<'a>(
    alloc: Global,
    source: &Source,
    body: &Body<'a>,
    touches: &[Touch<'a>],
    place: usize,
    found: Vec<bool>,
) -> Result<Vec<bool>, AllocError>
    requires { AreFound source.now (body_of body.now) touches.now found.items }
    ensures { IfOk result (λ r. AreFound source.now (body_of body.now) touches.now r.items) }
{
    if place >= source.bodies.len() {
        return Ok(found);
    }
    let other = &source.bodies[place];
    let there = other.touches.as_slice();
    if !none_in_closure(source.called, there) {
        return Ok(found);
    }
    let pair = TouchPair::of(alloc, touches, there)?;
    found_with(alloc, source, body, other, &pair, found)
}

fn found_with<'a>(
    alloc: Global,
    source: &Source,
    body: &Body<'a>,
    other: &Body,
    pair: &TouchPair,
    found: Vec<bool>,
) -> Result<Vec<bool>, AllocError>
    requires among { IsOfSource source.now (body_of other.now) }
    requires there { pair.now.there.now ≡ other.now.touches.items }
    requires outside { none_in_closure (closures_of source.now.called.now) (touches_of pair.now.there.now) ≡ true }
    requires found { AreFound source.now (body_of body.now) pair.now.touches.now found.items }
    ensures { IfOk result (λ r. AreFound source.now (body_of body.now) pair.now.touches.now r.items) }
{
    let mut all = Vec::new(alloc);
    for i in 0..pair.touches.len() {
        all.push(fits_or(source, body, other, pair, i, found[i]))?;
    }
    Ok(all)
}

/// Whether the i-th touch was found to fit, or stands as one of the other body.
fn fits_or(
    source: &Source,
    body: &Body,
    other: &Body,
    pair: &TouchPair,
    i: usize,
    was_found: bool,
) -> bool
    requires among { IsOfSource source.now (body_of other.now) }
    requires there { pair.now.there.now ≡ other.now.touches.items }
    requires outside { none_in_closure (closures_of source.now.called.now) (touches_of pair.now.there.now) ≡ true }
    requires below { i < length pair.now.touches.now }
    requires found { was_found ≡ true → FitsAt source.now (body_of body.now) pair.now.touches.now i }
    ensures { result ≡ true → FitsAt source.now (body_of body.now) pair.now.touches.now i }
{
    if was_found {
        return true;
    }
    stands_in(source, body, other, pair, i)
}

/// Whether the i-th touch stands as one of the other body.
fn stands_in(source: &Source, body: &Body, other: &Body, pair: &TouchPair, i: usize) -> bool
    requires among { IsOfSource source.now (body_of other.now) }
    requires there { pair.now.there.now ≡ other.now.touches.items }
    requires outside { none_in_closure (closures_of source.now.called.now) (touches_of pair.now.there.now) ≡ true }
    requires below { i < length pair.now.touches.now }
    ensures { result ≡ true → FitsAt source.now (body_of body.now) pair.now.touches.now i }
{
    let touch = pair.touches[i];
    let front = &pair.touches[..i];
    all_three(
        is_of_body_at(source, body, other, front, touch),
        may_be_there(other, touch.form),
        pair.stands(source, i),
    )
}

/// `this` stands where it is there behind `super(..)` alone, or anywhere else.
fn may_be_there(other: &Body, form: TouchForm) -> bool
    ensures { result ≡ ((body_of other.now).derives || not (spec.is_this (form_of form))) }
{
    other.derives || !is_this(form)
}

/// Whether the other body is one that a touch, with these in front of it, may stand in.
fn is_of_body_at(source: &Source, body: &Body, other: &Body, front: &[Touch], touch: Touch) -> bool
    ensures { result ≡ compared.is_of_body source.now (not (body_of body.now).derives || compared.is_behind_super source.now (touch_of touch.entry) (turned (touches_of front.now) [])) (spec.stands_in_closure (closures_of source.now.called.now) (touch_of touch.entry)) (body_of body.now) (body_of other.now) }
{
    if body.number == other.number {
        return true;
    }
    let is_ready = !body.derives || is_behind_super(source, touch, front);
    let is_inner = stands_in_closure(source.called, touch);
    is_of_body(source, is_ready, is_inner, body, other)
}
