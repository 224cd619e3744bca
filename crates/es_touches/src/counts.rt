// What is counted of the touches of a body from the last one on.

ghost use Rattle.std.specs.Prelude.{◌≡◌, ◌+◌, ◌^◌, ◌++◌, ◌∷◌, ◌&&◌, ◌<◌, ◌≤◌, [], ℕ, cond, false, length, nat_eq, not, slice_index, true, IfOk, OnOk};
ghost use Rattle.es_grouped.specs.Groups.{group};
ghost use Rattle.es_lowered.specs.DeadZones as spec;
ghost use Rattle.es_touches.specs.Counts.{AreBounds, ArePlaces, CountsDefinitions};
ghost use Rattle.es_touches.specs.Touches.{form_of, touch_of};

use crate::touch::{Touch, TouchForm, is_asked, is_definition};
use es_grouped::Grouped;
use std::alloc::{AllocError, Global};

/// How many fields are defined behind each touch, of the last touch first. Fails on allocation failure alone.
pub fn definitions_behind(alloc: Global, touches: &[Touch]) -> Result<Vec<usize>, AllocError>
    ensures { IfOk result (λ r. CountsDefinitions r.items touches.now) }
{
    let mut counts = Vec::new(alloc);
    let mut count = 0;
    for i in (0..touches.len()).rev() {
        counts.push(count)?;
        count = count_with(count, touches[i].form);
    }
    Ok(counts)
}

/// The count with what has this form.
fn count_with(count: usize, form: TouchForm) -> usize
    requires { count + 1 < 2 ^ 64 }
    ensures { result ≡ cond (spec.is_definition (form_of form)) (count + 1) count }
{
    if is_definition(form) {
        count + 1
    } else {
        count
    }
}

/// For each touch, of the last touch first, a place among the touches of another body: what stands in front of it there has behind
/// it each event that stands behind the touch, if the other body has events of that node, and as often. Fails on allocation
/// failure alone.
pub fn bounds_of(
    alloc: Global,
    there: &[Touch],
    touches: &[Touch],
) -> Result<Vec<usize>, AllocError>
    ensures { IfOk result (λ r. AreBounds there.now r.items touches.now) }
{
    let places = places_of(alloc, there)?;
    let mut seen = Grouped::new(alloc);
    let mut bound = there.len();
    let mut bounds = Vec::new(alloc);
    for i in (0..touches.len()).rev() {
        let touch = touches[i];
        bounds.push(bound)?;
        bound = bound_with(&places, &seen, touch, bound);
        add_place(alloc, touch, i, &mut seen)?;
    }
    Ok(bounds)
}

/// The places of the events of each node among these touches, the last first. Fails on allocation failure alone.
fn places_of(alloc: Global, touches: &[Touch]) -> Result<Grouped<usize>, AllocError>
    ensures { IfOk result (λ g. (m : ℕ) → ArePlaces (group m g) m touches.now 0) }
{
    let mut places = Grouped::new(alloc);
    for i in (0..touches.len()).rev() {
        add_place(alloc, touches[i], i, &mut places)?;
    }
    Ok(places)
}

/// Adds the place of a touch, if it is an event. Fails on allocation failure alone.
fn add_place(
    alloc: Global,
    touch: Touch,
    place: usize,
    places: &mut Grouped<usize>,
) -> Result<(), AllocError>
    ensures { OnOk result ((m : ℕ) → group m places.new ≡ group m places.old ++ cond (nat_eq m (touch_of touch.entry).number && not (spec.is_asked true (touch_of touch.entry).form)) (place ∷ []) []) }
{
    if is_asked(true, touch.form) {
        return Ok(());
    }
    places.add(alloc, touch.number, place)?;
    Ok(())
}

/// The bound with one touch more behind, where these are the places of events in the other body, and those of the events that
/// stood behind so far.
fn bound_with(there: &Grouped<usize>, behind: &Grouped<usize>, touch: Touch, bound: usize) -> usize
    ensures lower { result ≤ bound }
    ensures placed { spec.is_asked true (touch_of touch.entry).form ≡ false → 0 < length (group (touch_of touch.entry).number there.now) → 0 < result → (length (group (touch_of touch.entry).number behind.now) < length (group (touch_of touch.entry).number there.now)) × (result ≤ slice_index (group (touch_of touch.entry).number there.now) (length (group (touch_of touch.entry).number behind.now))) }
{
    if is_asked(true, touch.form) {
        return bound;
    }
    let places = there.get(touch.number);
    let times = behind.get(touch.number).len();
    lower_bound(places, times, bound)
}

/// The bound that the place of one event more sets, where so many of its node stood behind so far: none, where its node has no
/// events there.
fn lower_bound(places: &[usize], times: usize, bound: usize) -> usize
    ensures lower { result ≤ bound }
    ensures placed { 0 < length places.now → 0 < result → (times < length places.now) × (result ≤ slice_index places.now times) }
{
    if places.is_empty() {
        return bound;
    }
    if times >= places.len() {
        return 0;
    }
    let place = places[times];
    if place < bound { place } else { bound }
}
