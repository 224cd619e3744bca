// Whether a touch stands in a body of the source as it does in the lowered program, by what stands behind it.

ghost use Rattle.std.specs.Prelude.{◌≡◌, ◌&&◌, ◌||◌, nat_eq, nat_le, not, true};
ghost use Rattle.es_steps.specs.KeptNodes.{all_pairs_stand};
ghost use Rattle.es_lowered.specs.DeadZones as spec;
ghost use Rattle.es_touches.specs.Comparison as compared;
ghost use Rattle.es_touches.specs.Touches.{classes_of, closures_of, touch_of, touches_of};

use crate::closures::definitions_touched;
use crate::source::{ClassParts, Source};
use crate::touch::{Touch, is_asked, is_same_form};
use es_generated::numbers::{has_number, is_new};
use es_marks::in_time::all_held;

// ---- events of a node

/// Whether the touch is an event of this node.
fn is_event_of(number: u32, touch: Touch) -> bool
    ensures { result ≡ (nat_eq number (touch_of touch.entry).number && not (spec.is_asked true (touch_of touch.entry).form)) }
{
    number == touch.number && !is_asked(true, touch.form)
}

/// Whether a node has events among these touches.
fn is_touched(number: u32, touches: &[Touch]) -> bool
    ensures { result ≡ spec.is_touched number (touches_of touches.now) }
{
    for touch in touches {
        if is_event_of(number, *touch) {
            return true;
        }
    }
    false
}

/// How many events of a node are among these touches.
fn times(number: u32, touches: &[Touch]) -> usize
    ensures { result ≡ spec.times number (touches_of touches.now) }
{
    let mut count = 0;
    for touch in touches {
        if is_event_of(number, *touch) {
            count += 1;
        }
    }
    count
}

// ---- what stands behind

/// Whether one of these classes has the first node among what may move in front of the other.
fn is_excepted(moving: u32, number: u32, classes: &[ClassParts]) -> bool
    ensures { result ≡ spec.is_excepted moving number (classes_of classes.now) }
{
    for class in classes {
        if has_number(moving, class.moving.as_slice())
            && has_number(number, class.passed.as_slice())
        {
            return true;
        }
    }
    false
}

/// Whether an event, of those behind a touch in the lowered program, stands behind this touch of the source as often.
fn is_behind<'a>(
    source: &Source,
    there: &[Touch<'a>],
    touch: Touch<'a>,
    behind: &[Touch<'a>],
    lowered: &[Touch<'a>],
    event: Touch<'a>,
) -> bool
    ensures { result ≡ ((spec.is_asked true (touch_of event.entry).form || not (spec.is_touched (touch_of event.entry).number (touches_of there.now))) || (nat_le (spec.times (touch_of event.entry).number (touches_of lowered.now)) (spec.times (touch_of event.entry).number (touches_of behind.now)) || spec.is_excepted (touch_of touch.entry).number (touch_of event.entry).number (classes_of source.now.classes.now))) }
{
    let number = event.number;
    (is_asked(true, event.form) || !is_touched(number, there))
        || (times(number, lowered) <= times(number, behind)
            || is_excepted(touch.number, number, source.classes))
}

/// Whether each of these events, which are among those behind a touch in the lowered program, and which a body of the source
/// has, stands behind this touch of the body as often.
fn all_behind<'a>(
    source: &Source,
    there: &[Touch<'a>],
    touch: Touch<'a>,
    behind: &[Touch<'a>],
    lowered: &[Touch<'a>],
    events: &[Touch<'a>],
) -> bool
    ensures { result ≡ compared.all_behind source.now (touches_of there.now) (touch_of touch.entry) (touches_of behind.now) (touches_of lowered.now) (touches_of events.now) }
{
    for event in events {
        if !is_behind(source, there, touch, behind, lowered, *event) {
            return false;
        }
    }
    true
}

// ---- a touch of the source

/// Whether a touch of the lowered program is of the node and form of one of the source.
pub fn is_like(source: &Source, touch: Touch, other: Touch) -> bool
    ensures { result ≡ compared.is_like source.now (touch_of touch.entry) (touch_of other.entry) }
{
    (is_new(source.first, touch.number) || touch.number == other.number)
        && is_same_form(touch.form, other.form)
}

/// Whether a touch, with these behind it, stands as this one does, which has those behind it in a body of the source.
fn stands_as<'a>(
    source: &Source,
    touch: Touch<'a>,
    lowered: &[Touch<'a>],
    there: &[Touch<'a>],
    other: Touch<'a>,
    behind: &[Touch<'a>],
) -> bool
    ensures { result ≡ (compared.is_like source.now (touch_of touch.entry) (touch_of other.entry) && (compared.all_behind source.now (touches_of there.now) (touch_of other.entry) (touches_of behind.now) (touches_of lowered.now) (touches_of lowered.now) && (nat_le (spec.definitions_touched (closures_of source.now.called.now) (touch_of touch.entry) (touches_of lowered.now)) (spec.definitions_touched (closures_of source.now.called.now) (touch_of other.entry) (touches_of behind.now)) && all_pairs_stand (touch_of other.entry).held (touch_of touch.entry).held))) }
{
    is_like(source, touch, other)
        && all_behind(source, there, other, behind, lowered, lowered)
        && definitions_touched(source.called, touch, lowered)
            <= definitions_touched(source.called, other, behind)
        && all_held(other.held, touch.held)
}

/// Whether a touch, with these behind it, stands as one of these touches of a body of the source.
pub fn stands_like<'a>(
    source: &Source,
    touch: Touch<'a>,
    lowered: &[Touch<'a>],
    there: &[Touch<'a>],
) -> bool
    ensures { result ≡ compared.stands_like source.now (touch_of touch.entry) (touches_of lowered.now) (touches_of there.now) (touches_of there.now) }
{
    for (i, other) in there.iter().enumerate() {
        if stands_as(source, touch, lowered, there, *other, &there[i + 1..]) {
            return true;
        }
    }
    false
}
