// The touches of a body of a lowered program beside those of one of the source.

ghost use Rattle.std.specs.Prelude.{◌≡◌, ◌&&◌, ◌<◌, length, true, IfOk};
ghost use Rattle.es_steps.specs.KeptNodes.{all_pairs_stand};
ghost use Rattle.es_touches.specs.Comparison as compared;
ghost use Rattle.es_touches.specs.Comparison.{none_in_closure};
ghost use Rattle.es_touches.specs.Counts.{AreBounds, CountsDefinitions, Stands};
ghost use Rattle.es_touches.specs.Touches.{closures_of, touch_of, touches_of};

use crate::behind::is_like;
use crate::counts::{bounds_of, definitions_behind};
use crate::source::Source;
use crate::touch::{Touch, TouchForm, is_asked};
use es_generated::numbers::is_new;
use es_grouped::Grouped;
use es_marks::in_time::all_held;
use std::alloc::{AllocError, Global};

/// The touches of a body of a lowered program beside those of one of the source, with what is counted of both: whether a touch
/// stands as one of the source does is told in the same time however many there are.
#[derive(Drop)]
pub struct TouchPair<'a> {
    pub touches: &'a [Touch<'a>],
    pub there: &'a [Touch<'a>],
    bounds: Vec<usize>,
    definitions: Vec<usize>,
    definitions_there: Vec<usize>,
    candidates: Candidates,

    ghost are_bounds: { AreBounds there.now bounds.items touches.now },
    ghost are_definitions: { CountsDefinitions definitions.items touches.now },
    ghost are_definitions_there: { CountsDefinitions definitions_there.items there.now },
}

impl<'a> TouchPair<'a> {
    /// These touches beside those of the source. Fails on allocation failure alone.
    pub fn of(
        alloc: Global,
        touches: &'a [Touch<'a>],
        there: &'a [Touch<'a>],
    ) -> Result<TouchPair<'a>, AllocError>
        ensures { IfOk result (λ p. (p.touches.now ≡ touches.now) × (p.there.now ≡ there.now)) }
    {
        let bounds = bounds_of(alloc, there, touches)?;
        let definitions = definitions_behind(alloc, touches)?;
        let definitions_there = definitions_behind(alloc, there)?;
        let candidates = Candidates::of(alloc, there)?;
        Ok(TouchPair {
            touches,
            there,
            bounds,
            definitions,
            definitions_there,
            candidates,
        })
    }

    /// Whether the i-th touch is found to stand as one of the source does, where none of those stands in a closure that is run
    /// elsewhere. Where it is not found, it may stand so all the same.
    pub fn stands(&self, source: &Source, i: usize) -> bool
        requires below { i < length self.now.touches.now }
        requires outside { none_in_closure (closures_of source.now.called.now) (touches_of self.now.there.now) ≡ true }
        ensures { result ≡ true → Stands source.now self.now.touches.now self.now.there.now i }
    {
        for place in self.candidates.places(source.first, self.touches[i]) {
            if self.stands_at(source, i, *place) {
                return true;
            }
        }
        false
    }

    /// Whether it is found to stand as the touch of the source at this place does.
    fn stands_at(&self, source: &Source, i: usize, place: usize) -> bool
        requires below { i < length self.now.touches.now }
        requires outside { none_in_closure (closures_of source.now.called.now) (touches_of self.now.there.now) ≡ true }
        ensures { result ≡ true → Stands source.now self.now.touches.now self.now.there.now i }
    {
        if place >= self.there.len() {
            return false;
        }
        let behind = self.touches.len() - 1 - i;
        let behind_there = self.there.len() - 1 - place;
        all_three(
            place < self.bounds[behind],
            self.definitions[behind] <= self.definitions_there[behind_there],
            is_like_and_held(source, self.touches[i], self.there[place]),
        )
    }
}

fn is_like_and_held(source: &Source, touch: Touch, other: Touch) -> bool
    ensures { result ≡ (compared.is_like source.now (touch_of touch.entry) (touch_of other.entry) && all_pairs_stand (touch_of other.entry).held (touch_of touch.entry).held) }
{
    is_like(source, touch, other) && all_held(other.held, touch.held)
}

/// Whether each of these holds.
pub fn all_three(first: bool, second: bool, third: bool) -> bool
    ensures { result ≡ (first && (second && third)) }
{
    first && second && third
}

// ---- candidates

/// The places of the touches of a body of the source that read without an event, or are made of such: by the numbers of their
/// nodes, and by the variables that they read.
#[derive(Drop)]
struct Candidates {
    by_number: Grouped<usize>,
    by_variable: Grouped<usize>,
}

impl Candidates {
    /// Those of these touches. Fails on allocation failure alone.
    fn of(alloc: Global, touches: &[Touch]) -> Result<Candidates, AllocError> {
        let mut by_number = Grouped::new(alloc);
        let mut by_variable = Grouped::new(alloc);
        for (i, touch) in touches.iter().enumerate() {
            if is_asked(true, touch.form) {
                by_number.add(alloc, touch.number, i)?;
            }
            if let TouchForm::Reads(variable) = touch.form {
                by_variable.add(alloc, variable, i)?;
            }
        }
        Ok(Candidates {
            by_number,
            by_variable,
        })
    }

    /// Where a touch of the lowered program may stand: where its node did in the source, or, if that is new, where its variable
    /// is read.
    fn places(&self, first: u32, touch: Touch) -> &[usize] {
        if !is_new(first, touch.number) {
            return self.by_number.get(touch.number);
        }
        match touch.form {
            TouchForm::Reads(variable) => self.by_variable.get(variable),
            _ => &[],
        }
    }
}
