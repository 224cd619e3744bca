// Values of which those of one number stand side by side.

ghost use Rattle.std.specs.Prelude.{◌≡◌, IfOk, IfSome};
ghost use Rattle.es_by_number.specs.Numbered.{pairs};
ghost use Rattle.es_grouped.specs.Groups.{having};
ghost use Rattle.es_grouped.specs.Runs.{AreRuns, IsNext};

use crate::extent::{PLACES, extent_of};
use es_by_number::numbered::Numbered;
use number_map::NumberMap;
use std::alloc::{AllocError, Global};
use std::marker::Model;

/// Where the values of a number begin and end.
#[derive(Clone, Copy)]
pub struct Run {
    start: u32,
    end: u32,
}

/// Values of which those of one number stand side by side.
#[derive(Drop)]
pub struct Runs<T> {
    /// The number of each value.
    numbers: Vec<u32>,
    values: Vec<T>,
    /// Where those of a number stand among the values.
    runs: NumberMap<Run>,
}

impl<T> Model for Runs<T> {
    ghost use Rattle.std.specs.Prelude.{ℕ, List};

    ghost Value = { List (ℕ × T) };

    ghost use Rattle.std.specs.List.{zip};
    ghost use Rattle.es_grouped.specs.Runs.{AreRunsOf};

    ghost view = { λ r. zip r.numbers.items r.values.items };

    ghost invariant = { λ r. AreRunsOf r.numbers.items r.values.items r.runs };
}

/// The run of a number with the value at this place more, if that stands next to the others.
fn with_next(before: Option<Run>, place: usize) -> Option<Run>
    ensures { IfSome result (IsNext before place) }
{
    let place = u32::try_from(place).ok()?;
    let behind = place.checked_add(1)?;
    match before {
        None => Some(Run {
            start: place,
            end: behind,
        }),
        Some(run) if run.end == place => Some(Run {
            start: run.start,
            end: behind,
        }),
        Some(_) => None,
    }
}

/// The runs of these values, if those of each number stand side by side. Fails on allocation failure alone.
pub fn runs_of<T>(
    alloc: Global,
    items: &[Numbered<T>],
) -> Result<Option<NumberMap<Run>>, AllocError>
    ensures { IfOk result (λ found. IfSome found (λ runs. AreRuns runs (pairs items.now))) }
{
    let mut runs = NumberMap::with_places(alloc, extent_of(items), PLACES)?;
    for (i, item) in items.iter().enumerate() {
        match with_next(runs.get(item.number).copied(), i) {
            Some(run) => runs.insert(item.number, run)?,
            None => return Ok(None),
        }
    }
    Ok(Some(runs))
}

impl<T: Drop> Runs<T> {
    /// These values, which have these runs. Fails on allocation failure alone.
    pub fn of(
        alloc: Global,
        runs: NumberMap<Run>,
        items: Vec<Numbered<T>>,
    ) -> Result<Runs<T>, AllocError>
        requires { AreRuns runs (pairs items.items) }
        ensures { IfOk result (λ r. r ≡ pairs items.items) }
    {
        let mut numbers = Vec::with_capacity(alloc, items.len())?;
        let mut values = Vec::with_capacity(alloc, items.len())?;
        for item in items {
            numbers.push(item.number)?;
            values.push(item.value)?;
        }
        Ok(Runs {
            numbers,
            values,
            runs,
        })
    }

    /// The values of this number.
    pub fn get(&self, number: u32) -> &[T]
        ensures { result.now ≡ having number self.now }
    {
        match self.runs.get(number) {
            Some(run) => &self.values.as_slice()[run.start as usize..run.end as usize],
            None => &[],
        }
    }

    /// The values with their numbers. Fails on allocation failure alone.
    pub fn into_items(self, alloc: Global) -> Result<Vec<Numbered<T>>, AllocError>
        ensures { IfOk result (λ items. pairs items.items ≡ self) }
    {
        let Runs {
            numbers,
            values,
            ..
        } = self;
        let mut items = Vec::with_capacity(alloc, values.len())?;
        for value in values {
            let number = numbers[items.len()];
            items.push(Numbered { number, value })?;
        }
        Ok(items)
    }
}
