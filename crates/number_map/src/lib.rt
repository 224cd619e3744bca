//! Values looked up by numbers of which most lie close together.
#![tactic(auto)]

ghost use Rattle.std.specs.Prelude.{◌≡◌, ◌<◌, ℕ, None, Some, cond, is_some, length, nat_eq, option_copied, slice_index_or, IfOk, IfSome, OnOk};
ghost use Rattle.number_map.specs.Entries.{place_of, value_at};

pub mod extent;

use crate::extent::Extent;
use indexmap::IndexMap;
use std::alloc::{AllocError, Global};
use std::marker::Model;

/// Values, each with its number: a list of the numbers from the first on, and a hash table of the others.
#[derive(Drop)]
pub struct NumberMap<V> {
    first: u32,
    /// The values of the numbers from the first on.
    near: Vec<Option<V>>,
    /// Those of the numbers that have no place in the list.
    far: IndexMap<u32, V>,
}

impl<V> Model for NumberMap<V> {
    ghost use Rattle.std.specs.Prelude.{ℕ, List};
    ghost use Rattle.number_map.specs.Entries.{entries_of};

    ghost Value = { List (ℕ × V) };

    ghost view = { λ m. entries_of m.first m.near.items m.far.entries };
}

impl<V: Drop> NumberMap<V> {
    /// No values. Takes no memory.
    pub fn new(alloc: Global) -> NumberMap<V>
        ensures { (n : ℕ) → value_at n result ≡ None }
    {
        NumberMap {
            first: 0,
            near: Vec::new(alloc),
            far: IndexMap::new(alloc),
        }
    }

    /// No values, with a list for numbers of this extent: it has at most so many places for each number. Fails on allocation failure
    /// alone.
    pub fn with_places(
        alloc: Global,
        extent: Extent,
        each: usize,
    ) -> Result<NumberMap<V>, AllocError>
        ensures { IfOk result (λ m. (n : ℕ) → value_at n m ≡ None) }
    {
        let near = empty_places(alloc, extent.places(each))?;
        Ok(NumberMap {
            first: extent.first(),
            near,
            far: IndexMap::new(alloc),
        })
    }

    /// The value of this number.
    pub fn get(&self, number: u32) -> Option<&V>
        ensures { option_copied result ≡ value_at number self.now }
    {
        match place(number, self.first, self.near.len()) {
            Some(place) => self.near[place].as_ref(),
            None => self.far.get(&number),
        }
    }

    /// Whether the number has a value.
    pub fn contains(&self, number: u32) -> bool
        ensures { result ≡ is_some (value_at number self.now) }
    {
        self.get(number).is_some()
    }

    /// Gives the number this value, in place of the one that it may have. Fails on allocation failure alone.
    pub fn insert(&mut self, number: u32, value: V) -> Result<(), AllocError>
        ensures { OnOk result ((n : ℕ) → value_at n self.new ≡ cond (nat_eq n number) (Some value) (value_at n self.old)) }
    {
        match place(number, self.first, self.near.len()) {
            Some(place) => {
                self.near[place] = Some(value);
                Ok(())
            }
            None => {
                self.far.insert(number, value)?;
                Ok(())
            }
        }
    }

    /// Takes the value of this number out.
    pub fn take(&mut self, number: u32) -> Option<V>
        ensures value { result ≡ value_at number self.old }
        ensures others { (n : ℕ) → value_at n self.new ≡ cond (nat_eq n number) None (value_at n self.old) }
    {
        match place(number, self.first, self.near.len()) {
            Some(place) => self.near[place].take(),
            None => self.far.swap_remove(&number),
        }
    }
}

/// The place of a number in a list of so many, the first of which is that of this number; none, if it has no place there.
fn place(number: u32, first: u32, count: usize) -> Option<usize>
    ensures place { result ≡ place_of number first count }
    ensures within { IfSome result (λ i. i < count) }
{
    if number < first {
        return None;
    }
    let place = (number - first) as usize;
    if place < count { Some(place) } else { None }
}

/// So many places with no value. Fails on allocation failure alone.
fn empty_places<V: Drop>(alloc: Global, count: usize) -> Result<Vec<Option<V>>, AllocError>
    ensures { IfOk result (λ v. (i : ℕ) → slice_index_or v.items i None ≡ None) }
{
    let mut places = Vec::with_capacity(alloc, count)?;
    for _ in 0..count {
        places.push(None)?;
    }
    Ok(places)
}
