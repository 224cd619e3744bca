// Values by number, with a list for each.

ghost use Rattle.std.specs.Prelude.{◌≡◌, ◌++◌, ◌∷◌, [], ℕ, cond, nat_eq, IfOk, OnOk};
ghost use Rattle.es_by_number.specs.Numbered.{pairs};
ghost use Rattle.es_grouped.specs.Groups.{having, list_at};

use crate::extent::{PLACES, extent_of};
use es_by_number::numbered::Numbered;
use number_map::NumberMap;
use std::alloc::{AllocError, Global};

/// Values by number, those of one number in a list of their own.
#[derive(Drop)]
pub struct Lists<T> {
    lists: NumberMap<Vec<T>>,
}

impl<T: Drop> Lists<T> {
    /// None. Takes no memory.
    pub fn new(alloc: Global) -> Lists<T>
        ensures { (m : ℕ) → list_at m result ≡ [] }
    {
        Lists {
            lists: NumberMap::new(alloc),
        }
    }

    /// These values by their numbers, those of one number in their order. Fails on allocation failure alone.
    pub fn of(alloc: Global, items: Vec<Numbered<T>>) -> Result<Lists<T>, AllocError>
        ensures { IfOk result (λ g. (m : ℕ) → list_at m g ≡ having m (pairs items.items)) }
    {
        let extent = extent_of(items.as_slice());
        let lists = NumberMap::with_places(alloc, extent, PLACES)?;
        let mut lists = Lists { lists };
        for item in items {
            lists.add(alloc, item.number, item.value)?;
        }
        Ok(lists)
    }

    /// The values of this number, in the order in which they were added.
    pub fn get(&self, number: u32) -> &[T]
        ensures { result.now ≡ list_at number self.now }
    {
        match self.lists.get(number) {
            Some(values) => values.as_slice(),
            None => &[],
        }
    }

    /// Adds a value behind those of its number. Fails on allocation failure alone.
    pub fn add(&mut self, alloc: Global, number: u32, value: T) -> Result<(), AllocError>
        ensures { OnOk result ((m : ℕ) → list_at m self.new ≡ list_at m self.old ++ cond (nat_eq m number) (value ∷ []) []) }
    {
        let mut values = self.lists.take(number).unwrap_or(Vec::new(alloc));
        values.push(value)?;
        self.lists.insert(number, values)
    }
}
