//! Values looked up by the numbers that they belong to.
#![tactic(auto)]

ghost use Rattle.std.specs.Prelude.{◌≡◌, ◌++◌, ◌∷◌, [], ℕ, cond, nat_eq, IfOk, OnOk};
ghost use Rattle.es_by_number.specs.Numbered.{pairs};
ghost use Rattle.es_grouped.specs.Groups.{group, having, in_table, list_at};

mod extent;
mod lists;
mod runs;

use crate::lists::Lists;
use crate::runs::{Runs, runs_of};
use es_by_number::numbered::Numbered;
use std::alloc::{AllocError, Global};
use std::mem::replace;

/// Values by number.
#[derive(Drop)]
enum Table<T> {
    /// Those that were there at once, if those of each number stood side by side.
    Runs(Runs<T>),
    Lists(Lists<T>),
}

/// Values, each of which belongs to a number. To look one up takes the same time however many there are.
#[derive(Drop)]
pub struct Grouped<T> {
    table: Table<T>,
}

impl<T: Drop> Grouped<T> {
    /// None. Takes no memory.
    pub fn new(alloc: Global) -> Grouped<T>
        ensures { (m : ℕ) → group m result ≡ [] }
    {
        Grouped {
            table: Table::Lists(Lists::new(alloc)),
        }
    }

    /// These values by their numbers, those of one number in their order. Fails on allocation failure alone.
    pub fn of(alloc: Global, items: Vec<Numbered<T>>) -> Result<Grouped<T>, AllocError>
        ensures { IfOk result (λ g. (m : ℕ) → group m g ≡ having m (pairs items.items)) }
    {
        let table = match runs_of(alloc, items.as_slice())? {
            Some(runs) => Table::Runs(Runs::of(alloc, runs, items)?),
            None => Table::Lists(Lists::of(alloc, items)?),
        };
        Ok(Grouped { table })
    }

    /// The values of this number, in the order in which they were added.
    pub fn get(&self, number: u32) -> &[T]
        ensures { result.now ≡ group number self.now }
    {
        match &self.table {
            Table::Runs(runs) => runs.get(number),
            Table::Lists(lists) => lists.get(number),
        }
    }

    /// Adds a value behind those of its number. Fails on allocation failure alone.
    pub fn add(&mut self, alloc: Global, number: u32, value: T) -> Result<(), AllocError>
        ensures { OnOk result ((m : ℕ) → group m self.new ≡ group m self.old ++ cond (nat_eq m number) (value ∷ []) []) }
    {
        match &mut self.table {
            Table::Lists(lists) => lists.add(alloc, number, value),
            Table::Runs(_) => self.add_to_runs(alloc, number, value),
        }
    }

    /// The same, where the values may be in runs.
    fn add_to_runs(&mut self, alloc: Global, number: u32, value: T) -> Result<(), AllocError>
        ensures { OnOk result ((m : ℕ) → group m self.new ≡ group m self.old ++ cond (nat_eq m number) (value ∷ []) []) }
    {
        let table = replace(&mut self.table, Table::Lists(Lists::new(alloc)));
        let mut lists = into_lists(alloc, table)?;
        lists.add(alloc, number, value)?;
        self.table = Table::Lists(lists);
        Ok(())
    }
}

/// A list for each number of a table. Fails on allocation failure alone.
fn into_lists<T: Drop>(alloc: Global, table: Table<T>) -> Result<Lists<T>, AllocError>
    ensures { IfOk result (λ l. (m : ℕ) → list_at m l ≡ in_table m table) }
{
    match table {
        Table::Runs(runs) => {
            let items = runs.into_items(alloc)?;
            Lists::of(alloc, items)
        }
        Table::Lists(lists) => Ok(lists),
    }
}
