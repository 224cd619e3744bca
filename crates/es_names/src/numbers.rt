// Numbers of candidates, by their bases.

ghost use Rattle.std.specs.Prelude.{◌≡◌, [], ℕ, List, if◌then◌else◌, bytes_eq, Some, OnOk, OnErr};
ghost use Rattle.std.specs.Str.{chars};
ghost use Rattle.es_names.specs.Taken.{number_of};

use indexmap::IndexMap;
use std::alloc::{AllocError, Global};
use std::marker::Model;

/// For each base that was asked for, the number of a candidate before which none is free.
#[derive(Drop)]
pub struct Numbers {
    numbers: IndexMap<String, u64>,
    alloc: Global,
}

impl Model for Numbers {
    ghost use Rattle.es_names.specs.Taken.{Numbers, numbers_of};

    ghost Value = { Numbers };

    ghost view = { λ n. numbers_of n.numbers.entries };
}

impl Numbers {
    /// No numbers. Takes no memory.
    pub(crate) fn new(alloc: Global) -> Numbers
        ensures { result ≡ [] }
    {
        Numbers {
            numbers: IndexMap::new(alloc),
            alloc,
        }
    }

    /// The number of the base.
    pub(crate) fn get(&self, base: &str) -> Option<u64>
        ensures { result ≡ number_of (chars base.now) self.now }
    {
        self.numbers.get(base).copied()
    }

    /// Gives the base a number. Fails on allocation failure alone, and then all numbers stay.
    pub(crate) fn set(&mut self, base: &str, number: u64) -> Result<(), AllocError>
        ensures ok { OnOk result ((other : List ℕ) → number_of other self.new ≡ (if bytes_eq other (chars base.now) then Some number else number_of other self.old)) }
        ensures err { OnErr result (self.new ≡ self.old) }
    {
        let key = String::from_str(self.alloc, base)?;
        self.numbers.insert(key, number)?;
        Ok(())
    }
}
