// The numbers of names.

ghost use Rattle.std.specs.Prelude.{◌≡◌, [], List, ℕ, OnOk, Some, bytes_eq, cond};
ghost use Rattle.std.specs.Str.{chars};
ghost use Rattle.es_binding_faults.specs.Leasts.{number_of};

use indexmap::IndexMap;
use std::alloc::{AllocError, Global};
use std::marker::Model;

/// Names, each with the number that it was given last.
#[derive(Drop)]
pub struct Numbers<'a> {
    numbers: IndexMap<&'a str, u32>,
}

impl<'a> Model for Numbers<'a> {
    ghost use Rattle.std.specs.Prelude.{map};
    ghost use Rattle.std.specs.List.{All};
    ghost use Rattle.std.specs.Str.{chars, IsUtf8};
    ghost use Rattle.es_binding_faults.specs.Leasts as leasts;

    ghost Value = { leasts.Numbers };

    ghost view = { λ n. map (λ e. (chars e.0.now, e.1)) n.numbers.entries };

    ghost invariant = { λ n. All (λ e. IsUtf8 e.0.now) n.numbers.entries };
}

impl<'a> Numbers<'a> {
    /// No names. Takes no memory.
    pub fn new(alloc: Global) -> Numbers<'a>
        ensures { result ≡ [] }
    {
        Numbers {
            numbers: IndexMap::new(alloc),
        }
    }

    /// The number of the name.
    pub fn get(&self, name: &str) -> Option<u32>
        ensures { result ≡ number_of (chars name.now) self.now }
    {
        self.numbers.get(name).copied()
    }

    /// Gives the name a number. Fails on allocation failure alone.
    pub fn set(&mut self, name: &'a str, number: u32) -> Result<(), AllocError>
        ensures { OnOk result ((s : List ℕ) → number_of s self.new ≡ cond (bytes_eq s (chars name.now)) (Some number) (number_of s self.old)) }
    {
        self.numbers.insert(name, number)?;
        Ok(())
    }
}
