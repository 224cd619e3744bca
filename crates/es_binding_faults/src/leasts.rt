// The least number of each name.

ghost use Rattle.std.specs.Prelude.{◌≡◌, [], List, ℕ, OnOk, bytes_eq, cond, Some};
ghost use Rattle.std.specs.Str.{chars};
ghost use Rattle.es_binding_faults.specs.Leasts.{number_of, lesser};

use indexmap::IndexMap;
use std::alloc::{AllocError, Global};
use std::marker::Model;

/// Names, each with the least of the numbers that it was added with.
#[derive(Drop)]
pub struct Leasts<'a> {
    numbers: IndexMap<&'a str, u32>,
}

impl<'a> Model for Leasts<'a> {
    ghost use Rattle.std.specs.Prelude.{map};
    ghost use Rattle.std.specs.List.{All};
    ghost use Rattle.std.specs.Str.{chars, IsUtf8};
    ghost use Rattle.es_binding_faults.specs.Leasts.{Numbers};

    ghost Value = { Numbers };

    ghost view = { λ n. map (λ e. (chars e.0.now, e.1)) n.numbers.entries };

    ghost invariant = { λ n. All (λ e. IsUtf8 e.0.now) n.numbers.entries };
}

/// The lesser of a number that may be there and another.
fn lesser(before: Option<u32>, number: u32) -> u32
    ensures { result ≡ lesser before number }
{
    match before {
        Some(before) => before.min(number),
        None => number,
    }
}

impl<'a> Leasts<'a> {
    /// No names. Takes no memory.
    pub fn new(alloc: Global) -> Leasts<'a>
        ensures { result ≡ [] }
    {
        Leasts {
            numbers: IndexMap::new(alloc),
        }
    }

    /// The least number of the name, if it was added.
    pub fn get(&self, name: &str) -> Option<u32>
        ensures { result ≡ number_of (chars name.now) self.now }
    {
        self.numbers.get(name).copied()
    }

    /// Adds the name with this number. Fails on allocation failure alone.
    pub fn add(&mut self, name: &'a str, number: u32) -> Result<(), AllocError>
        ensures { OnOk result ((s : List ℕ) → number_of s self.new ≡ cond (bytes_eq s (chars name.now)) (Some (lesser (number_of s self.old) number)) (number_of s self.old)) }
    {
        let least = lesser(self.get(name), number);
        self.numbers.insert(name, least)?;
        Ok(())
    }
}
