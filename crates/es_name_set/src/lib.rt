//! A set of names.
#![tactic(auto)]

ghost use Rattle.std.specs.Prelude.{◌≡◌, [], ◌∷◌, OnOk, OnErr};
ghost use Rattle.std.specs.Str.{chars};
ghost use Rattle.es_base.specs.Conforms.{is_among};
ghost use Rattle.es_name_set.specs.Names.{HaveSame};

use std::alloc::{AllocError, Global};
use std::collections::BTreeSet;
use std::marker::Model;

/// Names, which contracts see as a list of strings in some order. To look one up takes the logarithm of
/// their number.
#[derive(Drop)]
pub struct Names<'a> {
    strings: BTreeSet<&'a str>,
}

impl<'a> Model for Names<'a> {
    ghost use Rattle.std.specs.Prelude.{ℕ, List, map};
    ghost use Rattle.std.specs.List.{All};
    ghost use Rattle.std.specs.Str.{chars, IsUtf8};

    ghost Value = { List (List ℕ) };

    ghost view = { λ n. map (λ k. chars k.now) n.strings.keys };

    ghost invariant = { λ n. All (λ k. IsUtf8 k.now) n.strings.keys };
}

impl<'a> Names<'a> {
    /// No names. Takes no memory.
    pub fn new(alloc: Global) -> Names<'a>
        ensures { result ≡ [] }
    {
        Names {
            strings: BTreeSet::new(alloc),
        }
    }

    /// Whether the string is one of the names.
    pub fn has(&self, string: &str) -> bool
        ensures { result ≡ is_among (chars string.now) self.now }
    {
        self.strings.contains(string)
    }

    /// Adds the string. Fails on allocation failure alone.
    pub fn insert(&mut self, string: &'a str) -> Result<(), AllocError>
        ensures ok { OnOk result (HaveSame self.new (chars string.now ∷ self.old)) }
        ensures err { OnErr result (self.new ≡ self.old) }
    {
        self.strings.insert(string)?;
        Ok(())
    }
}
