// A set of strings.

ghost use Rattle.std.specs.Prelude.{◌≡◌, ◌<◌, ◌^◌, [], length, OnOk, OnErr};
ghost use Rattle.std.specs.Str.{chars};
ghost use Rattle.std.specs.String.{string_bytes};
ghost use Rattle.es_base.specs.Conforms.{is_among};
ghost use Rattle.es_names.specs.Taken.{with_string};

use indexmap::IndexSet;
use std::alloc::{AllocError, Global};
use std::marker::Model;

/// Strings, each once, in the order in which they were added.
#[derive(Drop)]
pub struct Spellings {
    strings: IndexSet<String>,
}

impl Model for Spellings {
    ghost use Rattle.es_names.specs.Taken.{Strings, strings_of};

    ghost Value = { Strings };

    ghost view = { λ s. strings_of s.strings.keys };
}

impl Spellings {
    /// No strings. Takes no memory.
    pub fn new(alloc: Global) -> Spellings
        ensures { result ≡ [] }
    {
        Spellings {
            strings: IndexSet::new(alloc),
        }
    }

    /// Whether the string is there.
    pub fn contains(&self, string: &str) -> bool
        ensures { result ≡ is_among (chars string.now) self.now }
    {
        self.strings.contains(string)
    }

    /// How many strings there are.
    pub fn len(&self) -> usize
        ensures len { result ≡ length self.now }
        ensures small { length self.now < 2 ^ 63 }
    {
        self.strings.len()
    }

    /// Adds a string, unless it is there. Fails on allocation failure alone, and then none is added.
    pub fn insert(&mut self, string: String) -> Result<(), AllocError>
        ensures ok { OnOk result (self.new ≡ with_string self.old (chars (string_bytes string))) }
        ensures err { OnErr result (self.new ≡ self.old) }
    {
        self.strings.insert(string)?;
        Ok(())
    }
}
