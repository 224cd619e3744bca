// Names that nothing of a program has yet.

ghost use Rattle.std.specs.Prelude.{◌≡◌, ◌∷◌, ◌++◌, [], IfOk, OnErr, false};
ghost use Rattle.std.specs.Str.{chars};
ghost use Rattle.es_base.specs.Conforms.{is_among};
ghost use Rattle.es_names.specs.Candidates.{base_of, first_free};

use crate::base::base_of;
use crate::candidate::first_free;
use crate::numbers::Numbers;
use crate::spellings::Spellings;
use es_base::name::Name;
use std::alloc::{AllocError, Global};
use std::marker::Model;

/// The spellings of a program, and the names that were given beside: what no generated name may be.
#[derive(Drop)]
pub struct Names {
    taken: Spellings,
    // What spares trying again, for each base, the candidates that were tried before.
    next: Numbers,
    alloc: Global,
}

impl Model for Names {
    ghost use Rattle.es_names.specs.Taken.{Strings, AreNext};

    ghost Value = { Strings };

    ghost view = { λ n. n.taken };

    ghost invariant = { λ n. AreNext n.taken n.next };
}

impl Names {
    /// The names that are none of these spellings. Takes no memory.
    pub fn new(alloc: Global, taken: Spellings) -> Names
        ensures { result ≡ taken }
    {
        Names {
            taken,
            next: Numbers::new(alloc),
            alloc,
        }
    }
    /// A name that was not taken yet, and now is: the first candidate of the base that is free. Fails on
    /// allocation failure alone, and then the names stay as they were.
    ///
    /// The candidates that were tried for the same base before are not tried again.
    pub fn generate(&mut self, base: &str) -> Result<Name, AllocError>
        ensures first { IfOk result (λ name. name ≡ first_free self.old (base_of (chars base.now))) }
        ensures free { IfOk result (λ name. is_among name self.old ≡ false) }
        ensures ok { IfOk result (λ name. self.new ≡ self.old ++ name ∷ []) }
        ensures err { OnErr result (self.new ≡ self.old) }
    {
        let base = base_of(base);
        let from = self.next.get(base).unwrap_or(1);
        let found = first_free(self.alloc, &self.taken, base, from)?;
        let name = Name::new(self.alloc, found.name.as_str())?;
        self.next.set(base, found.number)?;
        self.taken.insert(found.name)?;
        Ok(name)
    }
}
