// The private names that a lowering of static blocks makes.

ghost use Rattle.std.specs.Prelude.{◌≡◌, ◌∷◌, ◌++◌, [], IfOk, OnOk, OnErr, false};
ghost use Rattle.std.specs.Str.{chars};
ghost use Rattle.es_base.specs.Conforms.{is_among};
ghost use Rattle.es_names.specs.Candidates.{first_free};
ghost use Rattle.es_names.specs.Taken.{with_string};

use crate::candidate::first_free;
use crate::spellings::Spellings;
use es_base::name::Name;
use std::alloc::{AllocError, Global};
use std::marker::Model;

/// The private names, without `#`, that a class uses or declares, and those that were made for it beside
/// (oxc_transformer, `class_static_block`).
#[derive(Drop)]
pub struct Keys {
    taken: Spellings,
    // No candidate before this is free.
    next: u64,
    alloc: Global,
}

impl Model for Keys {
    ghost use Rattle.std.specs.Prelude.{◌≤◌, []};
    ghost use Rattle.es_names.specs.Taken.{Strings, AreTakenBefore};

    ghost Value = { Strings };

    ghost view = { λ k. k.taken };

    ghost invariant = { λ k. (1 ≤ k.next) × AreTakenBefore k.taken [] k.next };
}

impl Keys {
    /// No keys. Takes no memory.
    pub fn new(alloc: Global) -> Keys
        ensures { result ≡ [] }
    {
        Keys {
            taken: Spellings::new(alloc),
            next: 1,
            alloc,
        }
    }

    /// Adds a key that the class has. Fails on allocation failure alone, and then the keys stay.
    pub fn reserve(&mut self, key: &str) -> Result<(), AllocError>
        ensures ok { OnOk result (self.new ≡ with_string self.old (chars key.now)) }
        ensures err { OnErr result (self.new ≡ self.old) }
    {
        let key = String::from_str(self.alloc, key)?;
        self.taken.insert(key)?;
        Ok(())
    }

    /// Makes a key, the first of `_`, `_2`, `_3`, .. that is not there. Fails on allocation failure alone,
    /// and then the keys stay.
    pub fn get_unique(&mut self) -> Result<Name, AllocError>
        ensures first { IfOk result (λ key. key ≡ first_free self.old []) }
        ensures free { IfOk result (λ key. is_among key self.old ≡ false) }
        ensures ok { IfOk result (λ key. self.new ≡ self.old ++ key ∷ []) }
        ensures err { OnErr result (self.new ≡ self.old) }
    {
        let found = first_free(self.alloc, &self.taken, "", self.next)?;
        let key = Name::new(self.alloc, found.name.as_str())?;
        self.taken.insert(found.name)?;
        self.next = found.number;
        Ok(key)
    }
}
