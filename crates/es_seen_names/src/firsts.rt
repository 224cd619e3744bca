// The first declaration of each name.

ghost use Rattle.std.specs.Prelude.{◌≡◌, [], List, ℕ, OnOk, bytes_eq, cond, Some};
ghost use Rattle.std.specs.Str.{chars};
ghost use Rattle.es_seen_names.specs.Firsts.{first_of, if_declares, or_later};

use crate::declaration::Declaration;
use indexmap::IndexMap;
use std::alloc::{AllocError, Global};
use std::marker::Model;

/// Names, each with the first declaration of it that was added.
#[derive(Drop)]
pub struct Firsts<'a> {
    declarations: IndexMap<&'a str, Declaration<'a>>,
}

impl<'a> Model for Firsts<'a> {
    ghost use Rattle.std.specs.Prelude.{map};
    ghost use Rattle.std.specs.List.{All};
    ghost use Rattle.std.specs.Str.{chars, IsUtf8};
    ghost use Rattle.es_seen_names.specs.Firsts.{Named};

    ghost Value = { Named };

    ghost view = { λ f. map (λ e. (chars e.0.now, e.1)) f.declarations.entries };

    ghost invariant = { λ f. All (λ e. IsUtf8 e.0.now) f.declarations.entries };
}

impl<'a> Firsts<'a> {
    /// No names. Takes no memory.
    pub fn new(alloc: Global) -> Firsts<'a>
        ensures { result ≡ [] }
    {
        Firsts {
            declarations: IndexMap::new(alloc),
        }
    }

    /// The first declaration of the name, if one was added.
    pub fn get(&self, name: &str) -> Option<Declaration<'a>>
        ensures { result ≡ first_of (chars name.now) self.now }
    {
        self.declarations.get(name).copied()
    }

    /// Puts this declaration in the place of the one of this name. Fails on allocation failure alone.
    fn insert(&mut self, name: &'a str, declaration: Declaration<'a>) -> Result<(), AllocError>
        ensures { OnOk result ((s : List ℕ) → first_of s self.new ≡ cond (bytes_eq s (chars name.now)) (Some declaration.entry) (first_of s self.old)) }
    {
        self.declarations.insert(name, declaration)?;
        Ok(())
    }

    /// Adds the declaration, unless there is one of its name. Fails on allocation failure alone.
    #[tactic(auto, using(crate::proofs::FirstNames::first_added, crate::proofs::FirstNames::first_stays))]
    pub fn add(&mut self, declaration: Declaration<'a>) -> Result<(), AllocError>
        ensures { OnOk result ((s : List ℕ) → first_of s self.new ≡ or_later (first_of s self.old) (if_declares s declaration.entry)) }
    {
        match self.get(declaration.name) {
            Some(_) => Ok(()),
            None => self.insert(declaration.name, declaration),
        }
    }
}
