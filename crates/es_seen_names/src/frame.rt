// The declarations of one scope, looked up by their names.

ghost use Rattle.std.specs.Prelude.{◌≡◌, List, ℕ, IfOk, option_map};
ghost use Rattle.std.specs.Str.{chars};
ghost use Rattle.es_steps.specs.References.{declared};
ghost use Rattle.es_seen_names.specs.Declarations.{declaration_of, declarations};
ghost use Rattle.es_seen_names.specs.Firsts.{first_declaring, first_of};

use crate::declaration::Declaration;
use crate::firsts::Firsts;
use std::alloc::{AllocError, Global};

/// Declarations in their order. To look one up by its name takes the same time however many there are.
#[derive(Drop)]
pub struct Frame<'a> {
    pub list: Vec<Declaration<'a>>,
    firsts: Firsts<'a>,

    ghost firsts_are: { (s : List ℕ) → first_of s firsts ≡ first_declaring s list.items },
}

impl<'a> Frame<'a> {
    /// These declarations. Fails on allocation failure alone.
    pub fn of(alloc: Global, list: Vec<Declaration<'a>>) -> Result<Frame<'a>, AllocError>
        ensures { IfOk result (λ f. declarations f.list.items ≡ declarations list.entry.items) }
    {
        let firsts = firsts_of(alloc, list.as_slice())?;
        Ok(Frame { list, firsts })
    }

    /// The first of them that declares the name.
    #[tactic(auto, using(crate::proofs::FirstNames::declared_first))]
    pub fn get(&self, name: &str) -> Option<Declaration<'a>>
        ensures { option_map declaration_of result ≡ declared (chars name.now) (declarations self.now.list.items) }
    {
        self.firsts.get(name)
    }
}

/// The first declaration of each name. Fails on allocation failure alone.
fn firsts_of<'a>(alloc: Global, list: &[Declaration<'a>]) -> Result<Firsts<'a>, AllocError>
    ensures { IfOk result (λ r. (s : List ℕ) → first_of s r ≡ first_declaring s list.now) }
{
    let mut firsts = Firsts::new(alloc);
    for declaration in list {
        firsts.add(*declaration)?;
    }
    Ok(firsts)
}
