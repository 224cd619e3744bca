// The names of one scope, looked up by their spelling.

ghost use Rattle.std.specs.Prelude.{◌≡◌, List, ℕ, IfOk, OnOk};
ghost use Rattle.std.specs.Str.{chars};
ghost use Rattle.es_binding_faults.specs.Leasts.{number_of};
ghost use Rattle.es_binding_faults.specs.Named.{named};
ghost use Rattle.es_steps.specs.References.{declared, referent};
ghost use Rattle.es_references.specs.Frames.{binding_of, first_number, if_spelled, or_else};

use es_base::ids::NodeId;
use es_binding_faults::bound::Declared;
use es_binding_faults::leasts::Leasts;
use std::alloc::{AllocError, Global};

/// Names, each with the first identifier that declares it.
#[derive(Drop)]
pub struct Frame<'a> {
    pub names: Vec<Declared<'a>>,
    firsts: Leasts<'a>,

    ghost firsts_are: { (s : List ℕ) → number_of s firsts ≡ first_number s (named names.items) },
}

impl<'a> Frame<'a> {
    /// These names. Fails on allocation failure alone.
    pub fn of(alloc: Global, names: Vec<Declared<'a>>) -> Result<Frame<'a>, AllocError>
        ensures { IfOk result (λ f. named f.names.items ≡ named names.entry.items) }
    {
        let firsts = firsts_of(alloc, names.as_slice())?;
        Ok(Frame { names, firsts })
    }

    /// The first identifier of this name.
    #[tactic(auto, using(crate::proofs::FirstNames::bound_number))]
    pub fn get(&self, name: &str) -> Option<NodeId>
        ensures { result ≡ binding_of (referent (chars name.now) (declared (chars name.now) (named self.now.names.items))) }
    {
        match self.firsts.get(name) {
            Some(number) => Some(NodeId(number)),
            None => None,
        }
    }
}

/// The first number of each of these names. Fails on allocation failure alone.
fn firsts_of<'a>(alloc: Global, names: &[Declared<'a>]) -> Result<Leasts<'a>, AllocError>
    ensures { IfOk result (λ r. (s : List ℕ) → number_of s r ≡ first_number s (named names.now)) }
{
    let mut firsts = Leasts::new(alloc);
    for declared in names {
        add_if_new(*declared, &mut firsts)?;
    }
    Ok(firsts)
}

/// Adds the name, unless it is there.
fn add_if_new<'a>(declared: Declared<'a>, firsts: &mut Leasts<'a>) -> Result<(), AllocError>
    ensures { OnOk result ((s : List ℕ) → number_of s firsts.new ≡ or_else (number_of s firsts.old) (if_spelled s (chars declared.entry.name.now) declared.entry.node.0)) }
{
    if firsts.get(declared.name).is_none() {
        firsts.add(declared.name, declared.node.0)?;
    }
    Ok(())
}
