// What references mean, looked up by their numbers.

ghost use Rattle.std.specs.Prelude.{◌≡◌, ℕ, [], cond, map, nat_eq, option_map, IfOk, OnOk};
ghost use Rattle.es_outside.specs.Bindings.{binding_in, first_binding, flat, number_of};

use es_base::ids::NodeId;
use es_references::references::Reference;
use indexmap::IndexMap;
use std::alloc::{AllocError, Global};
use std::marker::Model;

/// References with their bindings.
#[derive(Drop)]
pub struct Bindings {
    bindings: IndexMap<u32, Option<u32>>,
}

impl Model for Bindings {
    ghost use Rattle.std.specs.Prelude.{ℕ, List, Option};

    ghost Value = { List (ℕ × Option ℕ) };

    ghost view = { λ b. b.bindings.entries };
}

impl Bindings {
    /// None. Takes no memory.
    fn new(alloc: Global) -> Bindings
        ensures { result ≡ [] }
    {
        Bindings {
            bindings: IndexMap::new(alloc),
        }
    }

    /// The binding of this reference, if it was added with one.
    pub fn get(&self, reference: NodeId) -> Option<NodeId>
        ensures { option_map (λ n. n.0) result ≡ binding_in reference.0 self.now }
    {
        flat(self.bindings.get(&reference.0).copied())
    }

    /// Adds a reference, in place of one of its number. Fails on allocation failure alone.
    fn add(&mut self, reference: &Reference) -> Result<(), AllocError>
        ensures { OnOk result ((m : ℕ) → binding_in m self.new ≡ cond (nat_eq m reference.now.node.0) (number_of reference.now.binding) (binding_in m self.old)) }
    {
        let binding = number_of(reference.binding);
        self.bindings.insert(reference.node.0, binding)?;
        Ok(())
    }

    /// Those of these references: of each number the first. Fails on allocation failure alone.
    pub fn of(alloc: Global, references: &[Reference]) -> Result<Bindings, AllocError>
        ensures { IfOk result (λ r. (m : ℕ) → binding_in m r ≡ first_binding m references.now) }
    {
        let mut bindings = Bindings::new(alloc);
        for i in (0..references.len()).rev() {
            bindings.add(&references[i])?;
        }
        Ok(bindings)
    }
}

/// The binding of a reference that is there, if it has one.
fn flat(found: Option<Option<u32>>) -> Option<NodeId>
    ensures { option_map (λ n. n.0) result ≡ flat found }
{
    match found {
        Some(Some(binding)) => Some(NodeId(binding)),
        _ => None,
    }
}

fn number_of(binding: Option<NodeId>) -> Option<u32>
    ensures { result ≡ number_of binding }
{
    match binding {
        Some(binding) => Some(binding.0),
        None => None,
    }
}
