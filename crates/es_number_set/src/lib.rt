//! Numbers of nodes, which contracts see as a list.
#![tactic(auto)]

ghost use Rattle.std.specs.Prelude.{◌≡◌, IfOk};
ghost use Rattle.es_steps.specs.References.{has_number};

use es_base::ids::NodeId;
use es_binding_faults::numbers::Numbers;
use es_owed::numbers::set_of;
use std::alloc::{AllocError, Global};
use std::marker::Model;

/// Numbers of nodes, which contracts see as a list. To look one up takes the same time however many there are.
#[derive(Drop)]
pub struct NumberSet {
    list: Vec<u32>,
    set: Numbers,
}

impl Model for NumberSet {
    ghost use Rattle.std.specs.Prelude.{◌≡◌, ℕ, List};
    ghost use Rattle.es_steps.specs.References.{has_number};

    ghost Value = { List ℕ };

    ghost view = { λ k. k.list.items };

    ghost invariant = { λ k. (n : ℕ) → has_number n k.set ≡ has_number n k.list.items };
}

impl NumberSet {
    /// These. Fails on allocation failure alone.
    pub fn of(alloc: Global, list: Vec<u32>) -> Result<NumberSet, AllocError>
        ensures { IfOk result (λ k. k ≡ list.items) }
    {
        let set = set_of(alloc, list.as_slice())?;
        Ok(NumberSet { list, set })
    }

    /// Whether the number is one of these.
    pub fn has(&self, number: u32) -> bool
        ensures { result ≡ has_number number self.now }
    {
        self.set.has(NodeId(number))
    }
}
