// Sets of nodes with what they stay in.

ghost use Rattle.std.specs.Prelude.{◌≡◌, ◌||◌, ◌&&◌, ℕ, [], nat_eq, IfOk, OnOk};
ghost use Rattle.es_steps.specs.KeptNodes.{pair_stands};
ghost use Rattle.es_owed_carriers.specs.Pairs.{pair_of, pairs_of};

use indexmap::IndexSet;
use std::alloc::{AllocError, Global};
use std::marker::Model;

/// A node, and the node or function that it stays in.
#[derive(Debug, Clone, Copy, PartialEq, Eq, Hash)]
pub struct Bound {
    pub node: u32,
    pub around: u32,
}

/// A set of these.
#[derive(Drop)]
pub struct Pairs {
    pairs: IndexSet<Bound>,
}

impl Model for Pairs {
    ghost use Rattle.std.specs.Prelude.{List, ℕ, map};
    ghost use Rattle.es_owed_carriers.specs.Pairs.{pairs_of};

    ghost Value = { List (ℕ × ℕ) };

    ghost view = { λ n. pairs_of n.pairs.keys };
}

impl Pairs {
    /// No pairs. Takes no memory.
    fn new(alloc: Global) -> Pairs
        ensures { result ≡ [] }
    {
        Pairs {
            pairs: IndexSet::new(alloc),
        }
    }

    /// Whether the pair is there.
    pub fn has(&self, bound: Bound) -> bool
        ensures { result ≡ pair_stands (pair_of bound) self.now }
    {
        self.pairs.contains(&bound)
    }

    /// Adds a pair. Fails on allocation failure alone.
    fn insert(&mut self, bound: Bound) -> Result<(), AllocError>
        ensures { OnOk result ((p : ℕ × ℕ) → pair_stands p self.new ≡ ((nat_eq p.0 bound.node && nat_eq p.1 bound.around) || pair_stands p self.old)) }
    {
        self.pairs.insert(bound)?;
        Ok(())
    }

    /// The set of these. Fails on allocation failure alone.
    pub fn of(alloc: Global, bounds: &[Bound]) -> Result<Pairs, AllocError>
        ensures { IfOk result (λ r. (p : ℕ × ℕ) → pair_stands p r ≡ pair_stands p (pairs_of bounds.now)) }
    {
        let mut pairs = Pairs::new(alloc);
        for bound in bounds {
            pairs.insert(*bound)?;
        }
        Ok(pairs)
    }
}
