// Sets of numbers of nodes.

ghost use Rattle.std.specs.Prelude.{◌≡◌, false, ℕ, OnOk, IfOk, map, nat_eq, ◌||◌};
ghost use Rattle.es_steps.specs.References.{has_number};

use es_base::ids::NodeId;
use number_map::NumberMap;
use number_map::extent::Extent;
use std::alloc::{AllocError, Global};
use std::marker::Model;

/// How many places a set has at most for each of its numbers. A place takes a byte.
const PLACES: usize = 64;

/// Numbers of nodes.
#[derive(Drop)]
pub struct Numbers {
    numbers: NumberMap<()>,
}

impl Model for Numbers {
    ghost use Rattle.std.specs.Prelude.{List, ℕ};
    ghost use Rattle.std.specs.Map.{keys_of};

    ghost Value = { List ℕ };

    ghost view = { λ n. keys_of n.numbers };
}

impl Numbers {
    /// No numbers, with places for numbers of this extent. Fails on allocation failure alone.
    fn with_places(alloc: Global, extent: Extent) -> Result<Numbers, AllocError>
        ensures { IfOk result (λ r. (n : ℕ) → has_number n r ≡ false) }
    {
        let numbers = NumberMap::with_places(alloc, extent, PLACES)?;
        Ok(Numbers { numbers })
    }

    /// Whether the number is there.
    pub fn has(&self, node: NodeId) -> bool
        ensures { result ≡ has_number node.0 self.now }
    {
        self.numbers.contains(node.0)
    }

    /// Adds a number. Fails on allocation failure alone.
    fn insert(&mut self, node: NodeId) -> Result<(), AllocError>
        ensures { OnOk result ((n : ℕ) → has_number n self.new ≡ (nat_eq n node.0 || has_number n self.old)) }
    {
        self.numbers.insert(node.0, ())
    }

    /// The set of these. Fails on allocation failure alone.
    pub fn of(alloc: Global, nodes: &[NodeId]) -> Result<Numbers, AllocError>
        ensures { IfOk result (λ r. (n : ℕ) → has_number n r ≡ has_number n (map (λ x. x.0) nodes.now)) }
    {
        let mut numbers = Numbers::with_places(alloc, extent_of(nodes))?;
        for node in nodes {
            numbers.insert(*node)?;
        }
        Ok(numbers)
    }
}

/// How far apart these numbers lie.
fn extent_of(nodes: &[NodeId]) -> Extent {
    let mut extent = Extent::new();
    for node in nodes {
        extent.add(node.0);
    }
    extent
}
