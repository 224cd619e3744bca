// A lowered program with its generated names.

ghost use Rattle.std.specs.Prelude.{◌≡◌, ℕ, IfOk};
ghost use Rattle.std.specs.Str.{chars};
ghost use Rattle.es_base.specs.declared.ledger.GeneratedKind.{GeneratedKind};
ghost use Rattle.es_binding_faults.specs.Seen.{seen};
ghost use Rattle.es_grouped.specs.Groups.{group, having};
ghost use Rattle.es_lowered.specs.Definitions.{class_identifiers};
ghost use Rattle.es_lowered.specs.Lowered as spec;
ghost use Rattle.es_owed_initialized.specs.Givers.{numbered_givers};
ghost use Rattle.es_owed_initialized.specs.Order.{place, places_from};

use crate::behind::classes_before;
use crate::givers::givers;
use crate::identifiers::class_identifiers;
use crate::order::{first_place, is_before, places};
use es_binding_faults::leasts::Leasts;
use es_generated::ledger::Ledger;
use es_generated::numbers::has_number;
use es_generated::spellings::{spelling_number, spellings_of};
use es_grouped::Grouped;
use es_node::node::Node;
use es_owed::listed::Listed;
use std::alloc::{AllocError, Global};

/// A lowered program with its generated names.
#[derive(Drop)]
pub struct Generated<'r, 'a> {
    /// The number of the first new node.
    pub first: u32,
    pub ledger: &'r Ledger<'r>,
    pub lowered: &'r Listed<'a>,
    /// Of each class the identifiers that declare it.
    pub identifiers: Grouped<u32>,
    /// The numbers of the generated names.
    pub spellings: Leasts<'r>,
    /// The nodes that may give names values, by the numbers of these names.
    pub givers: Grouped<&'a Node>,
    /// Of each assignment the classes that are declared in front of it.
    pub behind: Grouped<u32>,
    /// Of each number the places of its nodes in preorder.
    pub places: Grouped<usize>,

    ghost are_identified: { (n : ℕ) → group n identifiers ≡ class_identifiers first n (seen lowered.now.nodes.items) },
    ghost are_given: { (m : ℕ) → group m givers ≡ having m (numbered_givers spellings lowered.now.nodes.items) },
    ghost are_behind: { (m : ℕ) → group m behind ≡ having m (spec.all_behind (seen lowered.now.nodes.items)) },
    ghost are_placed: { (m : ℕ) → group m places ≡ having m (places_from 0 (seen lowered.now.nodes.items)) },
}

impl<'r, 'a> Generated<'r, 'a> {
    /// This program with these names, its new nodes being numbered from `first` on. Fails on allocation failure alone.
    pub fn of(
        alloc: Global,
        first: u32,
        ledger: &'r Ledger<'r>,
        lowered: &'r Listed<'a>,
    ) -> Result<Generated<'r, 'a>, AllocError>
        ensures { IfOk result (λ g. (g.first ≡ first) × (g.ledger.now ≡ ledger.now) × (g.lowered.now ≡ lowered.now)) }
    {
        let identifiers = class_identifiers(alloc, first, lowered.nodes.as_slice())?;
        let spellings = spellings_of(alloc, ledger.entries())?;
        let givers = givers(alloc, &spellings, lowered.nodes.as_slice())?;
        let behind = classes_before(alloc, lowered.nodes.as_slice())?;
        let places = places(alloc, lowered.nodes.as_slice())?;
        Ok(Generated {
            first,
            ledger,
            lowered,
            identifiers,
            spellings,
            givers,
            behind,
            places,
        })
    }

    /// Nodes among which are those that give this name a value.
    #[tactic(auto, using(crate::proofs::GivenNames::given_by_number))]
    pub fn giving(&self, name: &str) -> &[&'a Node]
        ensures { (g : GeneratedKind) → spec.initializations self.now.first self.now.ledger.now self.now.lowered.now.program.now (chars name.now) g (seen result.now) ≡ spec.initializations self.now.first self.now.ledger.now self.now.lowered.now.program.now (chars name.now) g (seen self.now.lowered.now.nodes.items) }
    {
        let number = spelling_number(name, &self.spellings);
        self.givers.get(number)
    }

    /// Whether an assignment is the first statement behind the declaration of a class.
    #[tactic(auto, using(crate::proofs::PairsBehind::pair_by_number))]
    pub fn stands_behind(&self, assignment: u32, class: u32) -> bool
        ensures { result ≡ spec.has_pair assignment class (spec.all_behind (seen self.now.lowered.now.nodes.items)) }
    {
        has_number(class, self.behind.get(assignment))
    }

    /// The place in preorder of the first node of this number.
    pub fn place(&self, number: u32) -> Option<usize>
        ensures { result ≡ place number (seen self.now.lowered.now.nodes.items) }
    {
        first_place(self.places.get(number))
    }

    /// Whether the first of these numbers comes before the other in preorder.
    #[tactic(auto, using(crate::proofs::PlaceOrder::before_by_place))]
    pub fn comes_before(&self, number: u32, other: u32) -> bool
        ensures { result ≡ spec.comes_before number other (seen self.now.lowered.now.nodes.items) }
    {
        is_before(self.place(number), self.place(other))
    }
}
