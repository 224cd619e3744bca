// What marks are looked for under.

ghost use Rattle.std.specs.Prelude.{◌≡◌, ℕ};
ghost use Rattle.es_grouped.specs.Groups.{group};
ghost use Rattle.es_lowered.specs.Timely as spec;
ghost use Rattle.es_owed_timely.specs.Needed.{names_of};
ghost use Rattle.es_seen_names.specs.PrivateMembers.{private_members_of};

use crate::search::Asked;
use es_base::ledger::LedgerEntry;
use es_generated::ledger::Ledger;
use es_grouped::Grouped;
use es_seen_names::private_member::PrivateMember;

/// What marks are looked for under.
#[derive(Drop)]
pub struct Search<'l, 'a> {
    /// The number of the first new node.
    pub first: u32,
    pub ledger: &'l Ledger<'l>,
    /// The private members of the source.
    pub members: &'a [PrivateMember<'a>],
    pub asked: Asked<'a>,
    /// The declarations by `let` at the heads of lists.
    pub leading: &'a [u32],
    /// The names that have to be given in front of classes, by the numbers of these.
    pub needed: Grouped<&'a LedgerEntry>,

    ghost needed_are: { (n : ℕ) → names_of (group n needed) ≡ spec.needed_names n (private_members_of members.now) ledger.now },
}

impl<'l, 'a> Search<'l, 'a> {
    /// The names that have to be given in front of this class.
    pub fn needed_by(&self, class: u32) -> &[&'a LedgerEntry]
        ensures { names_of result.now ≡ spec.needed_names class (private_members_of self.now.members.now) self.now.ledger.now }
    {
        self.needed.get(class)
    }
}
