// A temporary of a lowered program holds one value wherever it is read.

ghost use Rattle.std.specs.Prelude.{◌≡◌, IfOk};
ghost use Rattle.es_seen_names.specs.PrivateMembers.{private_members_of};
ghost use Rattle.es_lowered.specs.Temporaries as spec;

use crate::apart::all_apart;
use crate::steady::all_steady;
use crate::touches::all_touches;
use es_generated::ledger::Ledger;
use es_owed::listed::Listed;
use es_places::places::{Terms, all_places};
use es_seen_names::private_member::PrivateMember;
use std::alloc::{AllocError, Global};

/// Whether each temporary holds one value wherever it is read, what a class needs is given as often as the class is evaluated,
/// and no private element that was generated is read in its class where a class around has one of its name; the members are
/// those of the source. Fails on allocation failure alone.
pub fn temporaries_steady(
    alloc: Global,
    first: u32,
    ledger: &Ledger,
    members: &[PrivateMember],
    lowered: &Listed,
) -> Result<bool, AllocError>
    ensures { IfOk result (λ holds. holds ≡ spec.temporaries_steady first ledger.now (private_members_of members.now) lowered.now.program.now) }
{
    let terms = Terms {
        first_new: first,
        ledger,
        private_functions: &[],
    };
    let places = all_places(alloc, &terms, lowered.program)?;
    let touches = all_touches(alloc, first, ledger, lowered.program)?;
    if !all_steady(
        alloc,
        places.as_slice(),
        members,
        ledger.entries(),
        touches.as_slice(),
    )? {
        return Ok(false);
    }
    all_apart(alloc, lowered, ledger.entries(), ledger.entries())
}
