// The keys of fields that temporaries keep.

ghost use Rattle.std.specs.Prelude.{◌≡◌, IfOk};
ghost use Rattle.es_base.specs.Preorder.{preorder};
ghost use Rattle.es_lowered.specs.Definitions as definitions;
ghost use Rattle.es_lowered.specs.Lowered as spec;
ghost use Rattle.es_steps.specs.PrivateNames as privates;

use crate::temporaries::all_temporaries;
use es_generated::ledger::Ledger;
use es_owed::listed::Listed;
use es_owed_definitions::lowered::LoweredProgram;
use es_owed_definitions::terms::Terms;
use es_owed_initialized::keys;
use es_seen_names::private_member::private_members;
use es_shapes::asked::lowers_fields;
use es_steps::options::Options;
use std::alloc::{AllocError, Global};

/// Whether, in what a source was lowered to with class properties on, no two fields have one temporary as their key, and each of
/// these temporaries is given before the class of its field. Fails on allocation failure alone.
#[tactic(auto, using(crate::proofs::Unlowered::keys_stand_unlowered))]
pub fn keys_stand(
    alloc: Global,
    first: u32,
    options: &Options,
    ledger: &Ledger,
    source: &Listed,
    lowered: &Listed,
) -> Result<bool, AllocError>
    ensures { IfOk result (λ holds. holds ≡ spec.keys_stand first options.now ledger.now (privates.private_members source.now.program.now) lowered.now.program.now (definitions.all_temporaries first options.now ledger.now (privates.private_members source.now.program.now) lowered.now.program.now (preorder lowered.now.program.now))) }
{
    if !lowers_fields(options) {
        return Ok(true);
    }
    let terms = Terms {
        first,
        options,
        ledger,
    };
    let members = private_members(alloc, source.program)?;
    let program = LoweredProgram::of(alloc, terms, members.as_slice(), lowered)?;
    let temporaries = all_temporaries(alloc, &program)?;
    keys::keys_stand(
        alloc,
        first,
        options,
        ledger,
        lowered,
        temporaries.as_slice(),
    )
}
