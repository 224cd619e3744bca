// The helpers that convert a key or name a function are called with what they are for.

ghost use Rattle.std.specs.Prelude.{◌≡◌, IfOk};
ghost use Rattle.es_lowered.specs.HelperCalls as spec;
ghost use Rattle.es_lowered.specs.KeptKeys as kept;

use crate::calls::{CallFacts, calls_fit};
use crate::conversions::conversions_in;
use crate::kept_keys::keys_that_stay;
use crate::terms::CallTerms;
use es_generated::ledger::Ledger;
use es_number_set::NumberSet;
use es_owed::listed::Listed;
use std::alloc::{AllocError, Global};

/// Whether each call of `babelHelpers.toPropertyKey` in what a source was lowered to converts a computed key of the source, each
/// of `babelHelpers.setFunctionName` names what has no name, and each key that a function or a class keeps its name by was
/// converted. Fails on allocation failure alone.
pub fn helper_calls_fit(
    alloc: Global,
    first: u32,
    ledger: &Ledger,
    source: &Listed,
    lowered: &Listed,
) -> Result<bool, AllocError>
    ensures { IfOk result (λ holds. holds ≡ spec.helper_calls_fit first ledger.now (kept.keys_that_stay first ledger.now source.now.program.now lowered.now.program.now) lowered.now.program.now) }
{
    let staying = keys_that_stay(alloc, first, ledger, source, lowered)?;
    let keys = NumberSet::of(alloc, staying)?;
    let terms = CallTerms {
        first,
        ledger,
        keys: &keys,
    };
    let conversions = conversions_in(alloc, &terms, lowered.nodes.as_slice())?;
    let facts = CallFacts { terms, conversions };
    calls_fit(alloc, &facts, &[], lowered.program)
}
