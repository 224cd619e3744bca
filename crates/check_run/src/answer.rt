// The answer to the bytes of a pair of programs: whether they agree, or why that is not said.

ghost use Rattle.std.specs.Prelude.{◌≡◌, ◌≤◌, ◌<◌, ◌+◌, ◌^◌, IfOk, length, true};
ghost use Rattle.borrowed_json.specs.View.{view};
ghost use Rattle.check_run.specs.Outcome.{IsOutputOfBytes, IsOutputOfPair, IsOutputOfValue};
ghost use Rattle.check_run.specs.ReadPair.{pair_of};
ghost use Rattle.es_base.specs.Preorder.{nodes};
ghost use Rattle.es_reading.specs.Told.{ids, values};
ghost use Rattle.es_validity.specs.Validity.{is_valid};
ghost use Rattle.lower_edge.specs.Ending.{most_bytes};

use crate::lines::differs_line;
use crate::pair::{PairError, ReadPair, read_pair};
use crate::status::CheckStatus;
use borrowed_json::parse::{ParseError, parse};
use borrowed_json::value::Value;
use es_binding_faults::check::check_valid;
use es_steps::options::Options;
use json::Scratch;
use lower_edge::lines::refusal_line;
use lower_edge::output::{Output, output_with};
use std::alloc::{AllocError, Global};
use step_check::check::step_check;
use step_check::verdict::{CheckError, Verdict};

/// The answer to these bytes, of which there are at most 67,108,864. Fails on allocation failure alone.
pub fn answer(
    alloc: Global,
    options: &Options,
    bytes: &[u8],
) -> Result<Output<CheckStatus>, AllocError>
    requires { length bytes.now ≤ most_bytes }
    ensures { IfOk result (λ s. IsOutputOfBytes options.now bytes.now s.status s.text.items) }
{
    let mut scratch = Scratch::new(alloc);
    match parse(alloc, bytes, &mut scratch) {
        Ok(value) => of_value(alloc, options, value),
        Err(ParseError::Invalid) => output_with(alloc, CheckStatus::NotAPair, "not a pair\n"),
        Err(ParseError::NoMemory) => Err(AllocError),
    }
}

fn of_value(
    alloc: Global,
    options: &Options,
    value: Value<'_>,
) -> Result<Output<CheckStatus>, AllocError>
    requires { values (view value) + 1 < 2 ^ 32 }
    ensures { IfOk result (λ s. IsOutputOfValue options.now (view value.entry) s.status s.text.items) }
{
    match read_pair(alloc, value) {
        Ok(pair) => of_pair(alloc, options, &pair),
        Err(PairError::NotAPair) => output_with(alloc, CheckStatus::NotAPair, "not a pair\n"),
        Err(PairError::NoMemory) => Err(AllocError),
    }
}

fn of_pair(
    alloc: Global,
    options: &Options,
    pair: &ReadPair,
) -> Result<Output<CheckStatus>, AllocError>
    requires { nodes pair.now.source < 2 ^ 32 }
    ensures { IfOk result (λ s. IsOutputOfPair options.now (pair_of pair.now) s.status s.text.items) }
{
    match check_valid(alloc, &pair.source, pair.foreign.as_slice(), options) {
        Ok(()) => of_valid(alloc, options, pair),
        Err(error) => Ok(Output {
            status: CheckStatus::Refused,
            text: refusal_line(alloc, error)?.into_bytes(),
        }),
    }
}

/// The answer to a pair whose source is valid.
fn of_valid(
    alloc: Global,
    options: &Options,
    pair: &ReadPair,
) -> Result<Output<CheckStatus>, AllocError>
    requires few { nodes pair.now.source < 2 ^ 32 }
    requires valid { is_valid options.now (ids pair.now.foreign) pair.now.source ≡ true }
    ensures { IfOk result (λ s. IsOutputOfPair options.now (pair_of pair.now) s.status s.text.items) }
{
    let names = pair.names.entries.as_slice();
    match step_check(alloc, options, names, &pair.source, &pair.lowered) {
        Ok(Verdict::Yes) => output_with(alloc, CheckStatus::Agreed, "agreed\n"),
        Ok(Verdict::No { part, node }) => Ok(Output {
            status: CheckStatus::Differs,
            text: differs_line(alloc, part, node)?.into_bytes(),
        }),
        Err(CheckError::TooDeep) => output_with(alloc, CheckStatus::TooDeep, "too deep\n"),
        Err(CheckError::NoMemory) => Err(AllocError),
    }
}
