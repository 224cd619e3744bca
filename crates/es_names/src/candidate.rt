// The candidates of a generated name.

ghost use Rattle.std.specs.Prelude.{◌≡◌, ◌≤◌, IfOk};
ghost use Rattle.std.specs.Str.{chars};
ghost use Rattle.std.specs.String.{string_bytes};
ghost use Rattle.es_names.specs.Candidates.{candidate, first_free_number};
ghost use Rattle.es_names.specs.Taken.{AreTakenBefore, IsFirstFree};

use crate::spellings::Spellings;
use itoa::Buffer;
use std::alloc::{AllocError, Global};

/// A candidate that was found, with its number.
#[derive(Drop)]
pub(crate) struct Found {
    pub(crate) number: u64,
    pub(crate) name: String,
}

/// The first candidate that is not taken, which is not before the number `from`. Fails on allocation
/// failure alone.
pub(crate) fn first_free(
    alloc: Global,
    taken: &Spellings,
    base: &str,
    from: u64,
) -> Result<Found, AllocError>
    requires positive { 1 ≤ from }
    requires before { AreTakenBefore taken.now (chars base.now) from }
    ensures first { IfOk result (λ f. IsFirstFree taken.now (chars base.now) f.number) }
    ensures number { IfOk result (λ f. f.number ≡ first_free_number taken.now (chars base.now)) }
    ensures name { IfOk result (λ f. chars (string_bytes f.name) ≡ candidate (chars base.now) f.number) }
{
    // There is a free one among the first `most + 1`.
    let most = taken.len();
    let mut number = from;
    loop {
        let name = candidate(alloc, base, number)?;
        if !taken.contains(name.as_str()) {
            return Ok(Found { number, name });
        }
        number += 1;
    }
}

/// The candidate of this number: `_b`, `_b2`, `_b3`, .. for 1, 2, 3, .. Fails on allocation failure alone.
fn candidate(alloc: Global, base: &str, number: u64) -> Result<String, AllocError>
    ensures { IfOk result (λ s. chars (string_bytes s) ≡ candidate (chars base.now) number) }
{
    let mut name = String::from_str(alloc, "_")?;
    name.push_str(base)?;
    if number > 1 {
        let mut buffer = Buffer::new();
        name.push_str(buffer.format(number))?;
    }
    Ok(name)
}
