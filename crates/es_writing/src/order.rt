// The order of the generated names.

ghost use Rattle.std.specs.Prelude.{◌≡◌, ◌∷◌, IfOk, map};
ghost use Rattle.std.specs.Cmp.Lexicographic.{slice_cmp};
ghost use Rattle.std.specs.Ordering.{nat_cmp};
ghost use Rattle.std.specs.Str.{encode_utf8_all};
ghost use Rattle.es_writing.specs.Lowered.{IsArranged, entry_cmp, number_in, written_name, is_private};

use es_base::ledger::{GeneratedKind, LedgerEntry};
use std::alloc::{AllocError, Global};
use std::cmp::Ordering;

/// The entries in the order of the bytes of their written names, and then of their numbers; equal ones
/// in the order that they had. Fails on allocation failure alone.
pub fn arranged<'a>(
    alloc: Global,
    entries: &'a [LedgerEntry],
) -> Result<Vec<&'a LedgerEntry>, AllocError>
    ensures { IfOk result (λ v. IsArranged entry_cmp entries.now (map (λ e. e.now) v.items)) }
{
    let mut names = Vec::new(alloc);
    for entry in entries {
        names.push(entry)?;
    }
    names.sort_by(|first, second| compare(first, second))?;
    Ok(names)
}

/// By the bytes of the written name, and then by the number.
fn compare(first: &LedgerEntry, second: &LedgerEntry) -> Ordering
    ensures { result ≡ entry_cmp first.now second.now }
{
    compare_written(first, second).then(number_in(first.kind).cmp(&number_in(second.kind)))
}

/// By the bytes of the written name.
fn compare_written(first: &LedgerEntry, second: &LedgerEntry) -> Ordering
    ensures { result ≡ slice_cmp nat_cmp
        (encode_utf8_all (written_name first.now)) (encode_utf8_all (written_name second.now)) }
{
    let name = first.name.as_str();
    let other = second.name.as_str();
    match (is_private(first.kind), is_private(second.kind)) {
        (true, false) => compare_signed(name, other),
        (false, true) => compare_signed(other, name).reverse(),
        _ => name.cmp(other),
    }
}

/// How `#` and a name compare to a string, by their bytes.
fn compare_signed(name: &str, string: &str) -> Ordering
    ensures { result ≡ slice_cmp nat_cmp (35 ∷ name.now) string.now }
{
    match string.as_bytes() {
        [] => Ordering::Greater,
        [first, rest @ ..] => b'#'.cmp(first).then_with(|| name.as_bytes().cmp(rest)),
    }
}

fn is_private(kind: GeneratedKind) -> bool
    ensures { result ≡ is_private kind }
{
    matches!(kind, GeneratedKind::Private(_))
}

/// The number of a class or of a private name, and 0 where a kind has none.
pub fn number_in(kind: GeneratedKind) -> u32
    ensures { result ≡ number_in kind }
{
    match kind {
        GeneratedKind::ClassTemp(id)
        | GeneratedKind::WeakMap(id)
        | GeneratedKind::StaticField(id)
        | GeneratedKind::Brand(id)
        | GeneratedKind::Method(id)
        | GeneratedKind::LooseKey(id)
        | GeneratedKind::SuperFn(id)
        | GeneratedKind::Private(id) => id.0,
        GeneratedKind::Temp | GeneratedKind::Param | GeneratedKind::Args | GeneratedKind::Closure =>
            0,
    }
}
