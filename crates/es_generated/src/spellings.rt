// Generated names by the numbers of their spellings.
//
// Two names of one spelling have one number, whatever it is: that is all that a look-up rests on. That other names have other numbers
// makes it fast.

ghost use Rattle.std.specs.Prelude.{◌≡◌, ℕ, IfOk};
ghost use Rattle.std.specs.Str.{chars};
ghost use Rattle.es_by_number.specs.Numbered as by_number;
ghost use Rattle.es_grouped.specs.Groups.{group, having};
ghost use Rattle.es_steps.specs.Context as spec;
ghost use Rattle.es_generated.specs.Spellings.{entries_of, entry_of, name_number, numbered_names, spelling_number};

use es_base::ledger::{GeneratedKind, LedgerEntry};
use es_base::strings::is_word;
use es_binding_faults::leasts::Leasts;
use es_by_number::numbered::Numbered;
use es_grouped::Grouped;
use std::alloc::{AllocError, Global};

/// Whether it is a private name, which is no spelling of an identifier.
pub fn is_private_entry(kind: GeneratedKind) -> bool
    ensures { result ≡ spec.is_private_entry kind }
{
    matches!(kind, GeneratedKind::Private(_))
}

/// The number of this spelling; that of no node, if it has none.
pub fn spelling_number(name: &str, spellings: &Leasts) -> u32
    ensures { result ≡ spelling_number spellings.now (chars name.now) }
{
    match spellings.get(name) {
        Some(number) => number,
        None => u32::MAX,
    }
}

/// The number of the class of a private name, and that of the spelling of another.
pub fn name_number(entry: &LedgerEntry, spellings: &Leasts) -> u32
    ensures { result ≡ name_number spellings.now entry.now }
{
    match entry.kind {
        GeneratedKind::Private(class) => class.0,
        _ => spelling_number(entry.name.as_str(), spellings),
    }
}

/// A number for the spelling of each of these names: that of the first that has it. Fails on allocation failure alone.
pub fn spellings_of(alloc: Global, entries: &[LedgerEntry]) -> Result<Leasts, AllocError> {
    let mut spellings = Leasts::new(alloc);
    let mut number = 0_u32;
    for entry in entries {
        spellings.add(entry.name.as_str(), number)?;
        number = number.saturating_add(1);
    }
    Ok(spellings)
}

/// Generated names by their numbers. Fails on allocation failure alone.
pub fn by_number<'a>(
    alloc: Global,
    spellings: &Leasts,
    entries: &'a [LedgerEntry],
) -> Result<Grouped<&'a LedgerEntry>, AllocError>
    ensures { IfOk result (λ g. (m : ℕ) → entries_of (group m g) ≡ having m (numbered_names spellings.now entries.now)) }
{
    let items = with_numbers(alloc, spellings, entries)?;
    Grouped::of(alloc, items)
}

/// Generated names, each with its number. Fails on allocation failure alone.
fn with_numbers<'a>(
    alloc: Global,
    spellings: &Leasts,
    entries: &'a [LedgerEntry],
) -> Result<Vec<Numbered<&'a LedgerEntry>>, AllocError>
    ensures { IfOk result (λ r. by_number.numbered entry_of r.items ≡ numbered_names spellings.now entries.now) }
{
    let mut items = Vec::new(alloc);
    for entry in entries {
        items.push(Numbered {
            number: name_number(entry, spellings),
            value: entry,
        })?;
    }
    Ok(items)
}

/// What a name was generated as, by the first of these that is not private and has its spelling.
pub fn generated_among(name: &str, entries: &[&LedgerEntry]) -> Option<GeneratedKind>
    ensures { result ≡ spec.generated_as (chars name.now) (entries_of entries.now) }
{
    for entry in entries {
        if !is_private_entry(entry.kind) && is_word(entry.name.as_str(), name) {
            return Some(entry.kind);
        }
    }
    None
}

/// Whether it is a private name that was generated for this class.
fn is_private_for(class: u32, kind: GeneratedKind) -> bool
    ensures { result ≡ spec.is_private_for class kind }
{
    match kind {
        GeneratedKind::Private(n) => class == n.0,
        _ => false,
    }
}

/// Whether a private name of this spelling is among these, generated for a class.
pub fn is_private_among(name: &str, class: u32, entries: &[&LedgerEntry]) -> bool
    ensures { result ≡ spec.is_generated_private (chars name.now) class (entries_of entries.now) }
{
    for entry in entries {
        if is_private_for(class, entry.kind) && is_word(entry.name.as_str(), name) {
            return true;
        }
    }
    false
}
