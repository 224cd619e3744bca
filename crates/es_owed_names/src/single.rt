// Each generated name is the only one of its spelling, and the only one of what it stands for.

ghost use Rattle.std.specs.Prelude.{◌≡◌, false, ℕ, IfOk};
ghost use Rattle.es_by_number.specs.Numbered.{pairs};
ghost use Rattle.es_grouped.specs.Groups.{group, having};
ghost use Rattle.es_lowered.specs.Lowered.{same_space, same_subject};
ghost use Rattle.es_generated.specs.Spellings.{entries_of};
ghost use Rattle.es_owed_names.specs.Single.{another, are_single, is_single, same_name, stands_for, subject_number, subjects};

use es_base::ledger::{GeneratedKind, LedgerEntry};
use es_base::strings::is_word;
use es_binding_faults::leasts::Leasts;
use es_by_number::numbered::Numbered;
use es_grouped::Grouped;
use es_owed::homes::is_underscored;
use es_spelled::generated::GeneratedNames;
use std::alloc::{AllocError, Global};

/// Whether each name of a ledger begins with `_`, and no other has its spelling or stands for the same. Fails on allocation
/// failure alone.
pub fn are_single(
    alloc: Global,
    ledger: &[LedgerEntry],
    spellings: &Leasts,
) -> Result<bool, AllocError>
    ensures { IfOk result (λ holds. holds ≡ are_single ledger.now ledger.now ledger.now) }
{
    let names = GeneratedNames::of(alloc, spellings, ledger)?;
    let subjects = Subjects::of(alloc, ledger)?;
    Ok(are_single_among(ledger, &names, &subjects))
}

fn are_single_among(entries: &[LedgerEntry], names: &GeneratedNames, subjects: &Subjects) -> bool
    ensures { result ≡ are_single entries.now names.now.ledger.now subjects.now.ledger.now }
{
    for entry in entries {
        if !is_single(entry, names, subjects) {
            return false;
        }
    }
    true
}

/// Whether a name of a ledger begins with `_`, and no other has its spelling or stands for the same.
fn is_single(entry: &LedgerEntry, names: &GeneratedNames, subjects: &Subjects) -> bool
    ensures { result ≡ is_single entry.now names.now.ledger.now subjects.now.ledger.now }
{
    is_underscored(entry.name.as_str())
        && !(is_named_again(entry, names) || has_another_name(entry.kind, subjects))
}

// ---- of one spelling

/// Whether a second name of the ledger clashes with this one.
#[tactic(auto, using(crate::proofs::SingleNames::named_by_number))]
fn is_named_again(entry: &LedgerEntry, names: &GeneratedNames) -> bool
    ensures { result ≡ another (same_name entry.now) false names.now.ledger.now }
{
    is_named_twice(entry, names.like(entry))
}

/// Whether two of these names clash with this one.
fn is_named_twice(entry: &LedgerEntry, others: &[&LedgerEntry]) -> bool
    ensures { result ≡ another (same_name entry.now) false (entries_of others.now) }
{
    let mut found = false;
    for other in others {
        if is_same_name(entry, other) {
            if found {
                return true;
            }
            found = true;
        }
    }
    false
}

fn is_same_name(entry: &LedgerEntry, other: &LedgerEntry) -> bool
    ensures { result ≡ same_name entry.now other.now }
{
    same_space(entry.kind, other.kind) && is_word(other.name.as_str(), entry.name.as_str())
}

/// Whether names of these kinds may clash: private names of one class, or no private names.
fn same_space(kind: GeneratedKind, other: GeneratedKind) -> bool
    ensures { result ≡ same_space kind other }
{
    match kind {
        GeneratedKind::Private(class) => match other {
            GeneratedKind::Private(another) => class.0 == another.0,
            _ => false,
        },
        _ => !matches!(other, GeneratedKind::Private(_)),
    }
}

// ---- of what they stand for

/// What the names of a ledger stand for, by the numbers of that.
#[derive(Drop)]
pub struct Subjects<'r> {
    pub ledger: &'r [LedgerEntry],
    pub by_number: Grouped<GeneratedKind>,

    ghost are_its: { (m : ℕ) → group m by_number ≡ having m (subjects ledger.now) },
}

impl<'r> Subjects<'r> {
    /// Those of this ledger. Fails on allocation failure alone.
    fn of(alloc: Global, ledger: &'r [LedgerEntry]) -> Result<Subjects<'r>, AllocError>
        ensures { IfOk result (λ s. s.ledger.now ≡ ledger.now) }
    {
        let by_number = by_number(alloc, ledger)?;
        Ok(Subjects { ledger, by_number })
    }
}

fn by_number(alloc: Global, ledger: &[LedgerEntry]) -> Result<Grouped<GeneratedKind>, AllocError>
    ensures { IfOk result (λ g. (m : ℕ) → group m g ≡ having m (subjects ledger.now)) }
{
    let items = with_numbers(alloc, ledger)?;
    Grouped::of(alloc, items)
}

/// What the names stand for, each with the number of that. Fails on allocation failure alone.
fn with_numbers(
    alloc: Global,
    ledger: &[LedgerEntry],
) -> Result<Vec<Numbered<GeneratedKind>>, AllocError>
    ensures { IfOk result (λ r. pairs r.items ≡ subjects ledger.now) }
{
    let mut items = Vec::new(alloc);
    for entry in ledger {
        if let Some(number) = subject_number(entry.kind) {
            items.push(Numbered {
                number,
                value: entry.kind,
            })?;
        }
    }
    Ok(items)
}

/// The number of the member or class for which one name of this kind stands at most.
fn subject_number(kind: GeneratedKind) -> Option<u32>
    ensures { result ≡ subject_number kind }
{
    match kind {
        GeneratedKind::WeakMap(id)
        | GeneratedKind::StaticField(id)
        | GeneratedKind::Brand(id)
        | GeneratedKind::Method(id)
        | GeneratedKind::LooseKey(id) => Some(id.0),
        _ => None,
    }
}

/// Whether a second name of the ledger stands for the same as one of this kind.
#[tactic(auto, using(crate::proofs::SingleNames::subjects_at, crate::proofs::SingleNames::no_subject))]
fn has_another_name(kind: GeneratedKind, subjects: &Subjects) -> bool
    ensures { result ≡ another (stands_for kind) false subjects.now.ledger.now }
{
    match subject_number(kind) {
        Some(number) => stands_twice(kind, subjects.by_number.get(number)),
        None => false,
    }
}

/// Whether names of two of these kinds stand for the same as one of this kind.
fn stands_twice(kind: GeneratedKind, others: &[GeneratedKind]) -> bool
    ensures { result ≡ another (same_subject kind) false others.now }
{
    let mut found = false;
    for other in others {
        if same_subject(kind, *other) {
            if found {
                return true;
            }
            found = true;
        }
    }
    false
}

/// Whether both stand for one member in one way, or for the brand of one class.
fn same_subject(kind: GeneratedKind, other: GeneratedKind) -> bool
    ensures { result ≡ same_subject kind other }
{
    match kind {
        GeneratedKind::WeakMap(member) => match other {
            GeneratedKind::WeakMap(another) => member.0 == another.0,
            _ => false,
        },
        GeneratedKind::StaticField(member) => match other {
            GeneratedKind::StaticField(another) => member.0 == another.0,
            _ => false,
        },
        GeneratedKind::Brand(class) => match other {
            GeneratedKind::Brand(another) => class.0 == another.0,
            _ => false,
        },
        GeneratedKind::Method(member) => match other {
            GeneratedKind::Method(another) => member.0 == another.0,
            _ => false,
        },
        GeneratedKind::LooseKey(member) => match other {
            GeneratedKind::LooseKey(another) => member.0 == another.0,
            _ => false,
        },
        _ => false,
    }
}
