// What of an entry differs.

ghost use Rattle.std.specs.Prelude.{◌≡◌, ℕ, List, Option};
ghost use Rattle.es_entries.specs.Entered.{IsEntry};
ghost use Rattle.es_meanings.specs.Means.{AreEntries, IsMeaning};
ghost use Rattle.es_meanings.specs.Parts.{IsPart, MayBe, entry_at};
ghost use Rattle.es_steps.specs.Entries as spec;
ghost use Rattle.es_steps.specs.Meaning as meaning;

use crate::meaning::Meaning;
use es_by_number::numbered::Numbered;
use es_entries::entry::{Entry, same_head};

/// What of an entry differs.
#[derive(Debug, Clone, Copy, PartialEq, Eq)]
pub enum EntryPart {
    /// What a function does.
    Function,
    /// What a class is, or that it is there.
    Class,
    /// What a class does when it is constructed, and no more.
    Construction,
}

/// The first entry of this number.
fn entry_at<'e>(number: u32, entries: &'e [Numbered<Entry>]) -> Option<&'e Entry>
    ensures { (es : List (ℕ × spec.Entry)) → AreEntries entries.now es → MayBe result (entry_at number es) }
{
    for entry in entries {
        if number == entry.number {
            return Some(&entry.value);
        }
    }
    None
}

/// What of two entries that differ does.
fn part_of(left: Option<&Entry>, right: Option<&Entry>) -> EntryPart
    ensures { (e g : Option spec.Entry) → MayBe left.entry e → MayBe right.entry g → IsPart result e g }
{
    match (left, right) {
        (Some(Entry::Class(class)), Some(Entry::Class(other))) => {
            if same_head(class, other) {
                EntryPart::Construction
            } else {
                EntryPart::Class
            }
        }
        (Some(Entry::Function(_)), _) | (None, Some(Entry::Function(_))) => EntryPart::Function,
        _ => EntryPart::Class,
    }
}

/// What differs of the entries that two meanings have of the function or the class of this number, of which they have another.
pub fn part_of_entry(left: &Meaning, right: &Meaning, number: u32) -> EntryPart
    ensures { (a b : meaning.Meaning) → IsMeaning left.now a → IsMeaning right.now b → IsPart result (entry_at number a.entries) (entry_at number b.entries) }
{
    let one = entry_at(number, left.entries.as_slice());
    let other = entry_at(number, right.entries.as_slice());
    part_of(one, other)
}
