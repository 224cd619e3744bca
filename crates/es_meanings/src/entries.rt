// Where lists of entries differ first.

ghost use Rattle.std.specs.Prelude.{◌≡◌, ℕ, List, ◌&&◌, ◌↔◌, IsTrue, nat_eq};
ghost use Rattle.es_entries.specs.Entered.{IsEntry};
ghost use Rattle.es_meanings.specs.Differences.{Compared, least};
ghost use Rattle.es_meanings.specs.Means.{AreEntries};
ghost use Rattle.es_steps.specs.Entries as spec;

use es_by_number::numbered::Numbered;
use es_entries::entry::Entry;

/// The lesser of two numbers.
fn least(number: u32, other: u32) -> u32
    ensures { result ≡ least number other }
{
    if number <= other { number } else { other }
}

fn has_same(number: u32, other: u32, values: bool) -> bool
    ensures { result ≡ (nat_eq number other && values) }
{
    number == other && values
}

/// Whether both have the same number and are the same entry.
fn is_same_entry(left: &Numbered<Entry>, right: &Numbered<Entry>) -> bool
    ensures { (e g : ℕ × spec.Entry) → left.now.number ≡ e.0 → IsEntry left.now.value e.1 → right.now.number ≡ g.0 → IsEntry right.now.value g.1 → IsTrue result ↔ (e ≡ g) }
{
    let values = left.value.is_same(&right.value);
    has_same(left.number, right.number, values)
}

/// The lesser number at which two lists of entries by number differ first; none where they are one.
pub fn first_other_entry(left: &[Numbered<Entry>], right: &[Numbered<Entry>]) -> Option<u32>
    ensures { (es gs : List (ℕ × spec.Entry)) → AreEntries left.now es → AreEntries right.now gs → Compared result es gs }
{
    for (i, entry) in left.iter().enumerate() {
        if right.len() <= i {
            return Some(entry.number);
        }
        let other = &right[i];
        if !is_same_entry(entry, other) {
            return Some(least(entry.number, other.number));
        }
    }
    if left.len() < right.len() {
        Some(right[left.len()].number)
    } else {
        None
    }
}
