// The generated names that have to be given in front of classes, looked up by the numbers of these.

ghost use Rattle.std.specs.Prelude.{◌≡◌, ◌++◌, ℕ, IfOk, OnOk};
ghost use Rattle.std.specs.Option.{option_to_list};
ghost use Rattle.es_by_number.specs.Numbered.{numbered};
ghost use Rattle.es_grouped.specs.Groups.{group};
ghost use Rattle.es_lowered.specs.Timely as spec;
ghost use Rattle.es_owed_timely.specs.Needed.{name_of, names_of, with_class, with_classes, with_numbers};
ghost use Rattle.es_seen_names.specs.PrivateMembers.{private_members_of};

use es_base::ledger::LedgerEntry;
use es_by_number::numbered::Numbered;
use es_grouped::Grouped;
use es_numbered_members::NumberedMembers;
use es_seen_names::private_member::PrivateMember;
use std::alloc::{AllocError, Global};

/// The names of a ledger that have to be given in front of classes, by the numbers of these. Fails on allocation failure alone.
pub fn needed_by_class<'a>(
    alloc: Global,
    members: &[PrivateMember],
    ledger: &'a [LedgerEntry],
) -> Result<Grouped<&'a LedgerEntry>, AllocError>
    ensures { IfOk result (λ g. (n : ℕ) → names_of (group n g) ≡ spec.needed_names n (private_members_of members.now) ledger.now) }
{
    let numbered = NumberedMembers::of(alloc, members)?;
    let items = with_classes(alloc, &numbered, ledger)?;
    Grouped::of(alloc, items)
}

/// The same, each with the number of its class. Fails on allocation failure alone.
fn with_classes<'a>(
    alloc: Global,
    members: &NumberedMembers,
    ledger: &'a [LedgerEntry],
) -> Result<Vec<Numbered<&'a LedgerEntry>>, AllocError>
    ensures { IfOk result (λ r. numbered name_of r.items ≡ with_classes (private_members_of members.now.members.now) ledger.now) }
{
    let mut items = Vec::new(alloc);
    for entry in ledger {
        add_with_class(members, entry, &mut items)?;
    }
    Ok(items)
}

/// Adds the name, if it has to be given in front of a class. Fails on allocation failure alone.
fn add_with_class<'a>(
    members: &NumberedMembers,
    entry: &'a LedgerEntry,
    items: &mut Vec<Numbered<&'a LedgerEntry>>,
) -> Result<(), AllocError>
    ensures { OnOk result (numbered name_of items.new.items ≡ numbered name_of items.old.items ++ with_class (private_members_of members.now.members.now) entry.now) }
{
    add_to_class(members.class_before(entry.kind), entry, items)
}

/// Adds the name with the number of this class, if there is one. Fails on allocation failure alone.
fn add_to_class<'a>(
    class: Option<u32>,
    entry: &'a LedgerEntry,
    items: &mut Vec<Numbered<&'a LedgerEntry>>,
) -> Result<(), AllocError>
    ensures { OnOk result (numbered name_of items.new.items ≡ numbered name_of items.old.items ++ with_numbers (option_to_list class) entry.now.name) }
{
    match class {
        Some(number) => {
            items.push(Numbered {
                number,
                value: entry,
            })?;
            Ok(())
        }
        None => Ok(()),
    }
}
