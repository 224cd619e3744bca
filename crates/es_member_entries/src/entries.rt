// The private members of a program, by their keys.

ghost use Rattle.std.specs.Prelude.{◌≡◌, IfOk, option_map};
ghost use Rattle.es_by_number.specs.Numbered.{pairs};
ghost use Rattle.es_seen_names.specs.PrivateMembers.{private_member_of, private_members_of};
ghost use Rattle.es_steps.specs.Meaning as spec;
ghost use Rattle.es_validity.specs.Reached.{kind_in};
ghost use Rattle.es_member_entries.specs.Entries.{entries_in, entry_in};

use crate::entry::MemberEntry;
use es_by_number::numbered::{Numbered, sort_by_number};
use es_seen_names::private_member::PrivateMember;
use es_validity::privates::PrivateKind;
use std::alloc::{AllocError, Global};

/// What these private members are, by the numbers of their keys; `functions` are those of methods, getters and setters, by the
/// same numbers. None where one of these has no function. Fails on allocation failure alone.
pub fn member_entries(
    alloc: Global,
    functions: &[Numbered<u32>],
    members: &[PrivateMember],
) -> Result<Option<Vec<Numbered<MemberEntry>>>, AllocError>
    ensures { IfOk result (λ es. option_map (λ v. entries_in v.items) es ≡ option_map spec.by_number (spec.member_entries (pairs functions.now) (private_members_of members.now))) }
{
    let Some(entries) = entries_of(alloc, functions, members)? else {
        return Ok(None);
    };
    Ok(Some(sorted(entries)?))
}

/// These by number. Fails on allocation failure alone.
#[tactic(auto, using(es_by_number::proofs::Sorting::sorted_viewed))]
fn sorted(mut entries: Vec<Numbered<MemberEntry>>) -> Result<Vec<Numbered<MemberEntry>>, AllocError>
    ensures { IfOk result (λ es. entries_in es.items ≡ spec.by_number (entries_in entries.items)) }
{
    sort_by_number(&mut entries)?;
    Ok(entries)
}

/// What these private members are, in their order.
#[tactic(auto, using(crate::proofs::Members::entry_there, crate::proofs::Members::entry_missing))]
fn entries_of(
    alloc: Global,
    functions: &[Numbered<u32>],
    members: &[PrivateMember],
) -> Result<Option<Vec<Numbered<MemberEntry>>>, AllocError>
    ensures { IfOk result (λ es. option_map (λ v. entries_in v.items) es ≡ spec.member_entries (pairs functions.now) (private_members_of members.now)) }
{
    let mut entries = Vec::new(alloc);
    for member in members {
        let Some(value) = member_entry(functions, member) else {
            return Ok(None);
        };
        entries.push(Numbered {
            number: member.node,
            value,
        })?;
    }
    Ok(Some(entries))
}

/// What a private member is.
fn member_entry(functions: &[Numbered<u32>], member: &PrivateMember) -> Option<MemberEntry>
    ensures { option_map entry_in result ≡ spec.member_entry member.now.class member.now.is_static (kind_in member.now.kind) member.now.node (pairs functions.now) }
{
    match member.kind {
        PrivateKind::Field => Some(MemberEntry::Field {
            class: member.class,
            is_static: member.is_static,
        }),
        PrivateKind::Method => function_at(functions, member),
        PrivateKind::Getter => function_at(functions, member),
        PrivateKind::Setter => function_at(functions, member),
    }
}

/// The function of a method, getter or setter.
fn function_at(functions: &[Numbered<u32>], member: &PrivateMember) -> Option<MemberEntry>
    ensures { option_map entry_in result ≡ spec.function_at member.now.class member.now.is_static (kind_in member.now.kind) member.now.node (pairs functions.now) }
{
    for function in functions {
        if member.node == function.number {
            return Some(MemberEntry::Function {
                class: member.class,
                is_static: member.is_static,
                kind: member.kind,
                function: function.value,
            });
        }
    }
    None
}
