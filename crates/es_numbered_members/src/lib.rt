//! The private members of a source, looked up by the numbers of their keys.
#![tactic(auto)]

ghost use Rattle.std.specs.Prelude.{◌≡◌, ℕ, IfOk};
ghost use Rattle.std.specs.Option.{option_to_list};
ghost use Rattle.es_by_number.specs.Numbered.{pairs};
ghost use Rattle.es_grouped.specs.Groups.{group, having};
ghost use Rattle.es_lowered.specs.Temporaries as spec;
ghost use Rattle.es_seen_names.specs.PrivateMembers.{private_members_of};
ghost use Rattle.es_numbered_members.specs.NumberedMembers.{key_number, numbered_members};

use es_base::ledger::GeneratedKind;
use es_by_number::numbered::Numbered;
use es_grouped::Grouped;
use es_owed_initialized::members::class_before;
use es_seen_names::private_member::PrivateMember;
use std::alloc::{AllocError, Global};

/// Private members, by the numbers of their keys.
#[derive(Drop)]
pub struct NumberedMembers<'r, 'a> {
    pub members: &'r [PrivateMember<'a>],
    pub by_number: Grouped<PrivateMember<'a>>,

    ghost are_its: { (m : ℕ) → group m by_number ≡ having m (numbered_members members.now) },
}

impl<'r, 'a> NumberedMembers<'r, 'a> {
    /// These. Fails on allocation failure alone.
    pub fn of(
        alloc: Global,
        members: &'r [PrivateMember<'a>],
    ) -> Result<NumberedMembers<'r, 'a>, AllocError>
        ensures { IfOk result (λ n. n.members.now ≡ members.now) }
    {
        let by_number = by_number(alloc, members)?;
        Ok(NumberedMembers { members, by_number })
    }

    /// The class in front of which a name of this kind is given its value.
    pub fn class_before(&self, kind: GeneratedKind) -> Option<u32>
        ensures { option_to_list result ≡ spec.class_before kind (private_members_of self.now.members.now) }
    {
        class_before(kind, self.named_by(kind))
    }

    /// Members among which is the one that a name of this kind stands for, if it stands for one.
    #[tactic(auto, using(crate::proofs::MemberNumbers::class_by_number))]
    fn named_by(&self, kind: GeneratedKind) -> &[PrivateMember<'a>]
        ensures { spec.class_before kind (private_members_of result.now) ≡ spec.class_before kind (private_members_of self.now.members.now) }
    {
        self.by_number.get(key_number(kind))
    }
}

/// The number of the key of the member that a name of this kind stands for.
fn key_number(kind: GeneratedKind) -> u32
    ensures { result ≡ key_number kind }
{
    match kind {
        GeneratedKind::WeakMap(key) => key.0,
        GeneratedKind::Method(key) => key.0,
        GeneratedKind::LooseKey(key) => key.0,
        _ => 0,
    }
}

fn by_number<'a>(
    alloc: Global,
    members: &[PrivateMember<'a>],
) -> Result<Grouped<PrivateMember<'a>>, AllocError>
    ensures { IfOk result (λ g. (m : ℕ) → group m g ≡ having m (numbered_members members.now)) }
{
    let items = with_numbers(alloc, members)?;
    Grouped::of(alloc, items)
}

/// These members, each with its number. Fails on allocation failure alone.
fn with_numbers<'a>(
    alloc: Global,
    members: &[PrivateMember<'a>],
) -> Result<Vec<Numbered<PrivateMember<'a>>>, AllocError>
    ensures { IfOk result (λ r. pairs r.items ≡ numbered_members members.now) }
{
    let mut items = Vec::new(alloc);
    for member in members {
        items.push(Numbered {
            number: member.node,
            value: *member,
        })?;
    }
    Ok(items)
}
