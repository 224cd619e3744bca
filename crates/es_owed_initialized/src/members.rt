// What generated names belong to, and the class in front of which they are given a value.

ghost use Rattle.std.specs.Prelude.{◌≡◌, ◌&&◌, ℕ, nat_eq, not, IfOk};
ghost use Rattle.std.specs.Option.{option_to_list};
ghost use Rattle.es_by_number.specs.Numbered.{pairs};
ghost use Rattle.es_grouped.specs.Groups.{group, having};
ghost use Rattle.es_owed_initialized.specs.Members.{is_branded, numbered_branded, numbered_members};
ghost use Rattle.es_seen_names.specs.PrivateMembers.{private_member_of, private_members_of};
ghost use Rattle.es_steps.specs.GeneratedForms as sorts;
ghost use Rattle.es_lowered.specs.Lowered as spec;
ghost use Rattle.es_lowered.specs.Temporaries as temporaries;
ghost use Rattle.es_steps.specs.PrivateNames as privates;
ghost use Rattle.es_validity.specs.Reached.{kind_in};

use es_base::ledger::GeneratedKind;
use es_by_number::numbered::Numbered;
use es_grouped::Grouped;
use es_node::node::Node;
use es_seen_names::private_member::{PrivateMember, member_at, private_members};
use es_validity::privates::PrivateKind;
use std::alloc::{AllocError, Global};

/// The private members of a program, looked up by what names are generated for.
#[derive(Drop)]
pub struct Members<'a> {
    pub list: Vec<PrivateMember<'a>>,
    pub by_key: Grouped<PrivateMember<'a>>,
    /// Of each class its private methods of instances.
    pub branded: Grouped<PrivateMember<'a>>,

    ghost by_keys: { (m : ℕ) → group m by_key ≡ having m (numbered_members list.items) },
    ghost by_classes: { (n : ℕ) → group n branded ≡ having n (numbered_branded list.items) },
}

impl<'a> Members<'a> {
    /// Those of this program. Fails on allocation failure alone.
    pub fn of(alloc: Global, program: &'a Node) -> Result<Members<'a>, AllocError>
        ensures { IfOk result (λ m. private_members_of m.list.items ≡ privates.private_members program.now) }
    {
        let list = private_members(alloc, program)?;
        let by_key = members_by_key(alloc, list.as_slice())?;
        let branded = branded_by_class(alloc, list.as_slice())?;
        Ok(Members {
            list,
            by_key,
            branded,
        })
    }

    /// Members among which are those that tell what a name of this kind belongs to.
    #[tactic(auto, using(crate::proofs::MemberNumbers::member_by_key, crate::proofs::MemberNumbers::branded_by_class))]
    pub fn about(&self, kind: GeneratedKind) -> &[PrivateMember<'a>]
        ensures belongs { spec.belongs (private_members_of result.now) kind ≡ spec.belongs (private_members_of self.now.list.items) kind }
        ensures class { temporaries.class_before kind (private_members_of result.now) ≡ temporaries.class_before kind (private_members_of self.now.list.items) }
    {
        match kind {
            GeneratedKind::WeakMap(key) => self.by_key.get(key.0),
            GeneratedKind::StaticField(key) => self.by_key.get(key.0),
            GeneratedKind::Method(key) => self.by_key.get(key.0),
            GeneratedKind::LooseKey(key) => self.by_key.get(key.0),
            GeneratedKind::Brand(class) => self.branded.get(class.0),
            _ => &[],
        }
    }
}

fn members_by_key<'a>(
    alloc: Global,
    members: &[PrivateMember<'a>],
) -> Result<Grouped<PrivateMember<'a>>, AllocError>
    ensures { IfOk result (λ g. (m : ℕ) → group m g ≡ having m (numbered_members members.now)) }
{
    let items = with_keys(alloc, members)?;
    Grouped::of(alloc, items)
}

/// These members, each with the number of its key. Fails on allocation failure alone.
fn with_keys<'a>(
    alloc: Global,
    members: &[PrivateMember<'a>],
) -> Result<Vec<Numbered<PrivateMember<'a>>>, AllocError>
    ensures { IfOk result (λ r. pairs r.items ≡ numbered_members members.now) }
{
    let mut items = Vec::new(alloc);
    for member in members {
        items.push(Numbered {
            number: member.node,
            value: *member,
        })?;
    }
    Ok(items)
}

fn branded_by_class<'a>(
    alloc: Global,
    members: &[PrivateMember<'a>],
) -> Result<Grouped<PrivateMember<'a>>, AllocError>
    ensures { IfOk result (λ g. (n : ℕ) → group n g ≡ having n (numbered_branded members.now)) }
{
    let items = branded_with_classes(alloc, members)?;
    Grouped::of(alloc, items)
}

/// The private methods of instances among these members, each with its class. Fails on allocation failure alone.
fn branded_with_classes<'a>(
    alloc: Global,
    members: &[PrivateMember<'a>],
) -> Result<Vec<Numbered<PrivateMember<'a>>>, AllocError>
    ensures { IfOk result (λ r. pairs r.items ≡ numbered_branded members.now) }
{
    let mut items = Vec::new(alloc);
    for member in members {
        if is_branded(*member) {
            items.push(Numbered {
                number: member.class,
                value: *member,
            })?;
        }
    }
    Ok(items)
}

/// Whether it is a private method of instances.
fn is_branded(member: PrivateMember) -> bool
    ensures { result ≡ is_branded member.entry }
{
    !is_a_field(member.kind) && !member.is_static
}

/// Whether a name of this kind stands for a member, or for a class with private methods of its instances, among these.
pub fn belongs(members: &[PrivateMember], kind: GeneratedKind) -> bool
    ensures { result ≡ spec.belongs (private_members_of members.now) kind }
{
    match kind {
        GeneratedKind::WeakMap(key) => match member_at(key.0, members) {
            Some(member) => is_a_field(member.kind) && !member.is_static,
            None => false,
        },
        GeneratedKind::StaticField(key) => match member_at(key.0, members) {
            Some(member) => is_a_field(member.kind) && member.is_static,
            None => false,
        },
        GeneratedKind::Method(key) => match member_at(key.0, members) {
            Some(member) => !is_a_field(member.kind),
            None => false,
        },
        GeneratedKind::LooseKey(key) => match member_at(key.0, members) {
            Some(member) => is_a_field(member.kind),
            None => false,
        },
        GeneratedKind::Brand(class) => has_branded(class.0, members),
        _ => true,
    }
}

fn is_a_field(kind: PrivateKind) -> bool
    ensures { result ≡ privates.is_a_field (kind_in kind) }
{
    matches!(kind, PrivateKind::Field)
}

/// Whether a private method of instances of this class is among these members.
fn has_branded(class: u32, members: &[PrivateMember]) -> bool
    ensures { result ≡ spec.has_branded class (private_members_of members.now) }
{
    for member in members {
        if is_branded_of(class, *member) {
            return true;
        }
    }
    false
}

fn is_branded_of(class: u32, member: PrivateMember) -> bool
    ensures { result ≡ (nat_eq class (private_member_of member.entry).class && (sorts.is_function_member (private_member_of member.entry) && not (private_member_of member.entry).is_static)) }
{
    class == member.class && is_branded(member)
}

/// The class in front of which a name of this kind is given its value.
pub fn class_before(kind: GeneratedKind, members: &[PrivateMember]) -> Option<u32>
    ensures { option_to_list result ≡ temporaries.class_before kind (private_members_of members.now) }
{
    match kind {
        GeneratedKind::WeakMap(key) => class_of_member(key.0, members),
        GeneratedKind::Method(key) => class_of_member(key.0, members),
        GeneratedKind::LooseKey(key) => class_of_member(key.0, members),
        GeneratedKind::Brand(class) => Some(class.0),
        _ => None,
    }
}

fn class_of_member(key: u32, members: &[PrivateMember]) -> Option<u32>
    ensures { option_to_list result ≡ temporaries.class_of_member (privates.member_at key (private_members_of members.now)) }
{
    match member_at(key, members) {
        Some(member) => Some(member.class),
        None => None,
    }
}
