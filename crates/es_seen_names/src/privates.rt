// The private members that are seen at a place, class by class, and what a private name means.

ghost use Rattle.std.specs.Prelude.{◌≡◌, Bool, option_map};
ghost use Rattle.std.specs.Str.{chars};
ghost use Rattle.es_steps.specs.PrivateNames as spec;
ghost use Rattle.es_steps.specs.PrivateNames.{declared_member, first_number};
ghost use Rattle.es_validity.specs.Reached.{kind_in};
ghost use Rattle.es_seen_names.specs.Frames.{privates_in};
ghost use Rattle.es_seen_names.specs.PrivateMembers.{private_member_of, private_members_of};
ghost use Rattle.es_seen_names.specs.Sides.{is_of_side};

use crate::private_member::PrivateMember;
use es_base::strings::is_word;
use es_validity::privates::PrivateKind;

/// The private members that are seen at a place.
#[derive(Clone, Copy)]
pub enum Privates<'r, 'a> {
    /// None.
    Outside,
    /// Those of a class, and those around it.
    Inside {
        members: &'r [PrivateMember<'a>],
        outer: &'r Privates<'r, 'a>,
    },
}

/// Which of the two things that a private name may do.
#[derive(Debug, Clone, Copy, PartialEq, Eq)]
pub enum Side {
    Reads,
    Writes,
}

/// Whether a member of this kind is read or written.
fn is_of_side(side: Side, kind: PrivateKind) -> bool
    ensures { result ≡ is_of_side side (kind_in kind) }
{
    match side {
        Side::Reads => !matches!(kind, PrivateKind::Setter),
        Side::Writes => matches!(kind, PrivateKind::Field | PrivateKind::Setter),
    }
}

/// The nearest member of this name.
#[tactic(auto, using(crate::proofs::Declaring::member_here, crate::proofs::Declaring::member_outside))]
pub fn declared_member<'a>(privates: &Privates<'_, 'a>, name: &str) -> Option<PrivateMember<'a>>
    ensures { option_map private_member_of result ≡ declared_member (chars name.now) (privates_in privates.now) }
{
    match privates {
        Privates::Outside => None,
        Privates::Inside { members, outer } => match declared_among(members, name) {
            Some(member) => Some(member),
            None => declared_member(outer, name),
        },
    }
}

fn declared_among<'a>(members: &[PrivateMember<'a>], name: &str) -> Option<PrivateMember<'a>>
    ensures { option_map private_member_of result ≡ declared_member (chars name.now) (private_members_of members.now) }
{
    for member in members {
        if is_word(member.name, name) {
            return Some(*member);
        }
    }
    None
}

/// The key of the nearest member of this name in a class that is read or written.
#[tactic(auto, using(crate::proofs::Declaring::number_here, crate::proofs::Declaring::number_outside))]
pub fn first_number(side: Side, privates: &Privates, name: &str, class: u32) -> Option<u32>
    ensures { result ≡ first_number (is_of_side side) (chars name.now) class (privates_in privates.now) }
{
    match privates {
        Privates::Outside => None,
        Privates::Inside { members, outer } => match first_among(side, members, name, class) {
            Some(number) => Some(number),
            None => first_number(side, outer, name, class),
        },
    }
}

fn first_among(side: Side, members: &[PrivateMember], name: &str, class: u32) -> Option<u32>
    ensures { result ≡ first_number (is_of_side side) (chars name.now) class (private_members_of members.now) }
{
    for member in members {
        if is_of_side(side, member.kind) && class == member.class && is_word(member.name, name) {
            return Some(member.node);
        }
    }
    None
}
