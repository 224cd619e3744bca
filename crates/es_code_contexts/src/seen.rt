// What is seen at a place, from the nearest scope or class body outwards.

ghost use Rattle.std.specs.Prelude.{◌≡◌, ◌++◌};
ghost use Rattle.es_seen_names.specs.Declarations.{declarations};
ghost use Rattle.es_seen_names.specs.Frames.{names_in, privates_in};
ghost use Rattle.es_seen_names.specs.PrivateMembers.{private_members_of};

use es_seen_names::frame::Frame;
use es_seen_names::names::Names;
use es_seen_names::private_member::PrivateMember;
use es_seen_names::privates::Privates;

/// These names, and those around them.
pub fn names_within<'r, 'a>(frame: &'r Frame<'a>, outer: &'r Names<'r, 'a>) -> Names<'r, 'a>
    ensures { names_in result ≡ declarations frame.now.list.items ++ names_in outer.now }
{
    if frame.list.is_empty() {
        *outer
    } else {
        Names::Inside { frame, outer }
    }
}

/// These private members, and those around them.
pub fn privates_within<'r, 'a>(
    members: &'r [PrivateMember<'a>],
    outer: &'r Privates<'r, 'a>,
) -> Privates<'r, 'a>
    ensures { privates_in result ≡ private_members_of members.now ++ privates_in outer.now }
{
    if members.is_empty() {
        *outer
    } else {
        Privates::Inside { members, outer }
    }
}
