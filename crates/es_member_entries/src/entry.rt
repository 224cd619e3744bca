// What a private member is, and comparison.

ghost use Rattle.std.specs.Prelude.{◌≡◌};
ghost use Rattle.es_steps.specs.SameMeanings as spec;
ghost use Rattle.es_validity.specs.Reached.{kind_in};
ghost use Rattle.es_member_entries.specs.Entries.{entries_in, entry_in};

use es_by_number::numbered::Numbered;
use es_by_number::same::{Same, same_numbered};
use es_validity::privates::PrivateKind;

/// A private member of a class: a field, or the function of a method, getter or setter (ECMA-262, 6.2.10).
#[derive(Debug, Clone, Copy)]
pub enum MemberEntry {
    Field {
        class: u32,
        is_static: bool,
    },
    Function {
        class: u32,
        is_static: bool,
        kind: PrivateKind,
        function: u32,
    },
}

impl Same for MemberEntry {
    ghost same = { λ a b. spec.same_member (entry_in a) (entry_in b) };

    fn is_same(&self, other: &Self) -> bool {
        match *self {
            MemberEntry::Field { class, is_static } => match *other {
                MemberEntry::Field {
                    class: n,
                    is_static: b,
                } => class == n && is_static == b,
                _ => false,
            },
            MemberEntry::Function {
                class,
                is_static,
                kind,
                function,
            } => match *other {
                MemberEntry::Function {
                    class: n,
                    is_static: b,
                    kind: k,
                    function: f,
                } => class == n && is_static == b && is_same_kind(kind, k) && function == f,
                _ => false,
            },
        }
    }
}

fn is_same_kind(kind: PrivateKind, other: PrivateKind) -> bool
    ensures { result ≡ spec.same_private_kind (kind_in kind) (kind_in other) }
{
    match kind {
        PrivateKind::Field => matches!(other, PrivateKind::Field),
        PrivateKind::Method => matches!(other, PrivateKind::Method),
        PrivateKind::Getter => matches!(other, PrivateKind::Getter),
        PrivateKind::Setter => matches!(other, PrivateKind::Setter),
    }
}

/// Whether two lists have the same numbers with the same members.
pub fn same_members(left: &[Numbered<MemberEntry>], right: &[Numbered<MemberEntry>]) -> bool
    ensures { result ≡ spec.same_list (spec.same_numbered spec.same_member) (entries_in left.now) (entries_in right.now) }
{
    same_numbered(left, right)
}
