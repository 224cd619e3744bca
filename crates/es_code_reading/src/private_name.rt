// What private names mean (ECMA-262, 9.2).

ghost use Rattle.std.specs.Prelude.{◌≡◌, Some, option_map};
ghost use Rattle.std.specs.Str.{chars};
ghost use Rattle.es_codes.specs.View.{kind_of, reference_of};
ghost use Rattle.es_seen_names.specs.PrivateMembers.{private_member_of};
ghost use Rattle.es_steps.specs.Expressions as expressions;
ghost use Rattle.es_steps.specs.GeneratedForms.{is_method_kind};
ghost use Rattle.es_steps.specs.PrivateNames as spec;
ghost use Rattle.es_validity.specs.Reached.{kind_in};
ghost use Rattle.es_code_reading.specs.Contexts.{context_of};
ghost use Rattle.es_code_reading.specs.Letters.{method_named};

use crate::context::Context;
use crate::letters::is_a_field;
use es_base::ids::NodeId;
use es_base::ledger::GeneratedKind;
use es_codes::name::{NameKind, PrivateReference};
use es_seen_names::private_member::{PrivateMember, member_at};
use es_seen_names::privates::{Side, declared_member, first_number};
use es_validity::privates::PrivateKind;

/// What a private name means.
#[tactic(auto, using(crate::proofs::PrivateMeanings::meant, crate::proofs::PrivateMeanings::unmeant))]
pub fn private_reference(c: &Context, name: &str) -> Option<PrivateReference>
    ensures { option_map reference_of result ≡ spec.private_reference (chars name.now) (context_of c.now).privates }
{
    match declared_member(&c.privates, name) {
        Some(member) => Some(PrivateReference {
            class: member.class,
            is_static: member.is_static,
            is_field: is_a_field(member.kind),
            reads: first_number(Side::Reads, &c.privates, name, member.class),
            writes: first_number(Side::Writes, &c.privates, name, member.class),
        }),
        None => None,
    }
}

/// The key that reads the member.
fn reading(member: &PrivateMember) -> Option<u32>
    ensures { result ≡ (spec.reference_of (private_member_of member.now)).reads }
{
    match member.kind {
        PrivateKind::Setter => None,
        PrivateKind::Field | PrivateKind::Method | PrivateKind::Getter => Some(member.node),
    }
}

/// The key that writes the member.
fn writing(member: &PrivateMember) -> Option<u32>
    ensures { result ≡ (spec.reference_of (private_member_of member.now)).writes }
{
    match member.kind {
        PrivateKind::Field | PrivateKind::Setter => Some(member.node),
        PrivateKind::Method | PrivateKind::Getter => None,
    }
}

/// The reading and the writing of one member by itself.
pub fn reference_to(member: &PrivateMember) -> PrivateReference
    ensures { reference_of result ≡ spec.reference_of (private_member_of member.now) }
{
    PrivateReference {
        class: member.class,
        is_static: member.is_static,
        is_field: is_a_field(member.kind),
        reads: reading(member),
        writes: writing(member),
    }
}

/// Whether a member is a method.
fn is_method(kind: PrivateKind) -> bool
    ensures { result ≡ is_method_kind (kind_in kind) }
{
    matches!(kind, PrivateKind::Method)
}

/// What the generated name of the function of a private method is: that of a static one stands for the function of its
/// class.
#[tactic(auto, using(crate::proofs::PrivateMeanings::static_one, crate::proofs::PrivateMeanings::other_one, crate::proofs::PrivateMeanings::no_one))]
pub fn method_kind(c: &Context, key: NodeId) -> NameKind
    ensures { kind_of result ≡ expressions.static_method (spec.member_at key.0 (context_of c.now).members) (method_named key) }
{
    match member_at(key.0, c.terms.members) {
        Some(member) => {
            if member.is_static && is_method(member.kind) {
                NameKind::StaticMethod {
                    key: member.node,
                    class: member.class,
                }
            } else {
                NameKind::Generated(GeneratedKind::Method(key))
            }
        }
        None => NameKind::Generated(GeneratedKind::Method(key)),
    }
}
