// The members of a node whose children were read: what the rule of its kind is made from.

ghost use Rattle.std.specs.Prelude.{◌≡◌, IfOk};
ghost use Rattle.std.specs.Str.{chars};
ghost use Rattle.es_codes.specs.CodeView.{code_of};
ghost use Rattle.es_steps.specs.Expressions.{the_code};
ghost use Rattle.es_steps.specs.Members as spec;
ghost use Rattle.es_code_members.specs.MembersView.{member_of};

use es_base::list::List;
use es_base::literal::LiteralValue;
use es_base::name::Name;
use es_codes::code::Code;
use std::alloc::{AllocError, Global};
use std::mem;

/// What stands at a member of a node whose children were read.
#[derive(Drop)]
pub enum Member {
    /// A child.
    Code(Code),
    /// No child.
    Absent,
    /// The items of a list, which may have holes.
    List(List<Option<Code>>),
    /// A string.
    String(Name),
    /// No string.
    NoString,
    /// A boolean.
    Boolean(bool),
    /// The value of a literal.
    Literal(LiteralValue),
}

/// Takes out the code of a child; elsewhere no rule gives a code.
pub fn take_code(member: &mut Member) -> Code
    ensures { code_of result ≡ the_code (member_of member.old) }
{
    match member {
        Member::Code(code) => mem::replace(code, Code::nothing()),
        _ => Code::no_rule(),
    }
}

/// The string of a member; else nothing.
#[tactic(auto, using(crate::proofs::Strings::no_characters))]
pub fn word_of(member: &Member) -> &str
    ensures { chars result.now ≡ spec.word_of (member_of member.now) }
{
    match member {
        Member::String(string) => string.as_str(),
        _ => "",
    }
}

/// A copy of the string of a member; else of the empty one. Fails on allocation failure alone.
#[tactic(auto, using(crate::proofs::Strings::no_characters))]
pub fn copy_word(alloc: Global, member: &Member) -> Result<Name, AllocError>
    ensures { IfOk result (λ s. s ≡ spec.word_of (member_of member.now)) }
{
    match member {
        Member::String(string) => string.try_clone(alloc),
        _ => Name::new(alloc, ""),
    }
}

/// Whether a member is the boolean `true`.
pub fn flag_of(member: &Member) -> bool
    ensures { result ≡ spec.flag_of (member_of member.now) }
{
    match member {
        Member::Boolean(boolean) => *boolean,
        _ => false,
    }
}
