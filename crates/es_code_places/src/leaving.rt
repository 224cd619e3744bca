// What leaves a function, and what a lowering may add: `return`, `yield`, `await`, directives and `new.target`. (ECMA-262,
// 13.3.12, 14.10, 15.5, 15.8 and 11.2.1.)

ghost use Rattle.std.specs.Prelude.{◌≡◌, IfOk, bytes_eq, codes};
ghost use Rattle.std.specs.Str.{chars};
ghost use Rattle.es_codes.specs.CodeView.{code_of, codes_of};
ghost use Rattle.es_steps.specs.Expressions as expressions;
ghost use Rattle.es_steps.specs.Members as of_node;
ghost use Rattle.es_steps.specs.Statements as spec;
ghost use Rattle.es_code_members.specs.MembersView.{member_of, members_of};
ghost use Rattle.es_code_reading.specs.Contexts.{context_of};

use crate::name::new_target_code;
use es_base::kind::Kind;
use es_base::list::List;
use es_base::name::Name;
use es_base::strings::spells;
use es_code_members::codes::take_codes;
use es_code_members::member::Member;
use es_code_members::operation::operation_of;
use es_code_reading::context::Context;
use es_code_statements::steps::steps_code;
use es_codes::code::Code;
use es_generated::numbers::is_new;
use std::alloc::{AllocError, Global};

/// The codes of the first of these members, which are taken out. Fails on allocation failure alone.
#[tactic(auto, using(crate::proofs::Places::none_first))]
fn first_codes(alloc: Global, members: &mut [Member]) -> Result<List<Code>, AllocError>
    ensures { IfOk result (λ cs. codes_of cs ≡ of_node.codes_of (of_node.at 0 (members_of members.old))) }
{
    match members {
        [first, ..] => take_codes(alloc, first),
        [] => Ok(List::new(alloc)),
    }
}

/// `return e;`: one of the source leaves no new function, and a new one none of the source. Fails on allocation failure alone.
pub fn return_code(
    alloc: Global,
    c: &Context,
    node: u32,
    members: &mut [Member],
) -> Result<Code, AllocError>
    ensures { IfOk result (λ e. code_of e ≡ spec.return_code (context_of c.now) node (members_of members.old)) }
{
    if is_new(c.terms.first_new, node) {
        Ok(Code::new_return(first_codes(alloc, members)?))
    } else if c.around.in_new_function {
        Ok(Code::no_rule())
    } else {
        operation_of(alloc, Kind::ReturnStatement, node, members)
    }
}

/// `yield e`, `await e`: none of the source stands in a new function. Fails on allocation failure alone.
pub fn suspension_code(
    alloc: Global,
    c: &Context,
    kind: Kind,
    node: u32,
    members: &mut [Member],
) -> Result<Code, AllocError>
    ensures { IfOk result (λ e. code_of e ≡ spec.suspension_code (context_of c.now) kind node (members_of members.old)) }
{
    if c.around.in_new_function {
        Ok(Code::no_rule())
    } else {
        operation_of(alloc, kind, node, members)
    }
}

// ---- directives

fn is_other_word(directive: &Name) -> bool
    ensures { result ≡ spec.is_other_directive (of_node.string directive.now) }
{
    !spells(directive.as_str(), "use strict")
}

fn is_other_directive(directive: &Member) -> bool
    ensures { result ≡ spec.is_other_directive (member_of directive.now) }
{
    match directive {
        Member::String(string) => is_other_word(string),
        _ => false,
    }
}

/// Whether the second of these members is a directive that no lowering adds.
#[tactic(auto, using(crate::proofs::Places::none_second))]
fn has_other_directive(members: &[Member]) -> bool
    ensures { result ≡ spec.is_other_directive (of_node.at 1 (members_of members.now)) }
{
    match members {
        [_, directive, ..] => is_other_directive(directive),
        _ => false,
    }
}

/// `e;`, or a directive: of new ones there is `"use strict"` alone. Fails on allocation failure alone.
pub fn expression_code(
    alloc: Global,
    c: &Context,
    node: u32,
    members: &mut [Member],
) -> Result<Code, AllocError>
    ensures { IfOk result (λ e. code_of e ≡ spec.expression_code (context_of c.now) node (members_of members.old)) }
{
    if has_other_directive(members) && is_new(c.terms.first_new, node) {
        Ok(Code::no_rule())
    } else {
        steps_code(alloc, members)
    }
}

// ---- `new.target`

#[tactic(auto, using(crate::proofs::Places::a_spelling, crate::proofs::Places::no_spelling, es_code_members::proofs::Strings::no_characters))]
fn spelling(code: &Code) -> &str
    ensures { chars result.now ≡ expressions.spelling_of (of_node.code (code_of code.now)) }
{
    match code {
        Code::Spelled { spelling } => spelling.as_str(),
        _ => "",
    }
}

#[tactic(auto, using(es_code_members::proofs::Strings::no_characters))]
fn spelling_of(member: &Member) -> &str
    ensures { chars result.now ≡ expressions.spelling_of (member_of member.now) }
{
    match member {
        Member::Code(code) => spelling(code),
        _ => "",
    }
}

#[tactic(auto, using(crate::proofs::Places::none_named))]
fn names_new(members: &[Member]) -> bool
    ensures { result ≡ bytes_eq (expressions.spelling_of (of_node.at 0 (members_of members.now))) (codes "new") }
{
    match members {
        [meta, ..] => spells(spelling_of(meta), "new"),
        [] => false,
    }
}

/// `new.target`, which no lowering makes, or `import.meta`. Fails on allocation failure alone.
pub fn meta_code(
    alloc: Global,
    c: &Context,
    node: u32,
    members: &mut [Member],
) -> Result<Code, AllocError>
    ensures { IfOk result (λ e. code_of e ≡ expressions.meta_code (context_of c.now) node (members_of members.old)) }
{
    if !names_new(members) {
        operation_of(alloc, Kind::MetaProperty, node, members)
    } else if is_new(c.terms.first_new, node) {
        Ok(Code::no_rule())
    } else {
        Ok(new_target_code(c))
    }
}
