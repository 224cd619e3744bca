// Logical operators. (ECMA-262, 13.13.)

ghost use Rattle.std.specs.Prelude.{◌≡◌, IfOk};
ghost use Rattle.std.specs.Str.{chars};
ghost use Rattle.es_codes.specs.CodeView.{code_of};
ghost use Rattle.es_codes.specs.Constants.{origin_of};
ghost use Rattle.es_steps.specs.Expressions as spec;
ghost use Rattle.es_steps.specs.Members as members;
ghost use Rattle.es_code_members.specs.MembersView.{member_of};
ghost use Rattle.es_code_reading.specs.Contexts.{context_of};
ghost use Rattle.es_code_operators.specs.Quiet.{is_done_quietly, is_new_result, is_quiet, is_value, result_number, result_of};

use es_base::strings::spells;
use es_code_members::member::{Member, copy_word, take_code, word_of};
use es_code_reading::context::Context;
use es_codes::boxed::Boxed;
use es_codes::code::Code;
use es_codes::value::{Origin, Value};
use es_generated::numbers::is_new;
use std::alloc::{AllocError, Global};

fn result_of_origin(origin: &Origin) -> Option<u32>
    ensures { result ≡ result_of (origin_of origin.now) }
{
    match origin {
        Origin::ResultOf(node) => Some(*node),
        _ => None,
    }
}

#[tactic(auto, using(crate::proofs::QuietForms::key_no_result))]
fn result_of(value: &Value) -> Option<u32>
    ensures { result ≡ result_of value.now }
{
    match value.origin() {
        Some(origin) => result_of_origin(origin),
        None => None,
    }
}

#[tactic(auto, using(crate::proofs::QuietForms::a_result, crate::proofs::QuietForms::no_result))]
fn result_number_of(code: &Code) -> Option<u32>
    ensures { result ≡ result_number (code_of code.now) }
{
    match code {
        Code::Value { value } => result_of(value),
        _ => None,
    }
}

/// The node whose result stands at a member.
fn result_number(member: &Member) -> Option<u32>
    ensures { result ≡ result_number (spec.the_code (member_of member.now)) }
{
    match member {
        Member::Code(code) => result_number_of(code),
        _ => None,
    }
}

#[tactic(auto, using(crate::proofs::QuietForms::a_value, crate::proofs::QuietForms::no_value))]
fn is_value(code: &Code) -> bool
    ensures { result ≡ is_value (code_of code.now) }
{
    matches!(code, Code::Value { .. })
}

fn is_new_result(c: &Context, value: &Value) -> bool
    ensures { result ≡ is_new_result (context_of c.now) (result_of value.now) }
{
    match result_of(value) {
        Some(node) => is_new(c.terms.first_new, node),
        None => false,
    }
}

#[tactic(auto, using(crate::proofs::QuietForms::a_call, crate::proofs::QuietForms::a_test, crate::proofs::QuietForms::no_call))]
fn is_code_done_quietly(c: &Context, code: &Code) -> bool
    ensures { result ≡ is_done_quietly (context_of c.now) (code_of code.now) }
{
    match code {
        Code::FromCall { expression } => is_value(expression.get()),
        Code::Value { value } => is_new_result(c, value),
        _ => false,
    }
}

/// Whether what stands at a member is a generated call that gives a value, or a new test.
fn is_done_quietly(c: &Context, member: &Member) -> bool
    ensures { result ≡ is_done_quietly (context_of c.now) (spec.the_code (member_of member.now)) }
{
    match member {
        Member::Code(code) => is_code_done_quietly(c, code),
        _ => false,
    }
}

/// Whether it is a new test of a new value, and what is done then has no event: that a generated key is not `"name"`.
fn is_quiet(c: &Context, node: u32, operator: &str, left: &Member, right: &Member) -> bool
    ensures { result ≡ is_quiet (context_of c.now) node (chars operator.now) (result_number (spec.the_code (member_of left.now))) (is_done_quietly (context_of c.now) (spec.the_code (member_of right.now))) }
{
    match result_number(left) {
        Some(tested) => {
            is_done_quietly(c, right)
                && is_new(c.terms.first_new, node)
                && is_new(c.terms.first_new, tested)
                && spells(operator, "&&")
        }
        None => false,
    }
}

/// `a || b`. Fails on allocation failure alone.
#[tactic(auto, using(crate::proofs::QuietForms::quiet, crate::proofs::QuietForms::not_quiet))]
pub fn logical_code(
    alloc: Global,
    c: &Context,
    node: u32,
    operator: &Member,
    left: &mut Member,
    right: &mut Member,
) -> Result<Code, AllocError>
    ensures { IfOk result (λ e. code_of e ≡ spec.logical_code (context_of c.now) node (members.more (member_of operator.now) (members.more (member_of left.old) (members.more (member_of right.old) members.end)))) }
{
    if is_quiet(c, node, word_of(operator), left, right) {
        return Ok(Code::value(Value::result_of(node)));
    }
    let operator = copy_word(alloc, operator)?;
    let left = Boxed::new(alloc, take_code(left))?;
    let right = Boxed::new(alloc, take_code(right))?;
    Ok(Code::logical(node, operator, left, right))
}
