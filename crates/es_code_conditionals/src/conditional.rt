// Conditional expressions. (ECMA-262, 13.14; that some are chains is our own.)

ghost use Rattle.std.specs.Prelude.{◌≡◌, IfOk};
ghost use Rattle.es_codes.specs.CodeView.{code_of, codes_of};
ghost use Rattle.es_codes.specs.Constants.{origin_of};
ghost use Rattle.es_codes.specs.View.{details_of};
ghost use Rattle.es_steps.specs.Code as of;
ghost use Rattle.es_steps.specs.Expressions as spec;
ghost use Rattle.es_steps.specs.GeneratedForms as generated;
ghost use Rattle.es_steps.specs.Members as members;
ghost use Rattle.es_code_members.specs.MembersView.{member_of};
ghost use Rattle.es_code_reading.specs.Contexts.{context_of};
ghost use Rattle.es_code_conditionals.specs.Ends.{chain_behind, chain_end, end_by, first_of, plain_conditional};

use crate::null_test::is_undefined_test;
use es_base::kind::Kind;
use es_base::list::List;
use es_code_members::codes::take_codes;
use es_code_members::details::add_details_of;
use es_code_members::member::{Member, take_code};
use es_code_operators::chain::{deleted_as, ended_alone, spliced};
use es_code_reading::context::Context;
use es_codes::boxed::Boxed;
use es_codes::code::Code;
use es_codes::event::{Detail, Operation};
use es_codes::value::{Constant, Origin, Value};
use std::alloc::{AllocError, Global};
use std::mem;

/// What a conditional expression is.
#[derive(Debug, Clone, Copy, PartialEq, Eq)]
pub enum ChainEnd {
    /// A chain: `T ? void 0 : r`.
    Member,
    /// A chain that ends with a `delete`: `T ? true : delete r`.
    Delete,
    /// No chain.
    NoChain,
}

fn end_by_constant(constant: &Constant) -> ChainEnd
    ensures { result ≡ end_by (of.value (origin_of (Origin.ConstantOf constant.now))) }
{
    match constant {
        Constant::BooleanOf(true) => ChainEnd::Delete,
        _ => ChainEnd::NoChain,
    }
}

fn end_by_origin(origin: &Origin) -> ChainEnd
    ensures { result ≡ end_by (of.value (origin_of origin.now)) }
{
    match origin {
        Origin::Undefined => ChainEnd::Member,
        Origin::ConstantOf(constant) => end_by_constant(constant),
        _ => ChainEnd::NoChain,
    }
}

#[tactic(auto, using(crate::proofs::EndForms::key_no_end))]
fn end_by_value(value: &Value) -> ChainEnd
    ensures { result ≡ end_by (of.value value.now) }
{
    match value.origin() {
        Some(origin) => end_by_origin(origin),
        None => ChainEnd::NoChain,
    }
}

#[tactic(auto, using(crate::proofs::EndForms::value_end, crate::proofs::EndForms::no_end))]
fn end_by_code(code: &Code) -> ChainEnd
    ensures { result ≡ end_by (code_of code.now) }
{
    match code {
        Code::Value { value } => end_by_value(value),
        _ => ChainEnd::NoChain,
    }
}

fn end_by(middle: &Member) -> ChainEnd
    ensures { result ≡ end_by (spec.the_code (member_of middle.now)) }
{
    match middle {
        Member::Code(code) => end_by_code(code),
        _ => ChainEnd::NoChain,
    }
}

fn chain_end(c: &Context, test: &Member, middle: &Member) -> ChainEnd
    ensures { result ≡ chain_end (generated.is_undefined_test (context_of c.now) (spec.the_code (member_of test.now))) (spec.the_code (member_of middle.now)) }
{
    if is_undefined_test(c, test) {
        end_by(middle)
    } else {
        ChainEnd::NoChain
    }
}

// ---- the chain behind a test

/// The first of these codes, which is taken out; where there is none, no rule gives a code.
#[tactic(auto, using(crate::proofs::EndForms::none_first))]
pub fn take_first(codes: &mut [Code]) -> Code
    ensures { code_of result ≡ first_of (codes_of codes.old) }
{
    match codes {
        [first, ..] => mem::replace(first, Code::nothing()),
        [] => Code::no_rule(),
    }
}

#[tactic(auto, using(crate::proofs::EndForms::left_operand, crate::proofs::EndForms::no_left_operand))]
fn take_left(code: &mut Code) -> Code
    ensures { code_of result ≡ generated.left_of (code_of code.old) }
{
    match code {
        Code::Operation { operands, .. } => take_first(operands.as_mut_slice()),
        _ => Code::no_rule(),
    }
}

/// `a` in `a === null`
fn left_of(mut comparison: Code) -> Code
    ensures { code_of result ≡ generated.left_of (code_of comparison) }
{
    let left = take_left(&mut comparison);
    drop(comparison);
    left
}

/// The chain that goes on behind a test of this object. Fails on allocation failure alone.
fn tested_chain(
    alloc: Global,
    node: u32,
    object: Code,
    again: List<Code>,
    rest: Boxed<Code>,
) -> Result<Code, AllocError>
    ensures { IfOk result (λ e. code_of e ≡ of.chain node (of.tested (code_of object) (codes_of again) (code_of rest))) }
{
    let object = Boxed::new(alloc, object)?;
    let tested = Boxed::new(alloc, Code::tested(object, again, rest))?;
    Ok(Code::chain(node, tested))
}

/// The chain that goes on behind `left || right`. Fails on allocation failure alone.
fn chain_behind_two(
    alloc: Global,
    node: u32,
    left: Boxed<Code>,
    right: Boxed<Code>,
    rest: Boxed<Code>,
) -> Result<Code, AllocError>
    ensures { IfOk result (λ e. code_of e ≡ of.chain node (of.tested (generated.left_of (code_of left)) (of.and (generated.left_of (code_of right)) of.done) (code_of rest))) }
{
    let mut again = List::new(alloc);
    again.push(left_of(right.into_inner()))?;
    tested_chain(alloc, node, left_of(left.into_inner()), again, rest)
}

/// The chain that goes on behind this test. Fails on allocation failure alone.
#[tactic(auto, using(crate::proofs::EndForms::asked_twice, crate::proofs::EndForms::asked_once))]
fn chain_behind(alloc: Global, node: u32, test: Code, rest: Boxed<Code>) -> Result<Code, AllocError>
    ensures { IfOk result (λ e. code_of e ≡ chain_behind node (code_of test) (code_of rest)) }
{
    match test {
        Code::Logical {
            operator,
            left,
            right,
            ..
        } => {
            drop(operator);
            chain_behind_two(alloc, node, left, right, rest)
        }
        other => tested_chain(alloc, node, left_of(other), List::new(alloc), rest),
    }
}

/// `T ? void 0 : r`. Fails on allocation failure alone.
fn member_chain(
    alloc: Global,
    c: &Context,
    node: u32,
    test: &mut Member,
    rest: &mut Member,
) -> Result<Code, AllocError>
    ensures { IfOk result (λ e. code_of e ≡ chain_behind node (spec.the_code (member_of test.old)) (spec.ended_alone (spec.spliced (context_of c.now) (spec.the_code (member_of rest.old))))) }
{
    let rest = ended_alone(alloc, spliced(c, take_code(rest)))?;
    let rest = Boxed::new(alloc, rest)?;
    chain_behind(alloc, node, take_code(test), rest)
}

/// `T ? true : delete r`. Fails on allocation failure alone.
fn delete_chain(
    alloc: Global,
    c: &Context,
    node: u32,
    test: &mut Member,
    rest: &mut Member,
) -> Result<Code, AllocError>
    ensures { IfOk result (λ e. code_of e ≡ chain_behind node (spec.the_code (member_of test.old)) (spec.deleted_as (context_of c.now) node (spec.spliced (context_of c.now) (spec.the_code (member_of rest.old))))) }
{
    let rest = deleted_as(alloc, c, node, spliced(c, take_code(rest)))?;
    let rest = Boxed::new(alloc, rest)?;
    chain_behind(alloc, node, take_code(test), rest)
}

// ---- no chain

/// What stands beside the operands. Fails on allocation failure alone.
#[tactic(auto, using(es_code_operators::proofs::UnaryMembers::two_details))]
fn conditional_details(
    alloc: Global,
    test: &Member,
    consequent: &Member,
    alternate: &Member,
) -> Result<List<Detail>, AllocError>
    ensures { IfOk result (λ ds. details_of ds ≡ members.details (members.more (member_of test.now) (members.more (member_of consequent.now) (members.more (member_of alternate.now) members.end)))) }
{
    let mut details = List::new(alloc);
    add_details_of(alloc, test, &mut details)?;
    add_details_of(alloc, consequent, &mut details)?;
    add_details_of(alloc, alternate, &mut details)?;
    Ok(details)
}

/// `t ? a : b`, which is no chain. Fails on allocation failure alone.
fn plain_conditional(
    alloc: Global,
    node: u32,
    test: &mut Member,
    consequent: &mut Member,
    alternate: &mut Member,
) -> Result<Code, AllocError>
    ensures { IfOk result (λ e. code_of e ≡ plain_conditional node (member_of test.old) (member_of consequent.old) (member_of alternate.old)) }
{
    let details = conditional_details(alloc, test, consequent, alternate)?;
    let operands = take_codes(alloc, test)?;
    let mut held = List::new(alloc);
    held.push(take_code(consequent))?;
    held.push(take_code(alternate))?;
    let operation = Operation::OfKind {
        kind: Kind::ConditionalExpression,
        details,
    };
    Ok(Code::operation(node, operation, operands, held))
}

/// `t ? a : b`. Fails on allocation failure alone.
#[tactic(auto, using(crate::proofs::EndForms::of_member, crate::proofs::EndForms::of_delete, crate::proofs::EndForms::of_none))]
pub fn conditional_code(
    alloc: Global,
    c: &Context,
    node: u32,
    test: &mut Member,
    consequent: &mut Member,
    alternate: &mut Member,
) -> Result<Code, AllocError>
    ensures { IfOk result (λ e. code_of e ≡ spec.conditional_code (context_of c.now) node (members.more (member_of test.old) (members.more (member_of consequent.old) (members.more (member_of alternate.old) members.end)))) }
{
    match chain_end(c, test, consequent) {
        ChainEnd::Member => member_chain(alloc, c, node, test, alternate),
        ChainEnd::Delete => delete_chain(alloc, c, node, test, alternate),
        ChainEnd::NoChain => plain_conditional(alloc, node, test, consequent, alternate),
    }
}
