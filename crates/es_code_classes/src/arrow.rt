// Arrows. (ECMA-262, 15.3 and 15.9.)

ghost use Rattle.std.specs.Prelude.{◌≡◌, IfOk, OnOk, false, option_to_list};
ghost use Rattle.es_codes.specs.CodeView.{code_of, codes_of};
ghost use Rattle.es_steps.specs.Code as of;
ghost use Rattle.es_steps.specs.Code.{and, done, joined};
ghost use Rattle.es_steps.specs.GeneratedForms as generated;
ghost use Rattle.es_steps.specs.Members as of_node;
ghost use Rattle.es_steps.specs.Statements as spec;
ghost use Rattle.es_steps.specs.Values.{Undefined};
ghost use Rattle.es_code_members.specs.MembersView.{member_of};
ghost use Rattle.es_code_reading.specs.Contexts.{context_of};

use crate::function::function_or_new;
use es_base::list::List;
use es_code_members::codes::{move_codes, take_codes};
use es_code_members::member::{Member, flag_of, take_code};
use es_code_reading::context::Context;
use es_codes::boxed::Boxed;
use es_codes::code::{Code, FunctionForm};
use es_codes::value::Value;
use es_generated::numbers::is_new;
use std::alloc::{AllocError, Global};

// ---- statements, and what a new `return` at their end gives

/// `return e;`, which is new.
#[tactic(auto, using(crate::proofs::Returns::a_return, crate::proofs::Returns::no_return))]
fn is_new_return(code: &Code) -> bool
    ensures { result ≡ spec.is_new_return (code_of code.now) }
{
    matches!(code, Code::NewReturn { .. })
}

/// Whether the last of these is a new `return`.
#[tactic(auto, using(crate::proofs::Returns::ends_nowhere))]
fn ends_with_return(codes: &[Code]) -> bool
    ensures { result ≡ spec.ends_with_return (codes_of codes.now) }
{
    match codes.last() {
        Some(last) => is_new_return(last),
        None => false,
    }
}

/// Adds `undefined`. Fails on allocation failure alone.
#[tactic(auto, using(es_code_members::proofs::Chaining::joined_one))]
fn add_undefined(to: &mut List<Code>) -> Result<(), AllocError>
    ensures { OnOk result (codes_of to.new ≡ joined (codes_of to.old) (and (of.value Undefined) done)) }
{
    to.push(Code::value(Value::undefined()))
}

/// Adds a statement that is no new `return`, and `undefined` behind it. Fails on allocation failure alone.
fn add_statement(statement: Code, to: &mut List<Code>) -> Result<(), AllocError>
    ensures { OnOk result (codes_of to.new ≡ joined (codes_of to.old) (and (code_of statement) (and (of.value Undefined) done))) }
{
    to.push(statement)?;
    add_undefined(to)
}

/// Adds what a new `return` of this gives: its argument, or `undefined`. Fails on allocation failure alone.
fn add_returned(mut argument: List<Code>, to: &mut List<Code>) -> Result<(), AllocError>
    ensures { OnOk result (codes_of to.new ≡ joined (codes_of to.old) (generated.value_or_undefined (codes_of argument))) }
{
    if argument.is_empty() {
        add_undefined(to)
    } else {
        move_codes(argument.as_mut_slice(), to)
    }
}

/// Adds the last of some statements, and what they give. Fails on allocation failure alone.
#[tactic(auto, using(crate::proofs::Returns::last_return, crate::proofs::Returns::last_other))]
fn add_last(last: Code, to: &mut List<Code>) -> Result<(), AllocError>
    ensures { OnOk result (codes_of to.new ≡ joined (codes_of to.old) (generated.ended (and (code_of last) done))) }
{
    match last {
        Code::NewReturn { argument } => add_returned(argument, to),
        other => add_statement(other, to),
    }
}

/// Adds the last of some statements, if there is one, and what they give. Fails on allocation failure alone.
fn add_end(last: Option<Code>, to: &mut List<Code>) -> Result<(), AllocError>
    ensures { OnOk result (codes_of to.new ≡ joined (codes_of to.old) (generated.ended (codes_of (option_to_list last)))) }
{
    match last {
        Some(statement) => add_last(statement, to),
        None => add_undefined(to),
    }
}

/// Statements before the last one, if there is one, and that, as an expression. Fails on allocation failure alone.
fn ended_by(mut before: List<Code>, last: Option<Code>) -> Result<Code, AllocError>
    ensures { IfOk result (λ e. code_of e ≡ of.sequence (joined (codes_of before) (generated.ended (codes_of (option_to_list last))))) }
{
    add_end(last, &mut before)?;
    Ok(Code::sequence(before))
}

/// The statements of a function that is called where it stands, as an expression. Fails on allocation failure alone.
pub fn opened_steps(all: List<Code>) -> Result<Code, AllocError>
    ensures { IfOk result (λ e. code_of e ≡ generated.opened_body (of.steps (codes_of all))) }
{
    let mut before = all.into_vec();
    let last = before.pop();
    ended_by(List::from_vec(before), last)
}

// ---- an arrow

fn returned_steps(all: List<Code>) -> Result<Code, AllocError>
    ensures { IfOk result (λ e. code_of e ≡ spec.arrow_body false (of.steps (codes_of all))) }
{
    if ends_with_return(all.as_slice()) {
        opened_steps(all)
    } else {
        Ok(Code::steps(all))
    }
}

/// The body of an arrow of the source: an expression may have become a new `return` at the end of a list. Fails on allocation
/// failure alone.
#[tactic(auto, using(crate::proofs::Returns::steps_body, crate::proofs::Returns::other_body))]
fn returned_body(body: Code) -> Result<Code, AllocError>
    ensures { IfOk result (λ e. code_of e ≡ spec.arrow_body false (code_of body)) }
{
    match body {
        Code::Steps { all } => returned_steps(all),
        other => Ok(other),
    }
}

fn arrow_body(is_new: bool, body: Code) -> Result<Code, AllocError>
    ensures { IfOk result (λ e. code_of e ≡ spec.arrow_body is_new (code_of body)) }
{
    if is_new {
        Ok(body)
    } else {
        returned_body(body)
    }
}

/// `(p) => e` (ECMA-262, 15.3.4 and 15.9.4). Fails on allocation failure alone.
pub fn arrow_code(
    alloc: Global,
    c: &Context,
    function: u32,
    parameters: &mut Member,
    body: &mut Member,
    is_async: &Member,
) -> Result<Code, AllocError>
    ensures { IfOk result (λ e. code_of e ≡ spec.arrow_code (context_of c.now) function (of_node.more (member_of parameters.old) (of_node.more (member_of body.old) (of_node.more (member_of is_async.now) of_node.end)))) }
{
    let is_new = is_new(c.terms.first_new, function);
    let body = arrow_body(is_new, take_code(body))?;
    let body = Boxed::new(alloc, body)?;
    let parameters = take_codes(alloc, parameters)?;
    let form = FunctionForm {
        is_arrow: true,
        is_async: flag_of(is_async),
        is_generator: false,
    };
    Ok(function_or_new(is_new, function, form, None, parameters, body))
}
