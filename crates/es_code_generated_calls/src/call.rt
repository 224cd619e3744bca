// Calls. (ECMA-262, 13.3.6; which of them a lowering made, and what they stand for, is our own.)

ghost use Rattle.std.specs.Prelude.{◌≡◌, IfOk, true};
ghost use Rattle.es_codes.specs.CodeView.{callee_of, code_of, codes_of};
ghost use Rattle.es_codes.specs.View.{kind_of};
ghost use Rattle.es_steps.specs.Code as of;
ghost use Rattle.es_steps.specs.Expressions as spec;
ghost use Rattle.es_steps.specs.GeneratedForms as generated;
ghost use Rattle.es_steps.specs.Members as members;
ghost use Rattle.es_code_members.specs.MembersView.{member_of};
ghost use Rattle.es_code_reading.specs.Contexts.{context_of};
ghost use Rattle.es_code_generated_calls.specs.Calls.{function_called, name_call, name_called};

use crate::arrow::new_function_call;
use crate::member::new_member_call;
use crate::supers::{helper_call_call, super_call_in};
use es_base::ledger::GeneratedKind;
use es_base::list::List;
use es_base::name::Name;
use es_code_calls::callee::{boxed_callee, called};
use es_code_helpers::call::helper_code;
use es_code_members::codes::take_codes;
use es_code_members::member::{Member, flag_of, take_code};
use es_code_reading::context::Context;
use es_codes::boxed::Boxed;
use es_codes::code::{Callee, Code, Opened};
use es_codes::name::NameKind;
use std::alloc::{AllocError, Global};

// ---- calls that no lowering made

/// `f(a)`. Fails on allocation failure alone.
fn written_call(
    alloc: Global,
    node: u32,
    callee: Code,
    arguments: List<Code>,
) -> Result<Code, AllocError>
    ensures { IfOk result (λ e. code_of e ≡ of.call node (spec.callee_of (code_of callee)) (codes_of arguments)) }
{
    let callee = boxed_callee(alloc, callee)?;
    Ok(Code::call(node, callee, arguments))
}

/// A callee before `?.`; none that a lowering gave a receiver stands there. Fails on allocation failure alone.
#[tactic(auto, using(crate::proofs::CallForms::a_receiver, crate::proofs::CallForms::no_receiver))]
fn checked_callee(alloc: Global, callee: Callee) -> Result<Callee, AllocError>
    ensures { IfOk result (λ f. callee_of f ≡ spec.checked_callee true (callee_of callee)) }
{
    match callee {
        Callee::WithReceiver { function, object } => {
            drop(function);
            drop(object);
            Ok(Callee::plain(Boxed::new(alloc, Code::no_rule())?))
        }
        other => Ok(Callee::checked(Boxed::new(alloc, other)?)),
    }
}

/// `f?.(a)`. Fails on allocation failure alone.
fn optional_call(
    alloc: Global,
    node: u32,
    callee: Code,
    arguments: List<Code>,
) -> Result<Code, AllocError>
    ensures { IfOk result (λ e. code_of e ≡ of.call node (spec.checked_callee true (spec.callee_of (code_of callee))) (codes_of arguments)) }
{
    let callee = called(alloc, callee)?;
    let callee = Boxed::new(alloc, checked_callee(alloc, callee)?)?;
    Ok(Code::call(node, callee, arguments))
}

// ---- calls that a lowering may have made

/// What a name is called as.
#[derive(Debug, Clone, Copy, PartialEq, Eq)]
pub enum NameCall {
    /// As a generated name of a closure.
    Closure,
    /// As a generated name of what stands for `super(..)` of a class.
    SuperFunction(u32),
    Other,
}

fn name_call(kind: &NameKind) -> NameCall
    ensures { result ≡ name_call (kind_of kind.now) }
{
    match kind {
        NameKind::Generated(GeneratedKind::Closure) => NameCall::Closure,
        NameKind::Generated(GeneratedKind::SuperFn(class)) => NameCall::SuperFunction(class.0),
        _ => NameCall::Other,
    }
}

/// A call of a name, which may be a generated one. Fails on allocation failure alone.
#[tactic(auto, using(crate::proofs::CallForms::a_closure, crate::proofs::CallForms::a_super_function, crate::proofs::CallForms::another_name))]
fn name_called(
    alloc: Global,
    node: u32,
    identifier: u32,
    name: Name,
    kind: NameKind,
    arguments: List<Code>,
) -> Result<Code, AllocError>
    ensures { IfOk result (λ e. code_of e ≡ name_called node identifier name (kind_of kind) (codes_of arguments)) }
{
    match name_call(&kind) {
        NameCall::Closure => {
            drop(kind);
            Ok(Code::call_closure(name, arguments))
        }
        NameCall::SuperFunction(class) => {
            drop(kind);
            let behind = Some(Opened::BodyOf(name));
            Ok(Code::super_call(node, class, behind, arguments))
        }
        NameCall::Other => {
            let callee = Boxed::new(alloc, Code::name(identifier, name, kind))?;
            let callee = Boxed::new(alloc, Callee::plain(callee))?;
            Ok(Code::call(node, callee, arguments))
        }
    }
}

/// A call of what is neither a helper nor `super`. Fails on allocation failure alone.
#[tactic(auto, using(crate::proofs::CallForms::of_member, crate::proofs::CallForms::of_function, crate::proofs::CallForms::of_name, crate::proofs::CallForms::of_other))]
fn function_called(
    alloc: Global,
    c: &Context,
    node: u32,
    callee: Code,
    arguments: List<Code>,
) -> Result<Code, AllocError>
    ensures { IfOk result (λ e. code_of e ≡ function_called (context_of c.now) node (code_of callee) (codes_of arguments)) }
{
    match callee {
        Code::Member {
            node: member,
            object,
            key,
        } => new_member_call(alloc, c, node, member, object, key, arguments),
        Code::NewFunction {
            form,
            parameters,
            body,
            ..
        } => new_function_call(alloc, c, form, parameters, body, arguments),
        Code::Name {
            node: identifier,
            spelling,
            kind,
        } => name_called(alloc, node, identifier, spelling, kind, arguments),
        other => written_call(alloc, node, other, arguments),
    }
}

/// `f(a)`, where a lowering may have made the callee. Fails on allocation failure alone.
#[tactic(auto, using(crate::proofs::CallForms::of_helper, crate::proofs::CallForms::of_helper_call, crate::proofs::CallForms::of_super, crate::proofs::CallForms::of_no_helper))]
pub fn generated_call(
    alloc: Global,
    c: &Context,
    node: u32,
    callee: Code,
    arguments: List<Code>,
) -> Result<Code, AllocError>
    ensures { IfOk result (λ e. code_of e ≡ generated.generated_call (context_of c.now) node (code_of callee) (codes_of arguments) (of.call node (spec.callee_of (code_of callee)) (codes_of arguments))) }
{
    match callee {
        Code::Helper { helper } => helper_code(alloc, c, node, helper, arguments),
        Code::HelperCall {
            node: member,
            helper,
            arguments: of_member,
        } => helper_call_call(alloc, c, node, member, helper, of_member, arguments),
        Code::Super => Ok(super_call_in(c, node, arguments)),
        other => function_called(alloc, c, node, other, arguments),
    }
}

/// `f(a)`, `f?.(a)`. Fails on allocation failure alone.
pub fn call_code(
    alloc: Global,
    c: &Context,
    node: u32,
    callee: &mut Member,
    arguments: &mut Member,
    is_optional: &Member,
) -> Result<Code, AllocError>
    ensures { IfOk result (λ e. code_of e ≡ spec.call_code (context_of c.now) node (members.more (member_of callee.old) (members.more (member_of arguments.old) (members.more (member_of is_optional.now) members.end)))) }
{
    let arguments = take_codes(alloc, arguments)?;
    let callee = take_code(callee);
    if flag_of(is_optional) {
        optional_call(alloc, node, callee, arguments)
    } else {
        generated_call(alloc, c, node, callee, arguments)
    }
}
