// Calls of `super`, and of members of it. (ECMA-262, 13.3.7; which of them a lowering made is our own.)

ghost use Rattle.std.specs.Prelude.{◌≡◌, ◌&&◌, IfOk, Some, bytes_eq, length, option_map};
ghost use Rattle.std.specs.Str.{chars};
ghost use Rattle.es_codes.specs.CodeView.{code_of, codes_of, helper_of};
ghost use Rattle.es_codes.specs.View.{home_of, kind_of};
ghost use Rattle.es_steps.specs.GeneratedForms as spec;
ghost use Rattle.es_code_reading.specs.Contexts.{context_of, nullable_home, this_of};
ghost use Rattle.es_code_generated_calls.specs.SuperCalls.{has_none, is_args, is_args_named, is_one_named, is_spread_of, passes_in, super_call_of, super_called};

use es_base::ledger::GeneratedKind;
use es_base::list::List;
use es_base::name::Name;
use es_base::strings::is_word;
use es_code_helpers::known::known_value;
use es_code_helpers::moved::take_boxed;
use es_code_new_literals::array::array_elements;
use es_code_reading::context::{Context, This};
use es_code_reading::letters::{home_of, known_object};
use es_code_reading::literals::is_number_literal;
use es_code_reading::spread::is_spread;
use es_code_reading::supers::initializers_behind;
use es_codes::boxed::Boxed;
use es_codes::code::{Callee, Code, Helper};
use es_codes::event::Home;
use es_codes::name::NameKind;
use std::alloc::{AllocError, Global};
use std::mem;

// ---- `super(..)`

fn is_args(kind: &NameKind) -> bool
    ensures { result ≡ is_args (kind_of kind.now) }
{
    matches!(kind, NameKind::Generated(GeneratedKind::Args))
}

fn is_args_spelled(name: &str, spelling: &Name, kind: &NameKind) -> bool
    ensures { result ≡ (is_args (kind_of kind.now) && bytes_eq (chars name.now) spelling.now) }
{
    is_args(kind) && is_word(spelling.as_str(), name)
}

/// Whether it is this generated name of the arguments of a constructor.
#[tactic(auto, using(crate::proofs::SuperForms::a_name, crate::proofs::SuperForms::no_name))]
fn is_args_named(name: &str, code: &Code) -> bool
    ensures { result ≡ is_args_named (chars name.now) (code_of code.now) }
{
    match code {
        Code::Name { spelling, kind, .. } => is_args_spelled(name, spelling, kind),
        _ => false,
    }
}

#[tactic(auto, using(crate::proofs::SuperForms::not_one_named))]
fn is_one_named(name: &str, codes: &[Code]) -> bool
    ensures { result ≡ is_one_named (chars name.now) (codes_of codes.now) }
{
    match codes {
        [code] => is_args_named(name, code),
        _ => false,
    }
}

#[tactic(auto, using(crate::proofs::SuperForms::some_held, crate::proofs::SuperForms::none_held))]
fn has_none(codes: &[Code]) -> bool
    ensures { result ≡ has_none (codes_of codes.now) }
{
    match codes {
        [_, ..] => false,
        [] => true,
    }
}

fn is_only(name: &str, operands: &List<Code>, held: &List<Code>) -> bool
    ensures { result ≡ (has_none (codes_of held.now) && is_one_named (chars name.now) (codes_of operands.now)) }
{
    has_none(held.as_slice()) && is_one_named(name, operands.as_slice())
}

/// Whether it is an operation whose only operand is that name, as `..._args`.
#[tactic(auto, using(crate::proofs::SuperForms::an_operation, crate::proofs::SuperForms::no_operation))]
fn is_spread_of(name: &str, code: &Code) -> bool
    ensures { result ≡ is_spread_of (chars name.now) (code_of code.now) }
{
    match code {
        Code::Operation { operands, held, .. } => is_only(name, operands, held),
        _ => false,
    }
}

/// Whether these are all arguments of the function around, `..._args`, by the name of its rest parameter.
#[tactic(auto, using(crate::proofs::SuperForms::not_one_passed))]
fn passes_all(rest_name: &str, arguments: &[Code]) -> bool
    ensures { result ≡ passes_in (chars rest_name.now) (codes_of arguments.now) }
{
    match arguments {
        [argument] => is_spread(argument) && is_spread_of(rest_name, argument),
        _ => false,
    }
}

#[tactic(auto, using(crate::proofs::SuperForms::with_all, crate::proofs::SuperForms::with_some))]
fn super_call_of_class(c: &Context, node: u32, class: u32, arguments: List<Code>) -> Code
    ensures { code_of result ≡ spec.super_call_in (context_of c.now) node (Some class) (codes_of arguments) }
{
    if passes_all(c.around.rest_name, arguments.as_slice()) {
        drop(arguments);
        Code::super_call_with_all(class)
    } else {
        let behind = initializers_behind(c, node, class);
        Code::super_call(node, class, behind, arguments)
    }
}

/// `super(a)`
pub fn super_call_in(c: &Context, node: u32, arguments: List<Code>) -> Code
    ensures { code_of result ≡ spec.super_call_in (context_of c.now) node (context_of c.now).constructs (codes_of arguments) }
{
    match c.around.constructs {
        Some(class) => super_call_of_class(c, node, class, arguments),
        None => {
            drop(arguments);
            Code::no_rule()
        }
    }
}

// ---- `babelHelpers.superPropGet(h, k, r, 2)([a])`

fn called_on_super(
    alloc: Global,
    node: u32,
    member: u32,
    home: Home,
    key: Boxed<Code>,
    this: This,
    arguments: Option<List<Code>>,
) -> Result<Code, AllocError>
    ensures { IfOk result (λ e. code_of e ≡ spec.super_method_call node member (Some (home_of home)) (code_of key) (Some (this_of this)) (option_map codes_of arguments)) }
{
    match arguments {
        Some(arguments) => {
            let callee = Callee::on_super(member, home, key, known_value(this));
            Ok(Code::call(node, Boxed::new(alloc, callee)?, arguments))
        }
        None => {
            drop(key);
            Ok(Code::no_rule())
        }
    }
}

/// A call of a member of `super`, where all is known of it. Fails on allocation failure alone.
fn super_method_call(
    alloc: Global,
    node: u32,
    member: u32,
    home: Option<Home>,
    key: Boxed<Code>,
    this: Option<This>,
    arguments: Option<List<Code>>,
) -> Result<Code, AllocError>
    ensures { IfOk result (λ e. code_of e ≡ spec.super_method_call node member (nullable_home home) (code_of key) (option_map this_of this) (option_map codes_of arguments)) }
{
    match home {
        Some(home) => match this {
            Some(this) => called_on_super(alloc, node, member, home, key, this, arguments),
            None => {
                drop(key);
                drop(arguments);
                Ok(Code::no_rule())
            }
        },
        None => {
            drop(key);
            drop(arguments);
            Ok(Code::no_rule())
        }
    }
}

fn super_call_of_four(
    alloc: Global,
    c: &Context,
    node: u32,
    member: u32,
    of_member: &mut [Code],
    arguments: &mut Code,
) -> Result<Code, AllocError>
    requires { length of_member.old ≡ 4 }
    ensures { IfOk result (λ e. code_of e ≡ super_call_of (context_of c.now) node member (codes_of of_member.old) (code_of arguments.old)) }
{
    match of_member {
        [home, key, receiver, two] => {
            if is_number_literal("2", two) {
                let key = take_boxed(alloc, key)?;
                let arguments = array_elements(c, mem::replace(arguments, Code::nothing()));
                let (home, this) = (home_of(home), known_object(receiver));
                super_method_call(alloc, node, member, home, key, this, arguments)
            } else {
                Ok(Code::no_rule())
            }
        }
        _ => unreachable!(),
    }
}

/// With the arguments of the helper, and the list of the arguments of the method. Fails on allocation failure alone.
fn super_call_of(
    alloc: Global,
    c: &Context,
    node: u32,
    member: u32,
    of_member: &mut [Code],
    arguments: &mut Code,
) -> Result<Code, AllocError>
    ensures { IfOk result (λ e. code_of e ≡ super_call_of (context_of c.now) node member (codes_of of_member.old) (code_of arguments.old)) }
{
    if of_member.len() == 4 {
        super_call_of_four(alloc, c, node, member, of_member, arguments)
    } else {
        Ok(Code::no_rule())
    }
}

fn super_called_with_list(
    alloc: Global,
    c: &Context,
    node: u32,
    member: u32,
    of_member: &mut [Code],
    arguments: &mut [Code],
) -> Result<Code, AllocError>
    requires { length arguments.old ≡ 1 }
    ensures { IfOk result (λ e. code_of e ≡ super_called (context_of c.now) node member (codes_of of_member.old) (codes_of arguments.old)) }
{
    match arguments {
        [list] => super_call_of(alloc, c, node, member, of_member, list),
        _ => unreachable!(),
    }
}

fn super_called_by(
    alloc: Global,
    c: &Context,
    node: u32,
    member: u32,
    of_member: &mut [Code],
    arguments: &mut [Code],
) -> Result<Code, AllocError>
    ensures { IfOk result (λ e. code_of e ≡ super_called (context_of c.now) node member (codes_of of_member.old) (codes_of arguments.old)) }
{
    if arguments.len() == 1 {
        super_called_with_list(alloc, c, node, member, of_member, arguments)
    } else {
        Ok(Code::no_rule())
    }
}

fn super_called(
    alloc: Global,
    c: &Context,
    node: u32,
    member: u32,
    mut of_member: List<Code>,
    mut arguments: List<Code>,
) -> Result<Code, AllocError>
    ensures { IfOk result (λ e. code_of e ≡ super_called (context_of c.now) node member (codes_of of_member) (codes_of arguments)) }
{
    super_called_by(
        alloc,
        c,
        node,
        member,
        of_member.as_mut_slice(),
        arguments.as_mut_slice(),
    )
}

/// A call of what a helper gives: a method of `super` alone is called so. Fails on allocation failure alone.
pub fn helper_call_call(
    alloc: Global,
    c: &Context,
    node: u32,
    member: u32,
    helper: Helper,
    of_member: List<Code>,
    arguments: List<Code>,
) -> Result<Code, AllocError>
    ensures { IfOk result (λ e. code_of e ≡ spec.helper_call_call (context_of c.now) node member (helper_of helper) (codes_of of_member) (codes_of arguments)) }
{
    match helper {
        Helper::SuperPropGet => super_called(alloc, c, node, member, of_member, arguments),
        _ => {
            drop(of_member);
            drop(arguments);
            Ok(Code::no_rule())
        }
    }
}
