// Calls of helpers of properties, of `super` and of keys. A helper with another number of arguments stands for itself.

ghost use Rattle.std.specs.Prelude.{◌≡◌, ◌&&◌, IfOk, ℕ, cond, length};
ghost use Rattle.es_codes.specs.CodeView.{code_of, codes_of};
ghost use Rattle.es_steps.specs.Code as of;
ghost use Rattle.es_steps.specs.Context as contexts;
ghost use Rattle.es_steps.specs.GeneratedForms as spec;
ghost use Rattle.es_steps.specs.Helpers as helpers;
ghost use Rattle.es_code_reading.specs.Contexts.{context_of};

use crate::key::{define_on, with_key};
use crate::moved::take_boxed;
use crate::supers::{super_get, super_set};
use es_base::list::List;
use es_code_reading::context::Context;
use es_code_reading::letters::{home_of, known_object};
use es_code_reading::literals::is_number_literal;
use es_code_reading::quiet::{is_named, is_quiet_key};
use es_codes::code::{Code, Helper};
use es_generated::numbers::is_new;
use std::alloc::{AllocError, Global};
use std::mem;

// ---- properties

fn define_property(
    alloc: Global,
    node: u32,
    object: &Code,
    key: &mut Code,
    value: &mut Code,
) -> Result<Code, AllocError>
    ensures { IfOk result (λ e. code_of e ≡ spec.define_on node (spec.known_object (code_of object.now)) (code_of key.old) (code_of value.old)) }
{
    let key = take_boxed(alloc, key)?;
    let value = take_boxed(alloc, value)?;
    Ok(define_on(node, known_object(object), key, value))
}

fn define_property_by(alloc: Global, node: u32, arguments: &mut [Code]) -> Result<Code, AllocError>
    requires { length arguments.old ≡ 3 }
    ensures { (c : contexts.Context) → IfOk result (λ e. code_of e ≡ spec.helper_code c node helpers.DefineProperty (codes_of arguments.old)) }
{
    match arguments {
        [object, key, value] => define_property(alloc, node, object, key, value),
        _ => unreachable!(),
    }
}

/// `babelHelpers.defineProperty(o, k, v)`. Fails on allocation failure alone.
pub fn property_defined(
    alloc: Global,
    node: u32,
    mut arguments: List<Code>,
) -> Result<Code, AllocError>
    ensures { (c : contexts.Context) → IfOk result (λ e. code_of e ≡ spec.helper_code c node helpers.DefineProperty (codes_of arguments)) }
{
    if arguments.len() == 3 {
        define_property_by(alloc, node, arguments.as_mut_slice())
    } else {
        Ok(Code::helper_call(node, Helper::DefineProperty, arguments))
    }
}

// ---- members of `super`

fn read_super(
    alloc: Global,
    node: u32,
    home: &Code,
    key: &mut Code,
    receiver: &Code,
) -> Result<Code, AllocError>
    ensures { IfOk result (λ e. code_of e ≡ spec.super_get node (spec.home_of (code_of home.now)) (code_of key.old) (spec.known_object (code_of receiver.now))) }
{
    let key = take_boxed(alloc, key)?;
    super_get(alloc, node, home_of(home), key, known_object(receiver))
}

fn read_super_by(alloc: Global, node: u32, arguments: &mut [Code]) -> Result<Code, AllocError>
    requires { length arguments.old ≡ 3 }
    ensures { (c : contexts.Context) → IfOk result (λ e. code_of e ≡ spec.helper_code c node helpers.SuperPropGet (codes_of arguments.old)) }
{
    match arguments {
        [home, key, receiver] => read_super(alloc, node, home, key, receiver),
        _ => unreachable!(),
    }
}

/// `babelHelpers.superPropGet(h, k, r)`, which reads a member of `super`. Fails on allocation failure alone.
pub fn super_read(alloc: Global, node: u32, mut arguments: List<Code>) -> Result<Code, AllocError>
    ensures { (c : contexts.Context) → IfOk result (λ e. code_of e ≡ spec.helper_code c node helpers.SuperPropGet (codes_of arguments)) }
{
    if arguments.len() == 3 {
        read_super_by(alloc, node, arguments.as_mut_slice())
    } else {
        Ok(Code::helper_call(node, Helper::SuperPropGet, arguments))
    }
}

fn write_super(
    alloc: Global,
    c: &Context,
    node: u32,
    home: &Code,
    key: &mut Code,
    value: &mut Code,
    receiver: &Code,
) -> Result<Code, AllocError>
    ensures { IfOk result (λ e. code_of e ≡ spec.super_set (contexts.new_here (context_of c.now) node) node (spec.home_of (code_of home.now)) (code_of key.old) (code_of value.old) (spec.known_object (code_of receiver.now))) }
{
    let is_new = is_new(c.terms.first_new, node);
    let key = take_boxed(alloc, key)?;
    let value = mem::replace(value, Code::nothing());
    super_set(
        alloc,
        is_new,
        node,
        home_of(home),
        key,
        value,
        known_object(receiver),
    )
}

#[tactic(auto, using(crate::proofs::SuperSets::strict, crate::proofs::SuperSets::sloppy))]
fn write_super_by(
    alloc: Global,
    c: &Context,
    node: u32,
    arguments: &mut [Code],
) -> Result<Code, AllocError>
    requires { length arguments.old ≡ 5 }
    ensures { IfOk result (λ e. code_of e ≡ spec.helper_code (context_of c.now) node helpers.SuperPropSet (codes_of arguments.old)) }
{
    match arguments {
        [home, key, value, receiver, is_strict] => {
            if is_number_literal("1", is_strict) {
                write_super(alloc, c, node, home, key, value, receiver)
            } else {
                Ok(Code::no_rule())
            }
        }
        _ => unreachable!(),
    }
}

/// `babelHelpers.superPropSet(h, k, v, r, 1)`, which writes one. Fails on allocation failure alone.
#[tactic(auto, using(crate::proofs::Arguments::no_super_set))]
pub fn super_written(
    alloc: Global,
    c: &Context,
    node: u32,
    mut arguments: List<Code>,
) -> Result<Code, AllocError>
    ensures { IfOk result (λ e. code_of e ≡ spec.helper_code (context_of c.now) node helpers.SuperPropSet (codes_of arguments)) }
{
    if arguments.len() == 5 {
        write_super_by(alloc, c, node, arguments.as_mut_slice())
    } else {
        Ok(Code::helper_call(node, Helper::SuperPropSet, arguments))
    }
}

// ---- keys

fn make_key_by(alloc: Global, arguments: &mut [Code]) -> Result<Code, AllocError>
    requires { length arguments.old ≡ 1 }
    ensures { (c : contexts.Context) (node : ℕ) → IfOk result (λ e. code_of e ≡ spec.helper_code c node helpers.ToPropertyKey (codes_of arguments.old)) }
{
    match arguments {
        [expression] => Ok(Code::key_of(take_boxed(alloc, expression)?)),
        _ => unreachable!(),
    }
}

/// `babelHelpers.toPropertyKey(e)`. Fails on allocation failure alone.
pub fn key_made(alloc: Global, node: u32, mut arguments: List<Code>) -> Result<Code, AllocError>
    ensures { (c : contexts.Context) → IfOk result (λ e. code_of e ≡ spec.helper_code c node helpers.ToPropertyKey (codes_of arguments)) }
{
    if arguments.len() == 1 {
        make_key_by(alloc, arguments.as_mut_slice())
    } else {
        Ok(Code::helper_call(node, Helper::ToPropertyKey, arguments))
    }
}

fn name_function(alloc: Global, function: &mut Code, key: &mut Code) -> Result<Code, AllocError>
    ensures { IfOk result (λ e. code_of e ≡ cond (spec.is_named (code_of function.old) && spec.is_quiet_key (code_of key.old)) (spec.with_key (code_of key.old) (code_of function.old)) of.no_rule) }
{
    if is_named(function) && is_quiet_key(key) {
        with_key(alloc, key, function)
    } else {
        Ok(Code::no_rule())
    }
}

fn name_function_by(alloc: Global, arguments: &mut [Code]) -> Result<Code, AllocError>
    requires { length arguments.old ≡ 2 }
    ensures { (c : contexts.Context) (node : ℕ) → IfOk result (λ e. code_of e ≡ spec.helper_code c node helpers.SetFunctionName (codes_of arguments.old)) }
{
    match arguments {
        [function, key] => name_function(alloc, function, key),
        _ => unreachable!(),
    }
}

/// `babelHelpers.setFunctionName(e, k)`, which names a function and has no event. Fails on allocation failure alone.
pub fn function_named(
    alloc: Global,
    node: u32,
    mut arguments: List<Code>,
) -> Result<Code, AllocError>
    ensures { (c : contexts.Context) → IfOk result (λ e. code_of e ≡ spec.helper_code c node helpers.SetFunctionName (codes_of arguments)) }
{
    if arguments.len() == 2 {
        name_function_by(alloc, arguments.as_mut_slice())
    } else {
        Ok(Code::helper_call(node, Helper::SetFunctionName, arguments))
    }
}
