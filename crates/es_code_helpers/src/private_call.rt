// Calls of helpers of private members. A helper with another number of arguments stands for itself.

ghost use Rattle.std.specs.Prelude.{◌≡◌, IfOk, ℕ, cond, length, option_map};
ghost use Rattle.es_codes.specs.CodeView.{code_of, codes_of};
ghost use Rattle.es_seen_names.specs.PrivateMembers.{private_member_of};
ghost use Rattle.es_steps.specs.Code as of;
ghost use Rattle.es_steps.specs.Context as contexts;
ghost use Rattle.es_steps.specs.GeneratedForms as spec;
ghost use Rattle.es_steps.specs.Helpers as helpers;
ghost use Rattle.es_code_helpers.specs.Asserting.{asserted_member, asserted_method};
ghost use Rattle.es_code_reading.specs.Contexts.{context_of};

use crate::moved::{from_call, take_boxed};
use crate::private::{brand_on, initialized_on, read_method, read_private, set_private};
use es_base::list::List;
use es_code_reading::context::Context;
use es_code_reading::letters::{known_object, private_function, weak_map};
use es_code_reading::literals::is_constant;
use es_codes::code::{Code, Helper};
use es_generated::numbers::is_new;
use es_seen_names::private_member::PrivateMember;
use std::alloc::{AllocError, Global};
use std::mem;

// ---- fields

fn read_field(
    alloc: Global,
    c: &Context,
    node: u32,
    map: &Code,
    object: &mut Code,
) -> Result<Code, AllocError>
    ensures { IfOk result (λ e. code_of e ≡ of.from_call (spec.read_private node (spec.weak_map (context_of c.now) (code_of map.now)) (code_of object.old))) }
{
    let object = take_boxed(alloc, object)?;
    from_call(alloc, read_private(node, weak_map(c, map), object))
}

fn read_field_by(
    alloc: Global,
    c: &Context,
    node: u32,
    arguments: &mut [Code],
) -> Result<Code, AllocError>
    requires { length arguments.old ≡ 2 }
    ensures { IfOk result (λ e. code_of e ≡ spec.helper_code (context_of c.now) node helpers.ClassPrivateFieldGet2 (codes_of arguments.old)) }
{
    match arguments {
        [map, object] => read_field(alloc, c, node, map, object),
        _ => unreachable!(),
    }
}

/// `babelHelpers.classPrivateFieldGet2(w, o)`, which reads a field. Fails on allocation failure alone.
#[tactic(auto, using(crate::proofs::Arguments::no_get))]
pub fn field_get(
    alloc: Global,
    c: &Context,
    node: u32,
    mut arguments: List<Code>,
) -> Result<Code, AllocError>
    ensures { IfOk result (λ e. code_of e ≡ spec.helper_code (context_of c.now) node helpers.ClassPrivateFieldGet2 (codes_of arguments)) }
{
    if arguments.len() == 2 {
        read_field_by(alloc, c, node, arguments.as_mut_slice())
    } else {
        Ok(Code::helper_call(node, Helper::ClassPrivateFieldGet2, arguments))
    }
}

fn write_field(
    alloc: Global,
    c: &Context,
    node: u32,
    map: &Code,
    object: &mut Code,
    value: &mut Code,
) -> Result<Code, AllocError>
    ensures { IfOk result (λ e. code_of e ≡ spec.set_private (contexts.new_here (context_of c.now) node) node (spec.weak_map (context_of c.now) (code_of map.now)) (code_of object.old) (code_of value.old)) }
{
    let is_new = is_new(c.terms.first_new, node);
    let object = take_boxed(alloc, object)?;
    let value = mem::replace(value, Code::nothing());
    set_private(alloc, is_new, node, weak_map(c, map), object, value)
}

fn write_field_by(
    alloc: Global,
    c: &Context,
    node: u32,
    arguments: &mut [Code],
) -> Result<Code, AllocError>
    requires { length arguments.old ≡ 3 }
    ensures { IfOk result (λ e. code_of e ≡ spec.helper_code (context_of c.now) node helpers.ClassPrivateFieldSet2 (codes_of arguments.old)) }
{
    match arguments {
        [map, object, value] => write_field(alloc, c, node, map, object, value),
        _ => unreachable!(),
    }
}

/// `babelHelpers.classPrivateFieldSet2(w, o, v)`, which writes a field. Fails on allocation failure alone.
#[tactic(auto, using(crate::proofs::Arguments::no_set))]
pub fn field_set(
    alloc: Global,
    c: &Context,
    node: u32,
    mut arguments: List<Code>,
) -> Result<Code, AllocError>
    ensures { IfOk result (λ e. code_of e ≡ spec.helper_code (context_of c.now) node helpers.ClassPrivateFieldSet2 (codes_of arguments)) }
{
    if arguments.len() == 3 {
        write_field_by(alloc, c, node, arguments.as_mut_slice())
    } else {
        Ok(Code::helper_call(node, Helper::ClassPrivateFieldSet2, arguments))
    }
}

fn initialize_field(
    alloc: Global,
    c: &Context,
    node: u32,
    object: &Code,
    map: &Code,
    value: &mut Code,
) -> Result<Code, AllocError>
    ensures { IfOk result (λ e. code_of e ≡ spec.initialized_on node (spec.weak_map (context_of c.now) (code_of map.now)) (spec.known_object (code_of object.now)) (code_of value.old)) }
{
    let value = take_boxed(alloc, value)?;
    Ok(initialized_on(node, weak_map(c, map), known_object(object), value))
}

fn initialize_field_by(
    alloc: Global,
    c: &Context,
    node: u32,
    arguments: &mut [Code],
) -> Result<Code, AllocError>
    requires { length arguments.old ≡ 3 }
    ensures { IfOk result (λ e. code_of e ≡ spec.helper_code (context_of c.now) node helpers.ClassPrivateFieldInitSpec (codes_of arguments.old)) }
{
    match arguments {
        [object, map, value] => initialize_field(alloc, c, node, object, map, value),
        _ => unreachable!(),
    }
}

/// `babelHelpers.classPrivateFieldInitSpec(o, w, v)`, which defines a field. Fails on allocation failure alone.
#[tactic(auto, using(crate::proofs::Arguments::no_field))]
pub fn field_initialized(
    alloc: Global,
    c: &Context,
    node: u32,
    mut arguments: List<Code>,
) -> Result<Code, AllocError>
    ensures { IfOk result (λ e. code_of e ≡ spec.helper_code (context_of c.now) node helpers.ClassPrivateFieldInitSpec (codes_of arguments)) }
{
    if arguments.len() == 3 {
        initialize_field_by(alloc, c, node, arguments.as_mut_slice())
    } else {
        Ok(Code::helper_call(node, Helper::ClassPrivateFieldInitSpec, arguments))
    }
}

// ---- methods

/// The member whose function is asked for behind a brand: `m` in `babelHelpers.assertClassBrand(q, o, m)`.
#[tactic(auto, using(crate::proofs::Asserted::none_asserted))]
fn asserted_member<'a>(c: &Context<'_, 'a>, arguments: &[Code]) -> Option<PrivateMember<'a>>
    ensures { option_map private_member_of result ≡ asserted_member (context_of c.now) (codes_of arguments.now) }
{
    match arguments {
        [_, _, function] => private_function(c, function),
        _ => None,
    }
}

/// The method that it is, on the object. Fails on allocation failure alone.
#[tactic(auto, using(crate::proofs::Asserted::none_read))]
fn asserted_method(
    alloc: Global,
    node: u32,
    member: &PrivateMember,
    arguments: &mut [Code],
) -> Result<Code, AllocError>
    ensures { IfOk result (λ e. code_of e ≡ asserted_method node (private_member_of member.now) (codes_of arguments.old)) }
{
    match arguments {
        [brand, object, _] => read_method(alloc, node, member, brand, object),
        _ => Ok(Code::no_rule()),
    }
}

/// `babelHelpers.assertClassBrand(q, o, m)`, which reads a method, or is a part of another form. Fails on allocation failure
/// alone.
#[tactic(auto, using(crate::proofs::Asserted::of_member, crate::proofs::Asserted::of_none))]
pub fn brand_asserted(
    alloc: Global,
    c: &Context,
    node: u32,
    mut arguments: List<Code>,
) -> Result<Code, AllocError>
    ensures { IfOk result (λ e. code_of e ≡ spec.helper_code (context_of c.now) node helpers.AssertClassBrand (codes_of arguments)) }
{
    match asserted_member(c, arguments.as_slice()) {
        Some(member) => asserted_method(alloc, node, &member, arguments.as_mut_slice()),
        None => Ok(Code::helper_call(node, Helper::AssertClassBrand, arguments)),
    }
}

fn add_brand(node: u32, arguments: &[Code]) -> Code
    requires { length arguments.now ≡ 2 }
    ensures { (c : contexts.Context) → code_of result ≡ spec.helper_code c node helpers.ClassPrivateMethodInitSpec (codes_of arguments.now) }
{
    match arguments {
        [object, brand] => brand_on(node, brand, known_object(object)),
        _ => unreachable!(),
    }
}

/// `babelHelpers.classPrivateMethodInitSpec(o, q)`, which adds a brand.
pub fn methods_initialized(node: u32, arguments: List<Code>) -> Code
    ensures { (c : contexts.Context) → code_of result ≡ spec.helper_code c node helpers.ClassPrivateMethodInitSpec (codes_of arguments) }
{
    if arguments.len() == 2 {
        add_brand(node, arguments.as_slice())
    } else {
        Code::helper_call(node, Helper::ClassPrivateMethodInitSpec, arguments)
    }
}

// ---- accesses that always throw, by the names of members

fn thrown(name: &Code) -> Code
    ensures { code_of result ≡ cond (spec.is_constant (code_of name.now)) of.throw of.no_rule }
{
    if is_constant(name) {
        Code::throw()
    } else {
        Code::no_rule()
    }
}

fn thrown_by(arguments: &[Code]) -> Code
    requires { length arguments.now ≡ 1 }
    ensures read { (c : contexts.Context) (m : ℕ) → code_of result ≡ spec.helper_code c m helpers.ReadOnlyError (codes_of arguments.now) }
    ensures written { (c : contexts.Context) (m : ℕ) → code_of result ≡ spec.helper_code c m helpers.WriteOnlyError (codes_of arguments.now) }
{
    match arguments {
        [name] => thrown(name),
        _ => unreachable!(),
    }
}

/// `babelHelpers.readOnlyError("#x")`
pub fn read_only_error(node: u32, arguments: List<Code>) -> Code
    ensures { (c : contexts.Context) → code_of result ≡ spec.helper_code c node helpers.ReadOnlyError (codes_of arguments) }
{
    if arguments.len() == 1 {
        thrown_by(arguments.as_slice())
    } else {
        Code::helper_call(node, Helper::ReadOnlyError, arguments)
    }
}

/// `babelHelpers.writeOnlyError("#x")`
pub fn write_only_error(node: u32, arguments: List<Code>) -> Code
    ensures { (c : contexts.Context) → code_of result ≡ spec.helper_code c node helpers.WriteOnlyError (codes_of arguments) }
{
    if arguments.len() == 1 {
        thrown_by(arguments.as_slice())
    } else {
        Code::helper_call(node, Helper::WriteOnlyError, arguments)
    }
}
