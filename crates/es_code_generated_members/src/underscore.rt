// The member `_` of a generated form.

ghost use Rattle.std.specs.Prelude.{◌≡◌, IfOk, ℕ, false, length, option_map};
ghost use Rattle.es_codes.specs.CodeView.{code_of, codes_of, helper_of};
ghost use Rattle.es_codes.specs.View.{kind_of};
ghost use Rattle.es_seen_names.specs.PrivateMembers.{private_member_of};
ghost use Rattle.es_steps.specs.Code as of;
ghost use Rattle.es_steps.specs.GeneratedForms as generated;
ghost use Rattle.es_steps.specs.Helpers as helpers;
ghost use Rattle.es_code_reading.specs.Contexts.{context_of};
ghost use Rattle.es_code_generated_members.specs.Accesses.{accessed};
ghost use Rattle.es_code_generated_members.specs.Fields as spec;

use crate::access::{Access, from_member};
use crate::setter::setter_of;
use es_base::ledger::GeneratedKind;
use es_base::list::List;
use es_code_helpers::moved::take_boxed;
use es_code_reading::context::Context;
use es_code_reading::letters::{is_class_named, static_field};
use es_code_reading::private_name::reference_to;
use es_codes::boxed::Boxed;
use es_codes::code::{Code, Helper};
use es_codes::name::NameKind;
use es_codes::value::Value;
use es_seen_names::private_member::PrivateMember;
use std::alloc::{AllocError, Global};

// ---- static fields

/// `babelHelpers.assertClassBrand(z, o, s)._`, a static field of the class `z` on `o`. Fails on allocation failure alone.
fn branded_field(
    alloc: Global,
    node: u32,
    member: Option<PrivateMember>,
    class: &Code,
    object: &mut Code,
) -> Result<Code, AllocError>
    ensures { IfOk result (λ e. code_of e ≡ generated.branded_field node (option_map private_member_of member.entry) (code_of class.now) (code_of object.old)) }
{
    match member {
        Some(member) => {
            if is_class_named(member.class, class) {
                let object = take_boxed(alloc, object)?;
                from_member(
                    alloc,
                    Code::private_member(node, reference_to(&member), object),
                )
            } else {
                Ok(Code::no_rule())
            }
        }
        None => Ok(Code::no_rule()),
    }
}

/// `s._`, a static field of its own class. Fails on allocation failure alone.
fn own_field(alloc: Global, node: u32, member: Option<PrivateMember>) -> Result<Code, AllocError>
    ensures { IfOk result (λ e. code_of e ≡ generated.own_field node (option_map private_member_of member.entry)) }
{
    match member {
        Some(member) => {
            let class = Boxed::new(alloc, Code::value(Value::class_of(member.class)))?;
            from_member(
                alloc,
                Code::private_member(node, reference_to(&member), class),
            )
        }
        None => Ok(Code::no_rule()),
    }
}

fn is_static_field_kind(kind: &NameKind) -> bool
    ensures { result ≡ spec.is_static_field_kind (kind_of kind.now) }
{
    matches!(kind, NameKind::Generated(GeneratedKind::StaticField(_)))
}

/// Whether it is a generated name of the object of a static field.
#[tactic(auto, using(crate::proofs::FieldForms::a_name, crate::proofs::FieldForms::no_name))]
fn names_static_field(code: &Code) -> bool
    ensures { result ≡ spec.names_static_field (code_of code.now) }
{
    match code {
        Code::Name { kind, .. } => is_static_field_kind(kind),
        _ => false,
    }
}

// ---- all forms

/// `babelHelpers.assertClassBrand(z, o, s)._`, by the arguments of the helper. Fails on allocation failure alone.
fn field_behind_brand(
    alloc: Global,
    c: &Context,
    node: u32,
    class: &Code,
    object: &mut Code,
    field: &Code,
) -> Result<Code, AllocError>
    ensures { IfOk result (λ e. code_of e ≡ generated.branded_field node (generated.static_field (context_of c.now) (code_of field.now)) (code_of class.now) (code_of object.old)) }
{
    branded_field(alloc, node, static_field(c, field), class, object)
}

fn field_behind_brand_by(
    alloc: Global,
    c: &Context,
    node: u32,
    arguments: &mut [Code],
) -> Result<Code, AllocError>
    requires { length arguments.old ≡ 3 }
    ensures { (call : ℕ) (whole : of.Code) → IfOk result (λ e. code_of e ≡ generated.underscore_of (context_of c.now) node (of.helper_call call helpers.AssertClassBrand (codes_of arguments.old)) whole) }
{
    match arguments {
        [class, object, field] => field_behind_brand(alloc, c, node, class, object, field),
        _ => unreachable!(),
    }
}

/// The member `_` of `babelHelpers.assertClassBrand(..)`. Fails on allocation failure alone.
#[tactic(auto, using(crate::proofs::FieldForms::not_branded))]
fn underscore_of_brand(
    alloc: Global,
    c: &Context,
    access: Access,
    call: u32,
    mut arguments: List<Code>,
) -> Result<Code, AllocError>
    ensures { IfOk result (λ e. code_of e ≡ generated.underscore_of (context_of c.now) access.node (of.helper_call call helpers.AssertClassBrand (codes_of arguments)) (accessed access (of.helper_call call helpers.AssertClassBrand (codes_of arguments)))) }
{
    if arguments.len() == 3 {
        field_behind_brand_by(alloc, c, access.node, arguments.as_mut_slice())
    } else {
        access.on(
            alloc,
            Code::helper_call(call, Helper::AssertClassBrand, arguments),
        )
    }
}

/// The member `_` of a call of a helper. Fails on allocation failure alone.
#[tactic(auto, using(crate::proofs::FieldForms::other_helper))]
fn underscore_of_call(
    alloc: Global,
    c: &Context,
    access: Access,
    call: u32,
    helper: Helper,
    mut arguments: List<Code>,
) -> Result<Code, AllocError>
    ensures { IfOk result (λ e. code_of e ≡ generated.underscore_of (context_of c.now) access.node (of.helper_call call (helper_of helper) (codes_of arguments)) (accessed access (of.helper_call call (helper_of helper) (codes_of arguments)))) }
{
    match helper {
        Helper::AssertClassBrand => underscore_of_brand(alloc, c, access, call, arguments),
        Helper::ToSetter => setter_of(alloc, c, access.node, arguments.as_mut_slice()),
        other => access.on(alloc, Code::helper_call(call, other, arguments)),
    }
}

/// The member `_` of what is no name of a static field. Fails on allocation failure alone.
#[tactic(auto, using(crate::proofs::FieldForms::a_helper_call, crate::proofs::FieldForms::of_other))]
fn underscore_of_unnamed(
    alloc: Global,
    c: &Context,
    access: Access,
    object: Code,
) -> Result<Code, AllocError>
    requires { spec.names_static_field (code_of object) ≡ false }
    ensures { IfOk result (λ e. code_of e ≡ generated.underscore_of (context_of c.now) access.node (code_of object) (accessed access (code_of object))) }
{
    match object {
        Code::HelperCall {
            node: call,
            helper,
            arguments,
        } => underscore_of_call(alloc, c, access, call, helper, arguments),
        other => access.on(alloc, other),
    }
}

/// The member `_` of an object: a static field, or a setter, in a generated form. Fails on allocation failure alone.
#[tactic(auto, using(crate::proofs::FieldForms::of_static_field))]
pub fn underscore_of(
    alloc: Global,
    c: &Context,
    access: Access,
    object: Code,
) -> Result<Code, AllocError>
    ensures { IfOk result (λ e. code_of e ≡ generated.underscore_of (context_of c.now) access.node (code_of object) (accessed access (code_of object))) }
{
    if names_static_field(&object) {
        let member = static_field(c, &object);
        drop(object);
        own_field(alloc, access.node, member)
    } else {
        underscore_of_unnamed(alloc, c, access, object)
    }
}
