// Fields. (ECMA-262, 15.7.10.)

ghost use Rattle.std.specs.Prelude.{◌≡◌, ◌&&◌, IfOk};
ghost use Rattle.es_codes.specs.CodeView.{code_of, field_form_of};
ghost use Rattle.es_steps.specs.Context.{is_generated_private};
ghost use Rattle.es_steps.specs.Statements as spec;
ghost use Rattle.es_code_members.specs.MembersView.{member_of};
ghost use Rattle.es_code_reading.specs.Contexts.{context_of};
ghost use Rattle.es_code_classes.specs.Elements.{field_members, keyed_field, public_field};

use es_base::name::Name;
use es_code_expressions::key::key_code;
use es_code_members::member::{Member, flag_of, take_code};
use es_code_reading::context::Context;
use es_code_reading::keys::field_form;
use es_codes::boxed::Boxed;
use es_codes::code::{Code, FieldForm};
use es_codes::value::Value;
use es_generated::numbers::is_new;
use std::alloc::{AllocError, Global};
use std::mem;

/// The members of a field: `static [k] = e;`.
#[derive(Drop)]
pub struct FieldMembers {
    pub key: Member,
    pub value: Member,
    pub is_computed: Member,
    pub is_static: Member,
}

/// The value of an initializer, which is taken out, or `undefined`.
fn value_or_undefined(value: &mut Member) -> Code
    ensures { code_of result ≡ spec.value_or_undefined (member_of value.old) }
{
    match value {
        Member::Code(code) => mem::replace(code, Code::nothing()),
        _ => Code::value(Value::undefined()),
    }
}

/// Whether nothing stands there.
fn is_absent(value: &Member) -> bool
    ensures { result ≡ spec.is_absent (member_of value.now) }
{
    matches!(value, Member::Absent)
}

// ---- private elements

/// Whether a new private element is what a private name was generated for: a static one of the class around.
fn is_made_element(c: &Context, is_static: bool, name: &Name) -> bool
    ensures { result ≡ (is_static && is_generated_private name.now (context_of c.now).class (context_of c.now).ledger) }
{
    is_static
        && c.terms
            .ledger
            .is_generated_private(name.as_str(), c.around.class)
}

/// `#x = e;`. Fails on allocation failure alone.
fn private_element(
    alloc: Global,
    c: &Context,
    is_static: bool,
    key: u32,
    name: Name,
    value: &mut Member,
) -> Result<Code, AllocError>
    ensures { IfOk result (λ e. code_of e ≡ spec.private_element (context_of c.now) is_static key name (spec.value_or_undefined (member_of value.old))) }
{
    let right = Boxed::new(alloc, value_or_undefined(value))?;
    if !is_new(c.terms.first_new, key) {
        Ok(Code::private_field(is_static, key, right))
    } else if is_made_element(c, is_static, &name) {
        Ok(Code::generated_element(name, right))
    } else {
        Ok(Code::no_rule())
    }
}

// ---- other fields

/// What the options make of a public field with this key.
fn form_of_field(c: &Context, is_static: bool, key: &Code, value: &Member) -> FieldForm
    ensures { field_form_of result ≡ spec.field_form (context_of c.now).options is_static (code_of key.now) (member_of value.now) }
{
    field_form(&c.terms.options, is_static, key, is_absent(value))
}

/// `k = e;`. Fails on allocation failure alone.
fn public_field(
    alloc: Global,
    c: &Context,
    key: Code,
    value: &mut Member,
    is_computed: bool,
    is_static: bool,
) -> Result<Code, AllocError>
    ensures { IfOk result (λ e. code_of e ≡ public_field (context_of c.now) (code_of key) (member_of value.old) is_computed is_static) }
{
    let form = form_of_field(c, is_static, &key, value);
    let key = Boxed::new(alloc, key_code(is_computed, key))?;
    let right = Boxed::new(alloc, value_or_undefined(value))?;
    Ok(Code::field(is_static, form, key, right))
}

/// `k = e;` or `#x = e;`, by the form of its key. Fails on allocation failure alone.
#[tactic(auto, using(crate::proofs::ElementForms::private_field, crate::proofs::ElementForms::other_field))]
fn keyed_field(
    alloc: Global,
    c: &Context,
    key: Code,
    value: &mut Member,
    is_computed: bool,
    is_static: bool,
) -> Result<Code, AllocError>
    ensures { IfOk result (λ e. code_of e ≡ keyed_field (context_of c.now) (code_of key) (member_of value.old) is_computed is_static) }
{
    match key {
        Code::PrivateName { node, spelling, .. } => {
            private_element(alloc, c, is_static, node, spelling, value)
        }
        other => public_field(alloc, c, other, value, is_computed, is_static),
    }
}

/// `k = e;` or `#x = e;` (ECMA-262, 15.7.10). Fails on allocation failure alone.
pub fn field_code(alloc: Global, c: &Context, field: &mut FieldMembers) -> Result<Code, AllocError>
    ensures { IfOk result (λ e. code_of e ≡ spec.field_code (context_of c.now) (field_members field.old)) }
{
    let is_computed = flag_of(&field.is_computed);
    let is_static = flag_of(&field.is_static);
    let key = take_code(&mut field.key);
    keyed_field(alloc, c, key, &mut field.value, is_computed, is_static)
}
