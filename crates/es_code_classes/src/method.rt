// Methods and constructors. (ECMA-262, 15.4 and 15.7.5.)

ghost use Rattle.std.specs.Prelude.{◌≡◌, ◌&&◌, ◌||◌, IfOk, Some, not};
ghost use Rattle.std.specs.Str.{chars};
ghost use Rattle.es_codes.specs.CodeView.{code_of};
ghost use Rattle.es_seen_names.specs.PrivateMembers.{private_member_of};
ghost use Rattle.es_steps.specs.Code as of;
ghost use Rattle.es_steps.specs.Expressions.{the_code};
ghost use Rattle.es_steps.specs.Members as of_node;
ghost use Rattle.es_steps.specs.PrivateNames as privates;
ghost use Rattle.es_steps.specs.SameValues.{same_boolean};
ghost use Rattle.es_steps.specs.Statements as spec;
ghost use Rattle.es_validity.specs.Reached.{kind_in};
ghost use Rattle.es_code_members.specs.MembersView.{member_of};
ghost use Rattle.es_code_reading.specs.Contexts.{context_of};
ghost use Rattle.es_code_classes.specs.Elements.{method_members, private_method_of, private_name_in, public_method};

use es_base::name::Name;
use es_base::strings::spells;
use es_code_expressions::key::key_code;
use es_code_members::member::{Member, copy_word, flag_of, take_code, word_of};
use es_code_reading::context::Context;
use es_code_reading::inside::is_constructor;
use es_code_reading::keys::is_constructor_key;
use es_codes::boxed::Boxed;
use es_codes::code::Code;
use es_seen_names::private_member::{PrivateMember, member_at};
use es_validity::privates::PrivateKind;
use std::alloc::{AllocError, Global};

/// The members of a method: `static [k]() {}`.
#[derive(Drop)]
pub struct MethodMembers {
    pub key: Member,
    pub value: Member,
    pub kind: Member,
    pub is_computed: Member,
    pub is_static: Member,
}

// ---- a private method is as the source declares it

/// What a method of this kind declares.
fn declared_kind(kind: &str) -> PrivateKind
    ensures { kind_in result ≡ privates.method_kind (chars kind.now) }
{
    if spells(kind, "get") {
        PrivateKind::Getter
    } else if spells(kind, "set") {
        PrivateKind::Setter
    } else {
        PrivateKind::Method
    }
}

fn is_same_form(kind: PrivateKind, other: PrivateKind) -> bool
    ensures { result ≡ spec.same_form (kind_in kind) (kind_in other) }
{
    match kind {
        PrivateKind::Method => matches!(other, PrivateKind::Method),
        PrivateKind::Getter => matches!(other, PrivateKind::Getter),
        PrivateKind::Setter => matches!(other, PrivateKind::Setter),
        PrivateKind::Field => false,
    }
}

fn is_same_boolean(boolean: bool, other: bool) -> bool
    ensures { result ≡ same_boolean boolean other }
{
    if boolean { other } else { !other }
}

/// Whether a private member is a method of this kind, static or not.
fn is_method_of(member: &PrivateMember, is_static: bool, kind: &str) -> bool
    ensures { result ≡ spec.is_declared_as (Some (private_member_of member.now)) is_static (chars kind.now) }
{
    is_same_boolean(member.is_static, is_static) && is_same_form(member.kind, declared_kind(kind))
}

/// Whether the private name of this number declares a method of this kind, static or not.
#[tactic(auto, using(crate::proofs::Methods::declared_one, crate::proofs::Methods::declared_none))]
fn is_declared_as(c: &Context, key: u32, is_static: bool, kind: &str) -> bool
    ensures { result ≡ spec.is_declared_as (privates.member_at key (context_of c.now).members) is_static (chars kind.now) }
{
    match member_at(key, c.terms.members) {
        Some(member) => is_method_of(&member, is_static, kind),
        None => false,
    }
}

/// `#x() {}`, whose key has this number. Fails on allocation failure alone.
fn private_method(
    alloc: Global,
    c: &Context,
    key: u32,
    method: &mut MethodMembers,
) -> Result<Code, AllocError>
    ensures { IfOk result (λ e. code_of e ≡ private_method_of (context_of c.now) (of_node.flag_of (member_of method.old.is_static)) key (of_node.word_of (member_of method.old.kind)) (the_code (member_of method.old.value))) }
{
    let is_static = flag_of(&method.is_static);
    if is_declared_as(c, key, is_static, word_of(&method.kind)) {
        let function = Boxed::new(alloc, take_code(&mut method.value))?;
        Ok(Code::private_method(is_static, key, function))
    } else {
        Ok(Code::no_rule())
    }
}

// ---- other methods

/// `k() {}`, or `constructor() {}`: a method of that kind has the key of a constructor, and no other method has.
fn method_or_constructor(
    is_kind: bool,
    is_key: bool,
    is_static: bool,
    kind: Name,
    key: Boxed<Code>,
    function: Boxed<Code>,
) -> Code
    ensures { code_of result ≡ spec.method_or_constructor is_kind is_key (of.method is_static kind (code_of key) (code_of function)) (code_of function) }
{
    if is_kind {
        if is_key {
            Code::constructor(function)
        } else {
            Code::no_rule()
        }
    } else if is_key {
        Code::no_rule()
    } else {
        Code::method(is_static, kind, key, function)
    }
}

/// Whether it is the key of a constructor, which is neither static nor computed.
fn names_constructor(key: &Code, is_computed: bool, is_static: bool) -> bool
    ensures { result ≡ (spec.is_constructor_key (code_of key.now) && not (is_static || is_computed)) }
{
    is_constructor_key(key) && !(is_static || is_computed)
}

/// `k() {}`. Fails on allocation failure alone.
fn public_method(alloc: Global, method: &mut MethodMembers) -> Result<Code, AllocError>
    ensures { IfOk result (λ e. code_of e ≡ public_method (of_node.word_of (member_of method.old.kind)) (of_node.flag_of (member_of method.old.is_computed)) (of_node.flag_of (member_of method.old.is_static)) (the_code (member_of method.old.key)) (the_code (member_of method.old.value))) }
{
    let is_computed = flag_of(&method.is_computed);
    let is_static = flag_of(&method.is_static);
    let kind = copy_word(alloc, &method.kind)?;
    let key = take_code(&mut method.key);
    let is_kind = is_constructor(kind.as_str());
    let is_key = names_constructor(&key, is_computed, is_static);
    let key = Boxed::new(alloc, key_code(is_computed, key))?;
    let function = Boxed::new(alloc, take_code(&mut method.value))?;
    Ok(method_or_constructor(is_kind, is_key, is_static, kind, key, function))
}

/// The number of the private name that a key is.
#[tactic(auto, using(crate::proofs::Methods::of_private_name, crate::proofs::Methods::of_others))]
fn private_name_in(key: &Code) -> Option<u32>
    ensures { result ≡ private_name_in (code_of key.now) }
{
    match key {
        Code::PrivateName { node, .. } => Some(*node),
        _ => None,
    }
}

/// The number of the private name that stands as key.
fn private_name_at(key: &Member) -> Option<u32>
    ensures { result ≡ private_name_in (the_code (member_of key.now)) }
{
    match key {
        Member::Code(code) => private_name_in(code),
        _ => None,
    }
}

/// `k() {}`, `#x() {}` or `constructor() {}` (ECMA-262, 15.4.5 and 15.7.5). Fails on allocation failure alone.
pub fn method_code(
    alloc: Global,
    c: &Context,
    method: &mut MethodMembers,
) -> Result<Code, AllocError>
    ensures { IfOk result (λ e. code_of e ≡ spec.method_code (context_of c.now) (method_members method.old)) }
{
    match private_name_at(&method.key) {
        Some(key) => private_method(alloc, c, key, method),
        None => public_method(alloc, method),
    }
}
