// The letters of generated forms: a name is of a kind, and the source has such a member.

ghost use Rattle.std.specs.Prelude.{◌≡◌, None, codes, cond, option_map};
ghost use Rattle.es_codes.specs.CodeView.{code_of};
ghost use Rattle.es_codes.specs.Constants.{origin_of};
ghost use Rattle.es_codes.specs.View.{kind_of};
ghost use Rattle.es_seen_names.specs.PrivateMembers.{private_member_of};
ghost use Rattle.es_steps.specs.GeneratedForms as spec;
ghost use Rattle.es_steps.specs.Options as asked;
ghost use Rattle.es_steps.specs.PrivateNames as members;
ghost use Rattle.es_validity.specs.Reached.{kind_in};
ghost use Rattle.es_code_reading.specs.Contexts.{context_of, nullable_home, this_of};
ghost use Rattle.es_code_reading.specs.Letters.{class_named_of, is_brand_of, known_value, loose_key_of, of_sort, private_function_of, static_field_of, weak_map_of};

use crate::context::{Context, This};
use crate::form::{kind_of_name, value_of};
use crate::literals::is_string;
use es_base::ledger::GeneratedKind;
use es_codes::code::Code;
use es_codes::event::Home;
use es_codes::name::NameKind;
use es_codes::value::{Origin, Value};
use es_seen_names::private_member::{PrivateMember, member_at};
use es_steps::options::{ClassPropertiesOptions, Options};
use es_validity::privates::PrivateKind;

// ---- members of a sort

/// Which members a letter stands for.
#[derive(Debug, Clone, Copy, PartialEq, Eq)]
pub enum MemberSort {
    InstanceField,
    StaticField,
    Field,
    /// A method, getter or setter.
    Function,
}

/// Whether a member is a field.
pub fn is_a_field(kind: PrivateKind) -> bool
    ensures { result ≡ members.is_a_field (kind_in kind) }
{
    matches!(kind, PrivateKind::Field)
}

fn is_of_sort(sort: MemberSort, member: &PrivateMember) -> bool
    ensures { result ≡ of_sort sort (private_member_of member.now) }
{
    match sort {
        MemberSort::InstanceField => is_a_field(member.kind) && !member.is_static,
        MemberSort::StaticField => is_a_field(member.kind) && member.is_static,
        MemberSort::Field => is_a_field(member.kind),
        MemberSort::Function => !is_a_field(member.kind),
    }
}

/// The member that the key of this number declares, if it is of the sort.
fn member_of_sort<'a>(c: &Context<'_, 'a>, sort: MemberSort, key: u32) -> Option<PrivateMember<'a>>
    ensures { option_map private_member_of result ≡ spec.if_member (of_sort sort) (members.member_at key (context_of c.now).members) }
{
    match member_at(key, c.terms.members) {
        Some(member) => {
            if is_of_sort(sort, &member) {
                Some(member)
            } else {
                None
            }
        }
        None => None,
    }
}

/// Whether class fields and private members are lowered loosely.
pub fn is_loose(class_properties: Option<ClassPropertiesOptions>) -> bool
    ensures { result ≡ asked.is_loose class_properties }
{
    match class_properties {
        Some(class_properties) => class_properties.loose,
        None => false,
    }
}

/// Whether private members are kept as properties.
fn keeps_privates_as_properties(options: &Options) -> bool
    ensures { result ≡ asked.keeps_privates_as_properties options.now }
{
    options.es2022.class_properties.is_some()
        && (is_loose(options.es2022.class_properties)
            || options.assumptions.private_fields_as_properties)
}

/// The member that the key of this number declares, if it is of the sort, and private members are kept as properties or are
/// not.
fn kept<'a>(
    c: &Context<'_, 'a>,
    as_properties: bool,
    sort: MemberSort,
    key: u32,
) -> Option<PrivateMember<'a>>
    ensures { option_map private_member_of result ≡ spec.if_kept as_properties (context_of c.now) (of_sort sort) (members.member_at key (context_of c.now).members) }
{
    let keeps = keeps_privates_as_properties(&c.terms.options);
    if as_properties {
        if keeps {
            member_of_sort(c, sort, key)
        } else {
            None
        }
    } else {
        if keeps {
            None
        } else {
            member_of_sort(c, sort, key)
        }
    }
}

// ---- W, S, L, M, G, A and Z

fn weak_map_of<'a>(c: &Context<'_, 'a>, kind: &NameKind) -> Option<PrivateMember<'a>>
    ensures { option_map private_member_of result ≡ weak_map_of (context_of c.now) (kind_of kind.now) }
{
    match kind {
        NameKind::Generated(GeneratedKind::WeakMap(key)) => {
            kept(c, false, MemberSort::InstanceField, key.0)
        }
        _ => None,
    }
}

/// W, the `WeakMap` of an instance field.
#[tactic(auto, using(crate::proofs::Lettered::weak_map_named, crate::proofs::Lettered::weak_map_unnamed))]
pub fn weak_map<'a>(c: &Context<'_, 'a>, code: &Code) -> Option<PrivateMember<'a>>
    ensures { option_map private_member_of result ≡ spec.weak_map (context_of c.now) (code_of code.now) }
{
    match kind_of_name(code) {
        Some(kind) => weak_map_of(c, kind),
        None => None,
    }
}

fn static_field_of<'a>(c: &Context<'_, 'a>, kind: &NameKind) -> Option<PrivateMember<'a>>
    ensures { option_map private_member_of result ≡ static_field_of (context_of c.now) (kind_of kind.now) }
{
    match kind {
        NameKind::Generated(GeneratedKind::StaticField(key)) => {
            kept(c, false, MemberSort::StaticField, key.0)
        }
        _ => None,
    }
}

/// S, the object of a static field.
#[tactic(auto, using(crate::proofs::Lettered::static_field_named, crate::proofs::Lettered::static_field_unnamed))]
pub fn static_field<'a>(c: &Context<'_, 'a>, code: &Code) -> Option<PrivateMember<'a>>
    ensures { option_map private_member_of result ≡ spec.static_field (context_of c.now) (code_of code.now) }
{
    match kind_of_name(code) {
        Some(kind) => static_field_of(c, kind),
        None => None,
    }
}

fn loose_key_of<'a>(c: &Context<'_, 'a>, kind: &NameKind) -> Option<PrivateMember<'a>>
    ensures { option_map private_member_of result ≡ loose_key_of (context_of c.now) (kind_of kind.now) }
{
    match kind {
        NameKind::Generated(GeneratedKind::LooseKey(key)) => {
            kept(c, true, MemberSort::Field, key.0)
        }
        _ => None,
    }
}

/// L, the key of a member that is kept as a property.
#[tactic(auto, using(crate::proofs::Lettered::loose_key_named, crate::proofs::Lettered::loose_key_unnamed))]
pub fn loose_key<'a>(c: &Context<'_, 'a>, code: &Code) -> Option<PrivateMember<'a>>
    ensures { option_map private_member_of result ≡ spec.loose_key (context_of c.now) (code_of code.now) }
{
    match kind_of_name(code) {
        Some(kind) => loose_key_of(c, kind),
        None => None,
    }
}

fn private_function_of<'a>(c: &Context<'_, 'a>, kind: &NameKind) -> Option<PrivateMember<'a>>
    ensures { option_map private_member_of result ≡ private_function_of (context_of c.now) (kind_of kind.now) }
{
    match kind {
        NameKind::Generated(GeneratedKind::Method(key)) => {
            member_of_sort(c, MemberSort::Function, key.0)
        }
        NameKind::StaticMethod { key, .. } => member_at(*key, c.terms.members),
        _ => None,
    }
}

/// M, G, A, the function of a method, getter or setter.
#[tactic(auto, using(crate::proofs::Lettered::private_function_named, crate::proofs::Lettered::private_function_unnamed))]
pub fn private_function<'a>(c: &Context<'_, 'a>, code: &Code) -> Option<PrivateMember<'a>>
    ensures { option_map private_member_of result ≡ spec.private_function (context_of c.now) (code_of code.now) }
{
    match kind_of_name(code) {
        Some(kind) => private_function_of(c, kind),
        None => None,
    }
}

fn class_named_of(kind: &NameKind) -> Option<u32>
    ensures { result ≡ class_named_of (kind_of kind.now) }
{
    match kind {
        NameKind::MeansClass { class, .. } => Some(*class),
        NameKind::Generated(GeneratedKind::ClassTemp(class)) => Some(class.0),
        _ => None,
    }
}

/// Z, a name that means a class.
#[tactic(auto, using(crate::proofs::Lettered::class_named_named, crate::proofs::Lettered::class_named_unnamed))]
pub fn class_named(code: &Code) -> Option<u32>
    ensures { result ≡ spec.class_named (code_of code.now) }
{
    match kind_of_name(code) {
        Some(kind) => class_named_of(kind),
        None => None,
    }
}

/// Whether it is a name of this class.
pub fn is_class_named(class: u32, code: &Code) -> bool
    ensures { result ≡ spec.is_class_named class (code_of code.now) }
{
    match class_named(code) {
        Some(named) => class == named,
        None => false,
    }
}

// ---- Q

fn is_brand_of(class: u32, kind: &NameKind) -> bool
    ensures { result ≡ is_brand_of class (kind_of kind.now) }
{
    match kind {
        NameKind::Generated(GeneratedKind::Brand(branded)) => branded.0 == class,
        _ => false,
    }
}

/// Q, what brands the objects of a member: a `WeakSet`, or the class itself.
#[tactic(auto, using(crate::proofs::Known::static_brand, crate::proofs::Known::own_brand, crate::proofs::Known::no_brand))]
pub fn is_brand(member: &PrivateMember, code: &Code) -> bool
    ensures { result ≡ spec.is_brand (private_member_of member.now) (code_of code.now) }
{
    if member.is_static {
        return is_class_named(member.class, code);
    }
    match kind_of_name(code) {
        Some(kind) => is_brand_of(member.class, kind),
        None => false,
    }
}

// ---- known objects

fn known_origin(origin: &Origin) -> Option<This>
    ensures { option_map this_of result ≡ known_value (origin_of origin.now) }
{
    match origin {
        Origin::ThisOf(k) => Some(This::Of(*k)),
        Origin::ClassOf(class) => Some(This::Class(*class)),
        _ => None,
    }
}

#[tactic(auto, using(crate::proofs::Known::key_unknown))]
fn known_value(value: &Value) -> Option<This>
    ensures { option_map this_of result ≡ known_value value.now }
{
    match value.origin() {
        Some(origin) => known_origin(origin),
        None => None,
    }
}

fn named_object(code: &Code) -> Option<This>
    ensures { option_map this_of result ≡ spec.class_value (spec.class_named (code_of code.now)) }
{
    match class_named(code) {
        Some(class) => Some(This::Class(class)),
        None => None,
    }
}

/// `this`, or a name of a class.
#[tactic(auto, using(crate::proofs::Known::known_valued, crate::proofs::Known::known_unvalued))]
pub fn known_object(code: &Code) -> Option<This>
    ensures { option_map this_of result ≡ spec.known_object (code_of code.now) }
{
    match value_of(code) {
        Some(value) => known_value(value),
        None => named_object(code),
    }
}

// ---- what a `super` member is looked up on

fn class_home(code: &Code) -> Option<Home>
    ensures { nullable_home result ≡ spec.class_home (spec.class_named (code_of code.now)) }
{
    match class_named(code) {
        Some(class) => Some(Home::OfClass(class)),
        None => None,
    }
}

fn prototype_home(code: &Code) -> Option<Home>
    ensures { nullable_home result ≡ spec.prototype_home (spec.class_named (code_of code.now)) }
{
    match class_named(code) {
        Some(class) => Some(Home::OfPrototype(class)),
        None => None,
    }
}

/// The `prototype` of a class, by the object and the key of a member.
fn member_home(object: &Code, key: &Code) -> Option<Home>
    ensures { nullable_home result ≡ cond (spec.is_string (codes "prototype") (code_of key.now)) (spec.prototype_home (spec.class_named (code_of object.now))) None }
{
    if is_string("prototype", key) {
        prototype_home(object)
    } else {
        None
    }
}

/// A class, or its `prototype`.
#[tactic(auto, using(crate::proofs::Homes::a_member, crate::proofs::Homes::no_member))]
pub fn home_of(code: &Code) -> Option<Home>
    ensures { nullable_home result ≡ spec.home_of (code_of code.now) }
{
    match code {
        Code::Member { object, key, .. } => member_home(object.get(), key.get()),
        _ => class_home(code),
    }
}
