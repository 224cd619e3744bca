// What a generated name is given: a value, a class, a function, or what stands for nothing of the source. (Our own.)

ghost use Rattle.std.specs.Prelude.{◌≡◌, IfOk, codes, option_map, true};
ghost use Rattle.es_base.specs.Ascii.{is_ascii};
ghost use Rattle.es_codes.specs.CodeView.{code_of, codes_of, helper_of};
ghost use Rattle.es_codes.specs.View.{kind_of, referent_of};
ghost use Rattle.es_seen_names.specs.PrivateMembers.{private_member_of};
ghost use Rattle.es_steps.specs.Code as of;
ghost use Rattle.es_steps.specs.Context.{Generated};
ghost use Rattle.es_steps.specs.GeneratedForms as spec;
ghost use Rattle.es_code_new_literals.specs.Views.{property_of};
ghost use Rattle.es_code_reading.specs.Contexts.{context_of};
ghost use Rattle.es_code_declarations.specs.Given.{field_with, is_free_kind, is_free_named, is_free_referent, is_function, is_loose_key, is_none, is_one_constant, makes_collection};

use es_base::ledger::GeneratedKind;
use es_base::list::List;
use es_base::name::Name;
use es_base::strings::is_word;
use es_code_new_literals::property::{Property, single_property};
use es_code_reading::context::Context;
use es_code_reading::letters::static_field;
use es_code_reading::literals::{is_constant, is_string};
use es_codes::boxed::Boxed;
use es_codes::code::{Code, Helper, Target};
use es_codes::name::{NameKind, Referent};
use es_codes::value::Value;
use es_generated::numbers::is_new;
use es_seen_names::private_member::PrivateMember;
use std::alloc::{AllocError, Global};
use std::mem;

// ---- values, classes and functions

/// A temporary is given a value. Fails on allocation failure alone.
fn given_value(
    alloc: Global,
    binding: u32,
    spelling: Name,
    right: &mut Code,
) -> Result<Code, AllocError>
    ensures { IfOk result (λ e. code_of e ≡ of.assign (of.to_name binding spelling (Generated GeneratedKind.Temp)) (code_of right.old)) }
{
    let right = Boxed::new(alloc, mem::replace(right, Code::nothing()))?;
    let kind = NameKind::Generated(GeneratedKind::Temp);
    let to = Boxed::new(alloc, Target::to_name(binding, spelling, kind))?;
    Ok(Code::assign(to, right))
}

/// What names a class is given it. Fails on allocation failure alone.
pub fn given_class(alloc: Global, class: u32, right: &mut Code) -> Result<Code, AllocError>
    ensures { IfOk result (λ e. code_of e ≡ of.give_class class (code_of right.old)) }
{
    let right = Boxed::new(alloc, mem::replace(right, Code::nothing()))?;
    Ok(Code::give_class(class, right))
}

#[tactic(auto, using(crate::proofs::GivenForms::a_function, crate::proofs::GivenForms::a_new_function, crate::proofs::GivenForms::no_function))]
fn is_function(code: &Code) -> bool
    ensures { result ≡ is_function (code_of code.now) }
{
    match code {
        Code::Function { .. } => true,
        Code::NewFunction { .. } => true,
        _ => false,
    }
}

/// What names the function of a private member, or one that is opened, is given it. Fails on allocation failure alone.
#[tactic(auto, using(crate::proofs::GivenForms::function_given, crate::proofs::GivenForms::other_given))]
pub fn given_function(
    alloc: Global,
    node: u32,
    spelling: Name,
    generated: GeneratedKind,
    right: &mut Code,
) -> Result<Code, AllocError>
    ensures { IfOk result (λ e. code_of e ≡ spec.given_function node spelling generated (code_of right.old)) }
{
    if is_function(right) {
        let function = Boxed::new(alloc, mem::replace(right, Code::nothing()))?;
        Ok(Code::give_function(node, spelling, generated, function))
    } else {
        Ok(Code::no_rule())
    }
}

// ---- what nothing of the source has

fn is_free_referent(referent: &Referent) -> bool
    ensures { result ≡ is_free_referent (referent_of referent.now) }
{
    matches!(referent, Referent::Free(_))
}

fn is_free_kind(kind: &NameKind) -> bool
    ensures { result ≡ is_free_kind (kind_of kind.now) }
{
    match kind {
        NameKind::Changing(referent) => is_free_referent(referent),
        _ => false,
    }
}

#[tactic(auto, using(es_base::proofs::Ascii::chars_ascii))]
fn is_free_spelled(word: &str, spelling: &Name, kind: &NameKind) -> bool
    requires { is_ascii word.now ≡ true }
    ensures { result ≡ is_free_named word.now (of.name 0 spelling.now (kind_of kind.now)) }
{
    is_free_kind(kind) && is_word(spelling.as_str(), word)
}

/// A free name that is spelled so.
#[tactic(auto, using(crate::proofs::GivenForms::a_name, crate::proofs::GivenForms::no_name))]
fn is_free_named(word: &str, code: &Code) -> bool
    requires { is_ascii word.now ≡ true }
    ensures { result ≡ is_free_named word.now (code_of code.now) }
{
    match code {
        Code::Name { spelling, kind, .. } => is_free_spelled(word, spelling, kind),
        _ => false,
    }
}

/// Whether there are no codes.
#[tactic(auto, using(crate::proofs::GivenForms::none_held))]
fn is_none(codes: &List<Code>) -> bool
    ensures { result ≡ is_none (codes_of codes.now) }
{
    codes.is_empty()
}

fn makes_collection(
    c: &Context,
    word: &str,
    node: u32,
    callee: &Code,
    arguments: &List<Code>,
) -> bool
    requires { is_ascii word.now ≡ true }
    ensures { result ≡ makes_collection (context_of c.now) word.now node (code_of callee.now) (codes_of arguments.now) }
{
    is_none(arguments) && is_free_named(word, callee) && is_new(c.terms.first_new, node)
}

/// `new WeakMap()`, new, by the name of the collection.
#[tactic(auto, using(crate::proofs::GivenForms::a_construction, crate::proofs::GivenForms::no_construction))]
fn is_new_collection(c: &Context, word: &str, code: &Code) -> bool
    requires { is_ascii word.now ≡ true }
    ensures { result ≡ spec.is_new_collection (context_of c.now) word.now (code_of code.now) }
{
    match code {
        Code::Construct {
            node,
            callee,
            arguments,
        } => makes_collection(c, word, *node, callee.get(), arguments),
        _ => false,
    }
}

fn is_loose_key(helper: Helper) -> bool
    ensures { result ≡ is_loose_key (helper_of helper) }
{
    matches!(helper, Helper::ClassPrivateFieldLooseKey)
}

#[tactic(auto, using(crate::proofs::GivenForms::no_constant, crate::proofs::GivenForms::more_constants))]
fn is_one_constant(codes: &[Code]) -> bool
    ensures { result ≡ is_one_constant (codes_of codes.now) }
{
    match codes {
        [only] => is_constant(only),
        _ => false,
    }
}

/// `babelHelpers.classPrivateFieldLooseKey("x")`
#[tactic(auto, using(crate::proofs::GivenForms::a_helper_call, crate::proofs::GivenForms::no_helper_call))]
fn is_loose_key_call(code: &Code) -> bool
    ensures { result ≡ spec.is_loose_key_call (code_of code.now) }
{
    match code {
        Code::HelperCall {
            helper,
            arguments,
            ..
        } => is_loose_key(*helper) && is_one_constant(arguments.as_slice()),
        _ => false,
    }
}

/// No step, and a value that nothing of the source has.
fn only_if(is_made: bool, node: u32) -> Code
    ensures { code_of result ≡ spec.only_if is_made node }
{
    if is_made {
        Code::value(Value::result_of(node))
    } else {
        Code::no_rule()
    }
}

// ---- `S = { _: v }`

fn field_with(node: u32, member: &PrivateMember, is_underscored: bool, value: Boxed<Code>) -> Code
    ensures { code_of result ≡ field_with node member.now.node member.now.class is_underscored (code_of value) }
{
    if is_underscored {
        let class = Value::class_of(member.class);
        Code::private_initialize(node, member.node, class, value)
    } else {
        drop(value);
        Code::no_rule()
    }
}

fn field_in(node: u32, member: &PrivateMember, property: Property) -> Code
    ensures { code_of result ≡ field_with node member.now.node member.now.class (spec.is_string (codes "_") (code_of property.key)) (code_of property.value) }
{
    let Property { key, value } = property;
    let is_underscored = is_string("_", key.get());
    drop(key);
    field_with(node, member, is_underscored, value)
}

/// The object of a static field, which holds its value.
fn field_object(node: u32, member: Option<PrivateMember>, property: Option<Property>) -> Code
    ensures { code_of result ≡ spec.field_object node (option_map private_member_of member.entry) (option_map property_of property) }
{
    match property {
        Some(property) => match member {
            Some(member) => field_in(node, &member, property),
            None => {
                drop(property);
                Code::no_rule()
            }
        },
        None => Code::no_rule(),
    }
}

/// What the object of a static field is given. Fails on allocation failure alone.
fn given_object(
    alloc: Global,
    c: &Context,
    node: u32,
    name: Code,
    right: &mut Code,
) -> Result<Code, AllocError>
    ensures { IfOk result (λ e. code_of e ≡ spec.field_object node (spec.static_field (context_of c.now) (code_of name)) (spec.single_property (context_of c.now) (code_of right.old))) }
{
    let member = static_field(c, &name);
    drop(name);
    let property = single_property(alloc, c, mem::replace(right, Code::nothing()))?;
    Ok(field_object(node, member, property))
}

// ---- by the kind of the name

/// What a generated name of this number and spelling is given at a node, by a declarator or an assignment. Fails on allocation
/// failure alone.
pub fn given(
    alloc: Global,
    c: &Context,
    node: u32,
    binding: u32,
    spelling: Name,
    generated: GeneratedKind,
    right: &mut Code,
) -> Result<Code, AllocError>
    ensures { IfOk result (λ e. code_of e ≡ spec.given (context_of c.now) node binding spelling generated (code_of right.old)) }
{
    match generated {
        GeneratedKind::Temp => given_value(alloc, binding, spelling, right),
        GeneratedKind::ClassTemp(class) => given_class(alloc, class.0, right),
        GeneratedKind::WeakMap(_) => Ok(only_if(is_new_collection(c, "WeakMap", right), node)),
        GeneratedKind::StaticField(_) => {
            let name = Code::name(binding, spelling, NameKind::Generated(generated));
            given_object(alloc, c, node, name, right)
        }
        GeneratedKind::Brand(_) => Ok(only_if(is_new_collection(c, "WeakSet", right), node)),
        GeneratedKind::LooseKey(_) => Ok(only_if(is_loose_key_call(right), node)),
        GeneratedKind::Method(_) => given_function(alloc, node, spelling, generated, right),
        GeneratedKind::SuperFn(_) => given_function(alloc, node, spelling, generated, right),
        GeneratedKind::Closure => given_function(alloc, node, spelling, generated, right),
        GeneratedKind::Param => Ok(Code::no_rule()),
        GeneratedKind::Args => Ok(Code::no_rule()),
        GeneratedKind::Private(_) => Ok(Code::no_rule()),
    }
}
