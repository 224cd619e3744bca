// Names and keywords. (ECMA-262, 13.1, 13.2.1 and 13.3.12.)

ghost use Rattle.std.specs.Prelude.{◌≡◌, IfOk};
ghost use Rattle.es_codes.specs.CodeView.{code_of};
ghost use Rattle.es_codes.specs.View.{kind_of, referent_of};
ghost use Rattle.es_steps.specs.Code as of;
ghost use Rattle.es_steps.specs.Context as contexts;
ghost use Rattle.es_steps.specs.Context.{Changing};
ghost use Rattle.es_steps.specs.Expressions as spec;
ghost use Rattle.es_steps.specs.Members as members;
ghost use Rattle.es_steps.specs.Values.{Free};
ghost use Rattle.es_code_members.specs.MembersView.{member_of};
ghost use Rattle.es_code_reading.specs.Contexts.{context_of};
ghost use Rattle.es_code_places.specs.NameForms.{generated_kind};

use es_base::ledger::GeneratedKind;
use es_base::name::Name;
use es_base::strings::spells;
use es_code_members::member::{Member, copy_word, word_of};
use es_code_reading::context::{Context, This};
use es_code_reading::name_kind::name_kind;
use es_code_reading::private_name::{method_kind, private_reference};
use es_codes::code::Code;
use es_codes::name::{NameKind, Referent};
use es_codes::value::{Origin, Value};
use es_shapes::facts::NameFacts;
use std::alloc::{AllocError, Global};

// ---- names that are evaluated

/// `arguments`, a free name: that of the function around, if there is one, which varies where one is written anywhere. Fails on
/// allocation failure alone.
#[tactic(auto, using(crate::proofs::NameForms::no_arguments))]
fn arguments_code(alloc: Global, c: &Context, node: u32, name: Name) -> Result<Code, AllocError>
    ensures { IfOk result (λ e. code_of e ≡ spec.arguments_of (context_of c.now).writes_arguments node name (context_of c.now).arguments) }
{
    match c.around.arguments {
        Some(function) => {
            if c.terms.names.changes_arguments() {
                let kind = NameKind::Changing(Referent::Bound(function));
                Ok(Code::name(node, name, kind))
            } else {
                Ok(Code::value(Value::of(Origin::ArgumentsOf(function))))
            }
        }
        None => {
            let spelling = name.try_clone(alloc)?;
            Ok(Code::name(node, name, NameKind::Changing(Referent::Free(spelling))))
        }
    }
}

fn free_name(
    alloc: Global,
    c: &Context,
    node: u32,
    name: Name,
    spelling: Name,
) -> Result<Code, AllocError>
    ensures { IfOk result (λ e. code_of e ≡ spec.name_or_arguments (context_of c.now) node name (Changing (Free spelling))) }
{
    if spells(name.as_str(), "arguments") {
        arguments_code(alloc, c, node, name)
    } else {
        Ok(Code::name(node, name, NameKind::Changing(Referent::Free(spelling))))
    }
}

/// A name that is not generated, of a binding that varies or none. Fails on allocation failure alone.
fn changing_name(
    alloc: Global,
    c: &Context,
    node: u32,
    name: Name,
    referent: Referent,
) -> Result<Code, AllocError>
    ensures { IfOk result (λ e. code_of e ≡ spec.name_or_arguments (context_of c.now) node name (Changing (referent_of referent))) }
{
    match referent {
        Referent::Free(spelling) => free_name(alloc, c, node, name, spelling),
        Referent::Bound(binding) => {
            let kind = NameKind::Changing(Referent::Bound(binding));
            Ok(Code::name(node, name, kind))
        }
    }
}

/// What a generated name is where it is evaluated.
#[tactic(auto, using(crate::proofs::NameForms::other_generated))]
fn generated_kind(c: &Context, generated: GeneratedKind) -> NameKind
    ensures { kind_of result ≡ generated_kind (context_of c.now) generated }
{
    match generated {
        GeneratedKind::Method(key) => method_kind(c, key),
        other => NameKind::Generated(other),
    }
}

/// A name of this kind. Fails on allocation failure alone.
#[tactic(auto, using(crate::proofs::NameForms::generated_name, crate::proofs::NameForms::steady_name))]
fn name_of_kind(
    alloc: Global,
    c: &Context,
    node: u32,
    name: Name,
    kind: NameKind,
) -> Result<Code, AllocError>
    ensures { IfOk result (λ e. code_of e ≡ spec.name_or_arguments (context_of c.now) node name (kind_of kind)) }
{
    match kind {
        NameKind::Changing(referent) => changing_name(alloc, c, node, name, referent),
        NameKind::Generated(generated) => Ok(Code::name(node, name, generated_kind(c, generated))),
        other => Ok(Code::name(node, name, other)),
    }
}

/// `x`. Fails on allocation failure alone.
pub fn name_code(alloc: Global, c: &Context, node: u32, name: &Member) -> Result<Code, AllocError>
    ensures { IfOk result (λ e. code_of e ≡ spec.name_code (context_of c.now) node (members.word_of (member_of name.now))) }
{
    let spelling = copy_word(alloc, name)?;
    let kind = name_kind(alloc, c, word_of(name))?;
    name_of_kind(alloc, c, node, spelling, kind)
}

// ---- names that are not

/// A name that is declared: that of a parameter. Fails on allocation failure alone.
pub fn binding_code(
    alloc: Global,
    c: &Context,
    node: u32,
    name: &Member,
) -> Result<Code, AllocError>
    ensures { IfOk result (λ e. code_of e ≡ of.binding node (members.word_of (member_of name.now)) (contexts.name_kind (context_of c.now) (members.word_of (member_of name.now)))) }
{
    let spelling = copy_word(alloc, name)?;
    let kind = name_kind(alloc, c, word_of(name))?;
    Ok(Code::binding(node, spelling, kind))
}

/// A label, or a key that is not computed. Fails on allocation failure alone.
pub fn spelled_code(alloc: Global, name: &Member) -> Result<Code, AllocError>
    ensures { IfOk result (λ e. code_of e ≡ of.spelled (members.word_of (member_of name.now))) }
{
    Ok(Code::spelled(copy_word(alloc, name)?))
}

/// `#x`. Fails on allocation failure alone.
pub fn private_name_code(
    alloc: Global,
    c: &Context,
    node: u32,
    name: &Member,
) -> Result<Code, AllocError>
    ensures { IfOk result (λ e. code_of e ≡ spec.private_name_code (context_of c.now) node (members.word_of (member_of name.now))) }
{
    let spelling = copy_word(alloc, name)?;
    let means = private_reference(c, word_of(name));
    Ok(Code::private_name(node, spelling, means))
}

// ---- keywords

/// `this`
pub fn this_code(c: &Context) -> Code
    ensures { code_of result ≡ of.value (context_of c.now).this }
{
    match c.around.this {
        This::Of(function) => Code::value(Value::of(Origin::ThisOf(function))),
        This::Class(class) => Code::value(Value::of(Origin::ClassOf(class))),
    }
}

/// `new.target`
pub fn new_target_code(c: &Context) -> Code
    ensures { code_of result ≡ of.value (context_of c.now).new_target }
{
    match c.around.new_target {
        Some(function) => Code::value(Value::of(Origin::NewTargetOf(function))),
        None => Code::value(Value::undefined()),
    }
}
