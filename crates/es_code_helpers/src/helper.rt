// Which helper the member `babelHelpers.h` is.

ghost use Rattle.std.specs.Prelude.{◌≡◌, drop, option_map, true};
ghost use Rattle.std.specs.Option.{option_map_or};
ghost use Rattle.std.specs.Str.{chars};
ghost use Rattle.es_codes.specs.CodeView.{code_of, helper_of};
ghost use Rattle.es_codes.specs.View.{kind_of};
ghost use Rattle.es_steps.specs.Code as of;
ghost use Rattle.es_steps.specs.GeneratedForms as spec;
ghost use Rattle.es_steps.specs.Helpers as helpers;
ghost use Rattle.es_code_helpers.specs.HelperNames.{names_helpers};
ghost use Rattle.es_code_reading.specs.Contexts.{context_of};

use es_base::name::Name;
use es_base::strings::spells;
use es_code_reading::context::Context;
use es_codes::code::{Code, Helper};
use es_codes::name::{NameKind, Referent};
use es_generated::numbers::is_new;

// ---- helpers by their names, in the order of the definitions

/// The helper of this name.
pub fn helper_named(name: &str) -> Option<Helper>
    ensures { option_map helper_of result ≡ helpers.helper_named (chars name.now) }
{
    if spells(name, "defineProperty") {
        Some(Helper::DefineProperty)
    } else if spells(name, "classPrivateFieldInitSpec") {
        Some(Helper::ClassPrivateFieldInitSpec)
    } else if spells(name, "classPrivateMethodInitSpec") {
        Some(Helper::ClassPrivateMethodInitSpec)
    } else {
        access_named(name)
    }
}

/// Behind those that define.
fn access_named(name: &str) -> Option<Helper>
    ensures { option_map helper_of result ≡ helpers.helper_in (chars name.now) (drop 3 helpers.helper_names) }
{
    if spells(name, "classPrivateFieldGet2") {
        Some(Helper::ClassPrivateFieldGet2)
    } else if spells(name, "classPrivateFieldSet2") {
        Some(Helper::ClassPrivateFieldSet2)
    } else if spells(name, "assertClassBrand") {
        Some(Helper::AssertClassBrand)
    } else if spells(name, "toSetter") {
        Some(Helper::ToSetter)
    } else if spells(name, "checkInRHS") {
        Some(Helper::CheckInRHS)
    } else {
        other_named(name)
    }
}

/// Behind those that read and write private members.
fn other_named(name: &str) -> Option<Helper>
    ensures { option_map helper_of result ≡ helpers.helper_in (chars name.now) (drop 8 helpers.helper_names) }
{
    if spells(name, "readOnlyError") {
        Some(Helper::ReadOnlyError)
    } else if spells(name, "writeOnlyError") {
        Some(Helper::WriteOnlyError)
    } else if spells(name, "superPropGet") {
        Some(Helper::SuperPropGet)
    } else if spells(name, "superPropSet") {
        Some(Helper::SuperPropSet)
    } else {
        key_named(name)
    }
}

/// Behind those that throw, and those of `super`.
fn key_named(name: &str) -> Option<Helper>
    ensures { option_map helper_of result ≡ helpers.helper_in (chars name.now) (drop 12 helpers.helper_names) }
{
    if spells(name, "classPrivateFieldLooseKey") {
        Some(Helper::ClassPrivateFieldLooseKey)
    } else if spells(name, "classPrivateFieldLooseBase") {
        Some(Helper::ClassPrivateFieldLooseBase)
    } else if spells(name, "setFunctionName") {
        Some(Helper::SetFunctionName)
    } else if spells(name, "toPropertyKey") {
        Some(Helper::ToPropertyKey)
    } else {
        None
    }
}

// ---- the member

fn names_helpers(c: &Context, node: u32, name: &Name, kind: &NameKind) -> bool
    ensures { result ≡ names_helpers (context_of c.now) node name.now (kind_of kind.now) }
{
    match kind {
        NameKind::Changing(Referent::Free(_)) => {
            is_new(c.terms.first_new, node) && spells(name.as_str(), "babelHelpers")
        }
        _ => false,
    }
}

/// Whether it is a `babelHelpers` that a lowering made.
#[tactic(auto, using(crate::proofs::HelperForms::a_name, crate::proofs::HelperForms::no_name))]
pub fn is_helper_object(c: &Context, code: &Code) -> bool
    ensures { result ≡ spec.is_helper_object (context_of c.now) (code_of code.now) }
{
    match code {
        Code::Name {
            node,
            spelling,
            kind,
        } => names_helpers(c, *node, spelling, kind),
        _ => false,
    }
}

fn helper_or_none(helper: Option<Helper>) -> Code
    ensures { code_of result ≡ spec.helper_or_none (option_map helper_of helper) }
{
    match helper {
        Some(helper) => Code::helper(helper),
        None => Code::no_rule(),
    }
}

/// The helper that a key names which is not computed; none, where the key is no name.
#[tactic(auto, using(crate::proofs::HelperForms::a_spelling, crate::proofs::HelperForms::no_spelling))]
pub fn helper_or(key: &Code) -> Option<Code>
    ensures { (whole : of.Code) → option_map_or code_of result whole ≡ spec.helper_or true (code_of key.now) whole }
{
    match key {
        Code::Spelled { spelling } => Some(helper_or_none(helper_named(spelling.as_str()))),
        _ => None,
    }
}

/// The helper that `babelHelpers.h` is, by the object and the key of the member; none, where the member is another one.
#[tactic(auto, using(crate::proofs::HelperForms::of_helpers, crate::proofs::HelperForms::of_others))]
pub fn helper_member(c: &Context, is_computed: bool, object: &Code, key: &Code) -> Option<Code>
    ensures { (whole : of.Code) → option_map_or code_of result whole ≡ spec.helper_member (context_of c.now) is_computed (code_of object.now) (code_of key.now) whole }
{
    if is_helper_object(c, object) && !is_computed {
        helper_or(key)
    } else {
        None
    }
}
