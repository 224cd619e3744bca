// Keys of elements of classes that are not computed.

ghost use Rattle.std.specs.Prelude.{◌≡◌, option_map};
ghost use Rattle.std.specs.Str.{chars};
ghost use Rattle.es_codes.specs.CodeView.{code_of, field_form_of};
ghost use Rattle.es_codes.specs.Constants.{origin_of};
ghost use Rattle.es_steps.specs.Members as members;
ghost use Rattle.es_steps.specs.Options as asked;
ghost use Rattle.es_steps.specs.Statements as spec;
ghost use Rattle.es_code_reading.specs.Letters.{key_string, string_in};

use crate::inside::is_constructor;
use crate::letters::is_loose;
use es_base::name::Name;
use es_base::strings::spells;
use es_codes::code::{Code, FieldForm};
use es_codes::value::{Constant, Origin, Value};
use es_steps::options::Options;

fn string_of_constant(constant: &Constant) -> Option<&Name>
    ensures { option_map (λ s. s.now) result ≡ string_in (origin_of (Origin.ConstantOf constant.now)) }
{
    match constant {
        Constant::StringOf(string) => Some(string),
        _ => None,
    }
}

fn string_of_origin(origin: &Origin) -> Option<&Name>
    ensures { option_map (λ s. s.now) result ≡ string_in (origin_of origin.now) }
{
    match origin {
        Origin::ConstantOf(constant) => string_of_constant(constant),
        _ => None,
    }
}

#[tactic(auto, using(crate::proofs::StringKeys::no_string))]
fn string_of_value(value: &Value) -> Option<&Name>
    ensures { option_map (λ s. s.now) result ≡ string_in value.now }
{
    match value.origin() {
        Some(origin) => string_of_origin(origin),
        None => None,
    }
}

/// The string that a key is that is not computed.
#[tactic(auto, using(crate::proofs::StringKeys::of_spelled, crate::proofs::StringKeys::of_value, crate::proofs::StringKeys::of_others))]
pub fn key_string(key: &Code) -> Option<&Name>
    ensures { option_map (λ s. s.now) result ≡ key_string (code_of key.now) }
{
    match key {
        Code::Spelled { spelling } => Some(spelling),
        Code::Value { value } => string_of_value(value),
        _ => None,
    }
}

/// Whether a key that is not computed names a constructor.
#[tactic(auto, using(crate::proofs::StringKeys::a_constructor, crate::proofs::StringKeys::no_constructor))]
pub fn is_constructor_key(key: &Code) -> bool
    ensures { result ≡ spec.is_constructor_key (code_of key.now) }
{
    match key_string(key) {
        Some(string) => is_constructor(string.as_str()),
        None => false,
    }
}

fn is_name_string(string: &str) -> bool
    ensures { result ≡ spec.is_name_string (chars string.now) }
{
    spells(string, "name") || spells(string, "length")
}

/// Whether a key that is not computed is `name` or `length`: a static field of one of these is defined also where others are
/// set.
#[tactic(auto, using(crate::proofs::StringKeys::a_name, crate::proofs::StringKeys::no_name))]
pub fn is_name_or_length(key: &Code) -> bool
    ensures { result ≡ spec.is_name_or_length (code_of key.now) }
{
    match key_string(key) {
        Some(string) => is_name_string(string.as_str()),
        None => false,
    }
}

/// Whether public fields are set and not defined.
fn sets_fields(options: &Options) -> bool
    ensures { result ≡ asked.sets_fields options.now }
{
    options.es2022.class_properties.is_some()
        && (is_loose(options.es2022.class_properties)
            || options.assumptions.set_public_class_fields)
}

/// What the options make of a public field with this key, which has no initializer or has one.
#[tactic(auto, using(crate::proofs::FieldForms::left_out, crate::proofs::FieldForms::set, crate::proofs::FieldForms::defined))]
pub fn field_form(options: &Options, is_static: bool, key: &Code, is_absent: bool) -> FieldForm
    ensures { (init : members.Member) → is_absent ≡ spec.is_absent init → field_form_of result ≡ spec.field_form options.now is_static (code_of key.now) init }
{
    if sets_fields(options) && options.remove_class_fields_without_initializer && is_absent {
        FieldForm::LeavesOut
    } else if sets_fields(options) && !(is_static && is_name_or_length(key)) {
        FieldForm::Sets
    } else {
        FieldForm::Defines
    }
}
