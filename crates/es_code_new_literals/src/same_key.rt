// Whether two keys of a generated form are the same.

ghost use Rattle.std.specs.Prelude.{◌≡◌, option_map};
ghost use Rattle.es_codes.specs.CodeView.{code_of};
ghost use Rattle.es_codes.specs.Constants.{constant_of, origin_of};
ghost use Rattle.es_codes.specs.View.{kind_of};
ghost use Rattle.es_steps.specs.Code as of;
ghost use Rattle.es_steps.specs.GeneratedForms as generated;
ghost use Rattle.es_steps.specs.Values as values;
ghost use Rattle.es_code_new_literals.specs.Keys as spec;

use es_base::name::Name;
use es_base::strings::is_word;
use es_codes::code::Code;
use es_codes::name::NameKind;
use es_codes::value::{Constant, Origin, Value};

/// The string that a constant is.
fn string_of_constant(constant: &Constant) -> Option<&Name>
    ensures { option_map (λ s. s.now) result ≡ spec.string_in_constant (constant_of constant.now) }
{
    match constant {
        Constant::StringOf(string) => Some(string),
        _ => None,
    }
}

fn string_of_origin(origin: &Origin) -> Option<&Name>
    ensures { option_map (λ s. s.now) result ≡ spec.string_in_value (origin_of origin.now) }
{
    match origin {
        Origin::ConstantOf(constant) => string_of_constant(constant),
        _ => None,
    }
}

#[tactic(auto, using(crate::proofs::KeyForms::key_no_string))]
fn string_of_value(value: &Value) -> Option<&Name>
    ensures { option_map (λ s. s.now) result ≡ spec.string_in_value value.now }
{
    match value.origin() {
        Some(origin) => string_of_origin(origin),
        None => None,
    }
}

#[tactic(auto, using(crate::proofs::KeyForms::a_value, crate::proofs::KeyForms::no_value))]
fn string_of(code: &Code) -> Option<&Name>
    ensures { option_map (λ s. s.now) result ≡ spec.string_in (code_of code.now) }
{
    match code {
        Code::Value { value } => string_of_value(value),
        _ => None,
    }
}

fn if_generated<'a>(spelling: &'a Name, kind: &NameKind) -> Option<&'a Name>
    ensures { option_map (λ s. s.now) result ≡ spec.if_generated spelling.now (kind_of kind.now) }
{
    match kind {
        NameKind::Generated(_) => Some(spelling),
        _ => None,
    }
}

/// The spelling of the generated name that a code is.
#[tactic(auto, using(crate::proofs::KeyForms::a_name, crate::proofs::KeyForms::no_name))]
fn generated_of(code: &Code) -> Option<&Name>
    ensures { option_map (λ s. s.now) result ≡ spec.generated_in (code_of code.now) }
{
    match code {
        Code::Name { spelling, kind, .. } => if_generated(spelling, kind),
        _ => None,
    }
}

/// The spelling of the generated private element whose value a code is.
#[tactic(auto, using(crate::proofs::KeyForms::a_private_value, crate::proofs::KeyForms::no_private_value))]
fn private_of(code: &Code) -> Option<&Name>
    ensures { option_map (λ s. s.now) result ≡ spec.private_in (code_of code.now) }
{
    match code {
        Code::PrivateValue { spelling } => Some(spelling),
        _ => None,
    }
}

/// Whether both are there and the same.
fn is_same(left: Option<&Name>, right: Option<&Name>) -> bool
    ensures { result ≡ spec.is_same (option_map (λ s. s.now) left.entry) (option_map (λ s. s.now) right.entry) }
{
    match left {
        Some(left) => match right {
            Some(right) => is_word(right.as_str(), left.as_str()),
            None => false,
        },
        None => false,
    }
}

/// Whether a key is the same again, as both `k` in `({ k: e })[k]`: a string, a generated name, or what a generated private
/// element holds.
#[tactic(auto, using(crate::proofs::KeyForms::same_key))]
pub fn is_same_key(key: &Code, other: &Code) -> bool
    ensures { result ≡ generated.is_same_key (code_of key.now) (code_of other.now) }
{
    is_same(string_of(key), string_of(other))
        || is_same(generated_of(key), generated_of(other))
        || is_same(private_of(key), private_of(other))
}

/// Whether a key is the same as a constant, as both `k` in `({ k: e })[k]`.
#[tactic(auto, using(crate::proofs::KeyForms::same_constant_key))]
pub fn is_same_constant_key(key: &Code, constant: &Constant) -> bool
    ensures { result ≡ generated.is_same_key (code_of key.now) (of.value (values.ConstantOf (constant_of constant.now))) }
{
    is_same(string_of(key), string_of_constant(constant))
}
