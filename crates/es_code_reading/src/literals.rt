// Whether a code is a literal.

ghost use Rattle.std.specs.Prelude.{◌≡◌, true};
ghost use Rattle.es_base.specs.Ascii.{is_ascii};
ghost use Rattle.es_codes.specs.CodeView.{code_of};
ghost use Rattle.es_codes.specs.Constants.{origin_of};
ghost use Rattle.es_steps.specs.GeneratedForms as spec;
ghost use Rattle.es_code_reading.specs.Letters.{is_constant_value, is_null_value, is_number_value, is_string_value, is_undefined_value};

use crate::form::value_of;
use es_base::strings::is_word;
use es_codes::code::Code;
use es_codes::value::{Constant, Origin, Value};

fn is_string_origin(string: &str, origin: &Origin) -> bool
    requires { is_ascii string.now ≡ true }
    ensures { result ≡ is_string_value string.now (origin_of origin.now) }
{
    match origin {
        Origin::ConstantOf(constant) => is_string_constant(string, constant),
        _ => false,
    }
}

#[tactic(auto, using(es_base::proofs::Ascii::chars_ascii))]
fn is_string_constant(string: &str, constant: &Constant) -> bool
    requires { is_ascii string.now ≡ true }
    ensures { result ≡ is_string_value string.now (origin_of (Origin.ConstantOf constant.now)) }
{
    match constant {
        Constant::StringOf(name) => is_word(name.as_str(), string),
        _ => false,
    }
}

#[tactic(auto, using(crate::proofs::Known::key_no_string))]
fn is_string_value(string: &str, value: &Value) -> bool
    requires { is_ascii string.now ≡ true }
    ensures { result ≡ is_string_value string.now value.now }
{
    match value.origin() {
        Some(origin) => is_string_origin(string, origin),
        None => false,
    }
}

/// Whether it is this string.
#[tactic(auto, using(crate::proofs::Known::string_valued, crate::proofs::Known::string_unvalued))]
pub fn is_string(string: &str, code: &Code) -> bool
    requires { is_ascii string.now ≡ true }
    ensures { result ≡ spec.is_string string.now (code_of code.now) }
{
    match value_of(code) {
        Some(value) => is_string_value(string, value),
        None => false,
    }
}

fn is_number_origin(raw: &str, origin: &Origin) -> bool
    requires { is_ascii raw.now ≡ true }
    ensures { result ≡ is_number_value raw.now (origin_of origin.now) }
{
    match origin {
        Origin::ConstantOf(constant) => is_number_constant(raw, constant),
        _ => false,
    }
}

#[tactic(auto, using(es_base::proofs::Ascii::chars_ascii))]
fn is_number_constant(raw: &str, constant: &Constant) -> bool
    requires { is_ascii raw.now ≡ true }
    ensures { result ≡ is_number_value raw.now (origin_of (Origin.ConstantOf constant.now)) }
{
    match constant {
        Constant::NumberOf(name) => is_word(name.as_str(), raw),
        _ => false,
    }
}

#[tactic(auto, using(crate::proofs::Known::key_no_number))]
fn is_number_value(raw: &str, value: &Value) -> bool
    requires { is_ascii raw.now ≡ true }
    ensures { result ≡ is_number_value raw.now value.now }
{
    match value.origin() {
        Some(origin) => is_number_origin(raw, origin),
        None => false,
    }
}

/// Whether it is the number that is written so.
#[tactic(auto, using(crate::proofs::Known::number_valued, crate::proofs::Known::number_unvalued))]
pub fn is_number_literal(raw: &str, code: &Code) -> bool
    requires { is_ascii raw.now ≡ true }
    ensures { result ≡ spec.is_number_literal raw.now (code_of code.now) }
{
    match value_of(code) {
        Some(value) => is_number_value(raw, value),
        None => false,
    }
}

fn is_constant_origin(origin: &Origin) -> bool
    ensures { result ≡ is_constant_value (origin_of origin.now) }
{
    matches!(origin, Origin::ConstantOf(_))
}

/// Whether a value is a constant.
#[tactic(auto, using(crate::proofs::Known::key_no_constant))]
pub fn is_constant_value(value: &Value) -> bool
    ensures { result ≡ is_constant_value value.now }
{
    match value.origin() {
        Some(origin) => is_constant_origin(origin),
        None => false,
    }
}

/// Whether it is a constant.
#[tactic(auto, using(crate::proofs::Known::constant_valued, crate::proofs::Known::constant_unvalued))]
pub fn is_constant(code: &Code) -> bool
    ensures { result ≡ spec.is_constant (code_of code.now) }
{
    match value_of(code) {
        Some(value) => is_constant_value(value),
        None => false,
    }
}

fn is_null_origin(origin: &Origin) -> bool
    ensures { result ≡ is_null_value (origin_of origin.now) }
{
    match origin {
        Origin::ConstantOf(constant) => is_null_constant(constant),
        _ => false,
    }
}

fn is_null_constant(constant: &Constant) -> bool
    ensures { result ≡ is_null_value (origin_of (Origin.ConstantOf constant.now)) }
{
    matches!(constant, Constant::Null)
}

#[tactic(auto, using(crate::proofs::Known::key_no_null))]
fn is_null_value(value: &Value) -> bool
    ensures { result ≡ is_null_value value.now }
{
    match value.origin() {
        Some(origin) => is_null_origin(origin),
        None => false,
    }
}

/// Whether it is `null`.
#[tactic(auto, using(crate::proofs::Known::null_valued, crate::proofs::Known::null_unvalued))]
pub fn is_null(code: &Code) -> bool
    ensures { result ≡ spec.is_null (code_of code.now) }
{
    match value_of(code) {
        Some(value) => is_null_value(value),
        None => false,
    }
}

fn is_undefined_origin(origin: &Origin) -> bool
    ensures { result ≡ is_undefined_value (origin_of origin.now) }
{
    matches!(origin, Origin::Undefined)
}

#[tactic(auto, using(crate::proofs::Known::key_no_undefined))]
fn is_undefined_value(value: &Value) -> bool
    ensures { result ≡ is_undefined_value value.now }
{
    match value.origin() {
        Some(origin) => is_undefined_origin(origin),
        None => false,
    }
}

/// Whether it is `void 0`.
#[tactic(auto, using(crate::proofs::Known::undefined_valued, crate::proofs::Known::undefined_unvalued))]
pub fn is_undefined(code: &Code) -> bool
    ensures { result ≡ spec.is_undefined (code_of code.now) }
{
    match value_of(code) {
        Some(value) => is_undefined_value(value),
        None => false,
    }
}
