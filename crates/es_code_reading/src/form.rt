// What a code is, seen by reference.

ghost use Rattle.std.specs.Prelude.{◌≡◌, option_map};
ghost use Rattle.es_codes.specs.CodeView.{code_of};
ghost use Rattle.es_codes.specs.View.{kind_of};
ghost use Rattle.es_code_reading.specs.Letters.{name_kind_in, value_in};

use es_codes::code::Code;
use es_codes::name::NameKind;
use es_codes::value::Value;

/// What the name is that a code is.
pub fn kind_of_name(code: &Code) -> Option<&NameKind>
    ensures { option_map (λ k. kind_of k.now) result ≡ name_kind_in (code_of code.now) }
{
    match code {
        Code::Name { kind, .. } => Some(kind),
        _ => None,
    }
}

/// The value that a code is.
pub fn value_of(code: &Code) -> Option<&Value>
    ensures { option_map (λ v. v.now) result ≡ value_in (code_of code.now) }
{
    match code {
        Code::Value { value } => Some(value),
        _ => None,
    }
}
