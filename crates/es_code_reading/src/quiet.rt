// Keys without an event, and what has a name.

ghost use Rattle.std.specs.Prelude.{◌≡◌};
ghost use Rattle.es_codes.specs.CodeView.{code_of};
ghost use Rattle.es_codes.specs.Constants.{origin_of};
ghost use Rattle.es_codes.specs.View.{kind_of};
ghost use Rattle.es_steps.specs.GeneratedForms as spec;
ghost use Rattle.es_code_reading.specs.Letters.{is_class_value, is_temporary, means_class};

use crate::literals::is_constant_value;
use es_base::ledger::GeneratedKind;
use es_codes::code::Code;
use es_codes::name::NameKind;
use es_codes::value::{Origin, Value};

/// Whether it is a generated name of a temporary or a parameter.
fn is_temporary(kind: &NameKind) -> bool
    ensures { result ≡ is_temporary (kind_of kind.now) }
{
    match kind {
        NameKind::Generated(GeneratedKind::Temp) => true,
        NameKind::Generated(GeneratedKind::Param) => true,
        _ => false,
    }
}

/// Whether a name of a function has no event: a constant, a temporary, or what a generated private element holds.
#[tactic(auto, using(crate::proofs::QuietForms::quiet_value, crate::proofs::QuietForms::quiet_name, crate::proofs::QuietForms::quiet_private, crate::proofs::QuietForms::not_quiet))]
pub fn is_quiet_key(code: &Code) -> bool
    ensures { result ≡ spec.is_quiet_key (code_of code.now) }
{
    match code {
        Code::Value { value } => is_constant_value(value),
        Code::Name { kind, .. } => is_temporary(kind),
        Code::PrivateValue { .. } => true,
        _ => false,
    }
}

fn is_class_origin(origin: &Origin) -> bool
    ensures { result ≡ is_class_value (origin_of origin.now) }
{
    matches!(origin, Origin::ClassOf(_))
}

#[tactic(auto, using(crate::proofs::Known::key_no_class))]
fn is_class_value(value: &Value) -> bool
    ensures { result ≡ is_class_value value.now }
{
    match value.origin() {
        Some(origin) => is_class_origin(origin),
        None => false,
    }
}

fn means_class(kind: &NameKind) -> bool
    ensures { result ≡ means_class (kind_of kind.now) }
{
    matches!(kind, NameKind::MeansClass { .. })
}

/// Whether `setFunctionName` may name it: a function, an arrow, a class where it is made, and a class by `this` or its
/// name.
#[tactic(auto, using(crate::proofs::QuietForms::named_value, crate::proofs::QuietForms::named_name, crate::proofs::QuietForms::named_function, crate::proofs::QuietForms::named_class, crate::proofs::QuietForms::not_named))]
pub fn is_named(code: &Code) -> bool
    ensures { result ≡ spec.is_named (code_of code.now) }
{
    match code {
        Code::Value { value } => is_class_value(value),
        Code::Name { kind, .. } => means_class(kind),
        Code::Function { .. } => true,
        Code::Class { .. } => true,
        _ => false,
    }
}
