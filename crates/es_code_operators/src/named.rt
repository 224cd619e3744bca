// Operands that are asked for by name: `typeof x` of a free name raises no error, and `delete x` of a name deletes none.
// (ECMA-262, 13.5.1.2 and 13.5.3.1.)

ghost use Rattle.std.specs.Prelude.{◌≡◌};
ghost use Rattle.std.specs.Str.{chars};
ghost use Rattle.es_codes.specs.CodeView.{code_of};
ghost use Rattle.es_codes.specs.Constants.{origin_of};
ghost use Rattle.es_codes.specs.View.{kind_of, referent_of};
ghost use Rattle.es_steps.specs.Expressions as spec;
ghost use Rattle.es_code_members.specs.MembersView.{member_of};
ghost use Rattle.es_code_operators.specs.Operands.{is_arguments_value, is_free_kind, is_free_referent};

use es_base::strings::spells;
use es_code_members::member::Member;
use es_codes::code::Code;
use es_codes::name::{NameKind, Referent};
use es_codes::value::{Origin, Value};

fn is_free_referent(referent: &Referent) -> bool
    ensures { result ≡ is_free_referent (referent_of referent.now) }
{
    matches!(referent, Referent::Free(_))
}

fn is_free_kind(kind: &NameKind) -> bool
    ensures { result ≡ is_free_kind (kind_of kind.now) }
{
    match kind {
        NameKind::Changing(referent) => is_free_referent(referent),
        _ => false,
    }
}

/// A free name.
#[tactic(auto, using(crate::proofs::OperandForms::free_name, crate::proofs::OperandForms::no_free_name))]
fn is_free_name(code: &Code) -> bool
    ensures { result ≡ spec.is_free_name (code_of code.now) }
{
    match code {
        Code::Name { kind, .. } => is_free_kind(kind),
        _ => false,
    }
}

fn is_arguments_origin(origin: &Origin) -> bool
    ensures { result ≡ is_arguments_value (origin_of origin.now) }
{
    matches!(origin, Origin::ArgumentsOf(_))
}

#[tactic(auto, using(crate::proofs::OperandForms::key_no_arguments))]
fn is_arguments_value(value: &Value) -> bool
    ensures { result ≡ is_arguments_value value.now }
{
    match value.origin() {
        Some(origin) => is_arguments_origin(origin),
        None => false,
    }
}

/// A name, or `arguments`.
#[tactic(auto, using(crate::proofs::OperandForms::a_name, crate::proofs::OperandForms::a_value, crate::proofs::OperandForms::no_name))]
fn is_any_name(code: &Code) -> bool
    ensures { result ≡ spec.is_any_name (code_of code.now) }
{
    match code {
        Code::Name { .. } => true,
        Code::Value { value } => is_arguments_value(value),
        _ => false,
    }
}

fn asks_code(operator: &str, code: &Code) -> bool
    ensures { result ≡ spec.asks_for_name (chars operator.now) (code_of code.now) }
{
    (spells(operator, "typeof") && is_free_name(code))
        || (spells(operator, "delete") && is_any_name(code))
}

/// Whether an operator asks for its operand by name.
#[tactic(auto, using(crate::proofs::OperandForms::asks_nothing))]
pub fn asks_for_name(operator: &str, operand: &Member) -> bool
    ensures { result ≡ spec.asks_for_name (chars operator.now) (spec.the_code (member_of operand.now)) }
{
    match operand {
        Member::Code(code) => asks_code(operator, code),
        _ => false,
    }
}
