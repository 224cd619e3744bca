// New arrays.

ghost use Rattle.std.specs.Prelude.{◌≡◌, option_map};
ghost use Rattle.es_codes.specs.CodeView.{code_of, codes_of};
ghost use Rattle.es_codes.specs.View.{details_of, operation_of};
ghost use Rattle.es_steps.specs.GeneratedForms as generated;
ghost use Rattle.es_code_reading.specs.Contexts.{context_of};
ghost use Rattle.es_code_new_literals.specs.Literals as spec;

use crate::detail::{is_end, is_opening, is_operand};
use crate::operation::{NewOperation, new_operation};
use es_base::kind::Kind;
use es_base::list::List;
use es_code_reading::context::Context;
use es_codes::code::Code;
use es_codes::event::{Detail, Operation};

fn is_array(kind: Kind) -> bool
    ensures { result ≡ spec.is_array kind }
{
    matches!(kind, Kind::ArrayExpression)
}

/// Whether these are operands alone, and the end of their list.
#[tactic(auto, using(crate::proofs::DetailForms::behind_operand, crate::proofs::DetailForms::stopped, crate::proofs::DetailForms::none_left))]
fn only_operands(details: &[Detail]) -> bool
    ensures { result ≡ generated.only_operands (details_of details.now) }
{
    let mut rest = details;
    while let [first, behind @ ..] = rest
        && is_operand(first)
    {
        rest = behind;
    }
    is_end(rest)
}

/// Whether these details are those of `[a, b]`, without holes.
fn are_elements(details: &[Detail]) -> bool
    ensures { result ≡ spec.are_elements (details_of details.now) }
{
    match details {
        [opens, rest @ ..] => is_opening(opens) && only_operands(rest),
        [] => false,
    }
}

fn elements_in(operation: Operation, operands: List<Code>) -> Option<List<Code>>
    ensures { option_map codes_of result ≡ spec.elements_in (operation_of operation, codes_of operands) }
{
    match operation {
        Operation::OfKind { kind, details } => {
            if is_array(kind) && are_elements(details.as_slice()) {
                Some(operands)
            } else {
                None
            }
        }
        _ => None,
    }
}

/// The elements of a new array without holes, `[a, b]`.
#[tactic(auto, using(crate::proofs::Literals::array_elements, crate::proofs::Literals::no_array_elements))]
pub fn array_elements(c: &Context, code: Code) -> Option<List<Code>>
    ensures { option_map codes_of result ≡ generated.array_elements (context_of c.now) (code_of code) }
{
    let NewOperation {
        operation,
        operands,
    } = new_operation(c, code)?;
    elements_in(operation, operands)
}
