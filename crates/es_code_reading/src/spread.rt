// Spread elements.

ghost use Rattle.std.specs.Prelude.{◌≡◌};
ghost use Rattle.es_codes.specs.CodeView.{code_of, codes_of};
ghost use Rattle.es_codes.specs.View.{operation_of};
ghost use Rattle.es_steps.specs.GeneratedForms as spec;
ghost use Rattle.es_code_reading.specs.Letters.{spreads};

use es_base::kind::Kind;
use es_codes::code::Code;
use es_codes::event::Operation;

fn spreads(operation: &Operation) -> bool
    ensures { result ≡ spreads (operation_of operation.now) }
{
    match operation {
        Operation::OfKind { kind, .. } => matches!(*kind, Kind::SpreadElement),
        _ => false,
    }
}

/// `...a`
#[tactic(auto, using(crate::proofs::Spreads::an_operation, crate::proofs::Spreads::another_form))]
pub fn is_spread(code: &Code) -> bool
    ensures { result ≡ spec.is_spread (code_of code.now) }
{
    match code {
        Code::Operation { operation, .. } => spreads(operation),
        _ => false,
    }
}

/// Whether no spread element is among these codes.
pub fn no_spread(codes: &[Code]) -> bool
    ensures { result ≡ spec.no_spread (codes_of codes.now) }
{
    for code in codes {
        if is_spread(code) {
            return false;
        }
    }
    true
}
