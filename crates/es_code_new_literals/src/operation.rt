// New operations all of whose parts are operands.

ghost use Rattle.std.specs.Prelude.{◌≡◌, ◌&&◌, option_map};
ghost use Rattle.es_codes.specs.CodeView.{code_of, codes_of};
ghost use Rattle.es_steps.specs.Context.{new_here};
ghost use Rattle.es_code_reading.specs.Contexts.{context_of};
ghost use Rattle.es_code_new_literals.specs.Literals as spec;
ghost use Rattle.es_code_new_literals.specs.Views.{operation_in, operation_seen};

use es_base::list::List;
use es_code_reading::context::Context;
use es_codes::code::Code;
use es_codes::event::Operation;
use es_generated::numbers::is_new;

/// A new operation all of whose parts are operands.
#[derive(Drop)]
pub struct NewOperation {
    pub operation: Operation,
    pub operands: List<Code>,
}

/// The same, seen by reference.
#[derive(Clone, Copy)]
pub struct NewOperationRef<'a> {
    pub operation: &'a Operation,
    pub operands: &'a [Code],
}

#[tactic(auto, using(crate::proofs::Operations::some_codes))]
fn no_codes(codes: &[Code]) -> bool
    ensures { result ≡ spec.no_codes (codes_of codes.now) }
{
    match codes {
        [] => true,
        [_, ..] => false,
    }
}

/// Whether the node is new and holds no part.
fn is_unheld(c: &Context, node: u32, held: &[Code]) -> bool
    ensures { result ≡ (new_here (context_of c.now) node && spec.no_codes (codes_of held.now)) }
{
    is_new(c.terms.first_new, node) && no_codes(held)
}

/// The new operation that a code is, if all of its parts are operands.
#[tactic(auto, using(crate::proofs::Operations::an_operation, crate::proofs::Operations::no_operation))]
pub fn new_operation(c: &Context, code: Code) -> Option<NewOperation>
    ensures { option_map operation_in result ≡ spec.new_operation (context_of c.now) (code_of code) }
{
    match code {
        Code::Operation {
            node,
            operation,
            operands,
            held,
        } => {
            if is_unheld(c, node, held.as_slice()) {
                Some(NewOperation {
                    operation,
                    operands,
                })
            } else {
                drop(operation);
                None
            }
        }
        other => {
            drop(other);
            None
        }
    }
}

/// The same, by reference.
#[tactic(auto, using(crate::proofs::Operations::an_operation, crate::proofs::Operations::no_operation))]
pub fn new_operation_ref<'a>(c: &Context, code: &'a Code) -> Option<NewOperationRef<'a>>
    ensures { option_map operation_seen result ≡ spec.new_operation (context_of c.now) (code_of code.now) }
{
    match code {
        Code::Operation {
            node,
            operation,
            operands,
            held,
        } => {
            if is_unheld(c, *node, held.as_slice()) {
                Some(NewOperationRef {
                    operation,
                    operands: operands.as_slice(),
                })
            } else {
                None
            }
        }
        _ => None,
    }
}
