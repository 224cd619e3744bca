// What an assignment gives. (ECMA-262, 13.15.2.)

ghost use Rattle.std.specs.Prelude.{◌≡◌, IfOk};
ghost use Rattle.es_codes.specs.CodeView.{code_of};
ghost use Rattle.es_steps.specs.GeneratedForms as spec;

use es_base::kind::Kind;
use es_base::list::List;
use es_codes::boxed::Boxed;
use es_codes::code::Code;
use es_codes::event::Operation;
use std::alloc::{AllocError, Global};
use std::mem;

/// What an assignment by `=` gives: that of one of the source is told by its number. Fails on allocation failure alone.
fn assigned_value(alloc: Global, is_new: bool, node: u32, value: Code) -> Result<Code, AllocError>
    ensures { IfOk result (λ e. code_of e ≡ spec.assigned_value is_new node (code_of value)) }
{
    if is_new {
        Ok(value)
    } else {
        let mut operands = List::new(alloc);
        operands.push(value)?;
        let operation = Operation::OfKind {
            kind: Kind::AssignmentExpression,
            details: List::new(alloc),
        };
        Ok(Code::operation(node, operation, operands, List::new(alloc)))
    }
}

/// What an assignment by `=` gives, in a box; the value is taken out. Fails on allocation failure alone.
pub fn take_assigned(
    alloc: Global,
    is_new: bool,
    node: u32,
    value: &mut Code,
) -> Result<Boxed<Code>, AllocError>
    ensures { IfOk result (λ e. code_of e ≡ spec.assigned_value is_new node (code_of value.old)) }
{
    let value = mem::replace(value, Code::nothing());
    Boxed::new(alloc, assigned_value(alloc, is_new, node, value)?)
}
