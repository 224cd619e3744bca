// Chains that a lowering made: `T ? void 0 : e` and `T ? true : delete e`, where T tests an object for null and undefined.
// (ECMA-262, 13.3.9; that such a form is a chain is our own.)

ghost use Rattle.std.specs.Prelude.{◌≡◌, IfOk};
ghost use Rattle.es_codes.specs.CodeView.{code_of, codes_of};
ghost use Rattle.es_codes.specs.View.{operation_of};
ghost use Rattle.es_steps.specs.Expressions as spec;
ghost use Rattle.es_steps.specs.GeneratedForms as generated;
ghost use Rattle.es_code_reading.specs.Contexts.{context_of};
ghost use Rattle.es_code_operators.specs.Chained.{deleted_operation};

use es_base::list::List;
use es_code_reading::context::Context;
use es_codes::boxed::Boxed;
use es_codes::code::Code;
use es_codes::event::Operation;
use es_generated::numbers::is_new;
use std::alloc::{AllocError, Global};

/// A new chain inside another one is a part of it.
#[tactic(auto, using(crate::proofs::ChainForms::chain_spliced, crate::proofs::ChainForms::no_chain_spliced))]
pub fn spliced(c: &Context, code: Code) -> Code
    ensures { code_of result ≡ spec.spliced (context_of c.now) (code_of code) }
{
    match code {
        Code::Chain { node, expression } => {
            if is_new(c.terms.first_new, node) {
                expression.into_inner()
            } else {
                Code::chain(node, expression)
            }
        }
        other => other,
    }
}

/// The rest of such a chain: it hands on a receiver by a `.bind` alone. Fails on allocation failure alone.
#[tactic(auto, using(crate::proofs::ChainForms::bound_alone, crate::proofs::ChainForms::tested_alone, crate::proofs::ChainForms::other_alone))]
pub fn ended_alone(alloc: Global, code: Code) -> Result<Code, AllocError>
    ensures { IfOk result (λ e. code_of e ≡ spec.ended_alone (code_of code)) }
{
    match code {
        Code::Bound { function, object } => Ok(Code::bound(function, object)),
        Code::Tested {
            object,
            again,
            rest,
        } => Ok(Code::tested(object, again, rest)),
        other => Ok(Code::from_call(Boxed::new(alloc, other)?)),
    }
}

/// The new `delete` at the end of such a chain, which gets the number of the chain.
fn deleted_operation(
    c: &Context,
    chain: u32,
    node: u32,
    operation: Operation,
    operands: List<Code>,
    held: List<Code>,
) -> Code
    ensures { code_of result ≡ deleted_operation (context_of c.now) chain node (operation_of operation) (codes_of operands) (codes_of held) }
{
    match operation {
        Operation::Delete => {
            if is_new(c.terms.first_new, node) {
                Code::operation(chain, Operation::Delete, operands, held)
            } else {
                Code::no_rule()
            }
        }
        _ => Code::no_rule(),
    }
}

/// The rest of a chain that ends with a new `delete`. Fails on allocation failure alone.
#[tactic(auto, using(crate::proofs::ChainForms::operation_deleted, crate::proofs::ChainForms::tested_deleted, crate::proofs::ChainForms::none_deleted))]
pub fn deleted_as(alloc: Global, c: &Context, chain: u32, code: Code) -> Result<Code, AllocError>
    ensures { IfOk result (λ e. code_of e ≡ spec.deleted_as (context_of c.now) chain (code_of code)) }
{
    match code {
        Code::Operation {
            node,
            operation,
            operands,
            held,
        } => Ok(deleted_operation(c, chain, node, operation, operands, held)),
        Code::Tested {
            object,
            again,
            rest,
        } => {
            let rest = deleted_as(alloc, c, chain, rest.into_inner())?;
            Ok(Code::tested(object, again, Boxed::new(alloc, rest)?))
        }
        other => {
            drop(other);
            Ok(Code::no_rule())
        }
    }
}
