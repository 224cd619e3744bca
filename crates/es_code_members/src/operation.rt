// Operations: the operands in order, then what is done with them.

ghost use Rattle.std.specs.Prelude.{◌≡◌, IfOk};
ghost use Rattle.es_codes.specs.CodeView.{code_of};
ghost use Rattle.es_steps.specs.Expressions as spec;
ghost use Rattle.es_code_members.specs.MembersView.{members_of};

use crate::details::add_details;
use crate::member::Member;
use crate::operands::add_operands;
use es_base::kind::Kind;
use es_base::list::List;
use es_codes::code::Code;
use es_codes::event::Operation;
use std::alloc::{AllocError, Global};

/// The rule of all kinds that have none of their own, as `throw e`: the operands in order, then the operation. Fails on
/// allocation failure alone.
#[tactic(auto, using(crate::proofs::Chaining::joined_nothing))]
pub fn operation_of(
    alloc: Global,
    kind: Kind,
    node: u32,
    members: &mut [Member],
) -> Result<Code, AllocError>
    ensures { IfOk result (λ c. code_of c ≡ spec.operation_of kind node (members_of members.old)) }
{
    let mut details = List::new(alloc);
    add_details(alloc, members, &mut details)?;
    let mut operands = List::new(alloc);
    add_operands(members, &mut operands)?;
    Ok(Code::operation(
        node,
        Operation::OfKind { kind, details },
        operands,
        List::new(alloc),
    ))
}
