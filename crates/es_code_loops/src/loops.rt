// `for (a in b) c` and `for (a of b) c`. (ECMA-262, 14.7.5.)

ghost use Rattle.std.specs.Prelude.{◌≡◌, ◌++◌, IfOk, OnOk};
ghost use Rattle.es_codes.specs.CodeView.{code_of, codes_of};
ghost use Rattle.es_codes.specs.View.{details_of};
ghost use Rattle.es_steps.specs.Code as of;
ghost use Rattle.es_steps.specs.Members as of_node;
ghost use Rattle.es_steps.specs.Statements as spec;
ghost use Rattle.es_code_reading.specs.Contexts.{context_of};
ghost use Rattle.es_code_loops.specs.LoopView.{awaiting, loop_code, members_of_loop};

use crate::head::add_head;
use es_base::kind::Kind;
use es_base::list::List;
use es_code_members::codes::add_codes_of;
use es_code_members::details::add_details_of;
use es_code_members::member::{Member, flag_of};
use es_code_reading::context::Context;
use es_codes::code::Code;
use es_codes::event::{Detail, Operation};
use std::alloc::{AllocError, Global};

/// The members of a loop over values: `for (head in right) body`, `for await (head of right) body`.
#[derive(Drop)]
pub struct LoopMembers {
    pub head: Member,
    pub right: Member,
    pub body: Member,
    /// Of a `for`-`of` alone: whether it awaits.
    pub is_await: Option<Member>,
}

fn is_awaiting(is_await: &Option<Member>) -> bool
    ensures { result ≡ of_node.flag_of (of_node.at 0 (awaiting is_await.now)) }
{
    match is_await {
        Some(is_await) => flag_of(is_await),
        None => false,
    }
}

fn add_details_of_await(
    alloc: Global,
    is_await: &Option<Member>,
    details: &mut List<Detail>,
) -> Result<(), AllocError>
    ensures { OnOk result (details_of details.new ≡ details_of details.old ++ of_node.details (awaiting is_await.now)) }
{
    match is_await {
        Some(is_await) => add_details_of(alloc, is_await, details),
        None => Ok(()),
    }
}

/// What stands beside the operands of a loop. Fails on allocation failure alone.
fn loop_details(alloc: Global, members: &LoopMembers) -> Result<List<Detail>, AllocError>
    ensures { IfOk result (λ ds. details_of ds ≡ of_node.details (of_node.from 1 (members_of_loop members.now))) }
{
    let mut details = List::new(alloc);
    add_details_of(alloc, &members.right, &mut details)?;
    add_details_of(alloc, &members.body, &mut details)?;
    add_details_of_await(alloc, &members.is_await, &mut details)?;
    Ok(details)
}

/// A loop that awaits nothing in a new function. Fails on allocation failure alone.
#[tactic(auto, using(es_code_members::proofs::Chaining::joined_nothing, es_code_members::proofs::Chaining::joined_one))]
fn loop_code(
    alloc: Global,
    kind: Kind,
    node: u32,
    members: &mut LoopMembers,
) -> Result<Code, AllocError>
    ensures { IfOk result (λ e. code_of e ≡ loop_code kind node (members_of_loop members.old)) }
{
    let details = loop_details(alloc, &*members)?;
    let mut operands = List::new(alloc);
    let mut steps = List::new(alloc);
    add_head(alloc, node, &mut members.head, &mut operands, &mut steps)?;
    add_codes_of(&mut members.right, &mut operands)?;
    add_codes_of(&mut members.body, &mut steps)?;
    let mut held = List::new(alloc);
    held.push(Code::steps(steps))?;
    Ok(Code::operation(node, Operation::OfKind { kind, details }, operands, held))
}

/// `for (a in b) c`, `for (a of b) c`: each time the head is given the next value, and then the body runs; no `for await` of the
/// source stands in a new function. Fails on allocation failure alone.
pub fn for_each_code(
    alloc: Global,
    c: &Context,
    kind: Kind,
    node: u32,
    members: &mut LoopMembers,
) -> Result<Code, AllocError>
    ensures { IfOk result (λ e. code_of e ≡ spec.for_each_code (context_of c.now) kind node (members_of_loop members.old)) }
{
    if c.around.in_new_function && is_awaiting(&members.is_await) {
        Ok(Code::no_rule())
    } else {
        loop_code(alloc, kind, node, members)
    }
}
