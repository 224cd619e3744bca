// What is evaluated in order. (ECMA-262, 13.16, 14.2, 15.7.11 and 16.2.3.)

ghost use Rattle.std.specs.Prelude.{◌≡◌, IfOk};
ghost use Rattle.es_codes.specs.CodeView.{code_of};
ghost use Rattle.es_steps.specs.Code as of;
ghost use Rattle.es_steps.specs.Members as of_node;
ghost use Rattle.es_steps.specs.Statements as spec;
ghost use Rattle.es_code_members.specs.MembersView.{member_of, members_of};

use es_base::list::List;
use es_code_members::codes::{add_codes, take_codes};
use es_code_members::member::{Member, take_code};
use es_codes::boxed::Boxed;
use es_codes::code::Code;
use std::alloc::{AllocError, Global};

/// `{ a; b; }`. Fails on allocation failure alone.
#[tactic(auto, using(es_code_members::proofs::Chaining::joined_nothing))]
pub fn steps_code(alloc: Global, members: &mut [Member]) -> Result<Code, AllocError>
    ensures { IfOk result (λ c. code_of c ≡ of.steps (of_node.codes_in (members_of members.old))) }
{
    let mut all = List::new(alloc);
    add_codes(members, &mut all)?;
    Ok(Code::steps(all))
}

/// `a, b`. Fails on allocation failure alone.
#[tactic(auto, using(es_code_members::proofs::Chaining::joined_nothing))]
pub fn sequence_code(alloc: Global, members: &mut [Member]) -> Result<Code, AllocError>
    ensures { IfOk result (λ c. code_of c ≡ of.sequence (of_node.codes_in (members_of members.old))) }
{
    let mut all = List::new(alloc);
    add_codes(members, &mut all)?;
    Ok(Code::sequence(all))
}

/// `static {}`. Fails on allocation failure alone.
#[tactic(auto, using(es_code_members::proofs::Chaining::joined_nothing))]
pub fn static_block_code(alloc: Global, members: &mut [Member]) -> Result<Code, AllocError>
    ensures { IfOk result (λ c. code_of c ≡ of.static_block (of_node.codes_in (members_of members.old))) }
{
    let mut all = List::new(alloc);
    add_codes(members, &mut all)?;
    Ok(Code::static_block(all))
}

/// `export default e`. Fails on allocation failure alone.
pub fn default_export_code(alloc: Global, declaration: &mut Member) -> Result<Code, AllocError>
    ensures { IfOk result (λ c. code_of c ≡ spec.default_export_code (of_node.more (member_of declaration.old) of_node.end)) }
{
    Ok(Code::export_default(Boxed::new(alloc, take_code(declaration))?))
}

/// `export var a;` and `export { a };`. Fails on allocation failure alone.
pub fn named_export_code(alloc: Global, declaration: &mut Member) -> Result<Code, AllocError>
    ensures { IfOk result (λ c. code_of c ≡ of.steps (of_node.codes_of (member_of declaration.old))) }
{
    Ok(Code::steps(take_codes(alloc, declaration)?))
}
