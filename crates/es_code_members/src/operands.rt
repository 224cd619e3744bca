// The operands of a node, in order. They are taken out of the members.

ghost use Rattle.std.specs.Prelude.{◌≡◌, OnOk};
ghost use Rattle.es_codes.specs.CodeView.{code_of, codes_of};
ghost use Rattle.es_steps.specs.Code.{joined};
ghost use Rattle.es_steps.specs.Members as spec;
ghost use Rattle.es_code_members.specs.MembersView.{item_of, items_in, member_of, members_of};

use crate::codes::move_codes;
use crate::member::Member;
use es_base::list::List;
use es_codes::code::Code;
use std::alloc::AllocError;
use std::mem;

/// Adds the operands that a code adds to the operation around it. Fails on allocation failure alone.
#[tactic(auto, using(crate::proofs::Inner::spelled_operands, crate::proofs::Inner::own_operand, crate::proofs::Chaining::joined_none, crate::proofs::Chaining::joined_one))]
fn add_inner_operands(code: &mut Code, operands: &mut List<Code>) -> Result<(), AllocError>
    ensures { OnOk result (codes_of operands.new ≡ joined (codes_of operands.old) (spec.inner_operands (code_of code.old))) }
{
    match code {
        Code::Piece {
            operands: inner,
            ..
        } => move_codes(inner.as_mut_slice(), operands),
        Code::Spelled { .. } => Ok(()),
        _ => operands.push(mem::replace(code, Code::nothing())),
    }
}

#[tactic(auto, using(crate::proofs::Chaining::joined_none))]
fn add_operands_of_item(
    item: &mut Option<Code>,
    operands: &mut List<Code>,
) -> Result<(), AllocError>
    ensures { OnOk result (codes_of operands.new ≡ joined (codes_of operands.old) (spec.operands_of (item_of item.old))) }
{
    match item {
        Some(code) => add_inner_operands(code, operands),
        None => Ok(()),
    }
}

fn add_operands_of_items(
    items: &mut [Option<Code>],
    operands: &mut List<Code>,
) -> Result<(), AllocError>
    ensures { OnOk result (codes_of operands.new ≡ joined (codes_of operands.old) (spec.operands (items_in items.old))) }
{
    for item in items.iter_mut() {
        add_operands_of_item(item, operands)?;
    }
    Ok(())
}

/// Adds the operands of a member. Fails on allocation failure alone.
#[tactic(auto, using(crate::proofs::Chaining::joined_none))]
pub fn add_operands_of(member: &mut Member, operands: &mut List<Code>) -> Result<(), AllocError>
    ensures { OnOk result (codes_of operands.new ≡ joined (codes_of operands.old) (spec.operands_of (member_of member.old))) }
{
    match member {
        Member::Code(code) => add_inner_operands(code, operands),
        Member::List(items) => add_operands_of_items(items.as_mut_slice(), operands),
        _ => Ok(()),
    }
}

/// Adds the operands of these members. Fails on allocation failure alone.
pub fn add_operands(members: &mut [Member], operands: &mut List<Code>) -> Result<(), AllocError>
    ensures { OnOk result (codes_of operands.new ≡ joined (codes_of operands.old) (spec.operands (members_of members.old))) }
{
    for member in members.iter_mut() {
        add_operands_of(member, operands)?;
    }
    Ok(())
}
