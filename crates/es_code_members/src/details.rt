// What stands beside the operands of a node: strings, flags, and where a child or an item is missing.

ghost use Rattle.std.specs.Prelude.{◌≡◌, ◌++◌, OnOk};
ghost use Rattle.es_codes.specs.CodeView.{code_of};
ghost use Rattle.es_codes.specs.View.{details_of};
ghost use Rattle.es_steps.specs.Members as spec;
ghost use Rattle.es_code_members.specs.MembersView.{item_of, items_in, member_of, members_of};

use crate::member::Member;
use es_base::list::List;
use es_codes::code::Code;
use es_codes::event::Detail;
use std::alloc::{AllocError, Global};

/// Adds copies of these details. Fails on allocation failure alone.
fn add_copies(alloc: Global, details: &[Detail], to: &mut List<Detail>) -> Result<(), AllocError>
    ensures { OnOk result (details_of to.new ≡ details_of to.old ++ details_of details.now) }
{
    for detail in details {
        to.push(detail.try_clone(alloc)?)?;
    }
    Ok(())
}

/// Adds what stands beside the operands that a code adds to the operation around it. Fails on allocation failure alone.
#[tactic(auto, using(crate::proofs::Inner::piece_details, crate::proofs::Inner::spelled_details, crate::proofs::Inner::own_detail, crate::proofs::Noted::added))]
fn add_inner_details(
    alloc: Global,
    code: &Code,
    details: &mut List<Detail>,
) -> Result<(), AllocError>
    ensures { OnOk result (details_of details.new ≡ details_of details.old ++ spec.inner_details (code_of code.now)) }
{
    match code {
        Code::Piece { details: inner, .. } => add_copies(alloc, inner.as_slice(), details),
        Code::Spelled { spelling } => details.push(Detail::Spelled(spelling.try_clone(alloc)?)),
        _ => details.push(Detail::Operand),
    }
}

#[tactic(auto, using(crate::proofs::Noted::added))]
fn add_details_of_item(
    alloc: Global,
    item: &Option<Code>,
    details: &mut List<Detail>,
) -> Result<(), AllocError>
    ensures { OnOk result (details_of details.new ≡ details_of details.old ++ spec.details_of (item_of item.now)) }
{
    match item {
        Some(code) => add_inner_details(alloc, code, details),
        None => details.push(Detail::Empty),
    }
}

#[tactic(auto, using(crate::proofs::Noted::item, crate::proofs::Noted::ends))]
fn add_details_of_items(
    alloc: Global,
    items: &[Option<Code>],
    details: &mut List<Detail>,
) -> Result<(), AllocError>
    ensures { OnOk result (details_of details.new ≡ details_of details.old ++ spec.details (items_in items.now)) }
{
    for item in items {
        add_details_of_item(alloc, item, details)?;
    }
    Ok(())
}

/// Adds what stands beside the operands of a member. Fails on allocation failure alone.
#[tactic(auto, using(crate::proofs::Noted::added, crate::proofs::Noted::bracketed))]
pub fn add_details_of(
    alloc: Global,
    member: &Member,
    details: &mut List<Detail>,
) -> Result<(), AllocError>
    ensures { OnOk result (details_of details.new ≡ details_of details.old ++ spec.details_of (member_of member.now)) }
{
    match member {
        Member::Code(code) => add_inner_details(alloc, code, details),
        Member::Absent | Member::NoString => details.push(Detail::Empty),
        Member::List(items) => {
            details.push(Detail::Opens)?;
            add_details_of_items(alloc, items.as_slice(), details)?;
            details.push(Detail::Closes)
        }
        Member::String(string) => details.push(Detail::Spelled(string.try_clone(alloc)?)),
        Member::Boolean(boolean) => details.push(Detail::Flag(*boolean)),
        Member::Literal(_) => Ok(()),
    }
}

/// Adds what stands beside the operands of these members. Fails on allocation failure alone.
#[tactic(auto, using(crate::proofs::Noted::member, crate::proofs::Noted::ends))]
pub fn add_details(
    alloc: Global,
    members: &[Member],
    details: &mut List<Detail>,
) -> Result<(), AllocError>
    ensures { OnOk result (details_of details.new ≡ details_of details.old ++ spec.details (members_of members.now)) }
{
    for member in members {
        add_details_of(alloc, member, details)?;
    }
    Ok(())
}
