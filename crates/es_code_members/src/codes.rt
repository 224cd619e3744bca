// The codes of the children of a node, in order. They are taken out of the members.

ghost use Rattle.std.specs.Prelude.{◌≡◌, IfOk, OnOk};
ghost use Rattle.es_codes.specs.CodeView.{codes_of};
ghost use Rattle.es_steps.specs.Code.{joined};
ghost use Rattle.es_steps.specs.Members as spec;
ghost use Rattle.es_code_members.specs.MembersView.{item_of, items_in, member_of, members_of};

use crate::member::Member;
use es_base::list::List;
use es_codes::code::Code;
use std::alloc::{AllocError, Global};
use std::mem;

/// Adds these codes, which are taken out. Fails on allocation failure alone.
pub fn move_codes(codes: &mut [Code], to: &mut List<Code>) -> Result<(), AllocError>
    ensures { OnOk result (codes_of to.new ≡ joined (codes_of to.old) (codes_of codes.old)) }
{
    for code in codes.iter_mut() {
        to.push(mem::replace(code, Code::nothing()))?;
    }
    Ok(())
}

#[tactic(auto, using(crate::proofs::Chaining::joined_one, crate::proofs::Chaining::joined_none))]
fn add_item(item: &mut Option<Code>, codes: &mut List<Code>) -> Result<(), AllocError>
    ensures { OnOk result (codes_of codes.new ≡ joined (codes_of codes.old) (spec.codes_of (item_of item.old))) }
{
    match item {
        Some(code) => codes.push(mem::replace(code, Code::nothing())),
        None => Ok(()),
    }
}

fn add_codes_of_items(items: &mut [Option<Code>], codes: &mut List<Code>) -> Result<(), AllocError>
    ensures { OnOk result (codes_of codes.new ≡ joined (codes_of codes.old) (spec.codes_in (items_in items.old))) }
{
    for item in items.iter_mut() {
        add_item(item, codes)?;
    }
    Ok(())
}

/// Adds the codes of a member. Fails on allocation failure alone.
#[tactic(auto, using(crate::proofs::Chaining::joined_one, crate::proofs::Chaining::joined_none))]
pub fn add_codes_of(member: &mut Member, codes: &mut List<Code>) -> Result<(), AllocError>
    ensures { OnOk result (codes_of codes.new ≡ joined (codes_of codes.old) (spec.codes_of (member_of member.old))) }
{
    match member {
        Member::Code(code) => codes.push(mem::replace(code, Code::nothing())),
        Member::List(items) => add_codes_of_items(items.as_mut_slice(), codes),
        _ => Ok(()),
    }
}

/// Adds the codes of these members in order. Fails on allocation failure alone.
pub fn add_codes(members: &mut [Member], codes: &mut List<Code>) -> Result<(), AllocError>
    ensures { OnOk result (codes_of codes.new ≡ joined (codes_of codes.old) (spec.codes_in (members_of members.old))) }
{
    for member in members.iter_mut() {
        add_codes_of(member, codes)?;
    }
    Ok(())
}

/// Takes out the codes of a member. Fails on allocation failure alone.
#[tactic(auto, using(crate::proofs::Chaining::joined_nothing))]
pub fn take_codes(alloc: Global, member: &mut Member) -> Result<List<Code>, AllocError>
    ensures { IfOk result (λ cs. codes_of cs ≡ spec.codes_of (member_of member.old)) }
{
    let mut codes = List::new(alloc);
    add_codes_of(member, &mut codes)?;
    Ok(codes)
}
