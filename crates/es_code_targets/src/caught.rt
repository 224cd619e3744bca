// What a catch is given. (ECMA-262, 14.15.2.)

ghost use Rattle.std.specs.Prelude.{◌≡◌, IfOk, OnOk};
ghost use Rattle.es_codes.specs.CodeView.{code_of, codes_of};
ghost use Rattle.es_steps.specs.Code.{and, done, joined};
ghost use Rattle.es_steps.specs.Members as members;
ghost use Rattle.es_steps.specs.Statements as spec;
ghost use Rattle.es_code_members.specs.MembersView.{member_of};

use crate::target::boxed_target;
use es_base::list::List;
use es_code_members::codes::{add_codes_of, take_codes};
use es_code_members::member::Member;
use es_codes::code::Code;
use std::alloc::{AllocError, Global};
use std::mem;

/// Adds that a parameter of a catch is given what was caught. Fails on allocation failure alone.
#[tactic(auto, using(es_code_members::proofs::Chaining::joined_one))]
fn add_given(
    alloc: Global,
    node: u32,
    parameter: &mut Code,
    to: &mut List<Code>,
) -> Result<(), AllocError>
    ensures { OnOk result (codes_of to.new ≡ joined (codes_of to.old) (spec.given_codes node (and (code_of parameter.old) done))) }
{
    let target = boxed_target(alloc, mem::replace(parameter, Code::nothing()))?;
    to.push(Code::gives_to(node, target))
}

fn add_all_given(
    alloc: Global,
    node: u32,
    parameters: &mut [Code],
    to: &mut List<Code>,
) -> Result<(), AllocError>
    ensures { OnOk result (codes_of to.new ≡ joined (codes_of to.old) (spec.given_codes node (codes_of parameters.old))) }
{
    for parameter in parameters.iter_mut() {
        add_given(alloc, node, parameter, to)?;
    }
    Ok(())
}

/// `catch (e) {}`. Fails on allocation failure alone.
#[tactic(auto, using(es_code_members::proofs::Chaining::joined_nothing))]
pub fn catch_code(
    alloc: Global,
    node: u32,
    parameter: &mut Member,
    body: &mut Member,
) -> Result<Code, AllocError>
    ensures { IfOk result (λ c. code_of c ≡ spec.catch_code node (members.more (member_of parameter.old) (members.more (member_of body.old) members.end))) }
{
    let mut all = List::new(alloc);
    let mut parameters = take_codes(alloc, parameter)?;
    add_all_given(alloc, node, parameters.as_mut_slice(), &mut all)?;
    add_codes_of(body, &mut all)?;
    Ok(Code::steps(all))
}
