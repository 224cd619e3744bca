// Statements with parts that may run or not, or again. (ECMA-262, 14.6 to 14.15.)

ghost use Rattle.std.specs.Prelude.{◌≡◌, IfOk, OnOk};
ghost use Rattle.es_codes.specs.CodeView.{code_of, codes_of};
ghost use Rattle.es_steps.specs.Code.{joined};
ghost use Rattle.es_steps.specs.Members as of_node;
ghost use Rattle.es_steps.specs.Statements as spec;
ghost use Rattle.es_code_members.specs.MembersView.{member_of, members_of};

use es_base::kind::Kind;
use es_base::list::List;
use es_code_members::codes::{add_codes, add_codes_of, take_codes};
use es_code_members::details::{add_details, add_details_of};
use es_code_members::member::Member;
use es_code_members::operands::add_operands_of;
use es_codes::code::Code;
use es_codes::event::Operation;
use std::alloc::{AllocError, Global};

/// `while (a) b`: a statement all of whose parts may run or not, or again. Fails on allocation failure alone.
#[tactic(auto, using(es_code_members::proofs::Chaining::joined_nothing))]
pub fn held_all(
    alloc: Global,
    kind: Kind,
    node: u32,
    members: &mut [Member],
) -> Result<Code, AllocError>
    ensures { IfOk result (λ c. code_of c ≡ spec.held_from 0 kind node (members_of members.old)) }
{
    let mut details = List::new(alloc);
    add_details(alloc, members, &mut details)?;
    let mut held = List::new(alloc);
    add_codes(members, &mut held)?;
    let operation = Operation::OfKind { kind, details };
    Ok(Code::operation(node, operation, List::new(alloc), held))
}

/// Adds the operands of the first of these members, and the codes of the others. Fails on allocation failure alone.
#[tactic(auto, using(crate::proofs::Cases::added_alone, crate::proofs::Cases::operands_alone, es_code_members::proofs::Chaining::joined_none))]
fn add_behind_first(
    members: &mut [Member],
    operands: &mut List<Code>,
    held: &mut List<Code>,
) -> Result<(), AllocError>
    ensures operands { OnOk result (codes_of operands.new ≡ joined (codes_of operands.old) (of_node.operands (of_node.before 1 (members_of members.old)))) }
    ensures held { OnOk result (codes_of held.new ≡ joined (codes_of held.old) (of_node.codes_in (of_node.from 1 (members_of members.old)))) }
{
    match members {
        [first, rest @ ..] => {
            add_operands_of(first, operands)?;
            add_codes(rest, held)
        }
        [] => Ok(()),
    }
}

/// `if (a) b else c`: a statement whose parts but the first may run or not, or again. Fails on allocation failure alone.
#[tactic(auto, using(es_code_members::proofs::Chaining::joined_nothing))]
pub fn held_behind_first(
    alloc: Global,
    kind: Kind,
    node: u32,
    members: &mut [Member],
) -> Result<Code, AllocError>
    ensures { IfOk result (λ c. code_of c ≡ spec.held_from 1 kind node (members_of members.old)) }
{
    let mut details = List::new(alloc);
    add_details(alloc, members, &mut details)?;
    let mut operands = List::new(alloc);
    let mut held = List::new(alloc);
    add_behind_first(members, &mut operands, &mut held)?;
    Ok(Code::operation(node, Operation::OfKind { kind, details }, operands, held))
}

/// `case a: b`: its test, and its statements in order, which are one part as those of a block. Fails on allocation failure
/// alone.
#[tactic(auto, using(crate::proofs::Cases::details_alone, es_code_members::proofs::Chaining::joined_nothing, es_code_members::proofs::Chaining::joined_one))]
pub fn case_code(
    alloc: Global,
    node: u32,
    test: &mut Member,
    consequent: &mut Member,
) -> Result<Code, AllocError>
    ensures { IfOk result (λ c. code_of c ≡ spec.case_code node (of_node.more (member_of test.old) (of_node.more (member_of consequent.old) of_node.end))) }
{
    let mut details = List::new(alloc);
    add_details_of(alloc, test, &mut details)?;
    let mut held = List::new(alloc);
    add_codes_of(test, &mut held)?;
    held.push(Code::steps(take_codes(alloc, consequent)?))?;
    let operation = Operation::OfKind {
        kind: Kind::SwitchCase,
        details,
    };
    Ok(Code::operation(node, operation, List::new(alloc), held))
}
