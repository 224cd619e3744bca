// Unary operators. (ECMA-262, 13.5.)

ghost use Rattle.std.specs.Prelude.{◌≡◌, ◌++◌, IfOk, OnOk};
ghost use Rattle.es_codes.specs.CodeView.{code_of, codes_of};
ghost use Rattle.es_codes.specs.View.{details_of};
ghost use Rattle.es_steps.specs.Expressions as spec;
ghost use Rattle.es_steps.specs.GeneratedForms as generated;
ghost use Rattle.es_steps.specs.Members as members;
ghost use Rattle.es_code_members.specs.MembersView.{member_of};

use crate::deleted::{Deletion, deleted, deleted_chain, deletion_at};
use crate::named::asks_for_name;
use es_base::kind::Kind;
use es_base::list::List;
use es_base::strings::spells;
use es_code_members::details::add_details_of;
use es_code_members::member::{Member, take_code, word_of};
use es_code_members::operands::add_operands_of;
use es_code_reading::literals::is_constant;
use es_codes::code::Code;
use es_codes::event::{Detail, Operation};
use es_codes::value::{Constant, Origin, Value};
use std::alloc::{AllocError, Global};

/// Adds that an operand is asked for by name, if it is. Fails on allocation failure alone.
fn add_named(is_named: bool, details: &mut List<Detail>) -> Result<(), AllocError>
    ensures { OnOk result (details_of details.new ≡ details_of details.old ++ spec.named_details is_named) }
{
    if is_named {
        details.push(Detail::Flag(true))
    } else {
        Ok(())
    }
}

/// What stands beside the operand. Fails on allocation failure alone.
#[tactic(auto, using(crate::proofs::UnaryMembers::two_details))]
fn unary_details(
    alloc: Global,
    is_named: bool,
    operator: &Member,
    argument: &Member,
) -> Result<List<Detail>, AllocError>
    ensures { IfOk result (λ ds. details_of ds ≡ spec.named_details is_named ++ members.details (members.more (member_of operator.now) (members.more (member_of argument.now) members.end))) }
{
    let mut details = List::new(alloc);
    add_named(is_named, &mut details)?;
    add_details_of(alloc, operator, &mut details)?;
    add_details_of(alloc, argument, &mut details)?;
    Ok(details)
}

/// The operand, which is taken out. Fails on allocation failure alone.
#[tactic(auto, using(crate::proofs::UnaryMembers::two_operands))]
fn unary_operands(
    alloc: Global,
    operator: &mut Member,
    argument: &mut Member,
) -> Result<List<Code>, AllocError>
    ensures { IfOk result (λ cs. codes_of cs ≡ members.operands (members.more (member_of operator.old) (members.more (member_of argument.old) members.end))) }
{
    let mut operands = List::new(alloc);
    add_operands_of(operator, &mut operands)?;
    add_operands_of(argument, &mut operands)?;
    Ok(operands)
}

/// `-e`. Fails on allocation failure alone.
fn unary_operation(
    alloc: Global,
    node: u32,
    operator: &mut Member,
    argument: &mut Member,
) -> Result<Code, AllocError>
    ensures { IfOk result (λ c. code_of c ≡ spec.unary_operation node (members.more (member_of operator.old) (members.more (member_of argument.old) members.end)) (spec.the_code (member_of argument.old))) }
{
    let is_named = asks_for_name(word_of(operator), argument);
    let details = unary_details(alloc, is_named, operator, argument)?;
    let operands = unary_operands(alloc, operator, argument)?;
    let operation = Operation::OfKind {
        kind: Kind::UnaryExpression,
        details,
    };
    Ok(Code::operation(node, operation, operands, List::new(alloc)))
}

// ---- operators that do not evaluate their operand, or do not only that

fn is_constant_at(argument: &Member) -> bool
    ensures { result ≡ generated.is_constant (spec.the_code (member_of argument.now)) }
{
    match argument {
        Member::Code(code) => is_constant(code),
        _ => false,
    }
}

/// `void e`: of a constant it is `undefined`. Fails on allocation failure alone.
#[tactic(auto, using(crate::proofs::UnaryMembers::void_constant, crate::proofs::UnaryMembers::void_other))]
fn void_code(
    alloc: Global,
    node: u32,
    operator: &mut Member,
    argument: &mut Member,
) -> Result<Code, AllocError>
    ensures { IfOk result (λ c. code_of c ≡ spec.void_code (spec.the_code (member_of argument.old)) (spec.unary_operation node (members.more (member_of operator.old) (members.more (member_of argument.old) members.end)) (spec.the_code (member_of argument.old)))) }
{
    if is_constant_at(argument) {
        Ok(Code::value(Value::undefined()))
    } else {
        unary_operation(alloc, node, operator, argument)
    }
}

/// `delete e`. Fails on allocation failure alone.
#[tactic(auto, using(crate::proofs::DeleteForms::in_place, crate::proofs::DeleteForms::in_chain, crate::proofs::DeleteForms::by_no_rule, crate::proofs::DeleteForms::known, crate::proofs::DeleteForms::by_whole))]
fn delete_code(
    alloc: Global,
    node: u32,
    operator: &mut Member,
    argument: &mut Member,
) -> Result<Code, AllocError>
    ensures { IfOk result (λ c. code_of c ≡ spec.delete_code node (spec.the_code (member_of argument.old)) (spec.unary_operation node (members.more (member_of operator.old) (members.more (member_of argument.old) members.end)) (spec.the_code (member_of argument.old)))) }
{
    match deletion_at(argument) {
        Deletion::InPlace => deleted(alloc, node, take_code(argument)),
        Deletion::InChain => deleted_chain(alloc, node, take_code(argument)),
        Deletion::NoRule => Ok(Code::no_rule()),
        Deletion::Known => Ok(Code::value(Value::of(Origin::ConstantOf(Constant::BooleanOf(
            true,
        ))))),
        Deletion::Whole => unary_operation(alloc, node, operator, argument),
    }
}

/// `-e`. Fails on allocation failure alone.
pub fn unary_code(
    alloc: Global,
    node: u32,
    operator: &mut Member,
    argument: &mut Member,
) -> Result<Code, AllocError>
    ensures { IfOk result (λ c. code_of c ≡ spec.unary_code node (members.more (member_of operator.old) (members.more (member_of argument.old) members.end))) }
{
    if spells(word_of(operator), "void") {
        void_code(alloc, node, operator, argument)
    } else if spells(word_of(operator), "delete") {
        delete_code(alloc, node, operator, argument)
    } else {
        unary_operation(alloc, node, operator, argument)
    }
}
