// Targets, and what writes them: a cycle over targets in patterns.

ghost use Rattle.std.specs.Prelude.{List};
ghost use Rattle.es_steps.specs.Code as of;
ghost use Rattle.es_codes.specs.View.{operation_of, details_of};
ghost use Rattle.es_codes.specs.CodeView.{code_of, codes_of, target_of};
ghost use Rattle.es_evaluation.specs.Direct.{no_operand};
ghost use Rattle.es_evaluator.specs.Running.{Returns, state_of, operands_of};
ghost use Rattle.es_code_rules.specs.Elsewhere.{opens_of};
ghost use Rattle.es_target_rules.specs.Steps.{taken_at, take_at, operands_at, write_at};
ghost use Rattle.es_code_rules.specs.Within.{MayEvaluate, Evaluates};

use crate::operands::{evaluate_one, evaluate_two};
use es_base::kind::Kind;
use es_base::list::List;
use es_code_rules::definition::Opening;
use es_code_rules::within::Within;
use es_codes::boxed::Boxed;
use es_codes::code::{Code, Target};
use es_codes::event::{Detail, Operation, Place};
use es_codes::value::Value;
use es_evaluator::fault::Fault;
use es_evaluator::names::write_name;
use es_evaluator::operands::{operate_on, take};
use es_evaluator::state::{Operands, State};
use es_evaluator::targets::{write_element, write_member, write_super};
use std::alloc::Global;

/// The values of the operands of a target.
#[tactic(auto, using(es_codes::proofs::Forms::to_name_is, crate::proofs::TargetForms::name_operands, es_codes::proofs::Forms::to_member_is, crate::proofs::TargetForms::member_operands, es_codes::proofs::Forms::to_private_is, crate::proofs::TargetForms::private_operands, es_codes::proofs::Forms::to_super_is, crate::proofs::TargetForms::super_operands, es_codes::proofs::Forms::to_setter_is, crate::proofs::TargetForms::setter_operands, es_codes::proofs::Forms::to_pattern_is, crate::proofs::TargetForms::pattern_operands, es_codes::proofs::Forms::to_default_is, crate::proofs::TargetForms::default_operands, es_codes::proofs::Forms::no_target_is, crate::proofs::TargetForms::no_operands))]
pub fn evaluate_operands<'a, F: Fn(Global, &Opening, &mut State, &Code) -> Result<Value, Fault>>(
    within: &Within<'a, F>,
    state: &mut State,
    to: &Target,
) -> Result<Operands, Fault>
    requires may { MayEvaluate (F.pre within.now.evaluate.now) }
    requires does { Evaluates (F.post within.now.evaluate.now) within.now.definitions.now }
    ensures { Returns operands_of result state.new (operands_at (opens_of within.now.definitions.now within.now.opening.now) (target_of to.now) (state_of state.old)) }
{
    match to {
        Target::ToName { .. } => Ok(Operands::Nothing),
        Target::ToMember { object, key, .. } => evaluate_two(within, state, object, key),
        Target::ToPrivate { object, .. } => evaluate_one(within, state, object),
        Target::ToSuper { key, .. } => evaluate_one(within, state, key),
        Target::ToSetter { object, .. } => evaluate_one(within, state, object),
        Target::ToPattern { .. } => Ok(Operands::Nothing),
        Target::ToDefault { to, .. } => evaluate_operands(within, state, to.get()),
        Target::NoTarget => Err(Fault::NoMeaning),
    }
}

/// Writes a target whose operands have these values, and gives the value.
#[cycle(target)]
#[tactic(auto, using(es_codes::proofs::Forms::to_name_is, crate::proofs::TargetForms::name_write, es_codes::proofs::Forms::to_member_is, crate::proofs::TargetForms::member_write, es_codes::proofs::Forms::to_private_is, crate::proofs::TargetForms::private_write, es_codes::proofs::Forms::to_super_is, crate::proofs::TargetForms::super_write, es_codes::proofs::Forms::to_setter_is, crate::proofs::TargetForms::setter_write, es_codes::proofs::Forms::to_pattern_is, crate::proofs::TargetForms::pattern_write, es_codes::proofs::Forms::to_default_is, es_codes::proofs::Forms::no_target_is, crate::proofs::TargetForms::no_write))]
pub fn write_target<'a, F: Fn(Global, &Opening, &mut State, &Code) -> Result<Value, Fault>>(
    within: &Within<'a, F>,
    state: &mut State,
    to: &Target,
    operands: Operands,
    value: Value,
) -> Result<Value, Fault>
    requires may { MayEvaluate (F.pre within.now.evaluate.now) }
    requires does { Evaluates (F.post within.now.evaluate.now) within.now.definitions.now }
    ensures { Returns (λ v. v) result state.new (write_at (opens_of within.now.definitions.now within.now.opening.now) (target_of to.now) (operands_of operands) value (state_of state.old)) }
{
    match to {
        Target::ToName {
            node,
            spelling,
            kind,
        } => write_name(within.alloc, state, *node, spelling, kind, value),
        Target::ToMember { .. } => write_member(within.alloc, state, operands, value),
        Target::ToPrivate { means, .. } => write_element(
            within.alloc,
            state,
            means.writes,
            operands,
            value,
        ),
        Target::ToSuper { home, this, .. } => write_super(
            within.alloc,
            state,
            *home,
            this,
            operands,
            value,
        ),
        Target::ToSetter { key, .. } => write_element(
            within.alloc,
            state,
            Some(*key),
            operands,
            value,
        ),
        Target::ToPattern {
            node,
            kind,
            members,
        } => write_pattern(within, state, *node, *kind, members, value),
        Target::ToDefault { node, to, default } => write_default(
            within, state, *node, to, default, operands, value,
        ),
        Target::NoTarget => Err(Fault::NoMeaning),
    }
}

/// `[a, b] = v` (ECMA-262, 13.15.5)
#[cycle(target)]
#[tactic(auto, using(crate::proofs::TargetForms::pattern_steps))]
pub fn write_pattern<'a, F: Fn(Global, &Opening, &mut State, &Code) -> Result<Value, Fault>>(
    within: &Within<'a, F>,
    state: &mut State,
    node: u32,
    kind: Kind,
    members: &List<Code>,
    value: Value,
) -> Result<Value, Fault>
    requires may { MayEvaluate (F.pre within.now.evaluate.now) }
    requires does { Evaluates (F.post within.now.evaluate.now) within.now.definitions.now }
    ensures { Returns (λ v. v) result state.new (write_at (opens_of within.now.definitions.now within.now.opening.now) (of.to_pattern node kind (codes_of members.now)) no_operand value (state_of state.old)) }
{
    let details = List::new(within.alloc);
    let given = value.try_clone(within.alloc)?;
    let operation = Operation::OfKind { kind, details };
    let _value = operate_on(within.alloc, state, node, operation, &value, given)?;
    evaluate_taken(within, state, &value, members.as_slice())
}

/// `t = e` in a pattern
#[cycle(target)]
#[tactic(auto, using(crate::proofs::TargetForms::default_write))]
pub fn write_default<'a, F: Fn(Global, &Opening, &mut State, &Code) -> Result<Value, Fault>>(
    within: &Within<'a, F>,
    state: &mut State,
    node: u32,
    to: &Boxed<Target>,
    default: &Boxed<Code>,
    operands: Operands,
    value: Value,
) -> Result<Value, Fault>
    requires may { MayEvaluate (F.pre within.now.evaluate.now) }
    requires does { Evaluates (F.post within.now.evaluate.now) within.now.definitions.now }
    ensures { Returns (λ v. v) result state.new (write_at (opens_of within.now.definitions.now within.now.opening.now) (of.to_default node (target_of to.now) (code_of default.now)) (operands_of operands) value (state_of state.old)) }
{
    let value = within.evaluate_part(state, node, Place::Default, Some(value), default.get())?;
    write_target(within, state, to.get(), operands, value)
}

/// What the members of a pattern take from a value.
#[cycle(target)]
#[tactic(auto, using(crate::proofs::TargetForms::taken_more, crate::proofs::TargetForms::taken_fails, crate::proofs::TargetForms::taken_ends, crate::proofs::TargetDepths::member_in))]
pub fn evaluate_taken<'a, F: Fn(Global, &Opening, &mut State, &Code) -> Result<Value, Fault>>(
    within: &Within<'a, F>,
    state: &mut State,
    value: &Value,
    members: &[Code],
) -> Result<Value, Fault>
    requires may { MayEvaluate (F.pre within.now.evaluate.now) }
    requires does { Evaluates (F.post within.now.evaluate.now) within.now.definitions.now }
    ensures { Returns (λ v. v) result state.new (taken_at (opens_of within.now.definitions.now within.now.opening.now) value.now (codes_of members.now) (state_of state.old)) }
{
    for i in 0..members.len() {
        let _taken = evaluate_take(within, state, value, &members[i])?;
    }
    Ok(Value::undefined())
}

/// What a member of a pattern takes from a value.
#[cycle(target)]
#[tactic(auto, using(es_codes::proofs::Forms::takes_is, es_codes::proofs::Forms::operation_is, crate::proofs::Members::no_take))]
pub fn evaluate_take<'a, F: Fn(Global, &Opening, &mut State, &Code) -> Result<Value, Fault>>(
    within: &Within<'a, F>,
    state: &mut State,
    value: &Value,
    member: &Code,
) -> Result<Value, Fault>
    requires may { MayEvaluate (F.pre within.now.evaluate.now) }
    requires does { Evaluates (F.post within.now.evaluate.now) within.now.definitions.now }
    ensures { Returns (λ v. v) result state.new (take_at (opens_of within.now.definitions.now within.now.opening.now) value.now (code_of member.now) (state_of state.old)) }
{
    match member {
        Code::Takes {
            node,
            details,
            key,
            to,
        } => evaluate_takes(within, state, value, *node, details, key, to.get()),
        Code::Operation {
            node,
            operation,
            operands,
            held,
        } => take_operation(within, state, value, *node, operation, operands, held),
        _ => Err(Fault::NoMeaning),
    }
}

/// In a pattern, `k: t`
#[cycle(target)]
#[tactic(auto, using(crate::proofs::TargetForms::takes_take))]
pub fn evaluate_takes<'a, F: Fn(Global, &Opening, &mut State, &Code) -> Result<Value, Fault>>(
    within: &Within<'a, F>,
    state: &mut State,
    value: &Value,
    node: u32,
    details: &List<Detail>,
    key: &List<Code>,
    to: &Target,
) -> Result<Value, Fault>
    requires may { MayEvaluate (F.pre within.now.evaluate.now) }
    requires does { Evaluates (F.post within.now.evaluate.now) within.now.definitions.now }
    ensures { Returns (λ v. v) result state.new (take_at (opens_of within.now.definitions.now within.now.opening.now) value.now (of.takes node (details_of details.now) (codes_of key.now) (target_of to.now)) (state_of state.old)) }
{
    let keys = within.evaluate_all(state, key.as_slice())?;
    let operands = evaluate_operands(within, state, to)?;
    let taken = take(within.alloc, state, node, details.as_slice(), value, keys)?;
    write_target(within, state, to, operands, taken)
}

/// In a pattern, a member without operands.
#[tactic(auto, using(crate::proofs::TargetForms::take_alone, crate::proofs::TargetForms::take_with))]
pub fn take_operation<'a, F: Fn(Global, &Opening, &mut State, &Code) -> Result<Value, Fault>>(
    within: &Within<'a, F>,
    state: &mut State,
    value: &Value,
    node: u32,
    operation: &Operation,
    operands: &List<Code>,
    held: &List<Code>,
) -> Result<Value, Fault>
    requires may { MayEvaluate (F.pre within.now.evaluate.now) }
    requires does { Evaluates (F.post within.now.evaluate.now) within.now.definitions.now }
    ensures { Returns (λ v. v) result state.new (take_at (opens_of within.now.definitions.now within.now.opening.now) value.now (of.operation node (operation_of operation.now) (codes_of operands.now) (codes_of held.now)) (state_of state.old)) }
{
    if !operands.is_empty() || !held.is_empty() {
        return Err(Fault::NoMeaning);
    }
    let operation = operation.try_clone(within.alloc)?;
    operate_on(
        within.alloc,
        state,
        node,
        operation,
        value,
        Value::undefined(),
    )
}
