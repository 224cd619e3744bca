// Assignments (ECMA-262, 13.15.2 and 13.4).

ghost use Rattle.std.specs.Prelude.{◌≡◌, IfOk};
ghost use Rattle.es_steps.specs.Code as of;
ghost use Rattle.es_codes.specs.View.{place_of};
ghost use Rattle.es_codes.specs.CodeView.{code_of, target_of};
ghost use Rattle.es_evaluation.specs.Direct as direct;
ghost use Rattle.es_evaluator.specs.Running.{Returns, state_of, operands_of};
ghost use Rattle.es_evaluator.specs.Steps.{read_at};
ghost use Rattle.es_code_rules.specs.Elsewhere.{opens_of};
ghost use Rattle.es_code_rules.specs.Steps.{form_at};
ghost use Rattle.es_code_rules.specs.Within.{MayEvaluate, Evaluates};
ghost use Rattle.es_target_rules.specs.Steps.{write_at};
ghost use Rattle.es_target_rules.specs.Assigned.{kept_step, assign_step, operated_step, compound_step, logical_step, given_step, updated_step, update_step};

use crate::targets::{evaluate_operands, write_target};
use es_base::name::Name;
use es_code_rules::definition::Opening;
use es_code_rules::within::Within;
use es_codes::boxed::Boxed;
use es_codes::code::{Code, Target};
use es_codes::event::{Place, Token};
use es_codes::value::Value;
use es_evaluator::fault::Fault;
use es_evaluator::names::emit;
use es_evaluator::operands::{new_or_former, operate};
use es_evaluator::state::{Operands, State};
use es_evaluator::targets::read_target;
use std::alloc::{AllocError, Global};

/// `t = e`
#[tactic(auto, using(crate::proofs::AssignmentForms::assign_form))]
pub fn evaluate_assign<'a, F: Fn(Global, &Opening, &mut State, &Code) -> Result<Value, Fault>>(
    within: &Within<'a, F>,
    state: &mut State,
    to: &Target,
    right: &Boxed<Code>,
) -> Result<Value, Fault>
    requires may { MayEvaluate (F.pre within.now.evaluate.now) }
    requires does { Evaluates (F.post within.now.evaluate.now) within.now.definitions.now }
    ensures { Returns (λ v. v) result state.new (form_at (opens_of within.now.definitions.now within.now.opening.now) (of.assign (target_of to.now) (code_of right.now)) (state_of state.old)) }
{
    let operands = evaluate_operands(within, state, to)?;
    assign_to(within, state, to, &operands, right)
}

/// `t = e`, behind the operands of the target.
fn assign_to<'a, F: Fn(Global, &Opening, &mut State, &Code) -> Result<Value, Fault>>(
    within: &Within<'a, F>,
    state: &mut State,
    to: &Target,
    operands: &Operands,
    right: &Boxed<Code>,
) -> Result<Value, Fault>
    requires may { MayEvaluate (F.pre within.now.evaluate.now) }
    requires does { Evaluates (F.post within.now.evaluate.now) within.now.definitions.now }
    ensures { Returns (λ v. v) result state.new (assign_step (opens_of within.now.definitions.now within.now.opening.now) (target_of to.now) (operands_of operands.now) (code_of right.now) (state_of state.old)) }
{
    let value = within.evaluate(state, right.get())?;
    write_kept(within, state, to, operands, value)
}

/// `t += e`
#[tactic(auto, using(crate::proofs::AssignmentForms::compound_form))]
pub fn evaluate_compound<'a, F: Fn(Global, &Opening, &mut State, &Code) -> Result<Value, Fault>>(
    within: &Within<'a, F>,
    state: &mut State,
    node: u32,
    operator: &Name,
    to: &Target,
    right: &Boxed<Code>,
) -> Result<Value, Fault>
    requires may { MayEvaluate (F.pre within.now.evaluate.now) }
    requires does { Evaluates (F.post within.now.evaluate.now) within.now.definitions.now }
    ensures { Returns (λ v. v) result state.new (form_at (opens_of within.now.definitions.now within.now.opening.now) (of.compound node operator.now (target_of to.now) (code_of right.now)) (state_of state.old)) }
{
    let operands = evaluate_operands(within, state, to)?;
    compound_to(within, state, node, operator, to, &operands, right)
}

/// `t += e`, behind the operands of the target.
fn compound_to<'a, F: Fn(Global, &Opening, &mut State, &Code) -> Result<Value, Fault>>(
    within: &Within<'a, F>,
    state: &mut State,
    node: u32,
    operator: &Name,
    to: &Target,
    operands: &Operands,
    right: &Boxed<Code>,
) -> Result<Value, Fault>
    requires may { MayEvaluate (F.pre within.now.evaluate.now) }
    requires does { Evaluates (F.post within.now.evaluate.now) within.now.definitions.now }
    ensures { Returns (λ v. v) result state.new (compound_step (opens_of within.now.definitions.now within.now.opening.now) node operator.now (target_of to.now) (operands_of operands.now) (code_of right.now) (state_of state.old)) }
{
    let outer = state.enter();
    let value = operated(within, state, node, operator, to, operands, right)?;
    let value = state.leave(outer, value);
    write_kept(within, state, to, operands, value)
}

/// What is read for `t += e`, and its operation: all in front of the write.
fn operated<'a, F: Fn(Global, &Opening, &mut State, &Code) -> Result<Value, Fault>>(
    within: &Within<'a, F>,
    state: &mut State,
    node: u32,
    operator: &Name,
    to: &Target,
    operands: &Operands,
    right: &Boxed<Code>,
) -> Result<Value, Fault>
    requires may { MayEvaluate (F.pre within.now.evaluate.now) }
    requires does { Evaluates (F.post within.now.evaluate.now) within.now.definitions.now }
    ensures { Returns (λ v. v) result state.new (operated_step (opens_of within.now.definitions.now within.now.opening.now) node operator.now (target_of to.now) (operands_of operands.now) (code_of right.now) (state_of state.old)) }
{
    let former = read(within, state, to, operands)?;
    let right = within.evaluate(state, right.get())?;
    operate(within.alloc, state, node, operator, former, right)
}

/// `t ||= e`
#[tactic(auto, using(crate::proofs::AssignmentForms::logical_assign_form))]
pub fn evaluate_logical_assign<
    'a,
    F: Fn(Global, &Opening, &mut State, &Code) -> Result<Value, Fault>,
>(
    within: &Within<'a, F>,
    state: &mut State,
    node: u32,
    operator: &Name,
    to: &Target,
    right: &Boxed<Code>,
) -> Result<Value, Fault>
    requires may { MayEvaluate (F.pre within.now.evaluate.now) }
    requires does { Evaluates (F.post within.now.evaluate.now) within.now.definitions.now }
    ensures { Returns (λ v. v) result state.new (form_at (opens_of within.now.definitions.now within.now.opening.now) (of.logical_assign node operator.now (target_of to.now) (code_of right.now)) (state_of state.old)) }
{
    let operands = evaluate_operands(within, state, to)?;
    assign_unless(within, state, node, operator, to, &operands, right)
}

/// `t ||= e`, behind the operands of the target.
fn assign_unless<'a, F: Fn(Global, &Opening, &mut State, &Code) -> Result<Value, Fault>>(
    within: &Within<'a, F>,
    state: &mut State,
    node: u32,
    operator: &Name,
    to: &Target,
    operands: &Operands,
    right: &Boxed<Code>,
) -> Result<Value, Fault>
    requires may { MayEvaluate (F.pre within.now.evaluate.now) }
    requires does { Evaluates (F.post within.now.evaluate.now) within.now.definitions.now }
    ensures { Returns (λ v. v) result state.new (logical_step (opens_of within.now.definitions.now within.now.opening.now) node operator.now (target_of to.now) (operands_of operands.now) (code_of right.now) (state_of state.old)) }
{
    let former = read(within, state, to, operands)?;
    let place = Place::RightOf(operator.try_clone(within.alloc)?);
    assign_in_part(
        within,
        state,
        node,
        place,
        Some(former),
        to,
        operands,
        right,
    )
}

/// An assignment as a part that may run or not.
fn assign_in_part<'a, F: Fn(Global, &Opening, &mut State, &Code) -> Result<Value, Fault>>(
    within: &Within<'a, F>,
    state: &mut State,
    node: u32,
    place: Place,
    tested: Option<Value>,
    to: &Target,
    operands: &Operands,
    right: &Boxed<Code>,
) -> Result<Value, Fault>
    requires may { MayEvaluate (F.pre within.now.evaluate.now) }
    requires does { Evaluates (F.post within.now.evaluate.now) within.now.definitions.now }
    ensures { Returns (λ v. v) result state.new (direct.held node (place_of place) tested (given_step (opens_of within.now.definitions.now within.now.opening.now) (target_of to.now) (operands_of operands.now) (code_of right.now)) (state_of state.old)) }
{
    let around = state.open()?;
    let value = assign_given(within, state, to, operands, right)?;
    let value = state.settled(value);
    let token = Token::End {
        node,
        place,
        tested,
        value,
    };
    state.close(around, token)?;
    Ok(Value::result_of(node))
}

/// What that part does.
fn assign_given<'a, F: Fn(Global, &Opening, &mut State, &Code) -> Result<Value, Fault>>(
    within: &Within<'a, F>,
    state: &mut State,
    to: &Target,
    operands: &Operands,
    right: &Boxed<Code>,
) -> Result<Value, Fault>
    requires may { MayEvaluate (F.pre within.now.evaluate.now) }
    requires does { Evaluates (F.post within.now.evaluate.now) within.now.definitions.now }
    ensures { Returns (λ v. v) result state.new (given_step (opens_of within.now.definitions.now within.now.opening.now) (target_of to.now) (operands_of operands.now) (code_of right.now) (state_of state.old)) }
{
    let value = within.evaluate(state, right.get())?;
    write(within, state, to, operands, value)
}

/// `t++`
#[tactic(auto, using(crate::proofs::AssignmentForms::update_form))]
pub fn evaluate_update<'a, F: Fn(Global, &Opening, &mut State, &Code) -> Result<Value, Fault>>(
    within: &Within<'a, F>,
    state: &mut State,
    node: u32,
    operator: &Name,
    is_prefix: bool,
    to: &Target,
) -> Result<Value, Fault>
    requires may { MayEvaluate (F.pre within.now.evaluate.now) }
    requires does { Evaluates (F.post within.now.evaluate.now) within.now.definitions.now }
    ensures { Returns (λ v. v) result state.new (form_at (opens_of within.now.definitions.now within.now.opening.now) (of.update node operator.now is_prefix (target_of to.now)) (state_of state.old)) }
{
    let operands = evaluate_operands(within, state, to)?;
    update(within, state, node, operator, is_prefix, to, &operands)
}

/// `t++`, behind the operands of the target.
fn update<'a, F: Fn(Global, &Opening, &mut State, &Code) -> Result<Value, Fault>>(
    within: &Within<'a, F>,
    state: &mut State,
    node: u32,
    operator: &Name,
    is_prefix: bool,
    to: &Target,
    operands: &Operands,
) -> Result<Value, Fault>
    requires may { MayEvaluate (F.pre within.now.evaluate.now) }
    requires does { Evaluates (F.post within.now.evaluate.now) within.now.definitions.now }
    ensures { Returns (λ v. v) result state.new (update_step (opens_of within.now.definitions.now within.now.opening.now) node operator.now is_prefix (target_of to.now) (operands_of operands.now) (state_of state.old)) }
{
    let outer = state.enter();
    let value = updated(within, state, node, operator, to, operands)?;
    let value = state.leave(outer, value);
    let _written = write(within, state, to, operands, value)?;
    Ok(new_or_former(is_prefix, node))
}

/// What is read for `t++`, and its operation: all in front of the write.
fn updated<'a, F>(
    within: &Within<'a, F>,
    state: &mut State,
    node: u32,
    operator: &Name,
    to: &Target,
    operands: &Operands,
) -> Result<Value, Fault>
    ensures { Returns (λ v. v) result state.new (updated_step (opens_of within.now.definitions.now within.now.opening.now) node operator.now (target_of to.now) (operands_of operands.now) (state_of state.old)) }
{
    let old = read(within, state, to, operands)?;
    let operator = operator.try_clone(within.alloc)?;
    let token = Token::Update {
        node,
        operator,
        old,
    };
    emit(state, token, Value::result_of(node))
}

/// The head of a for-in or for-of, or a caught name, is given a value of a node.
#[tactic(auto, using(crate::proofs::AssignmentForms::gives_to_form))]
pub fn evaluate_gives_to<'a, F: Fn(Global, &Opening, &mut State, &Code) -> Result<Value, Fault>>(
    within: &Within<'a, F>,
    state: &mut State,
    node: u32,
    to: &Target,
) -> Result<Value, Fault>
    requires may { MayEvaluate (F.pre within.now.evaluate.now) }
    requires does { Evaluates (F.post within.now.evaluate.now) within.now.definitions.now }
    ensures { Returns (λ v. v) result state.new (form_at (opens_of within.now.definitions.now within.now.opening.now) (of.gives_to node (target_of to.now)) (state_of state.old)) }
{
    let operands = evaluate_operands(within, state, to)?;
    let _written = write_target(within, state, to, operands, Value::result_of(node))?;
    Ok(Value::undefined())
}

/// Reads a target whose operands have these values.
#[tactic(auto, using(crate::proofs::AssignmentForms::read_anywhere))]
fn read<'a, F>(
    within: &Within<'a, F>,
    state: &mut State,
    to: &Target,
    operands: &Operands,
) -> Result<Value, Fault>
    ensures { Returns (λ v. v) result state.new (read_at (opens_of within.now.definitions.now within.now.opening.now) (target_of to.now) (operands_of operands.now) (state_of state.old)) }
{
    read_target(within.alloc, state, to, operands)
}

/// Writes a target whose operands have these values.
fn write<'a, F: Fn(Global, &Opening, &mut State, &Code) -> Result<Value, Fault>>(
    within: &Within<'a, F>,
    state: &mut State,
    to: &Target,
    operands: &Operands,
    value: Value,
) -> Result<Value, Fault>
    requires may { MayEvaluate (F.pre within.now.evaluate.now) }
    requires does { Evaluates (F.post within.now.evaluate.now) within.now.definitions.now }
    ensures { Returns (λ v. v) result state.new (write_at (opens_of within.now.definitions.now within.now.opening.now) (target_of to.now) (operands_of operands.now) value (state_of state.old)) }
{
    let operands = copy_operands(within.alloc, operands)?;
    write_target(within, state, to, operands, value)
}

/// Writes a target, and gives the value whatever that gives.
fn write_kept<'a, F: Fn(Global, &Opening, &mut State, &Code) -> Result<Value, Fault>>(
    within: &Within<'a, F>,
    state: &mut State,
    to: &Target,
    operands: &Operands,
    value: Value,
) -> Result<Value, Fault>
    requires may { MayEvaluate (F.pre within.now.evaluate.now) }
    requires does { Evaluates (F.post within.now.evaluate.now) within.now.definitions.now }
    ensures { Returns (λ v. v) result state.new (kept_step (opens_of within.now.definitions.now within.now.opening.now) (target_of to.now) (operands_of operands.now) value (state_of state.old)) }
{
    let written = value.try_clone(within.alloc)?;
    let _written = write(within, state, to, operands, written)?;
    Ok(value)
}

/// A copy. Fails on allocation failure alone.
fn copy_operands(alloc: Global, operands: &Operands) -> Result<Operands, AllocError>
    ensures { IfOk result (λ t. operands_of t ≡ operands_of operands.now) }
{
    match operands {
        Operands::Nothing => Ok(Operands::Nothing),
        Operands::One(object) => Ok(Operands::One(object.try_clone(alloc)?)),
        Operands::Two(object, key) => {
            let object = object.try_clone(alloc)?;
            let key = key.try_clone(alloc)?;
            Ok(Operands::Two(object, key))
        }
    }
}
