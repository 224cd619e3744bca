// The operands of targets (ECMA-262, 13.15.2).

ghost use Rattle.es_codes.specs.CodeView.{code_of};
ghost use Rattle.es_evaluator.specs.Running.{Returns, state_of, operands_of};
ghost use Rattle.es_code_rules.specs.Elsewhere.{opens_of};
ghost use Rattle.es_target_rules.specs.Steps.{one_operand_step, two_operands_step};
ghost use Rattle.es_code_rules.specs.Within.{MayEvaluate, Evaluates};

use es_code_rules::definition::Opening;
use es_code_rules::within::Within;
use es_codes::boxed::Boxed;
use es_codes::code::Code;
use es_codes::value::Value;
use es_evaluator::fault::Fault;
use es_evaluator::state::{Operands, State};
use std::alloc::Global;

/// One operand.
pub fn evaluate_one<'a, F: Fn(Global, &Opening, &mut State, &Code) -> Result<Value, Fault>>(
    within: &Within<'a, F>,
    state: &mut State,
    operand: &Boxed<Code>,
) -> Result<Operands, Fault>
    requires may { MayEvaluate (F.pre within.now.evaluate.now) }
    requires does { Evaluates (F.post within.now.evaluate.now) within.now.definitions.now }
    ensures { Returns operands_of result state.new (one_operand_step (opens_of within.now.definitions.now within.now.opening.now) (code_of operand.now) (state_of state.old)) }
{
    let value = within.evaluate(state, operand.get())?;
    Ok(Operands::One(value))
}

/// An object and a key.
pub fn evaluate_two<'a, F: Fn(Global, &Opening, &mut State, &Code) -> Result<Value, Fault>>(
    within: &Within<'a, F>,
    state: &mut State,
    object: &Boxed<Code>,
    key: &Boxed<Code>,
) -> Result<Operands, Fault>
    requires may { MayEvaluate (F.pre within.now.evaluate.now) }
    requires does { Evaluates (F.post within.now.evaluate.now) within.now.definitions.now }
    ensures { Returns operands_of result state.new (two_operands_step (opens_of within.now.definitions.now within.now.opening.now) (code_of object.now) (code_of key.now) (state_of state.old)) }
{
    let object = within.evaluate(state, object.get())?;
    let key = within.evaluate(state, key.get())?;
    Ok(Operands::Two(object, key))
}
