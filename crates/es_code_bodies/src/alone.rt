// What comes in front of something that is not evaluated.

ghost use Rattle.std.specs.Prelude.{List};
ghost use Rattle.es_codes.specs.CodeView.{callee_of, codes_of, target_of};
ghost use Rattle.es_evaluator.specs.Running.{Returns, state_of};
ghost use Rattle.es_code_rules.specs.Elsewhere.{opens_of};
ghost use Rattle.es_code_rules.specs.Within.{MayEvaluate, Evaluates};
ghost use Rattle.es_code_bodies.specs.Alone.{all_alone_at, arguments_at, callee_alone_at, keys_alone_at, target_alone_at};

use es_base::name::Name;
use es_class_rules::classes;
use es_code_rules::definition::Opening;
use es_code_rules::within::Within;
use es_codes::code::{Callee, Code, Target};
use es_codes::value::Value;
use es_evaluator::fault::Fault;
use es_evaluator::operands::bind_parameters;
use es_evaluator::state::State;
use es_target_rules::targets::evaluate_operands;
use std::alloc::Global;

/// Codes in order.
#[tactic(auto, using(crate::proofs::Forms::all_alone_is))]
pub fn evaluate_all<'a, F: Fn(Global, &Opening, &mut State, &Code) -> Result<Value, Fault>>(
    within: &Within<'a, F>,
    state: &mut State,
    codes: &[Code],
) -> Result<Value, Fault>
    requires may { MayEvaluate (F.pre within.now.evaluate.now) }
    requires does { Evaluates (F.post within.now.evaluate.now) within.now.definitions.now }
    ensures { Returns (λ v. v) result state.new (all_alone_at (opens_of within.now.definitions.now within.now.opening.now) (codes_of codes.now) (state_of state.old)) }
{
    let _values = within.evaluate_all(state, codes)?;
    Ok(Value::undefined())
}

/// The operands of a target that is neither read nor written.
#[tactic(auto, using(crate::proofs::Forms::target_alone_is))]
pub fn evaluate_target<'a, F: Fn(Global, &Opening, &mut State, &Code) -> Result<Value, Fault>>(
    within: &Within<'a, F>,
    state: &mut State,
    to: &Target,
) -> Result<Value, Fault>
    requires may { MayEvaluate (F.pre within.now.evaluate.now) }
    requires does { Evaluates (F.post within.now.evaluate.now) within.now.definitions.now }
    ensures { Returns (λ v. v) result state.new (target_alone_at (opens_of within.now.definitions.now within.now.opening.now) (target_of to.now) (state_of state.old)) }
{
    let _operands = evaluate_operands(within, state, to)?;
    Ok(Value::undefined())
}

/// A callee that is not called.
#[tactic(auto, using(crate::proofs::Forms::callee_alone_is))]
pub fn evaluate_callee<'a, F: Fn(Global, &Opening, &mut State, &Code) -> Result<Value, Fault>>(
    within: &Within<'a, F>,
    state: &mut State,
    callee: &Callee,
) -> Result<Value, Fault>
    requires may { MayEvaluate (F.pre within.now.evaluate.now) }
    requires does { Evaluates (F.post within.now.evaluate.now) within.now.definitions.now }
    ensures { Returns (λ v. v) result state.new (callee_alone_at (opens_of within.now.definitions.now within.now.opening.now) (callee_of callee.now) (state_of state.old)) }
{
    let called = within.evaluate_callee(state, callee)?;
    Ok(called.callee)
}

/// The keys of the elements of a class in order.
#[tactic(auto, using(crate::proofs::Forms::keys_alone_is))]
pub fn evaluate_keys<'a, F: Fn(Global, &Opening, &mut State, &Code) -> Result<Value, Fault>>(
    within: &Within<'a, F>,
    state: &mut State,
    elements: &[Code],
) -> Result<Value, Fault>
    requires may { MayEvaluate (F.pre within.now.evaluate.now) }
    requires does { Evaluates (F.post within.now.evaluate.now) within.now.definitions.now }
    ensures { Returns (λ v. v) result state.new (keys_alone_at (opens_of within.now.definitions.now within.now.opening.now) (codes_of elements.now) (state_of state.old)) }
{
    let _keys = classes::evaluate_keys(within, state, elements)?;
    Ok(Value::undefined())
}

/// Arguments of a function that is called where it stands: its parameters stand for them.
#[tactic(auto, using(crate::proofs::Forms::arguments_are))]
pub fn evaluate_arguments<'a, F: Fn(Global, &Opening, &mut State, &Code) -> Result<Value, Fault>>(
    within: &Within<'a, F>,
    state: &mut State,
    parameters: &[Name],
    arguments: &[Code],
) -> Result<Value, Fault>
    requires may { MayEvaluate (F.pre within.now.evaluate.now) }
    requires does { Evaluates (F.post within.now.evaluate.now) within.now.definitions.now }
    ensures { Returns (λ v. v) result state.new (arguments_at (opens_of within.now.definitions.now within.now.opening.now) parameters.now (codes_of arguments.now) (state_of state.old)) }
{
    let values = within.evaluate_all(state, arguments)?;
    bind_parameters(within.alloc, state, parameters, values.as_slice())
}
