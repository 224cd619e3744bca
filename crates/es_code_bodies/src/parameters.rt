// Parameters of functions, and bodies behind them (ECMA-262, 10.2.11).

ghost use Rattle.std.specs.Prelude.{◌≡◌, ◌∷◌, [], IfOk, List};
ghost use Rattle.es_codes.specs.CodeView.{code_of, codes_of, target_of};
ghost use Rattle.es_codes.specs.View.{details_of};
ghost use Rattle.es_steps.specs.Events.{Index, Rest};
ghost use Rattle.es_evaluator.specs.Running.{Returns, state_of};
ghost use Rattle.es_code_rules.specs.Elsewhere.{opens_of};
ghost use Rattle.es_code_rules.specs.Within.{MayEvaluate, Evaluates};
ghost use Rattle.es_code_bodies.specs.Bodies.{argument_at, body_at, entered_at, given_at, parameter_at, parameters_at, rest_at};

use es_base::list::List;
use es_code_rules::definition::Opening;
use es_code_rules::within::Within;
use es_codes::code::{Code, Target};
use es_codes::event::{Detail, Operation, Token};
use es_codes::value::Value;
use es_entries::parameter::{all_identifiers, parameters_of};
use es_evaluator::fault::Fault;
use es_evaluator::names::emit;
use es_evaluator::state::State;
use es_target_rules::targets::{evaluate_operands, write_target};
use std::alloc::{AllocError, Global};

/// What a call does with its arguments, and its body behind that: undefined if that throws.
#[tactic(auto, using(crate::proofs::Forms::body_is))]
pub fn evaluate_body<'a, F: Fn(Global, &Opening, &mut State, &Code) -> Result<Value, Fault>>(
    within: &Within<'a, F>,
    state: &mut State,
    parameters: &[Code],
    body: &Code,
) -> Result<Value, Fault>
    requires may { MayEvaluate (F.pre within.now.evaluate.now) }
    requires does { Evaluates (F.post within.now.evaluate.now) within.now.definitions.now }
    ensures { Returns (λ v. v) result state.new (body_at (opens_of within.now.definitions.now within.now.opening.now) (codes_of parameters.now) (code_of body.now) (state_of state.old)) }
{
    let _undefined = evaluate_given(within, state, parameters)?;
    within.evaluate(state, body)
}

/// What a call does with its arguments, and the border between parameters and the body.
#[tactic(auto, using(crate::proofs::Forms::given_is))]
pub fn evaluate_given<'a, F: Fn(Global, &Opening, &mut State, &Code) -> Result<Value, Fault>>(
    within: &Within<'a, F>,
    state: &mut State,
    parameters: &[Code],
) -> Result<Value, Fault>
    requires may { MayEvaluate (F.pre within.now.evaluate.now) }
    requires does { Evaluates (F.post within.now.evaluate.now) within.now.definitions.now }
    ensures { Returns (λ v. v) result state.new (given_at (opens_of within.now.definitions.now within.now.opening.now) (codes_of parameters.now) (state_of state.old)) }
{
    let _undefined = evaluate_parameters(within, state, parameters)?;
    let listed = parameters_of(within.alloc, parameters)?;
    enter_body(state, all_identifiers(listed.as_slice()))
}

/// A body behind parameters that are not all identifiers has an environment of its own (ECMA-262, 10.2.11).
#[tactic(auto, using(crate::proofs::Forms::entered_here, crate::proofs::Forms::entered_apart))]
fn enter_body(state: &mut State, are_identifiers: bool) -> Result<Value, Fault>
    ensures { Returns (λ v. v) result state.new (entered_at are_identifiers (state_of state.old)) }
{
    if are_identifiers {
        return Ok(Value::undefined());
    }
    emit(state, Token::EnterBody, Value::undefined())
}

/// Parameters in order.
#[tactic(auto, using(crate::proofs::Forms::parameters_begin, crate::proofs::Forms::parameters_more, crate::proofs::Forms::parameters_fail, crate::proofs::Forms::parameters_end))]
fn evaluate_parameters<'a, F: Fn(Global, &Opening, &mut State, &Code) -> Result<Value, Fault>>(
    within: &Within<'a, F>,
    state: &mut State,
    parameters: &[Code],
) -> Result<Value, Fault>
    requires may { MayEvaluate (F.pre within.now.evaluate.now) }
    requires does { Evaluates (F.post within.now.evaluate.now) within.now.definitions.now }
    ensures { Returns (λ v. v) result state.new (parameters_at (opens_of within.now.definitions.now within.now.opening.now) (codes_of parameters.now) (state_of state.old)) }
{
    for i in 0..parameters.len() {
        let _undefined = evaluate_parameter(within, state, i, &parameters[i])?;
    }
    Ok(Value::undefined())
}

/// The i-th parameter: a pattern takes its argument apart, an identifier has no event.
#[tactic(auto, using(es_codes::proofs::Forms::binding_is, es_codes::proofs::Forms::rest_is, es_codes::proofs::Forms::pattern_is, crate::proofs::Forms::binding_is_parameter, crate::proofs::Forms::rest_is_parameter, crate::proofs::Forms::pattern_is_parameter, crate::proofs::CodeForms::no_parameter))]
fn evaluate_parameter<'a, F: Fn(Global, &Opening, &mut State, &Code) -> Result<Value, Fault>>(
    within: &Within<'a, F>,
    state: &mut State,
    i: usize,
    parameter: &Code,
) -> Result<Value, Fault>
    requires may { MayEvaluate (F.pre within.now.evaluate.now) }
    requires does { Evaluates (F.post within.now.evaluate.now) within.now.definitions.now }
    ensures { Returns (λ v. v) result state.new (parameter_at (opens_of within.now.definitions.now within.now.opening.now) i (code_of parameter.now) (state_of state.old)) }
{
    match parameter {
        // x
        Code::Binding { .. } => Ok(Value::undefined()),
        // ...xs
        Code::Rest { to } => evaluate_rest(within, state, i, to.get()),
        // [x]
        Code::Pattern { node, to } => evaluate_pattern(within, state, i, *node, to.get()),
        _ => Err(Fault::NoMeaning),
    }
}

/// A pattern that takes the i-th argument.
fn evaluate_pattern<'a, F: Fn(Global, &Opening, &mut State, &Code) -> Result<Value, Fault>>(
    within: &Within<'a, F>,
    state: &mut State,
    i: usize,
    node: u32,
    to: &Target,
) -> Result<Value, Fault>
    requires may { MayEvaluate (F.pre within.now.evaluate.now) }
    requires does { Evaluates (F.post within.now.evaluate.now) within.now.definitions.now }
    ensures { Returns (λ v. v) result state.new (argument_at (opens_of within.now.definitions.now within.now.opening.now) node (Index i ∷ []) (target_of to.now) (state_of state.old)) }
{
    let details = argument(within.alloc, i)?;
    take_argument(within, state, node, details, to)
}

/// A parameter that takes the arguments from the i-th on.
#[tactic(auto, using(es_codes::proofs::Forms::to_name_is, crate::proofs::Forms::name_takes_rest, es_codes::proofs::Forms::to_member_is, crate::proofs::Forms::member_takes_none, es_codes::proofs::Forms::to_private_is, crate::proofs::Forms::private_takes_none, es_codes::proofs::Forms::to_super_is, crate::proofs::Forms::super_takes_none, es_codes::proofs::Forms::to_setter_is, crate::proofs::Forms::setter_takes_none, es_codes::proofs::Forms::to_pattern_is, crate::proofs::Forms::pattern_takes_rest, es_codes::proofs::Forms::to_default_is, crate::proofs::Forms::default_takes_none, es_codes::proofs::Forms::no_target_is, crate::proofs::Forms::nothing_takes_none))]
fn evaluate_rest<'a, F: Fn(Global, &Opening, &mut State, &Code) -> Result<Value, Fault>>(
    within: &Within<'a, F>,
    state: &mut State,
    i: usize,
    to: &Target,
) -> Result<Value, Fault>
    requires may { MayEvaluate (F.pre within.now.evaluate.now) }
    requires does { Evaluates (F.post within.now.evaluate.now) within.now.definitions.now }
    ensures { Returns (λ v. v) result state.new (rest_at (opens_of within.now.definitions.now within.now.opening.now) i (target_of to.now) (state_of state.old)) }
{
    match to {
        // ...xs
        Target::ToName { .. } => Ok(Value::undefined()),
        // ...[x]
        Target::ToPattern { node, .. } => {
            let details = arguments_from(within.alloc, i)?;
            take_argument(within, state, *node, details, to)
        }
        Target::ToMember { .. } => Err(Fault::NoMeaning),
        Target::ToPrivate { .. } => Err(Fault::NoMeaning),
        Target::ToSuper { .. } => Err(Fault::NoMeaning),
        Target::ToSetter { .. } => Err(Fault::NoMeaning),
        Target::ToDefault { .. } => Err(Fault::NoMeaning),
        Target::NoTarget => Err(Fault::NoMeaning),
    }
}

/// What takes the i-th argument. Fails on allocation failure alone.
fn argument(alloc: Global, i: usize) -> Result<List<Detail>, AllocError>
    ensures { IfOk result (λ ds. details_of ds ≡ Index i ∷ []) }
{
    let mut details = List::new(alloc);
    details.push(Detail::Index(i))?;
    Ok(details)
}

/// What takes the arguments from the i-th on. Fails on allocation failure alone.
fn arguments_from(alloc: Global, i: usize) -> Result<List<Detail>, AllocError>
    ensures { IfOk result (λ ds. details_of ds ≡ Index i ∷ Rest ∷ []) }
{
    let mut details = List::new(alloc);
    details.push(Detail::Index(i))?;
    details.push(Detail::Rest)?;
    Ok(details)
}

/// A pattern takes what these details say from the arguments, and takes it apart (ECMA-262, 8.6.2).
#[tactic(auto, using(crate::proofs::Forms::argument_is))]
fn take_argument<'a, F: Fn(Global, &Opening, &mut State, &Code) -> Result<Value, Fault>>(
    within: &Within<'a, F>,
    state: &mut State,
    node: u32,
    details: List<Detail>,
    to: &Target,
) -> Result<Value, Fault>
    requires may { MayEvaluate (F.pre within.now.evaluate.now) }
    requires does { Evaluates (F.post within.now.evaluate.now) within.now.definitions.now }
    ensures { Returns (λ v. v) result state.new (argument_at (opens_of within.now.definitions.now within.now.opening.now) node (details_of details) (target_of to.now) (state_of state.old)) }
{
    let operands = evaluate_operands(within, state, to)?;
    let token = Token::Operate {
        node,
        operation: Operation::Take(details),
        operands: List::new(within.alloc),
    };
    let value = emit(state, token, Value::result_of(node))?;
    write_target(within, state, to, operands, value)
}
