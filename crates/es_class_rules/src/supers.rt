// What is opened, and `super(..)`.

ghost use Rattle.std.specs.Prelude.{List, option_map};
ghost use Rattle.es_steps.specs.Code as of;
ghost use Rattle.es_codes.specs.CodeView.{codes_of, opened_of};
ghost use Rattle.es_evaluator.specs.Running.{Returns, state_of};
ghost use Rattle.es_code_rules.specs.Elsewhere.{opens_of};
ghost use Rattle.es_code_rules.specs.Steps.{form_at};
ghost use Rattle.es_class_rules.specs.Steps.{behind_at, this_step};
ghost use Rattle.es_code_rules.specs.Within.{MayEvaluate, Evaluates};

use crate::opened::evaluate_opened;
use es_base::list::List;
use es_base::name::Name;
use es_code_rules::definition::Opening;
use es_code_rules::within::Within;
use es_codes::code::{Code, Opened};
use es_codes::event::Token;
use es_codes::value::Value;
use es_evaluator::fault::Fault;
use es_evaluator::names::emit;
use es_evaluator::state::State;
use std::alloc::Global;

/// `super(a)`
#[tactic(auto, using(crate::proofs::SuperForms::super_call_form))]
pub fn evaluate_super_call<'a, F: Fn(Global, &Opening, &mut State, &Code) -> Result<Value, Fault>>(
    within: &Within<'a, F>,
    state: &mut State,
    node: u32,
    class: u32,
    behind: &Option<Opened>,
    arguments: &List<Code>,
) -> Result<Value, Fault>
    requires may { MayEvaluate (F.pre within.now.evaluate.now) }
    requires does { Evaluates (F.post within.now.evaluate.now) within.now.definitions.now }
    ensures { Returns (λ v. v) result state.new (form_at (opens_of within.now.definitions.now within.now.opening.now) (of.super_call node class (option_map opened_of behind.now) (codes_of arguments.now)) (state_of state.old)) }
{
    let arguments = within.evaluate_all(state, arguments.as_slice())?;
    let token = Token::SuperCall {
        node,
        class,
        arguments,
    };
    let _this = emit(state, token, Value::this_of(class))?;
    evaluate_behind(within, state, class, behind)
}

/// `super(..._args)`
#[tactic(auto, using(crate::proofs::SuperForms::super_call_with_all_form))]
pub fn evaluate_super_call_with_all<
    'a,
    F: Fn(Global, &Opening, &mut State, &Code) -> Result<Value, Fault>,
>(within: &Within<'a, F>, state: &mut State, class: u32) -> Result<Value, Fault>
    requires may { MayEvaluate (F.pre within.now.evaluate.now) }
    requires does { Evaluates (F.post within.now.evaluate.now) within.now.definitions.now }
    ensures { Returns (λ v. v) result state.new (form_at (opens_of within.now.definitions.now within.now.opening.now) (of.super_call_with_all class) (state_of state.old)) }
{
    let token = Token::SuperCallWithAll { class };
    let _this = emit(state, token, Value::this_of(class))?;
    let _undefined = evaluate_opened(within, state, &Opened::InitializersOf(class))?;
    Ok(Value::this_of(class))
}

/// What follows `super(..)` of a class.
#[tactic(auto, using(crate::proofs::SuperForms::no_behind, crate::proofs::SuperForms::initializers_behind, crate::proofs::SuperForms::body_behind, crate::proofs::SuperForms::called_behind))]
pub fn evaluate_behind<'a, F: Fn(Global, &Opening, &mut State, &Code) -> Result<Value, Fault>>(
    within: &Within<'a, F>,
    state: &mut State,
    class: u32,
    behind: &Option<Opened>,
) -> Result<Value, Fault>
    requires may { MayEvaluate (F.pre within.now.evaluate.now) }
    requires does { Evaluates (F.post within.now.evaluate.now) within.now.definitions.now }
    ensures { Returns (λ v. v) result state.new (behind_at (opens_of within.now.definitions.now within.now.opening.now) class (option_map opened_of behind.now) (state_of state.old)) }
{
    match behind {
        None => Ok(Value::this_of(class)),
        Some(Opened::InitializersOf(opened)) => {
            let _undefined = evaluate_opened(within, state, &Opened::InitializersOf(*opened))?;
            Ok(Value::this_of(class))
        }
        Some(opened) => evaluate_this(within, state, class, opened),
    }
}

/// A body that has to give `this` of a class, unless it throws.
pub fn evaluate_this<'a, F: Fn(Global, &Opening, &mut State, &Code) -> Result<Value, Fault>>(
    within: &Within<'a, F>,
    state: &mut State,
    class: u32,
    opened: &Opened,
) -> Result<Value, Fault>
    requires may { MayEvaluate (F.pre within.now.evaluate.now) }
    requires does { Evaluates (F.post within.now.evaluate.now) within.now.definitions.now }
    ensures { Returns (λ v. v) result state.new (this_step (opens_of within.now.definitions.now within.now.opening.now) class (opened_of opened.now) (state_of state.old)) }
{
    let outer = state.enter();
    let value = evaluate_opened(within, state, opened)?;
    state.leave_this(outer, class, value)
}

/// The initializers of a class.
#[tactic(auto, using(crate::proofs::SuperForms::initializers_form))]
pub fn evaluate_initializers<
    'a,
    F: Fn(Global, &Opening, &mut State, &Code) -> Result<Value, Fault>,
>(within: &Within<'a, F>, state: &mut State, class: u32) -> Result<Value, Fault>
    requires may { MayEvaluate (F.pre within.now.evaluate.now) }
    requires does { Evaluates (F.post within.now.evaluate.now) within.now.definitions.now }
    ensures { Returns (λ v. v) result state.new (form_at (opens_of within.now.definitions.now within.now.opening.now) (of.initializers class) (state_of state.old)) }
{
    evaluate_opened(within, state, &Opened::InitializersOf(class))
}

/// A call of a generated name of a closure.
#[tactic(auto, using(crate::proofs::SuperForms::call_closure_form))]
pub fn evaluate_call_closure<
    'a,
    F: Fn(Global, &Opening, &mut State, &Code) -> Result<Value, Fault>,
>(
    within: &Within<'a, F>,
    state: &mut State,
    spelling: &Name,
    arguments: &List<Code>,
) -> Result<Value, Fault>
    requires may { MayEvaluate (F.pre within.now.evaluate.now) }
    requires does { Evaluates (F.post within.now.evaluate.now) within.now.definitions.now }
    ensures { Returns (λ v. v) result state.new (form_at (opens_of within.now.definitions.now within.now.opening.now) (of.call_closure spelling.now (codes_of arguments.now)) (state_of state.old)) }
{
    let _values = within.evaluate_all(state, arguments.as_slice())?;
    let opened = Opened::BodyOf(spelling.try_clone(within.alloc)?);
    evaluate_opened(within, state, &opened)
}
