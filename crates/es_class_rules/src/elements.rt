// Fields and private elements of a class (ECMA-262, 7.3.33 and 15.7.14).

ghost use Rattle.es_codes.specs.CodeView.{code_of, field_form_of};
ghost use Rattle.es_evaluator.specs.Running.{Returns, state_of};
ghost use Rattle.es_code_rules.specs.Elsewhere.{opens_of};
ghost use Rattle.es_class_rules.specs.Steps.{static_field_step, private_field_step, static_private_step, generated_element_step, quiet_step, instance_field_step, instance_private_step};
ghost use Rattle.es_code_rules.specs.Within.{MayEvaluate, Evaluates};

use es_base::name::Name;
use es_code_rules::definition::Opening;
use es_code_rules::within::Within;
use es_codes::boxed::Boxed;
use es_codes::code::{Code, FieldForm};
use es_codes::event::Token;
use es_codes::value::Value;
use es_evaluator::fault::Fault;
use es_evaluator::names::{emit, give_element};
use es_evaluator::operands::initialize;
use es_evaluator::state::State;
use std::alloc::Global;

/// `static k = e;`
pub fn evaluate_static_field<
    'a,
    F: Fn(Global, &Opening, &mut State, &Code) -> Result<Value, Fault>,
>(
    within: &Within<'a, F>,
    state: &mut State,
    class: u32,
    key: &Value,
    is_static: bool,
    form: FieldForm,
    right: &Boxed<Code>,
) -> Result<Value, Fault>
    requires may { MayEvaluate (F.pre within.now.evaluate.now) }
    requires does { Evaluates (F.post within.now.evaluate.now) within.now.definitions.now }
    ensures { Returns (λ v. v) result state.new (static_field_step (opens_of within.now.definitions.now within.now.opening.now) class key.now is_static (field_form_of form) (code_of right.now) (state_of state.old)) }
{
    if !is_static {
        return Ok(Value::undefined());
    }
    let value = within.evaluate(state, right.get())?;
    let key = key.try_clone(within.alloc)?;
    initialize(state, form, Value::class_of(class), key, value)
}

/// `static #x = e;`
pub fn evaluate_static_private<
    'a,
    F: Fn(Global, &Opening, &mut State, &Code) -> Result<Value, Fault>,
>(
    within: &Within<'a, F>,
    state: &mut State,
    class: u32,
    is_static: bool,
    key: u32,
    right: &Boxed<Code>,
) -> Result<Value, Fault>
    requires may { MayEvaluate (F.pre within.now.evaluate.now) }
    requires does { Evaluates (F.post within.now.evaluate.now) within.now.definitions.now }
    ensures { Returns (λ v. v) result state.new (static_private_step (opens_of within.now.definitions.now within.now.opening.now) class is_static key (code_of right.now) (state_of state.old)) }
{
    if !is_static {
        return Ok(Value::undefined());
    }
    evaluate_private_field(within, state, Value::class_of(class), key, right)
}

/// `#x = e;`
pub fn evaluate_private_field<
    'a,
    F: Fn(Global, &Opening, &mut State, &Code) -> Result<Value, Fault>,
>(
    within: &Within<'a, F>,
    state: &mut State,
    object: Value,
    key: u32,
    right: &Boxed<Code>,
) -> Result<Value, Fault>
    requires may { MayEvaluate (F.pre within.now.evaluate.now) }
    requires does { Evaluates (F.post within.now.evaluate.now) within.now.definitions.now }
    ensures { Returns (λ v. v) result state.new (private_field_step (opens_of within.now.definitions.now within.now.opening.now) object key (code_of right.now) (state_of state.old)) }
{
    let value = within.evaluate(state, right.get())?;
    let token = Token::PrivateInitialize { key, object, value };
    emit(state, token, Value::undefined())
}

/// A private element of a generated name.
pub fn evaluate_element<'a, F: Fn(Global, &Opening, &mut State, &Code) -> Result<Value, Fault>>(
    within: &Within<'a, F>,
    state: &mut State,
    spelling: &Name,
    right: &Boxed<Code>,
) -> Result<Value, Fault>
    requires may { MayEvaluate (F.pre within.now.evaluate.now) }
    requires does { Evaluates (F.post within.now.evaluate.now) within.now.definitions.now }
    ensures { Returns (λ v. v) result state.new (generated_element_step (opens_of within.now.definitions.now within.now.opening.now) spelling.now (code_of right.now) (state_of state.old)) }
{
    let value = within.evaluate(state, right.get())?;
    give_element(within.alloc, state, spelling, value)
}

/// The value of a key alone, which was evaluated before.
pub fn evaluate_quiet<'a, F: Fn(Global, &Opening, &mut State, &Code) -> Result<Value, Fault>>(
    within: &Within<'a, F>,
    state: &mut State,
    code: &Code,
) -> Result<Value, Fault>
    requires may { MayEvaluate (F.pre within.now.evaluate.now) }
    requires does { Evaluates (F.post within.now.evaluate.now) within.now.definitions.now }
    ensures { Returns (λ v. v) result state.new (quiet_step (opens_of within.now.definitions.now within.now.opening.now) (code_of code.now) (state_of state.old)) }
{
    let mut apart = state.apart(within.alloc)?;
    let value = within.evaluate(&mut apart, code)?;
    Ok(apart.settled(value))
}

/// `k = e;`
pub fn evaluate_instance_field<
    'a,
    F: Fn(Global, &Opening, &mut State, &Code) -> Result<Value, Fault>,
>(
    within: &Within<'a, F>,
    state: &mut State,
    class: u32,
    is_static: bool,
    form: FieldForm,
    key: &Boxed<Code>,
    right: &Boxed<Code>,
) -> Result<Value, Fault>
    requires may { MayEvaluate (F.pre within.now.evaluate.now) }
    requires does { Evaluates (F.post within.now.evaluate.now) within.now.definitions.now }
    ensures { Returns (λ v. v) result state.new (instance_field_step (opens_of within.now.definitions.now within.now.opening.now) class is_static (field_form_of form) (code_of key.now) (code_of right.now) (state_of state.old)) }
{
    if is_static {
        return Ok(Value::undefined());
    }
    let key = evaluate_quiet(within, state, key.get())?;
    let value = within.evaluate(state, right.get())?;
    initialize(state, form, Value::this_of(class), key, value)
}

/// `#x = e;`
pub fn evaluate_instance_private<
    'a,
    F: Fn(Global, &Opening, &mut State, &Code) -> Result<Value, Fault>,
>(
    within: &Within<'a, F>,
    state: &mut State,
    class: u32,
    is_static: bool,
    key: u32,
    right: &Boxed<Code>,
) -> Result<Value, Fault>
    requires may { MayEvaluate (F.pre within.now.evaluate.now) }
    requires does { Evaluates (F.post within.now.evaluate.now) within.now.definitions.now }
    ensures { Returns (λ v. v) result state.new (instance_private_step (opens_of within.now.definitions.now within.now.opening.now) class is_static key (code_of right.now) (state_of state.old)) }
{
    if is_static {
        return Ok(Value::undefined());
    }
    evaluate_private_field(within, state, Value::this_of(class), key, right)
}
