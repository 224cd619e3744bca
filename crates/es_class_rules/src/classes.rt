// Classes: their keys, static elements, and instance fields.

ghost use Rattle.std.specs.Prelude.{List};
ghost use Rattle.es_steps.specs.Code as of;
ghost use Rattle.es_codes.specs.CodeView.{code_of, codes_of};
ghost use Rattle.es_evaluator.specs.Running.{Returns, state_of};
ghost use Rattle.es_code_rules.specs.Elsewhere.{opens_of};
ghost use Rattle.es_code_rules.specs.Steps.{form_at};
ghost use Rattle.es_class_rules.specs.Steps.{key_at, static_at, keys_at, statics_at, fields_at, field_at, class_step};
ghost use Rattle.es_code_rules.specs.Within.{MayEvaluate, Evaluates};

use crate::elements::{
    evaluate_element, evaluate_instance_field, evaluate_instance_private, evaluate_static_field,
    evaluate_static_private,
};
use crate::forget::forget_private;
use es_base::list::List;
use es_code_rules::definition::Opening;
use es_code_rules::within::Within;
use es_codes::code::Code;
use es_codes::value::Value;
use es_evaluator::fault::Fault;
use es_evaluator::operands::declare;
use es_evaluator::state::State;
use std::alloc::Global;

/// `class {}` (ECMA-262, 15.7.14): what its private elements hold is forgotten behind it.
#[tactic(auto, using(crate::proofs::ElementForms::class_form, es_evaluator::proofs::Given::length_names_of), unfolding(es_evaluator::specs::Running::state_of))]
pub fn evaluate_class<'a, F: Fn(Global, &Opening, &mut State, &Code) -> Result<Value, Fault>>(
    within: &Within<'a, F>,
    state: &mut State,
    node: u32,
    declared: Option<u32>,
    heritage: &List<Code>,
    elements: &List<Code>,
) -> Result<Value, Fault>
    requires may { MayEvaluate (F.pre within.now.evaluate.now) }
    requires does { Evaluates (F.post within.now.evaluate.now) within.now.definitions.now }
    ensures { Returns (λ v. v) result state.new (form_at (opens_of within.now.definitions.now within.now.opening.now) (of.class_code node declared (codes_of heritage.now) (codes_of elements.now)) (state_of state.old)) }
{
    let count = state.names.len();
    let value = evaluate_parts_of_class(within, state, node, declared, heritage, elements)?;
    forget_private(state, count);
    Ok(value)
}

/// The heritage of a class, its keys and its static elements.
fn evaluate_parts_of_class<'a, F: Fn(Global, &Opening, &mut State, &Code) -> Result<Value, Fault>>(
    within: &Within<'a, F>,
    state: &mut State,
    node: u32,
    declared: Option<u32>,
    heritage: &List<Code>,
    elements: &List<Code>,
) -> Result<Value, Fault>
    requires may { MayEvaluate (F.pre within.now.evaluate.now) }
    requires does { Evaluates (F.post within.now.evaluate.now) within.now.definitions.now }
    ensures { Returns (λ v. v) result state.new (class_step (opens_of within.now.definitions.now within.now.opening.now) node declared (codes_of heritage.now) (codes_of elements.now) (state_of state.old)) }
{
    let _heritage = within.evaluate_all(state, heritage.as_slice())?;
    let keys = evaluate_keys(within, state, elements.as_slice())?;
    let _undefined = declare(state, declared, node)?;
    let _undefined = evaluate_statics(within, state, node, keys.as_slice(), elements.as_slice())?;
    Ok(Value::class_of(node))
}

/// The keys of the elements of a class in order.
#[tactic(auto, using(crate::proofs::ElementRuns::keys_begins, crate::proofs::ElementRuns::keys_more, crate::proofs::ElementRuns::keys_fails, crate::proofs::ElementRuns::keys_ends))]
pub fn evaluate_keys<'a, F: Fn(Global, &Opening, &mut State, &Code) -> Result<Value, Fault>>(
    within: &Within<'a, F>,
    state: &mut State,
    elements: &[Code],
) -> Result<List<Value>, Fault>
    requires may { MayEvaluate (F.pre within.now.evaluate.now) }
    requires does { Evaluates (F.post within.now.evaluate.now) within.now.definitions.now }
    ensures { Returns (λ v. v) result state.new (keys_at (opens_of within.now.definitions.now within.now.opening.now) (codes_of elements.now) (state_of state.old)) }
{
    let mut keys = List::new(within.alloc);
    for i in 0..elements.len() {
        let key = evaluate_key(within, state, &elements[i])?;
        keys.push(key)?;
    }
    Ok(keys)
}

/// The key of an element of a class: undefined where it has none.
#[tactic(auto, using(crate::proofs::ElementForms::field_key, crate::proofs::ElementForms::method_key, crate::proofs::ElementForms::private_field_key, crate::proofs::ElementForms::private_method_key, crate::proofs::ElementForms::constructor_key, crate::proofs::ElementForms::static_block_key, crate::proofs::ElementForms::generated_element_key, crate::proofs::NoElements::no_key))]
pub fn evaluate_key<'a, F: Fn(Global, &Opening, &mut State, &Code) -> Result<Value, Fault>>(
    within: &Within<'a, F>,
    state: &mut State,
    element: &Code,
) -> Result<Value, Fault>
    requires may { MayEvaluate (F.pre within.now.evaluate.now) }
    requires does { Evaluates (F.post within.now.evaluate.now) within.now.definitions.now }
    ensures { Returns (λ v. v) result state.new (key_at (opens_of within.now.definitions.now within.now.opening.now) (code_of element.now) (state_of state.old)) }
{
    match element {
        Code::Field { key, .. } => within.evaluate(state, key.get()),
        Code::Method { key, .. } => within.evaluate(state, key.get()),
        Code::PrivateField { .. } => Ok(Value::undefined()),
        Code::PrivateMethod { .. } => Ok(Value::undefined()),
        Code::Constructor { .. } => Ok(Value::undefined()),
        Code::StaticBlock { .. } => Ok(Value::undefined()),
        Code::GeneratedElement { .. } => Ok(Value::undefined()),
        _ => Err(Fault::NoMeaning),
    }
}

/// Static fields and static blocks in order, with the values of the keys.
#[tactic(auto, using(crate::proofs::ElementRuns::statics_more, crate::proofs::ElementRuns::statics_fails, crate::proofs::ElementRuns::statics_end, crate::proofs::ElementRuns::statics_stop))]
pub fn evaluate_statics<'a, F: Fn(Global, &Opening, &mut State, &Code) -> Result<Value, Fault>>(
    within: &Within<'a, F>,
    state: &mut State,
    class: u32,
    keys: &[Value],
    elements: &[Code],
) -> Result<Value, Fault>
    requires may { MayEvaluate (F.pre within.now.evaluate.now) }
    requires does { Evaluates (F.post within.now.evaluate.now) within.now.definitions.now }
    ensures { Returns (λ v. v) result state.new (statics_at (opens_of within.now.definitions.now within.now.opening.now) class keys.now (codes_of elements.now) (state_of state.old)) }
{
    let mut i = 0;
    while i < keys.len() && i < elements.len() {
        let _undefined = evaluate_static(within, state, class, &keys[i], &elements[i])?;
        i += 1;
    }
    Ok(Value::undefined())
}

/// A static field or a static block.
#[tactic(auto, using(crate::proofs::ElementForms::field_static, crate::proofs::ElementForms::private_field_static, crate::proofs::ElementForms::static_block_static, crate::proofs::ElementForms::generated_element_static, crate::proofs::NoElements::no_static))]
pub fn evaluate_static<'a, F: Fn(Global, &Opening, &mut State, &Code) -> Result<Value, Fault>>(
    within: &Within<'a, F>,
    state: &mut State,
    class: u32,
    key: &Value,
    element: &Code,
) -> Result<Value, Fault>
    requires may { MayEvaluate (F.pre within.now.evaluate.now) }
    requires does { Evaluates (F.post within.now.evaluate.now) within.now.definitions.now }
    ensures { Returns (λ v. v) result state.new (static_at (opens_of within.now.definitions.now within.now.opening.now) class key.now (code_of element.now) (state_of state.old)) }
{
    match element {
        Code::Field {
            is_static,
            form,
            right,
            ..
        } => evaluate_static_field(within, state, class, key, *is_static, *form, right),
        Code::PrivateField {
            is_static,
            key,
            right,
        } => evaluate_static_private(within, state, class, *is_static, *key, right),
        Code::StaticBlock { all } => within.evaluate_steps(state, all),
        Code::GeneratedElement { spelling, right } => evaluate_element(
            within, state, spelling, right,
        ),
        _ => Ok(Value::undefined()),
    }
}

/// Instance fields in order, each its value and then its definition (ECMA-262, 7.3.33).
#[tactic(auto, using(crate::proofs::ElementRuns::fields_more, crate::proofs::ElementRuns::fields_fails, crate::proofs::ElementRuns::fields_ends))]
pub fn evaluate_fields<'a, F: Fn(Global, &Opening, &mut State, &Code) -> Result<Value, Fault>>(
    within: &Within<'a, F>,
    state: &mut State,
    class: u32,
    elements: &[Code],
) -> Result<Value, Fault>
    requires may { MayEvaluate (F.pre within.now.evaluate.now) }
    requires does { Evaluates (F.post within.now.evaluate.now) within.now.definitions.now }
    ensures { Returns (λ v. v) result state.new (fields_at (opens_of within.now.definitions.now within.now.opening.now) class (codes_of elements.now) (state_of state.old)) }
{
    for i in 0..elements.len() {
        let _undefined = evaluate_field(within, state, class, &elements[i])?;
    }
    Ok(Value::undefined())
}

/// An instance field.
#[tactic(auto, using(crate::proofs::ElementForms::field_field, crate::proofs::ElementForms::private_field_field, crate::proofs::NoElements::no_field))]
pub fn evaluate_field<'a, F: Fn(Global, &Opening, &mut State, &Code) -> Result<Value, Fault>>(
    within: &Within<'a, F>,
    state: &mut State,
    class: u32,
    element: &Code,
) -> Result<Value, Fault>
    requires may { MayEvaluate (F.pre within.now.evaluate.now) }
    requires does { Evaluates (F.post within.now.evaluate.now) within.now.definitions.now }
    ensures { Returns (λ v. v) result state.new (field_at (opens_of within.now.definitions.now within.now.opening.now) class (code_of element.now) (state_of state.old)) }
{
    match element {
        Code::Field {
            is_static,
            form,
            key,
            right,
        } => evaluate_instance_field(within, state, class, *is_static, *form, key, right),
        Code::PrivateField {
            is_static,
            key,
            right,
        } => evaluate_instance_private(within, state, class, *is_static, *key, right),
        _ => Ok(Value::undefined()),
    }
}
