// What a form does when its operands have their values.

ghost use Rattle.std.specs.Prelude.{◌≡◌, [], ◌∷◌, List, IfOk};
ghost use Rattle.es_steps.specs.Evaluation.{binary, last_of, new_or_former};
ghost use Rattle.es_steps.specs.Events as of_event;
ghost use Rattle.es_steps.specs.Values.{ResultOf, Undefined};
ghost use Rattle.es_codes.specs.View.{operation_of, details_of};
ghost use Rattle.es_codes.specs.CodeView.{field_form_of};
ghost use Rattle.es_evaluation.specs.Flat as flat;
ghost use Rattle.es_evaluation.specs.Direct as direct;
ghost use Rattle.es_evaluator.specs.Running.{Returns, state_of};
ghost use Rattle.es_evaluator.specs.Steps.{convert_at};

use crate::fault::Fault;
use crate::names::{emit, stand_for};
use crate::state::State;
use es_base::kind::Kind;
use es_base::list::List;
use es_base::name::Name;
use es_codes::code::FieldForm;
use es_codes::event::{Detail, Operation, Token, clone_details};
use es_codes::value::{Origin, Value};
use std::alloc::{AllocError, Global};

/// What a field does with its property when its value is there, which is of no use itself (ECMA-262, 7.3.34).
pub fn initialize(
    state: &mut State,
    form: FieldForm,
    object: Value,
    key: Value,
    value: Value,
) -> Result<Value, Fault>
    ensures { Returns (λ v. v) result state.new (direct.initialized (field_form_of form) object key value (state_of state.old)) }
{
    let key = key.as_key();
    match form {
        FieldForm::Defines => emit(
            state,
            Token::Define { object, key, value },
            Value::undefined(),
        ),
        FieldForm::Sets => emit(state, Token::Set { object, key, value }, Value::undefined()),
        FieldForm::LeavesOut => Ok(Value::undefined()),
    }
}

/// The operation of a compound assignment, which is that of the binary expression (ECMA-262, 13.15.3).
pub fn binary(alloc: Global, operator: &Name) -> Result<Operation, AllocError>
    ensures { IfOk result (λ op. operation_of op ≡ binary operator.now) }
{
    let mut details = List::new(alloc);
    details.push(Detail::Spelled(operator.try_clone(alloc)?))?;
    details.push(Detail::Operand)?;
    details.push(Detail::Operand)?;
    let kind = Kind::BinaryExpression;
    Ok(Operation::OfKind { kind, details })
}

/// A list of one value. Fails on allocation failure alone.
pub fn single(alloc: Global, value: Value) -> Result<List<Value>, AllocError>
    ensures { IfOk result (λ vs. vs ≡ value ∷ []) }
{
    let mut values = List::new(alloc);
    values.push(value)?;
    Ok(values)
}

/// A list of two values. Fails on allocation failure alone.
fn pair(alloc: Global, left: Value, right: Value) -> Result<List<Value>, AllocError>
    ensures { IfOk result (λ vs. vs ≡ left ∷ right ∷ []) }
{
    let mut values = single(alloc, left)?;
    values.push(right)?;
    Ok(values)
}

/// The operation of a compound assignment (ECMA-262, 13.15.3).
pub fn operate(
    alloc: Global,
    state: &mut State,
    node: u32,
    operator: &Name,
    left: Value,
    right: Value,
) -> Result<Value, Fault>
    ensures { Returns (λ v. v) result state.new (direct.emit (flat.single (of_event.Operate node (binary operator.now) (left ∷ right ∷ []))) (ResultOf node) (state_of state.old)) }
{
    let operands = pair(alloc, left, right)?;
    let operation = binary(alloc, operator)?;
    let token = Token::Operate {
        node,
        operation,
        operands,
    };
    emit(state, token, Value::result_of(node))
}

/// What an expression of a template is made a string of, the i-th (ECMA-262, 13.2.8.5).
#[tactic(auto, unfolding(crate::specs::Steps::convert_at))]
pub fn convert(
    alloc: Global,
    state: &mut State,
    node: u32,
    i: usize,
    value: &Value,
) -> Result<Value, Fault>
    ensures { Returns (λ v. v) result state.new (convert_at node i value.now (state_of state.old)) }
{
    let converted = value.try_clone(alloc)?;
    let mut details = List::new(alloc);
    details.push(Detail::Index(i))?;
    operate_on(
        alloc,
        state,
        node,
        Operation::Take(details),
        value,
        converted,
    )
}

/// An operation on one value, and what it gives.
pub fn operate_on(
    alloc: Global,
    state: &mut State,
    node: u32,
    operation: Operation,
    value: &Value,
    given: Value,
) -> Result<Value, Fault>
    ensures { Returns (λ v. v) result state.new (direct.emit (flat.single (of_event.Operate node (operation_of operation) (value.now ∷ []))) given (state_of state.old)) }
{
    let operand = value.try_clone(alloc)?;
    let operands = single(alloc, operand)?;
    let token = Token::Operate {
        node,
        operation,
        operands,
    };
    emit(state, token, given)
}

/// A pattern takes from a value, by these keys (ECMA-262, 8.6.2).
pub fn take(
    alloc: Global,
    state: &mut State,
    node: u32,
    details: &[Detail],
    value: &Value,
    keys: List<Value>,
) -> Result<Value, Fault>
    ensures { Returns (λ v. v) result state.new (direct.emit (flat.single (of_event.Operate node (of_event.Take (details_of details.now)) (value.now ∷ keys))) (ResultOf node) (state_of state.old)) }
{
    let mut operands = keys;
    operands.insert(0, value.try_clone(alloc)?)?;
    let operation = Operation::Take(clone_details(alloc, details)?);
    let token = Token::Operate {
        node,
        operation,
        operands,
    };
    emit(state, token, Value::result_of(node))
}

/// What `t++` gives: the new value or the former one (ECMA-262, 13.4).
pub fn new_or_former(is_prefix: bool, node: u32) -> Value
    ensures { result ≡ new_or_former is_prefix node }
{
    if is_prefix {
        Value::result_of(node)
    } else {
        Value::of(Origin::FormerOf(node))
    }
}

/// The private methods of the instances of a class are added to the object that is constructed (ECMA-262, 7.3.30).
pub fn add_brand(state: &mut State, has_methods: bool, class: u32) -> Result<Value, Fault>
    ensures { Returns (λ v. v) result state.new (direct.brand_first has_methods class (state_of state.old)) }
{
    if !has_methods {
        return Ok(Value::undefined());
    }
    let object = Value::this_of(class);
    emit(state, Token::AddBrand { class, object }, Value::undefined())
}

/// A class that is declared gets its name before its static elements (ECMA-262, 15.7.14).
pub fn declare(state: &mut State, declared: Option<u32>, class: u32) -> Result<Value, Fault>
    ensures { Returns (λ v. v) result state.new (direct.declared_first declared class (state_of state.old)) }
{
    match declared {
        None => Ok(Value::undefined()),
        Some(_) => emit(state, Token::InitializeClass { class }, Value::undefined()),
    }
}

/// The value of the last of some codes; undefined if there is none (ECMA-262, 13.16.1).
#[tactic(auto, using(crate::proofs::Lists::last_of_end))]
pub fn last_value(values: List<Value>) -> Value
    ensures { result ≡ last_of Undefined values }
{
    let mut values = values.into_vec();
    match values.pop() {
        None => Value::undefined(),
        Some(last) => last,
    }
}

/// The parameters of a function that is called where it stands stand for the arguments, which are as many.
#[tactic(auto, using(crate::proofs::Lists::bound_more, crate::proofs::Lists::bound_none))]
pub fn bind_parameters(
    alloc: Global,
    state: &mut State,
    names: &[Name],
    values: &[Value],
) -> Result<Value, Fault>
    ensures { Returns (λ v. v) result state.new (direct.bind_parameters names.now values.now (state_of state.old)) }
{
    if names.len() != values.len() {
        return Err(Fault::NoMeaning);
    }
    for i in 0..names.len() {
        let name = names[i].try_clone(alloc)?;
        let value = values[i].try_clone(alloc)?;
        let _value = stand_for(alloc, state, name, value)?;
    }
    Ok(Value::undefined())
}
