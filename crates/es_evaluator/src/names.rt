// Names and private members, read and written.

ghost use Rattle.std.specs.Prelude.{◌≡◌, IfOk};
ghost use Rattle.es_steps.specs.Events as of_event;
ghost use Rattle.es_steps.specs.Evaluation.{default_key, found, private_key};
ghost use Rattle.es_codes.specs.View.{token_of, kind_of, referent_of};
ghost use Rattle.es_evaluation.specs.Flat as flat;
ghost use Rattle.es_evaluation.specs.Direct as direct;
ghost use Rattle.es_evaluator.specs.Running.{Returns, state_of, names_of};

use crate::fault::Fault;
use crate::state::{Named, State};
use es_base::ledger::GeneratedKind;
use es_base::name::Name;
use es_codes::event::Token;
use es_codes::name::{NameKind, Referent};
use es_codes::same::same_name;
use es_codes::value::{Origin, Value};
use std::alloc::{AllocError, Global};

/// Adds an event that does not throw, and gives its value (ECMA-262, 7.3 and 13).
pub fn emit(state: &mut State, token: Token, value: Value) -> Result<Value, Fault>
    ensures { Returns (λ v. v) result state.new (direct.emit (token_of token) value (state_of state.old)) }
{
    state.push(token)?;
    Ok(value)
}

/// An access that always throws.
#[tactic(auto, unfolding(crate::specs::Running::state_of))]
pub fn throw(state: &mut State) -> Result<Value, Fault>
    ensures { Returns (λ v. v) result state.new (direct.throws (state_of state.old)) }
{
    state.push(Token::Throw)?;
    state.has_thrown = true;
    Ok(Value::undefined())
}

/// The value that the name was given last. A plain look-up, from the last name to the first.
fn find(alloc: Global, names: &[Named], name: &Name) -> Result<Option<Value>, AllocError>
    ensures { IfOk result (λ v. v ≡ found name.now (names_of names.now)) }
{
    let mut i = names.len();
    while i > 0 {
        i -= 1;
        let named = &names[i];
        if same_name(name, &named.name) {
            return Ok(Some(named.value.try_clone(alloc)?));
        }
    }
    Ok(None)
}

/// What a temporary stands for.
#[tactic(auto, unfolding(crate::specs::Running::state_of))]
pub fn read_given(alloc: Global, state: &mut State, name: &Name) -> Result<Value, Fault>
    ensures { Returns (λ v. v) result state.new (direct.read_given name.now (state_of state.old)) }
{
    match find(alloc, state.names.as_slice(), name)? {
        Some(value) => Ok(value),
        None => Err(Fault::NoMeaning),
    }
}

/// Reads a name (ECMA-262, 13.1.3).
pub fn read_name(
    alloc: Global,
    state: &mut State,
    node: u32,
    name: &Name,
    kind: &NameKind,
) -> Result<Value, Fault>
    ensures { Returns (λ v. v) result state.new (direct.read_name node name.now (kind_of kind.now) (state_of state.old)) }
{
    match kind {
        NameKind::Fixed(binding) => Ok(Value::of(Origin::BindingOf(*binding))),
        NameKind::Changing(referent) => {
            let referent = referent.try_clone(alloc)?;
            emit(
                state,
                Token::ReadName { node, referent },
                Value::result_of(node),
            )
        }
        NameKind::MeansClass { class, .. } => Ok(Value::class_of(*class)),
        NameKind::Generated(generated) => read_generated(alloc, state, *generated, name),
        NameKind::StaticMethod { key, class } => {
            let object = Value::class_of(*class);
            let key = *key;
            emit(
                state,
                Token::PrivateGet { node, key, object },
                Value::result_of(node),
            )
        }
    }
}

/// Reads a generated name: a temporary, a parameter of a function that is called in its place, or a class.
fn read_generated(
    alloc: Global,
    state: &mut State,
    generated: GeneratedKind,
    name: &Name,
) -> Result<Value, Fault>
    ensures { Returns (λ v. v) result state.new (direct.read_generated generated name.now (state_of state.old)) }
{
    match generated {
        GeneratedKind::Temp => read_given(alloc, state, name),
        GeneratedKind::Param => read_given(alloc, state, name),
        GeneratedKind::ClassTemp(class) => Ok(Value::class_of(class.0)),
        _ => Err(Fault::NoMeaning),
    }
}

/// The name stands for the value from here on.
pub fn stand_for(alloc: Global, state: &mut State, name: Name, value: Value) -> Result<Value, Fault>
    ensures { Returns (λ v. v) result state.new (direct.stands_for name value (state_of state.old)) }
{
    let given = value.try_clone(alloc)?;
    state.give(name, given)?;
    Ok(value)
}

/// A temporary stands for the value, unless a binding may hold another one when it is read.
pub fn keep(alloc: Global, state: &mut State, name: Name, value: Value) -> Result<Value, Fault>
    ensures { Returns (λ v. v) result state.new (direct.kept_as name value (state_of state.old)) }
{
    if value.is_of_binding() {
        return Err(Fault::NoMeaning);
    }
    stand_for(alloc, state, name, value)
}

/// A generated element of a class holds the value, unless a binding may hold another one when it is read.
pub fn hold(alloc: Global, state: &mut State, name: Name, value: Value) -> Result<Value, Fault>
    ensures { Returns (λ v. v) result state.new (direct.element_holds name value (state_of state.old)) }
{
    if value.is_of_binding() {
        return Ok(value);
    }
    stand_for(alloc, state, name, value)
}

/// The name under which a generated private element stands: `#x`. Fails on allocation failure alone.
fn private_key(alloc: Global, spelling: &Name) -> Result<Name, AllocError>
    ensures { IfOk result (λ n. n ≡ private_key spelling.now) }
{
    let mut string = String::from_str(alloc, "#")?;
    string.push_str(spelling.as_str())?;
    Name::new(alloc, string.as_str())
}

/// What a generated private element holds.
pub fn read_element(alloc: Global, state: &mut State, spelling: &Name) -> Result<Value, Fault>
    ensures { Returns (λ v. v) result state.new (direct.read_given (private_key spelling.now) (state_of state.old)) }
{
    let name = private_key(alloc, spelling)?;
    read_given(alloc, state, &name)
}

/// A generated private element holds the value.
pub fn give_element(
    alloc: Global,
    state: &mut State,
    spelling: &Name,
    value: Value,
) -> Result<Value, Fault>
    ensures { Returns (λ v. v) result state.new (direct.element_holds (private_key spelling.now) value (state_of state.old)) }
{
    let name = private_key(alloc, spelling)?;
    hold(alloc, state, name, value)
}

/// What a default export holds.
pub fn give_default(alloc: Global, state: &mut State, value: Value) -> Result<Value, Fault>
    ensures { Returns (λ v. v) result state.new (direct.stands_for default_key value (state_of state.old)) }
{
    let name = Name::from_ascii(alloc, "*")?;
    stand_for(alloc, state, name, value)
}

/// Gives a temporary a value: the key of what a binding holds is known by the node alone.
#[tactic(auto, using(crate::proofs::Given::given_key, crate::proofs::Given::given_plain))]
fn give_temporary(
    alloc: Global,
    state: &mut State,
    node: u32,
    name: &Name,
    value: Value,
) -> Result<Value, Fault>
    ensures { Returns (λ v. v) result state.new (direct.given_as node name.now value (state_of state.old)) }
{
    let name = name.try_clone(alloc)?;
    if !value.is_key() {
        return keep(alloc, state, name, value);
    }
    if value.is_of_binding() {
        return stand_for(alloc, state, name, Value::result_of(node));
    }
    stand_for(alloc, state, name, value)
}

/// Writes a generated name: a temporary.
fn write_generated(
    alloc: Global,
    state: &mut State,
    node: u32,
    generated: GeneratedKind,
    name: &Name,
    value: Value,
) -> Result<Value, Fault>
    ensures { Returns (λ v. v) result state.new (direct.write_generated node generated name.now value (state_of state.old)) }
{
    match generated {
        GeneratedKind::Temp => give_temporary(alloc, state, node, name, value),
        _ => Err(Fault::NoMeaning),
    }
}

/// Writes what a name refers to, and gives the value (ECMA-262, 6.2.5.6).
fn set_name(
    alloc: Global,
    state: &mut State,
    referent: Referent,
    value: Value,
) -> Result<Value, Fault>
    ensures { Returns (λ v. v) result state.new (direct.emit (flat.single (of_event.SetName (referent_of referent) value)) value (state_of state.old)) }
{
    let written = value.try_clone(alloc)?;
    emit(
        state,
        Token::SetName {
            referent,
            value: written,
        },
        value,
    )
}

/// Writes a name, and gives the value (ECMA-262, 6.2.5.6). The own name of a class is constant (15.7.14).
pub fn write_name(
    alloc: Global,
    state: &mut State,
    node: u32,
    name: &Name,
    kind: &NameKind,
    value: Value,
) -> Result<Value, Fault>
    ensures { Returns (λ v. v) result state.new (direct.write_name node name.now (kind_of kind.now) value (state_of state.old)) }
{
    match kind {
        NameKind::Fixed(binding) => set_name(alloc, state, Referent::Bound(*binding), value),
        NameKind::Changing(referent) => {
            let referent = referent.try_clone(alloc)?;
            set_name(alloc, state, referent, value)
        }
        NameKind::MeansClass { .. } => throw(state),
        NameKind::Generated(generated) => {
            write_generated(alloc, state, node, *generated, name, value)
        }
        NameKind::StaticMethod { .. } => Err(Fault::NoMeaning),
    }
}

/// Reads a private member by the key that reads it; an access that no key reads throws (ECMA-262, 7.3.31).
pub fn read_private(
    state: &mut State,
    node: u32,
    reads: Option<u32>,
    object: Value,
) -> Result<Value, Fault>
    ensures { Returns (λ v. v) result state.new (direct.read_private node reads object (state_of state.old)) }
{
    match reads {
        None => throw(state),
        Some(key) => emit(
            state,
            Token::PrivateGet { node, key, object },
            Value::result_of(node),
        ),
    }
}

/// Writes a private member by the key that writes it, and gives the value (ECMA-262, 7.3.32).
pub fn write_private(
    alloc: Global,
    state: &mut State,
    writes: Option<u32>,
    object: Value,
    value: Value,
) -> Result<Value, Fault>
    ensures { Returns (λ v. v) result state.new (direct.write_private writes object value (state_of state.old)) }
{
    match writes {
        None => throw(state),
        Some(key) => {
            let written = value.try_clone(alloc)?;
            emit(
                state,
                Token::PrivateSet {
                    key,
                    object,
                    value: written,
                },
                value,
            )
        }
    }
}
