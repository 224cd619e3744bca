// Targets whose operands have their values: read, and written where nothing is evaluated for that.

ghost use Rattle.std.specs.Prelude.{◌≡◌};
ghost use Rattle.es_codes.specs.View.{home_of};
ghost use Rattle.es_codes.specs.CodeView.{target_of};
ghost use Rattle.es_evaluator.specs.Running.{Returns, state_of, operands_of};
ghost use Rattle.es_evaluator.specs.Steps.{nowhere, read_at, read_member_step, read_private_step, read_super_step, write_member_step, write_private_step, write_super_step};

use crate::fault::Fault;
use crate::names::{emit, read_name, read_private, write_private};
use crate::state::{Operands, State};
use es_codes::code::Target;
use es_codes::event::{Home, Token};
use es_codes::value::Value;
use std::alloc::Global;

/// Reads a target whose operands have these values.
#[tactic(auto, using(es_codes::proofs::Forms::to_name_is, crate::proofs::Forms::name_read, es_codes::proofs::Forms::to_member_is, crate::proofs::Forms::member_read, es_codes::proofs::Forms::to_private_is, crate::proofs::Forms::private_read, es_codes::proofs::Forms::to_super_is, crate::proofs::Forms::super_read, es_codes::proofs::Forms::to_setter_is, crate::proofs::Forms::setter_read, es_codes::proofs::Forms::to_pattern_is, crate::proofs::Forms::pattern_read, es_codes::proofs::Forms::to_default_is, crate::proofs::Forms::default_read, es_codes::proofs::Forms::no_target_is, crate::proofs::Forms::no_read))]
pub fn read_target(
    alloc: Global,
    state: &mut State,
    to: &Target,
    operands: &Operands,
) -> Result<Value, Fault>
    ensures { Returns (λ v. v) result state.new (read_at nowhere (target_of to.now) (operands_of operands.now) (state_of state.old)) }
{
    match to {
        Target::ToName {
            node,
            spelling,
            kind,
        } => read_name(alloc, state, *node, spelling, kind),
        Target::ToMember { node, .. } => read_member(alloc, state, *node, operands),
        Target::ToPrivate { node, means, .. } => read_element(
            alloc,
            state,
            *node,
            means.reads,
            operands,
        ),
        Target::ToSuper {
            node,
            home,
            this,
            ..
        } => read_super(alloc, state, *node, *home, this, operands),
        Target::ToSetter { .. } => Err(Fault::NoMeaning),
        Target::ToPattern { .. } => Err(Fault::NoMeaning),
        Target::ToDefault { .. } => Err(Fault::NoMeaning),
        Target::NoTarget => Err(Fault::NoMeaning),
    }
}

/// `o[k]`
fn read_member(
    alloc: Global,
    state: &mut State,
    node: u32,
    operands: &Operands,
) -> Result<Value, Fault>
    ensures { Returns (λ v. v) result state.new (read_member_step node (operands_of operands.now) (state_of state.old)) }
{
    match operands {
        Operands::Nothing => Err(Fault::NoMeaning),
        Operands::One(_) => Err(Fault::NoMeaning),
        Operands::Two(object, key) => {
            let object = object.try_clone(alloc)?;
            let key = key.try_clone(alloc)?;
            emit(
                state,
                Token::Get { node, object, key },
                Value::result_of(node),
            )
        }
    }
}

/// `o.#x`
fn read_element(
    alloc: Global,
    state: &mut State,
    node: u32,
    reads: Option<u32>,
    operands: &Operands,
) -> Result<Value, Fault>
    ensures { Returns (λ v. v) result state.new (read_private_step node reads (operands_of operands.now) (state_of state.old)) }
{
    match operands {
        Operands::Nothing => Err(Fault::NoMeaning),
        Operands::One(object) => {
            let object = object.try_clone(alloc)?;
            read_private(state, node, reads, object)
        }
        Operands::Two(_, _) => Err(Fault::NoMeaning),
    }
}

/// `super[k]`
fn read_super(
    alloc: Global,
    state: &mut State,
    node: u32,
    home: Home,
    this: &Value,
    operands: &Operands,
) -> Result<Value, Fault>
    ensures { Returns (λ v. v) result state.new (read_super_step node (home_of home) this.now (operands_of operands.now) (state_of state.old)) }
{
    match operands {
        Operands::Nothing => Err(Fault::NoMeaning),
        Operands::One(key) => {
            let key = key.try_clone(alloc)?;
            let this = this.try_clone(alloc)?;
            emit(
                state,
                Token::SuperGet {
                    node,
                    home,
                    key,
                    this,
                },
                Value::result_of(node),
            )
        }
        Operands::Two(_, _) => Err(Fault::NoMeaning),
    }
}

/// `o[k] = v`
pub fn write_member(
    alloc: Global,
    state: &mut State,
    operands: Operands,
    value: Value,
) -> Result<Value, Fault>
    ensures { Returns (λ v. v) result state.new (write_member_step (operands_of operands) value (state_of state.old)) }
{
    match operands {
        Operands::Nothing => Err(Fault::NoMeaning),
        Operands::One(_) => Err(Fault::NoMeaning),
        Operands::Two(object, key) => {
            let given = value.try_clone(alloc)?;
            emit(state, Token::Set { object, key, value }, given)
        }
    }
}

/// `o.#x = v`
pub fn write_element(
    alloc: Global,
    state: &mut State,
    writes: Option<u32>,
    operands: Operands,
    value: Value,
) -> Result<Value, Fault>
    ensures { Returns (λ v. v) result state.new (write_private_step writes (operands_of operands) value (state_of state.old)) }
{
    match operands {
        Operands::Nothing => Err(Fault::NoMeaning),
        Operands::One(object) => write_private(alloc, state, writes, object, value),
        Operands::Two(_, _) => Err(Fault::NoMeaning),
    }
}

/// `super[k] = v`
pub fn write_super(
    alloc: Global,
    state: &mut State,
    home: Home,
    this: &Value,
    operands: Operands,
    value: Value,
) -> Result<Value, Fault>
    ensures { Returns (λ v. v) result state.new (write_super_step (home_of home) this.now (operands_of operands) value (state_of state.old)) }
{
    match operands {
        Operands::Nothing => Err(Fault::NoMeaning),
        Operands::One(key) => {
            let given = value.try_clone(alloc)?;
            let this = this.try_clone(alloc)?;
            emit(
                state,
                Token::SuperSet {
                    home,
                    key,
                    value,
                    this,
                },
                given,
            )
        }
        Operands::Two(_, _) => Err(Fault::NoMeaning),
    }
}
