// What is evaluated in front of something else.

ghost use Rattle.std.specs.Prelude.{List};
ghost use Rattle.es_codes.specs.CodeView.{code_of, codes_of};
ghost use Rattle.es_steps.specs.Entries.{ev_body};
ghost use Rattle.es_evaluation.specs.Agreement.{onto};
ghost use Rattle.es_evaluator.specs.Running.{Returns, state_of};
ghost use Rattle.es_code_environments.specs.Parts.{code_run, codes_run, run_of};
ghost use Rattle.es_code_environments.specs.Standing.{opens_in};

use crate::terms::Terms;
use es_base::name::Name;
use es_codes::code::{Callee, Code, Target};
use es_codes::value::Value;
use es_evaluator::fault::Fault;
use es_evaluator::state::State;

/// What a code is evaluated as.
#[derive(Clone, Copy)]
pub enum CodeRole {
    /// By itself.
    Value,
    /// A member of a pattern, whatever it takes from.
    Member,
    /// An element of a class, of which the key is evaluated.
    Key,
    /// A static element of a class, whatever its key is.
    Static(u32),
    /// An instance field of a class.
    Field(u32),
}

/// What codes are evaluated as.
#[derive(Clone, Copy)]
pub enum CodesRole {
    /// In order.
    All,
    /// Elements of a class, of which the keys are evaluated.
    Keys,
    /// Elements of a class, of which an instance is given what it has.
    Fields(u32),
    /// The parameters of a function.
    Parameters,
}

/// What is evaluated in front of something else.
#[derive(Clone, Copy)]
pub enum Part<'a> {
    Code(CodeRole, &'a Code),
    Codes(CodesRole, &'a [Code]),
    /// The operands of a target.
    Target(&'a Target),
    Callee(&'a Callee),
    /// Arguments of a function that is called where it stands.
    Arguments {
        parameters: &'a [Name],
        arguments: &'a [Code],
    },
}

/// The value of a part.
pub fn evaluate_part(terms: &Terms<'_>, state: &mut State, part: Part<'_>) -> Result<Value, Fault>
    ensures { Returns (λ v. v) result state.new (onto (state_of state.old) (run_of (opens_in terms.now) terms.now.late.now part.entry (state_of state.old).names)) }
{
    match part {
        Part::Code(role, code) => evaluate_code(terms, state, role, code),
        Part::Codes(role, codes) => evaluate_codes(terms, state, role, codes),
        Part::Target(to) => terms.among.evaluate_target(state, to),
        Part::Callee(callee) => terms.among.evaluate_callee(state, callee),
        Part::Arguments {
            parameters,
            arguments,
        } => terms.among.evaluate_arguments(state, parameters, arguments),
    }
}

/// What a call of a function does.
pub fn evaluate_call(
    terms: &Terms<'_>,
    state: &mut State,
    parameters: &[Code],
    body: &Code,
) -> Result<Value, Fault>
    ensures { Returns (λ v. v) result state.new (onto (state_of state.old) (ev_body (opens_in terms.now) 0 terms.now.late.now (codes_of parameters.now) (code_of body.now) (state_of state.old).names)) }
{
    terms.among.evaluate_body(state, parameters, body)
}

fn evaluate_code(
    terms: &Terms<'_>,
    state: &mut State,
    role: CodeRole,
    code: &Code,
) -> Result<Value, Fault>
    ensures { Returns (λ v. v) result state.new (onto (state_of state.old) (code_run (opens_in terms.now) role (code_of code.now) (state_of state.old).names)) }
{
    match role {
        CodeRole::Value => terms.among.evaluate(state, code),
        CodeRole::Member => terms.among.evaluate_take(state, &Value::undefined(), code),
        CodeRole::Key => terms.among.evaluate_key(state, code),
        CodeRole::Static(class) => {
            terms
                .among
                .evaluate_static(state, class, &Value::undefined(), code)
        }
        CodeRole::Field(class) => terms.among.evaluate_field(state, class, code),
    }
}

fn evaluate_codes(
    terms: &Terms<'_>,
    state: &mut State,
    role: CodesRole,
    codes: &[Code],
) -> Result<Value, Fault>
    ensures { Returns (λ v. v) result state.new (onto (state_of state.old) (codes_run (opens_in terms.now) terms.now.late.now role (codes_of codes.now) (state_of state.old).names)) }
{
    match role {
        CodesRole::All => terms.among.evaluate_all(state, codes),
        CodesRole::Keys => terms.among.evaluate_keys(state, codes),
        CodesRole::Fields(class) => terms.among.evaluate_initializers(state, class, codes),
        CodesRole::Parameters => terms.among.evaluate_given(state, codes),
    }
}
