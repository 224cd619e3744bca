// Evaluation of codes in codes.

ghost use Rattle.std.specs.Prelude.{◌≡◌, map};
ghost use Rattle.es_codes.specs.CodeView.{code_of};
ghost use Rattle.es_steps.specs.Evaluation.{ev};
ghost use Rattle.es_steps.specs.Opening as of;
ghost use Rattle.es_evaluation.specs.Agreement.{onto};
ghost use Rattle.es_evaluation.specs.Direct as direct;
ghost use Rattle.es_evaluator.specs.Running.{Returns, state_of};
ghost use Rattle.es_code_rules.specs.Elsewhere.{definition_of, opens_of};
ghost use Rattle.es_code_rules.specs.Steps.{value_at};

use crate::forms::evaluate_settled;
use es_base::list::List;
use es_code_rules::definition::{Definition, Opening};
use es_code_rules::definitions::Definitions;
use es_code_rules::within::Within;
use es_codes::code::Code;
use es_codes::value::Value;
use es_evaluator::fault::Fault;
use es_evaluator::state::State;
use std::alloc::Global;

/// The value of a code: undefined if its list throws. Refused where codes stand in codes `limit` times or more.
pub fn evaluate(
    alloc: Global,
    definitions: &Definitions,
    opening: &Opening,
    limit: usize,
    state: &mut State,
    code: &Code,
) -> Result<Value, Fault>
    ensures { Returns (λ v. v) result state.new (value_at (opens_of definitions.now opening.now) (code_of code.now) (state_of state.old)) }
{
    if limit == 0 {
        return Err(Fault::TooDeep);
    }
    let left = limit - 1;
    let inside = |alloc: Global, opening: &Opening, state: &mut State, code: &Code| -> Result<
        Value,
        Fault,
    >
        ensures { Returns (λ v. v) result state.new (value_at (opens_of definitions.entry.now opening.now) (code_of code.now) (state_of state.old)) }
    { evaluate(alloc, definitions, opening, left, state, code) };
    let within = Within {
        alloc,
        definitions: &*definitions,
        opening: &*opening,
        evaluate: &inside,
    };
    evaluate_settled(&within, state, code)
}

/// An opening of all definitions. Takes no memory.
#[tactic(auto, using(crate::proofs::Whole::none_shut))]
fn open_all(alloc: Global, definitions: &List<Definition>) -> Opening
    ensures { opens_of definitions.now result ≡ direct.opening (map definition_of definitions.now) }
{
    Opening {
        shut: Vec::new(alloc),
        depth: definitions.len(),
    }
}

/// Adds to the state what the run of a code among definitions has, and gives its value; refused where codes stand
/// in codes `limit` times or more.
#[tactic(auto, using(crate::proofs::Whole::whole_value))]
pub fn evaluate_among(
    alloc: Global,
    definitions: &List<Definition>,
    limit: usize,
    state: &mut State,
    code: &Code,
) -> Result<Value, Fault>
    ensures { Returns (λ v. v) result state.new (onto (state_of state.old) (ev (of.opening (map definition_of definitions.now)) (code_of code.now) (state_of state.old).names)) }
{
    let opening = open_all(alloc, definitions);
    let definitions = Definitions::of(alloc, definitions.as_slice())?;
    evaluate(alloc, &definitions, &opening, limit, state, code)
}
