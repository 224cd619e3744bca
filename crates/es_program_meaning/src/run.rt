// What a program does itself.

ghost use Rattle.std.specs.Prelude.{◌≡◌, [], map};
ghost use Rattle.es_code_rules.specs.Elsewhere.{definition_of};
ghost use Rattle.es_codes.specs.CodeView.{code_of};
ghost use Rattle.es_evaluator.specs.Running.{state_of};
ghost use Rattle.es_meanings.specs.Finding.{Finds};
ghost use Rattle.es_program_meaning.specs.Runs.{IsRun, empty};
ghost use Rattle.es_steps.specs.Evaluation.{ev};
ghost use Rattle.es_steps.specs.Opening.{opening};

use es_base::list::List;
use es_code_rules::definition::Definition;
use es_codes::code::Code;
use es_entries::listed::Listed;
use es_evaluate::evaluate::evaluate_among;
use es_evaluator::fault::Fault;
use es_evaluator::state::State;
use std::alloc::Global;
use std::mem;

/// What a program does itself, and the state behind it, without its events.
#[derive(Drop)]
pub struct Run {
    pub listed: Listed,
    pub state: State,
}

/// What a program begins with.
#[tactic(auto, unfolding(es_evaluator::specs::Running::state_of, es_evaluator::specs::Running::names_of))]
fn empty_state(alloc: Global) -> State
    ensures { state_of result ≡ empty }
{
    State {
        names: Vec::new(alloc),
        tokens: Vec::new(alloc),
        has_thrown: false,
    }
}

/// The run of a program with this code among these definitions. No meaning where a form in it has no rule; refused where codes stand
/// in codes `limit` times or more.
pub fn run_program(
    alloc: Global,
    definitions: &List<Definition>,
    limit: usize,
    code: &Code,
) -> Result<Run, Fault>
    ensures { Finds result (ev (opening (map definition_of definitions.now)) (code_of code.now) []) IsRun }
{
    let mut state = empty_state(alloc);
    let value = match evaluate_among(alloc, definitions, limit, &mut state, code) {
        Ok(value) => value,
        Err(fault) => return Err(fault),
    };
    let value = state.settled(value);
    let tokens = mem::replace(&mut state.tokens, Vec::new(alloc));
    let listed = Listed {
        tokens: List::from_vec(tokens),
        value,
    };
    Ok(Run { listed, state })
}
