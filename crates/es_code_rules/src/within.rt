// What a rule has at hand.

ghost use Rattle.es_codes.specs.CodeView.{code_of};
ghost use Rattle.es_codes.specs.View.{place_of};
ghost use Rattle.es_evaluation.specs.Direct as direct;
ghost use Rattle.es_evaluator.specs.Running.{Returns, state_of};
ghost use Rattle.es_code_rules.specs.Elsewhere.{opens_of};
ghost use Rattle.es_code_rules.specs.Steps.{value_at};
ghost use Rattle.es_code_rules.specs.Within.{MayEvaluate, Evaluates};

use crate::definition::Opening;
use crate::definitions::Definitions;
use es_codes::code::Code;
use es_codes::event::{Place, Token};
use es_codes::value::Value;
use es_evaluator::fault::Fault;
use es_evaluator::state::State;
use std::alloc::Global;

/// What a rule has at hand: what stands elsewhere, and what evaluates the codes in a code.
#[derive(Drop)]
pub struct Within<'a, F> {
    pub alloc: Global,
    pub definitions: &'a Definitions<'a>,
    pub opening: &'a Opening<'a>,
    pub evaluate: &'a F,
}

impl<'a, F: Fn(Global, &Opening, &mut State, &Code) -> Result<Value, Fault>> Within<'a, F> {
    /// The value of a code in a code: undefined if its list throws.
    pub fn evaluate(&self, state: &mut State, code: &Code) -> Result<Value, Fault>
        requires may { MayEvaluate (F.pre self.now.evaluate.now) }
        requires does { Evaluates (F.post self.now.evaluate.now) self.now.definitions.now }
        ensures { Returns (λ v. v) result state.new (value_at (opens_of self.now.definitions.now self.now.opening.now) (code_of code.now) (state_of state.old)) }
    {
        (*self.evaluate)(self.alloc, self.opening, state, code)
    }

    /// A part that may run or not, or again: the names that it adds end with it.
    pub fn evaluate_part(
        &self,
        state: &mut State,
        node: u32,
        place: Place,
        tested: Option<Value>,
        code: &Code,
    ) -> Result<Value, Fault>
        requires may { MayEvaluate (F.pre self.now.evaluate.now) }
        requires does { Evaluates (F.post self.now.evaluate.now) self.now.definitions.now }
        ensures { Returns (λ v. v) result state.new (direct.held node (place_of place) tested (value_at (opens_of self.now.definitions.now self.now.opening.now) (code_of code.now)) (state_of state.old)) }
    {
        let around = state.open()?;
        let value = self.evaluate(state, code)?;
        let value = state.settled(value);
        let token = Token::End {
            node,
            place,
            tested,
            value,
        };
        state.close(around, token)?;
        Ok(Value::result_of(node))
    }
}
