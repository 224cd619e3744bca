// Parts that may run or not, and chains.

ghost use Rattle.std.specs.Prelude.{List};
ghost use Rattle.es_codes.specs.CodeView.{code_of, codes_of};
ghost use Rattle.es_evaluator.specs.Running.{Returns, state_of};
ghost use Rattle.es_code_rules.specs.Elsewhere.{opens_of};
ghost use Rattle.es_steps.specs.Code as of;
ghost use Rattle.es_code_rules.specs.Steps.{form_at, again_at, test_step, same_step};
ghost use Rattle.es_code_rules.specs.Within.{MayEvaluate, Evaluates};

use crate::definition::Opening;
use crate::within::Within;
use es_base::list::List;
use es_base::name::Name;
use es_codes::boxed::Boxed;
use es_codes::code::Code;
use es_codes::event::{Place, Token};
use es_codes::value::Value;
use es_evaluator::fault::Fault;
use es_evaluator::names::{emit, give_default};
use es_evaluator::state::State;
use std::alloc::Global;

impl<'a, F: Fn(Global, &Opening, &mut State, &Code) -> Result<Value, Fault>> Within<'a, F> {
    /// `a || b`
    #[tactic(auto, using(crate::proofs::Forms::logical_form))]
    pub fn evaluate_logical(
        &self,
        state: &mut State,
        node: u32,
        operator: &Name,
        left: &Boxed<Code>,
        right: &Boxed<Code>,
    ) -> Result<Value, Fault>
        requires may { MayEvaluate (F.pre self.now.evaluate.now) }
        requires does { Evaluates (F.post self.now.evaluate.now) self.now.definitions.now }
        ensures { Returns (λ v. v) result state.new (form_at (opens_of self.now.definitions.now self.now.opening.now) (of.logical node operator.now (code_of left.now) (code_of right.now)) (state_of state.old)) }
    {
        let left = self.evaluate(state, left.get())?;
        let place = Place::RightOf(operator.try_clone(self.alloc)?);
        self.evaluate_part(state, node, place, Some(left), right.get())
    }

    /// `o?.k`, whole
    #[tactic(auto, using(crate::proofs::Forms::chain_form))]
    pub fn evaluate_chain(
        &self,
        state: &mut State,
        node: u32,
        expression: &Boxed<Code>,
    ) -> Result<Value, Fault>
        requires may { MayEvaluate (F.pre self.now.evaluate.now) }
        requires does { Evaluates (F.post self.now.evaluate.now) self.now.definitions.now }
        ensures { Returns (λ v. v) result state.new (form_at (opens_of self.now.definitions.now self.now.opening.now) (of.chain node (code_of expression.now)) (state_of state.old)) }
    {
        self.evaluate_part(state, node, Place::Part(0), None, expression.get())
    }

    /// In a chain, what stands before `?.`
    #[tactic(auto, using(crate::proofs::Forms::short_form))]
    pub fn evaluate_short(
        &self,
        state: &mut State,
        expression: &Boxed<Code>,
    ) -> Result<Value, Fault>
        requires may { MayEvaluate (F.pre self.now.evaluate.now) }
        requires does { Evaluates (F.post self.now.evaluate.now) self.now.definitions.now }
        ensures { Returns (λ v. v) result state.new (form_at (opens_of self.now.definitions.now self.now.opening.now) (of.short (code_of expression.now)) (state_of state.old)) }
    {
        let value = self.evaluate(state, expression.get())?;
        let tested = value.try_clone(self.alloc)?;
        emit(state, Token::Short { value: tested }, value)
    }

    /// In a chain, a test before the rest of it.
    #[tactic(auto, using(crate::proofs::Forms::tested_form))]
    pub fn evaluate_tested(
        &self,
        state: &mut State,
        object: &Boxed<Code>,
        again: &List<Code>,
        rest: &Boxed<Code>,
    ) -> Result<Value, Fault>
        requires may { MayEvaluate (F.pre self.now.evaluate.now) }
        requires does { Evaluates (F.post self.now.evaluate.now) self.now.definitions.now }
        ensures { Returns (λ v. v) result state.new (form_at (opens_of self.now.definitions.now self.now.opening.now) (of.tested (code_of object.now) (codes_of again.now) (code_of rest.now)) (state_of state.old)) }
    {
        let _object = self.evaluate_test(state, object, again)?;
        self.evaluate(state, rest.get())
    }

    /// In a chain, a test of an object, and what stands for it again.
    pub fn evaluate_test(
        &self,
        state: &mut State,
        object: &Boxed<Code>,
        again: &List<Code>,
    ) -> Result<Value, Fault>
        requires may { MayEvaluate (F.pre self.now.evaluate.now) }
        requires does { Evaluates (F.post self.now.evaluate.now) self.now.definitions.now }
        ensures { Returns (λ v. v) result state.new (test_step (opens_of self.now.definitions.now self.now.opening.now) (code_of object.now) (codes_of again.now) (state_of state.old)) }
    {
        let value = self.evaluate(state, object.get())?;
        let _undefined = self.evaluate_again(state, &value, again.as_slice())?;
        let tested = value.try_clone(self.alloc)?;
        emit(state, Token::Short { value: tested }, value)
    }

    /// What stands for a tested object again.
    #[tactic(auto, using(crate::proofs::Runs::again_none, crate::proofs::Runs::again_one))]
    pub fn evaluate_again(
        &self,
        state: &mut State,
        value: &Value,
        again: &[Code],
    ) -> Result<Value, Fault>
        requires may { MayEvaluate (F.pre self.now.evaluate.now) }
        requires does { Evaluates (F.post self.now.evaluate.now) self.now.definitions.now }
        ensures { Returns (λ v. v) result state.new (again_at (opens_of self.now.definitions.now self.now.opening.now) value.now (codes_of again.now) (state_of state.old)) }
    {
        if again.len() > 0 {
            return self.evaluate_same(state, value, &again[0]);
        }
        Ok(Value::undefined())
    }

    /// What has no event and this value.
    pub fn evaluate_same(
        &self,
        state: &mut State,
        value: &Value,
        code: &Code,
    ) -> Result<Value, Fault>
        requires may { MayEvaluate (F.pre self.now.evaluate.now) }
        requires does { Evaluates (F.post self.now.evaluate.now) self.now.definitions.now }
        ensures { Returns (λ v. v) result state.new (same_step (opens_of self.now.definitions.now self.now.opening.now) value.now (code_of code.now) (state_of state.old)) }
    {
        let mut apart = state.apart(self.alloc)?;
        let found = self.evaluate(&mut apart, code)?;
        if apart.is_only(value, &found) {
            Ok(value.try_clone(self.alloc)?)
        } else {
            Err(Fault::NoMeaning)
        }
    }

    /// `export default e`
    #[tactic(auto, using(crate::proofs::Forms::export_default_form))]
    pub fn evaluate_export_default(
        &self,
        state: &mut State,
        expression: &Boxed<Code>,
    ) -> Result<Value, Fault>
        requires may { MayEvaluate (F.pre self.now.evaluate.now) }
        requires does { Evaluates (F.post self.now.evaluate.now) self.now.definitions.now }
        ensures { Returns (λ v. v) result state.new (form_at (opens_of self.now.definitions.now self.now.opening.now) (of.export_default (code_of expression.now)) (state_of state.old)) }
    {
        let value = self.evaluate(state, expression.get())?;
        give_default(self.alloc, state, value)
    }

    /// What has to be a class, unless it throws.
    #[tactic(auto, using(crate::proofs::Forms::give_class_form))]
    pub fn evaluate_give_class(
        &self,
        state: &mut State,
        class: u32,
        expression: &Boxed<Code>,
    ) -> Result<Value, Fault>
        requires may { MayEvaluate (F.pre self.now.evaluate.now) }
        requires does { Evaluates (F.post self.now.evaluate.now) self.now.definitions.now }
        ensures { Returns (λ v. v) result state.new (form_at (opens_of self.now.definitions.now self.now.opening.now) (of.give_class class (code_of expression.now)) (state_of state.old)) }
    {
        let outer = state.enter();
        let value = self.evaluate(state, expression.get())?;
        state.leave_class(outer, class, value)
    }
}
