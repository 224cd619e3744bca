// Callees, callees in callees, and calls (ECMA-262, 13.3.6).

ghost use Rattle.std.specs.Prelude.{List, map};
ghost use Rattle.es_steps.specs.Code as of;
ghost use Rattle.es_codes.specs.CodeView.{code_of, codes_of, callee_of, string_of};
ghost use Rattle.es_evaluator.specs.Running.{Returns, state_of, called_of};
ghost use Rattle.es_code_rules.specs.Elsewhere.{opens_of};
ghost use Rattle.es_code_rules.specs.Steps.{form_at, callee_at};
ghost use Rattle.es_code_rules.specs.Within.{MayEvaluate, Evaluates};

use crate::definition::Opening;
use crate::within::Within;
use es_base::list::List;
use es_codes::boxed::Boxed;
use es_codes::code::{Callee, Code, TemplateString};
use es_codes::event::{Place, Token};
use es_codes::value::Value;
use es_evaluator::fault::Fault;
use es_evaluator::names::emit;
use es_evaluator::state::{Called, State};
use es_evaluator::templates::tag_values;
use std::alloc::Global;

impl<'a, F: Fn(Global, &Opening, &mut State, &Code) -> Result<Value, Fault>> Within<'a, F> {
    /// A callee, and its receiver if it has one.
    #[cycle(callee)]
    #[tactic(auto, using(es_codes::proofs::Forms::plain_is, es_codes::proofs::Forms::on_member_is, es_codes::proofs::Forms::on_private_is, es_codes::proofs::Forms::on_super_is, es_codes::proofs::Forms::with_receiver_is, es_codes::proofs::Forms::checked_is, es_codes::proofs::Forms::on_chain_is, es_codes::proofs::Forms::behind_test_is))]
    pub fn evaluate_callee(&self, state: &mut State, callee: &Callee) -> Result<Called, Fault>
        requires may { MayEvaluate (F.pre self.now.evaluate.now) }
        requires does { Evaluates (F.post self.now.evaluate.now) self.now.definitions.now }
        ensures { Returns called_of result state.new (callee_at (opens_of self.now.definitions.now self.now.opening.now) (callee_of callee.now) (state_of state.old)) }
    {
        match callee {
            Callee::Plain { expression } => self.evaluate_plain(state, expression),
            Callee::OnMember { node, object, key } => self.evaluate_on_member(
                state, *node, object, key,
            ),
            Callee::OnPrivate {
                node,
                means,
                object,
            } => self.evaluate_on_private(state, *node, *means, object),
            Callee::OnSuper {
                node,
                home,
                key,
                this,
            } => self.evaluate_on_super(state, *node, *home, key, this),
            Callee::WithReceiver { function, object } => self.evaluate_with_receiver(
                state, function, object,
            ),
            Callee::Checked { callee } => self.evaluate_checked(state, callee),
            Callee::OnChain { node, callee } => self.evaluate_on_chain(state, *node, callee),
            Callee::BehindTest {
                object,
                again,
                callee,
            } => self.evaluate_behind_test(state, object, again, callee),
        }
    }

    /// `f?.`
    #[cycle(callee)]
    #[tactic(auto, using(crate::proofs::CallForms::checked_form))]
    pub fn evaluate_checked(
        &self,
        state: &mut State,
        callee: &Boxed<Callee>,
    ) -> Result<Called, Fault>
        requires may { MayEvaluate (F.pre self.now.evaluate.now) }
        requires does { Evaluates (F.post self.now.evaluate.now) self.now.definitions.now }
        ensures { Returns called_of result state.new (callee_at (opens_of self.now.definitions.now self.now.opening.now) (of.checked (callee_of callee.now)) (state_of state.old)) }
    {
        let called = self.evaluate_callee(state, callee.get())?;
        let value = called.callee.try_clone(self.alloc)?;
        state.push(Token::Short { value })?;
        Ok(called)
    }

    /// `(o?.k)`, called
    #[cycle(callee)]
    #[tactic(auto, using(crate::proofs::CallForms::on_chain_form))]
    pub fn evaluate_on_chain(
        &self,
        state: &mut State,
        node: u32,
        callee: &Boxed<Callee>,
    ) -> Result<Called, Fault>
        requires may { MayEvaluate (F.pre self.now.evaluate.now) }
        requires does { Evaluates (F.post self.now.evaluate.now) self.now.definitions.now }
        ensures { Returns called_of result state.new (callee_at (opens_of self.now.definitions.now self.now.opening.now) (of.on_chain node (callee_of callee.now)) (state_of state.old)) }
    {
        let around = state.open()?;
        let Called { callee, receiver } = self.evaluate_callee(state, callee.get())?;
        let value = state.settled(callee);
        let receiver = state.settled_receiver(receiver);
        let token = Token::End {
            node,
            place: Place::Part(0),
            tested: None,
            value,
        };
        state.close(around, token)?;
        let callee = Value::result_of(node);
        Ok(Called { callee, receiver })
    }

    /// In a chain, a callee behind a test.
    #[cycle(callee)]
    #[tactic(auto, using(crate::proofs::CallForms::behind_test_form))]
    pub fn evaluate_behind_test(
        &self,
        state: &mut State,
        object: &Boxed<Code>,
        again: &List<Code>,
        callee: &Boxed<Callee>,
    ) -> Result<Called, Fault>
        requires may { MayEvaluate (F.pre self.now.evaluate.now) }
        requires does { Evaluates (F.post self.now.evaluate.now) self.now.definitions.now }
        ensures { Returns called_of result state.new (callee_at (opens_of self.now.definitions.now self.now.opening.now) (of.behind_test (code_of object.now) (codes_of again.now) (callee_of callee.now)) (state_of state.old)) }
    {
        let _object = self.evaluate_test(state, object, again)?;
        self.evaluate_callee(state, callee.get())
    }

    /// `f(a)`
    #[tactic(auto, using(crate::proofs::CallForms::call_form))]
    pub fn evaluate_call(
        &self,
        state: &mut State,
        node: u32,
        callee: &Callee,
        arguments: &List<Code>,
    ) -> Result<Value, Fault>
        requires may { MayEvaluate (F.pre self.now.evaluate.now) }
        requires does { Evaluates (F.post self.now.evaluate.now) self.now.definitions.now }
        ensures { Returns (λ v. v) result state.new (form_at (opens_of self.now.definitions.now self.now.opening.now) (of.call node (callee_of callee.now) (codes_of arguments.now)) (state_of state.old)) }
    {
        let Called { callee, receiver } = self.evaluate_callee(state, callee)?;
        let arguments = self.evaluate_all(state, arguments.as_slice())?;
        let token = Token::Call {
            node,
            callee,
            receiver,
            arguments,
        };
        emit(state, token, Value::result_of(node))
    }

    /// `` f`a${b}` ``
    #[tactic(auto, using(crate::proofs::CallForms::tag_form))]
    pub fn evaluate_tag(
        &self,
        state: &mut State,
        node: u32,
        callee: &Callee,
        strings: &List<TemplateString>,
        arguments: &List<Code>,
    ) -> Result<Value, Fault>
        requires may { MayEvaluate (F.pre self.now.evaluate.now) }
        requires does { Evaluates (F.post self.now.evaluate.now) self.now.definitions.now }
        ensures { Returns (λ v. v) result state.new (form_at (opens_of self.now.definitions.now self.now.opening.now) (of.tag node (callee_of callee.now) (map string_of strings.now) (codes_of arguments.now)) (state_of state.old)) }
    {
        let Called { callee, receiver } = self.evaluate_callee(state, callee)?;
        let values = self.evaluate_all(state, arguments.as_slice())?;
        let arguments = tag_values(self.alloc, strings.as_slice(), values)?;
        let token = Token::Call {
            node,
            callee,
            receiver,
            arguments,
        };
        emit(state, token, Value::result_of(node))
    }
}
