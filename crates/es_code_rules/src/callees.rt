// Callees of one code, or of an object and a key (ECMA-262, 13.3.6).

ghost use Rattle.es_codes.specs.View.{reference_of, home_of};
ghost use Rattle.es_codes.specs.CodeView.{code_of};
ghost use Rattle.es_evaluator.specs.Running.{Returns, state_of, called_of};
ghost use Rattle.es_code_rules.specs.Elsewhere.{opens_of};
ghost use Rattle.es_steps.specs.Code as of;
ghost use Rattle.es_code_rules.specs.Steps.{callee_at};
ghost use Rattle.es_code_rules.specs.Within.{MayEvaluate, Evaluates};

use crate::definition::Opening;
use crate::within::Within;
use es_codes::boxed::Boxed;
use es_codes::code::Code;
use es_codes::event::{Home, Token};
use es_codes::name::PrivateReference;
use es_codes::value::Value;
use es_evaluator::fault::Fault;
use es_evaluator::names::{emit, read_private};
use es_evaluator::state::{Called, State};
use std::alloc::Global;

impl<'a, F: Fn(Global, &Opening, &mut State, &Code) -> Result<Value, Fault>> Within<'a, F> {
    /// `f`, called on nothing
    #[tactic(auto, using(crate::proofs::Forms::plain_form))]
    pub fn evaluate_plain(
        &self,
        state: &mut State,
        expression: &Boxed<Code>,
    ) -> Result<Called, Fault>
        requires may { MayEvaluate (F.pre self.now.evaluate.now) }
        requires does { Evaluates (F.post self.now.evaluate.now) self.now.definitions.now }
        ensures { Returns called_of result state.new (callee_at (opens_of self.now.definitions.now self.now.opening.now) (of.plain (code_of expression.now)) (state_of state.old)) }
    {
        let callee = self.evaluate(state, expression.get())?;
        Ok(Called {
            callee,
            receiver: None,
        })
    }

    /// `o[k]`, called on `o`
    #[tactic(auto, using(crate::proofs::Forms::on_member_form))]
    pub fn evaluate_on_member(
        &self,
        state: &mut State,
        node: u32,
        object: &Boxed<Code>,
        key: &Boxed<Code>,
    ) -> Result<Called, Fault>
        requires may { MayEvaluate (F.pre self.now.evaluate.now) }
        requires does { Evaluates (F.post self.now.evaluate.now) self.now.definitions.now }
        ensures { Returns called_of result state.new (callee_at (opens_of self.now.definitions.now self.now.opening.now) (of.on_member node (code_of object.now) (code_of key.now)) (state_of state.old)) }
    {
        let object = self.evaluate(state, object.get())?;
        let key = self.evaluate(state, key.get())?;
        let receiver = object.try_clone(self.alloc)?;
        let callee = emit(
            state,
            Token::Get { node, object, key },
            Value::result_of(node),
        )?;
        Ok(Called {
            callee,
            receiver: Some(receiver),
        })
    }

    /// `o.#x`, called on `o`
    #[tactic(auto, using(crate::proofs::Forms::on_private_form))]
    pub fn evaluate_on_private(
        &self,
        state: &mut State,
        node: u32,
        means: PrivateReference,
        object: &Boxed<Code>,
    ) -> Result<Called, Fault>
        requires may { MayEvaluate (F.pre self.now.evaluate.now) }
        requires does { Evaluates (F.post self.now.evaluate.now) self.now.definitions.now }
        ensures { Returns called_of result state.new (callee_at (opens_of self.now.definitions.now self.now.opening.now) (of.on_private node (reference_of means) (code_of object.now)) (state_of state.old)) }
    {
        let object = self.evaluate(state, object.get())?;
        let receiver = object.try_clone(self.alloc)?;
        let callee = read_private(state, node, means.reads, object)?;
        Ok(Called {
            callee,
            receiver: Some(receiver),
        })
    }

    /// `super[k]`, called on `this`
    #[tactic(auto, using(crate::proofs::Forms::on_super_form))]
    pub fn evaluate_on_super(
        &self,
        state: &mut State,
        node: u32,
        home: Home,
        key: &Boxed<Code>,
        this: &Value,
    ) -> Result<Called, Fault>
        requires may { MayEvaluate (F.pre self.now.evaluate.now) }
        requires does { Evaluates (F.post self.now.evaluate.now) self.now.definitions.now }
        ensures { Returns called_of result state.new (callee_at (opens_of self.now.definitions.now self.now.opening.now) (of.on_super node (home_of home) (code_of key.now) this.now) (state_of state.old)) }
    {
        let key = self.evaluate(state, key.get())?;
        let receiver = this.try_clone(self.alloc)?;
        let this = this.try_clone(self.alloc)?;
        let token = Token::SuperGet {
            node,
            home,
            key,
            this,
        };
        let callee = emit(state, token, Value::result_of(node))?;
        Ok(Called {
            callee,
            receiver: Some(receiver),
        })
    }

    /// `f.call(o)`: a function, and the object that it is called on
    #[tactic(auto, using(crate::proofs::Forms::with_receiver_form))]
    pub fn evaluate_with_receiver(
        &self,
        state: &mut State,
        function: &Boxed<Code>,
        object: &Boxed<Code>,
    ) -> Result<Called, Fault>
        requires may { MayEvaluate (F.pre self.now.evaluate.now) }
        requires does { Evaluates (F.post self.now.evaluate.now) self.now.definitions.now }
        ensures { Returns called_of result state.new (callee_at (opens_of self.now.definitions.now self.now.opening.now) (of.with_receiver (code_of function.now) (code_of object.now)) (state_of state.old)) }
    {
        let callee = self.evaluate(state, function.get())?;
        let receiver = self.evaluate(state, object.get())?;
        Ok(Called {
            callee,
            receiver: Some(receiver),
        })
    }
}
