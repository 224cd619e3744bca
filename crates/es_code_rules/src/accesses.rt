// Members of objects and of classes.

ghost use Rattle.es_codes.specs.View.{reference_of, home_of, test_of};
ghost use Rattle.es_codes.specs.CodeView.{code_of};
ghost use Rattle.es_evaluator.specs.Running.{Returns, state_of};
ghost use Rattle.es_code_rules.specs.Elsewhere.{opens_of};
ghost use Rattle.es_steps.specs.Code as of;
ghost use Rattle.es_code_rules.specs.Steps.{form_at};
ghost use Rattle.es_code_rules.specs.Within.{MayEvaluate, Evaluates};

use crate::definition::Opening;
use crate::within::Within;
use es_codes::boxed::Boxed;
use es_codes::code::Code;
use es_codes::event::{Home, PrivateTest, Token};
use es_codes::name::PrivateReference;
use es_codes::value::Value;
use es_evaluator::fault::Fault;
use es_evaluator::names::{emit, read_private};
use es_evaluator::state::State;
use std::alloc::Global;

impl<'a, F: Fn(Global, &Opening, &mut State, &Code) -> Result<Value, Fault>> Within<'a, F> {
    /// `o[k]`
    #[tactic(auto, using(crate::proofs::Forms::member_form))]
    pub fn evaluate_member(
        &self,
        state: &mut State,
        node: u32,
        object: &Boxed<Code>,
        key: &Boxed<Code>,
    ) -> Result<Value, Fault>
        requires may { MayEvaluate (F.pre self.now.evaluate.now) }
        requires does { Evaluates (F.post self.now.evaluate.now) self.now.definitions.now }
        ensures { Returns (λ v. v) result state.new (form_at (opens_of self.now.definitions.now self.now.opening.now) (of.member node (code_of object.now) (code_of key.now)) (state_of state.old)) }
    {
        let object = self.evaluate(state, object.get())?;
        let key = self.evaluate(state, key.get())?;
        emit(
            state,
            Token::Get { node, object, key },
            Value::result_of(node),
        )
    }

    /// `o.#x`
    #[tactic(auto, using(crate::proofs::Forms::private_member_form))]
    pub fn evaluate_private_member(
        &self,
        state: &mut State,
        node: u32,
        means: PrivateReference,
        object: &Boxed<Code>,
    ) -> Result<Value, Fault>
        requires may { MayEvaluate (F.pre self.now.evaluate.now) }
        requires does { Evaluates (F.post self.now.evaluate.now) self.now.definitions.now }
        ensures { Returns (λ v. v) result state.new (form_at (opens_of self.now.definitions.now self.now.opening.now) (of.private_member node (reference_of means) (code_of object.now)) (state_of state.old)) }
    {
        let object = self.evaluate(state, object.get())?;
        read_private(state, node, means.reads, object)
    }

    /// `super[k]`
    #[tactic(auto, using(crate::proofs::Forms::super_member_form))]
    pub fn evaluate_super_member(
        &self,
        state: &mut State,
        node: u32,
        home: Home,
        key: &Boxed<Code>,
        this: &Value,
    ) -> Result<Value, Fault>
        requires may { MayEvaluate (F.pre self.now.evaluate.now) }
        requires does { Evaluates (F.post self.now.evaluate.now) self.now.definitions.now }
        ensures { Returns (λ v. v) result state.new (form_at (opens_of self.now.definitions.now self.now.opening.now) (of.super_member node (home_of home) (code_of key.now) this.now) (state_of state.old)) }
    {
        let key = self.evaluate(state, key.get())?;
        let this = this.try_clone(self.alloc)?;
        emit(
            state,
            Token::SuperGet {
                node,
                home,
                key,
                this,
            },
            Value::result_of(node),
        )
    }

    /// `#x in o`
    #[tactic(auto, using(crate::proofs::Forms::private_in_form))]
    pub fn evaluate_private_in(
        &self,
        state: &mut State,
        node: u32,
        test: PrivateTest,
        object: &Boxed<Code>,
    ) -> Result<Value, Fault>
        requires may { MayEvaluate (F.pre self.now.evaluate.now) }
        requires does { Evaluates (F.post self.now.evaluate.now) self.now.definitions.now }
        ensures { Returns (λ v. v) result state.new (form_at (opens_of self.now.definitions.now self.now.opening.now) (of.private_in node (test_of test) (code_of object.now)) (state_of state.old)) }
    {
        let object = self.evaluate(state, object.get())?;
        emit(
            state,
            Token::PrivateIn { node, test, object },
            Value::result_of(node),
        )
    }

    /// A value as the key of a property.
    #[tactic(auto, using(crate::proofs::Forms::key_of_form))]
    pub fn evaluate_key_of(
        &self,
        state: &mut State,
        expression: &Boxed<Code>,
    ) -> Result<Value, Fault>
        requires may { MayEvaluate (F.pre self.now.evaluate.now) }
        requires does { Evaluates (F.post self.now.evaluate.now) self.now.definitions.now }
        ensures { Returns (λ v. v) result state.new (form_at (opens_of self.now.definitions.now self.now.opening.now) (of.key_of (code_of expression.now)) (state_of state.old)) }
    {
        let value = self.evaluate(state, expression.get())?;
        match value.as_key().into_key() {
            Some(key) => Ok(key),
            None => Err(Fault::TooDeep),
        }
    }

    /// `babelHelpers.defineProperty(o, k, e)`
    #[tactic(auto, using(crate::proofs::Forms::define_form))]
    pub fn evaluate_define(
        &self,
        state: &mut State,
        node: u32,
        object: &Value,
        key: &Boxed<Code>,
        right: &Boxed<Code>,
    ) -> Result<Value, Fault>
        requires may { MayEvaluate (F.pre self.now.evaluate.now) }
        requires does { Evaluates (F.post self.now.evaluate.now) self.now.definitions.now }
        ensures { Returns (λ v. v) result state.new (form_at (opens_of self.now.definitions.now self.now.opening.now) (of.define node object.now (code_of key.now) (code_of right.now)) (state_of state.old)) }
    {
        let key = self.evaluate(state, key.get())?;
        let value = self.evaluate(state, right.get())?;
        let object = object.try_clone(self.alloc)?;
        let key = key.as_key();
        emit(
            state,
            Token::Define { object, key, value },
            Value::result_of(node),
        )
    }

    /// `babelHelpers.classPrivateFieldInitSpec(o, w, e)`
    #[tactic(auto, using(crate::proofs::Forms::private_initialize_form))]
    pub fn evaluate_private_initialize(
        &self,
        state: &mut State,
        node: u32,
        key: u32,
        object: &Value,
        right: &Boxed<Code>,
    ) -> Result<Value, Fault>
        requires may { MayEvaluate (F.pre self.now.evaluate.now) }
        requires does { Evaluates (F.post self.now.evaluate.now) self.now.definitions.now }
        ensures { Returns (λ v. v) result state.new (form_at (opens_of self.now.definitions.now self.now.opening.now) (of.private_initialize node key object.now (code_of right.now)) (state_of state.old)) }
    {
        let value = self.evaluate(state, right.get())?;
        let object = object.try_clone(self.alloc)?;
        emit(
            state,
            Token::PrivateInitialize { key, object, value },
            Value::result_of(node),
        )
    }

    /// `babelHelpers.classPrivateMethodInitSpec(o, b)`
    #[tactic(auto, using(crate::proofs::Forms::add_brand_form))]
    pub fn evaluate_add_brand(
        &self,
        state: &mut State,
        node: u32,
        class: u32,
        object: &Value,
    ) -> Result<Value, Fault>
        requires may { MayEvaluate (F.pre self.now.evaluate.now) }
        requires does { Evaluates (F.post self.now.evaluate.now) self.now.definitions.now }
        ensures { Returns (λ v. v) result state.new (form_at (opens_of self.now.definitions.now self.now.opening.now) (of.add_brand node class object.now) (state_of state.old)) }
    {
        let object = object.try_clone(self.alloc)?;
        emit(
            state,
            Token::AddBrand { class, object },
            Value::result_of(node),
        )
    }
}
