// Codes, bodies of functions and constructions of classes, and what stands in front of codes, among definitions.

ghost use Rattle.std.specs.Prelude.{◌≡◌, ℕ, List, IfOk, length, map};
ghost use Rattle.es_codes.specs.CodeView.{callee_of, code_of, codes_of, target_of};
ghost use Rattle.es_steps.specs.Entries.{ev_body, ev_construction, ev_given};
ghost use Rattle.es_steps.specs.Evaluation.{bind_parameters, ev, ev_all, ev_callee, ev_field, ev_initializers, ev_key, ev_keys, ev_static, ev_take, ev_target, gives};
ghost use Rattle.es_steps.specs.Opening as of;
ghost use Rattle.es_steps.specs.Values.{Undefined};
ghost use Rattle.es_evaluation.specs.Agreement.{onto};
ghost use Rattle.es_evaluator.specs.Running.{Returns, state_of};
ghost use Rattle.es_code_rules.specs.Elsewhere.{definition_of};

use crate::alone;
use crate::constructing::evaluate_construction;
use crate::elements::evaluate_initializers;
use crate::parameters::{evaluate_body, evaluate_given};
use es_base::list::List;
use es_base::name::Name;
use es_class_rules::classes::{evaluate_field, evaluate_key, evaluate_static};
use es_code_rules::definition::{Definition, Opening};
use es_code_rules::definitions::Definitions;
use es_code_rules::within::Within;
use es_codes::code::{Callee, Code, Target};
use es_codes::value::Value;
use es_evaluate::evaluate::evaluate;
use es_evaluator::fault::Fault;
use es_evaluator::state::State;
use es_target_rules::targets::evaluate_take;
use std::alloc::{AllocError, Global};

/// Definitions, all of which may be opened, and how many codes may stand in each other.
#[derive(Drop)]
pub struct Among<'a> {
    pub alloc: Global,
    pub definitions: Definitions<'a>,
    pub opening: Opening<'a>,
    pub limit: usize,
    pub ghost is_deep: { opening.depth ≡ length definitions },
    pub ghost is_open: { length opening.shut.items ≡ 0 },
}

/// Calls a rule with what it has at hand among definitions.
macro_rules! within {
    ($among:expr, |$within:ident| $evaluated:expr) => {{
        let definitions = &$among.definitions;
        let limit = $among.limit;
        let inside = |alloc: Global, opening: &Opening, state: &mut State, code: &Code| {
            evaluate(alloc, definitions, opening, limit, state, code)
        };
        let $within = Within {
            alloc: $among.alloc,
            definitions: &$among.definitions,
            opening: &$among.opening,
            evaluate: &inside,
        };
        $evaluated
    }};
}

impl<'a> Among<'a> {
    /// Evaluation among definitions, refused where codes stand in codes `limit` times or more. Fails on allocation failure
    /// alone.
    pub fn new(
        alloc: Global,
        definitions: &'a List<Definition>,
        limit: usize,
    ) -> Result<Among<'a>, AllocError>
        ensures { IfOk result (λ a. a.definitions ≡ definitions.now) }
    {
        let opening = Opening {
            shut: Vec::new(alloc),
            depth: definitions.len(),
        };
        Ok(Among {
            alloc,
            definitions: Definitions::of(alloc, definitions.as_slice())?,
            opening,
            limit,
        })
    }

    /// The value of a code: undefined if its list throws.
    #[tactic(auto, using(crate::proofs::Whole::code_among))]
    pub fn evaluate(&self, state: &mut State, code: &Code) -> Result<Value, Fault>
        ensures { Returns (λ v. v) result state.new (onto (state_of state.old) (ev (of.opening (map definition_of self.now.definitions)) (code_of code.now) (state_of state.old).names)) }
    {
        evaluate(
            self.alloc,
            &self.definitions,
            &self.opening,
            self.limit,
            state,
            code,
        )
    }

    /// Codes in order.
    pub fn evaluate_all(&self, state: &mut State, codes: &[Code]) -> Result<Value, Fault>
        ensures { Returns (λ v. v) result state.new (onto (state_of state.old) (ev_all (of.opening (map definition_of self.now.definitions)) (codes_of codes.now) (λ vs. gives Undefined) (state_of state.old).names)) }
    {
        within!(self, |within| alone::evaluate_all(&within, state, codes))
    }

    /// The operands of a target that is neither read nor written.
    pub fn evaluate_target(&self, state: &mut State, to: &Target) -> Result<Value, Fault>
        ensures { Returns (λ v. v) result state.new (onto (state_of state.old) (ev_target (of.opening (map definition_of self.now.definitions)) (target_of to.now) (λ t. gives Undefined) (state_of state.old).names)) }
    {
        within!(self, |within| alone::evaluate_target(&within, state, to))
    }

    /// The value of a callee that is not called.
    pub fn evaluate_callee(&self, state: &mut State, callee: &Callee) -> Result<Value, Fault>
        ensures { Returns (λ v. v) result state.new (onto (state_of state.old) (ev_callee (of.opening (map definition_of self.now.definitions)) (callee_of callee.now) (λ v receiver. gives v) (state_of state.old).names)) }
    {
        within!(
            self,
            |within| alone::evaluate_callee(&within, state, callee)
        )
    }

    /// Arguments of a function that is called where it stands: its parameters stand for them.
    pub fn evaluate_arguments(
        &self,
        state: &mut State,
        parameters: &[Name],
        arguments: &[Code],
    ) -> Result<Value, Fault>
        ensures { Returns (λ v. v) result state.new (onto (state_of state.old) (ev_all (of.opening (map definition_of self.now.definitions)) (codes_of arguments.now) (λ vs. bind_parameters parameters.now vs) (state_of state.old).names)) }
    {
        within!(
            self,
            |within| alone::evaluate_arguments(&within, state, parameters, arguments)
        )
    }

    /// What a member of a pattern takes from a value (ECMA-262, 8.6.2).
    pub fn evaluate_take(
        &self,
        state: &mut State,
        value: &Value,
        member: &Code,
    ) -> Result<Value, Fault>
        ensures { Returns (λ v. v) result state.new (onto (state_of state.old) (ev_take (of.opening (map definition_of self.now.definitions)) value.now (code_of member.now) (state_of state.old).names)) }
    {
        within!(self, |within| evaluate_take(&within, state, value, member))
    }

    /// The key of an element of a class: undefined where it has none.
    pub fn evaluate_key(&self, state: &mut State, element: &Code) -> Result<Value, Fault>
        ensures { Returns (λ v. v) result state.new (onto (state_of state.old) (ev_key (of.opening (map definition_of self.now.definitions)) (code_of element.now) (state_of state.old).names)) }
    {
        within!(self, |within| evaluate_key(&within, state, element))
    }

    /// The keys of the elements of a class in order.
    pub fn evaluate_keys(&self, state: &mut State, elements: &[Code]) -> Result<Value, Fault>
        ensures { Returns (λ v. v) result state.new (onto (state_of state.old) (ev_keys (of.opening (map definition_of self.now.definitions)) (codes_of elements.now) (λ ks. gives Undefined) (state_of state.old).names)) }
    {
        within!(
            self,
            |within| alone::evaluate_keys(&within, state, elements)
        )
    }

    /// A static field or a static block of a class, with the value of its key (ECMA-262, 15.7.14).
    pub fn evaluate_static(
        &self,
        state: &mut State,
        class: u32,
        key: &Value,
        element: &Code,
    ) -> Result<Value, Fault>
        ensures { Returns (λ v. v) result state.new (onto (state_of state.old) (ev_static (of.opening (map definition_of self.now.definitions)) class key.now (code_of element.now) (state_of state.old).names)) }
    {
        within!(
            self,
            |within| evaluate_static(&within, state, class, key, element)
        )
    }

    /// An instance field of a class (ECMA-262, 7.3.33).
    pub fn evaluate_field(
        &self,
        state: &mut State,
        class: u32,
        element: &Code,
    ) -> Result<Value, Fault>
        ensures { Returns (λ v. v) result state.new (onto (state_of state.old) (ev_field (of.opening (map definition_of self.now.definitions)) class (code_of element.now) (state_of state.old).names)) }
    {
        within!(
            self,
            |within| evaluate_field(&within, state, class, element)
        )
    }

    /// The private methods and the fields of an instance of a class (ECMA-262, 7.3.33).
    #[tactic(auto, using(crate::proofs::Whole::initializers_among))]
    pub fn evaluate_initializers(
        &self,
        state: &mut State,
        class: u32,
        elements: &[Code],
    ) -> Result<Value, Fault>
        ensures { Returns (λ v. v) result state.new (onto (state_of state.old) (ev_initializers (of.opening (map definition_of self.now.definitions)) class (codes_of elements.now) (state_of state.old).names)) }
    {
        within!(
            self,
            |within| evaluate_initializers(&within, state, class, elements)
        )
    }

    /// What a call of a function does with its arguments, and the border between parameters and the body (ECMA-262,
    /// 10.2.11).
    #[tactic(auto, using(crate::proofs::Whole::given_among))]
    pub fn evaluate_given(&self, state: &mut State, parameters: &[Code]) -> Result<Value, Fault>
        ensures { (first_new : ℕ) (late : List ℕ) → Returns (λ v. v) result state.new (onto (state_of state.old) (ev_given (of.opening (map definition_of self.now.definitions)) first_new late (codes_of parameters.now) (state_of state.old).names)) }
    {
        within!(self, |within| evaluate_given(&within, state, parameters))
    }

    /// What a call of a function does (ECMA-262, 10.2.1): its value is undefined if its list throws.
    #[tactic(auto, using(crate::proofs::Whole::body_among))]
    pub fn evaluate_body(
        &self,
        state: &mut State,
        parameters: &[Code],
        body: &Code,
    ) -> Result<Value, Fault>
        ensures { (first_new : ℕ) (late : List ℕ) → Returns (λ v. v) result state.new (onto (state_of state.old) (ev_body (of.opening (map definition_of self.now.definitions)) first_new late (codes_of parameters.now) (code_of body.now) (state_of state.old).names)) }
    {
        within!(
            self,
            |within| evaluate_body(&within, state, parameters, body)
        )
    }

    /// What a construction of a class does (ECMA-262, 10.2.2); `late` are the classes whose parameters come before
    /// their fields.
    #[tactic(auto, using(crate::proofs::Whole::construction_among))]
    pub fn evaluate_construction(
        &self,
        state: &mut State,
        late: &[u32],
        class: u32,
        heritage: &[Code],
        elements: &[Code],
    ) -> Result<Value, Fault>
        ensures { (first_new : ℕ) → Returns (λ v. v) result state.new (onto (state_of state.old) (ev_construction (of.opening (map definition_of self.now.definitions)) first_new late.now class (codes_of heritage.now) (codes_of elements.now) (codes_of elements.now) (state_of state.old).names)) }
    {
        within!(
            self,
            |within| evaluate_construction(&within, state, late, class, heritage, elements)
        )
    }
}
