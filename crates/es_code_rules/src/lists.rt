// Codes in order.

ghost use Rattle.std.specs.Prelude.{List, map};
ghost use Rattle.es_codes.specs.View.{operation_of};
ghost use Rattle.es_codes.specs.CodeView.{code_of, codes_of, string_of};
ghost use Rattle.es_evaluator.specs.Running.{Returns, state_of};
ghost use Rattle.es_code_rules.specs.Elsewhere.{opens_of};
ghost use Rattle.es_steps.specs.Code as of;
ghost use Rattle.es_code_rules.specs.Steps.{form_at, all_at, converted_at, parts_at, part_at, string_step};
ghost use Rattle.es_code_rules.specs.Within.{MayEvaluate, Evaluates};

use crate::definition::Opening;
use crate::within::Within;
use es_base::list::List;
use es_base::name::Name;
use es_codes::boxed::Boxed;
use es_codes::code::{Code, TemplateString};
use es_codes::event::{Operation, Place, Token};
use es_codes::value::Value;
use es_evaluator::fault::Fault;
use es_evaluator::names::emit;
use es_evaluator::operands::{bind_parameters, convert, last_value};
use es_evaluator::state::{Operands, State};
use es_evaluator::templates::template_value;
use std::alloc::Global;

impl<'a, F: Fn(Global, &Opening, &mut State, &Code) -> Result<Value, Fault>> Within<'a, F> {
    /// The values of codes in order.
    #[tactic(auto, using(crate::proofs::Runs::all_begins, crate::proofs::Runs::all_more, crate::proofs::Runs::all_fails, crate::proofs::Runs::all_ends))]
    pub fn evaluate_all(&self, state: &mut State, codes: &[Code]) -> Result<List<Value>, Fault>
        requires may { MayEvaluate (F.pre self.now.evaluate.now) }
        requires does { Evaluates (F.post self.now.evaluate.now) self.now.definitions.now }
        ensures { Returns (λ vs. vs) result state.new (all_at (opens_of self.now.definitions.now self.now.opening.now) (codes_of codes.now) (state_of state.old)) }
    {
        let mut values = List::new(self.alloc);
        for i in 0..codes.len() {
            let value = self.evaluate(state, &codes[i])?;
            values.push(value)?;
        }
        Ok(values)
    }

    /// `a, b`
    #[tactic(auto, using(crate::proofs::Forms::sequence_form))]
    pub fn evaluate_sequence(&self, state: &mut State, all: &List<Code>) -> Result<Value, Fault>
        requires may { MayEvaluate (F.pre self.now.evaluate.now) }
        requires does { Evaluates (F.post self.now.evaluate.now) self.now.definitions.now }
        ensures { Returns (λ v. v) result state.new (form_at (opens_of self.now.definitions.now self.now.opening.now) (of.sequence (codes_of all.now)) (state_of state.old)) }
    {
        let values = self.evaluate_all(state, all.as_slice())?;
        Ok(last_value(values))
    }

    /// Statements in order.
    #[tactic(auto, using(crate::proofs::Forms::steps_form))]
    pub fn evaluate_steps(&self, state: &mut State, all: &List<Code>) -> Result<Value, Fault>
        requires may { MayEvaluate (F.pre self.now.evaluate.now) }
        requires does { Evaluates (F.post self.now.evaluate.now) self.now.definitions.now }
        ensures { Returns (λ v. v) result state.new (form_at (opens_of self.now.definitions.now self.now.opening.now) (of.steps (codes_of all.now)) (state_of state.old)) }
    {
        let _values = self.evaluate_all(state, all.as_slice())?;
        Ok(Value::undefined())
    }

    /// The value of the i-th expression of a template, which is made a string (ECMA-262, 13.2.8.5).
    pub fn evaluate_string(
        &self,
        state: &mut State,
        node: u32,
        i: usize,
        code: &Code,
    ) -> Result<Value, Fault>
        requires may { MayEvaluate (F.pre self.now.evaluate.now) }
        requires does { Evaluates (F.post self.now.evaluate.now) self.now.definitions.now }
        ensures { Returns (λ v. v) result state.new (string_step (opens_of self.now.definitions.now self.now.opening.now) node i (code_of code.now) (state_of state.old)) }
    {
        let value = self.evaluate(state, code)?;
        let _string = convert(self.alloc, state, node, i, &value)?;
        Ok(value)
    }

    /// The values of the expressions of a template in order, each made a string (ECMA-262, 13.2.8.5).
    #[tactic(auto, using(crate::proofs::Runs::converted_begins, crate::proofs::Runs::converted_more, crate::proofs::Runs::converted_fails, crate::proofs::Runs::converted_ends))]
    pub fn evaluate_converted(
        &self,
        state: &mut State,
        node: u32,
        codes: &[Code],
    ) -> Result<List<Value>, Fault>
        requires may { MayEvaluate (F.pre self.now.evaluate.now) }
        requires does { Evaluates (F.post self.now.evaluate.now) self.now.definitions.now }
        ensures { Returns (λ v. v) result state.new (converted_at (opens_of self.now.definitions.now self.now.opening.now) node (codes_of codes.now) (state_of state.old)) }
    {
        let mut values = List::new(self.alloc);
        for i in 0..codes.len() {
            let value = self.evaluate_string(state, node, i, &codes[i])?;
            values.push(value)?;
        }
        Ok(values)
    }

    /// `` `a${b}` ``
    #[tactic(auto, using(crate::proofs::Forms::template_form))]
    pub fn evaluate_template(
        &self,
        state: &mut State,
        node: u32,
        strings: &List<TemplateString>,
        expressions: &List<Code>,
    ) -> Result<Value, Fault>
        requires may { MayEvaluate (F.pre self.now.evaluate.now) }
        requires does { Evaluates (F.post self.now.evaluate.now) self.now.definitions.now }
        ensures { Returns (λ v. v) result state.new (form_at (opens_of self.now.definitions.now self.now.opening.now) (of.template node (map string_of strings.now) (codes_of expressions.now)) (state_of state.old)) }
    {
        let values = self.evaluate_converted(state, node, expressions.as_slice())?;
        template_value(self.alloc, state, node, strings.as_slice(), values)
    }

    /// The parts of a node in order, each with a list of its own.
    #[tactic(auto, using(crate::proofs::Runs::parts_begins, crate::proofs::Runs::parts_more, crate::proofs::Runs::parts_fails, crate::proofs::Runs::parts_ends))]
    pub fn evaluate_parts(
        &self,
        state: &mut State,
        node: u32,
        codes: &[Code],
    ) -> Result<Value, Fault>
        requires may { MayEvaluate (F.pre self.now.evaluate.now) }
        requires does { Evaluates (F.post self.now.evaluate.now) self.now.definitions.now }
        ensures { Returns (λ v. v) result state.new (parts_at (opens_of self.now.definitions.now self.now.opening.now) node (codes_of codes.now) (state_of state.old)) }
    {
        for i in 0..codes.len() {
            let _result = self.evaluate_indexed(state, node, i, &codes[i])?;
        }
        Ok(Value::undefined())
    }

    /// The i-th part of a node.
    #[tactic(auto, unfolding(crate::specs::Steps::part_at))]
    pub fn evaluate_indexed(
        &self,
        state: &mut State,
        node: u32,
        i: usize,
        code: &Code,
    ) -> Result<Value, Fault>
        requires may { MayEvaluate (F.pre self.now.evaluate.now) }
        requires does { Evaluates (F.post self.now.evaluate.now) self.now.definitions.now }
        ensures { Returns (λ v. v) result state.new (part_at (opens_of self.now.definitions.now self.now.opening.now) node i (code_of code.now) (state_of state.old)) }
    {
        self.evaluate_part(state, node, Place::Part(i), None, code)
    }

    /// Operands, then parts that may run or not, or again, then the operation.
    #[tactic(auto, using(crate::proofs::Forms::operation_form))]
    pub fn evaluate_operation(
        &self,
        state: &mut State,
        node: u32,
        operation: &Operation,
        operands: &List<Code>,
        held: &List<Code>,
    ) -> Result<Value, Fault>
        requires may { MayEvaluate (F.pre self.now.evaluate.now) }
        requires does { Evaluates (F.post self.now.evaluate.now) self.now.definitions.now }
        ensures { Returns (λ v. v) result state.new (form_at (opens_of self.now.definitions.now self.now.opening.now) (of.operation node (operation_of operation.now) (codes_of operands.now) (codes_of held.now)) (state_of state.old)) }
    {
        let operands = self.evaluate_all(state, operands.as_slice())?;
        let _undefined = self.evaluate_parts(state, node, held.as_slice())?;
        let operation = operation.try_clone(self.alloc)?;
        let token = Token::Operate {
            node,
            operation,
            operands,
        };
        emit(state, token, Value::result_of(node))
    }

    /// `new f(a)`
    #[tactic(auto, using(crate::proofs::Forms::construct_form))]
    pub fn evaluate_construct(
        &self,
        state: &mut State,
        node: u32,
        callee: &Boxed<Code>,
        arguments: &List<Code>,
    ) -> Result<Value, Fault>
        requires may { MayEvaluate (F.pre self.now.evaluate.now) }
        requires does { Evaluates (F.post self.now.evaluate.now) self.now.definitions.now }
        ensures { Returns (λ v. v) result state.new (form_at (opens_of self.now.definitions.now self.now.opening.now) (of.construct node (code_of callee.now) (codes_of arguments.now)) (state_of state.old)) }
    {
        let callee = self.evaluate(state, callee.get())?;
        let arguments = self.evaluate_all(state, arguments.as_slice())?;
        emit(
            state,
            Token::Construct {
                node,
                callee,
                arguments,
            },
            Value::result_of(node),
        )
    }

    /// `(p => e)(a)`
    #[tactic(auto, using(crate::proofs::Forms::call_arrow_form))]
    pub fn evaluate_call_arrow(
        &self,
        state: &mut State,
        parameters: &List<Name>,
        body: &Boxed<Code>,
        arguments: &List<Code>,
    ) -> Result<Value, Fault>
        requires may { MayEvaluate (F.pre self.now.evaluate.now) }
        requires does { Evaluates (F.post self.now.evaluate.now) self.now.definitions.now }
        ensures { Returns (λ v. v) result state.new (form_at (opens_of self.now.definitions.now self.now.opening.now) (of.call_arrow parameters.now (code_of body.now) (codes_of arguments.now)) (state_of state.old)) }
    {
        let values = self.evaluate_all(state, arguments.as_slice())?;
        let _undefined = bind_parameters(
            self.alloc,
            state,
            parameters.as_slice(),
            values.as_slice(),
        )?;
        self.evaluate(state, body.get())
    }
}
