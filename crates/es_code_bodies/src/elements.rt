// What a construction does with the elements of its class (ECMA-262, 7.3.33).

ghost use Rattle.std.specs.Prelude.{◌≡◌};
ghost use Rattle.es_codes.specs.CodeView.{code_of, codes_of};
ghost use Rattle.es_steps.specs.Code.{and, done};
ghost use Rattle.es_steps.specs.Evaluation.{has_instance_methods};
ghost use Rattle.es_evaluator.specs.Running.{Returns, state_of};
ghost use Rattle.es_code_rules.specs.Elsewhere.{opens_of};
ghost use Rattle.es_code_rules.specs.Within.{MayEvaluate, Evaluates};
ghost use Rattle.es_class_rules.specs.Steps.{construction_at};

use es_class_rules::classes::evaluate_fields;
use es_code_rules::definition::Opening;
use es_code_rules::within::Within;
use es_codes::code::Code;
use es_codes::value::Value;
use es_evaluator::fault::Fault;
use es_evaluator::operands::add_brand;
use es_evaluator::state::State;
use std::alloc::Global;

/// The private methods and the fields of an instance.
#[tactic(auto, using(es_class_rules::proofs::Openings::constructed))]
pub fn evaluate_initializers<
    'a,
    F: Fn(Global, &Opening, &mut State, &Code) -> Result<Value, Fault>,
>(within: &Within<'a, F>, state: &mut State, class: u32, elements: &[Code]) -> Result<Value, Fault>
    requires may { MayEvaluate (F.pre within.now.evaluate.now) }
    requires does { Evaluates (F.post within.now.evaluate.now) within.now.definitions.now }
    ensures { Returns (λ v. v) result state.new (construction_at (opens_of within.now.definitions.now within.now.opening.now) class (codes_of elements.now) (state_of state.old)) }
{
    let has_methods = has_private_methods(elements);
    let _undefined = add_brand(state, has_methods, class)?;
    evaluate_fields(within, state, class, elements)
}

/// Whether there is a private method of instances.
#[tactic(auto, using(es_class_rules::proofs::Openings::has_next, es_class_rules::proofs::Openings::has_none))]
fn has_private_methods(elements: &[Code]) -> bool
    ensures { result ≡ has_instance_methods (codes_of elements.now) }
{
    for i in 0..elements.len() {
        if is_instance_method(&elements[i]) {
            return true;
        }
    }
    false
}

/// Whether it is a private method of instances.
#[tactic(auto, using(es_codes::proofs::Forms::private_method_is, es_class_rules::proofs::Openings::method_has, es_class_rules::proofs::NoElements::no_method))]
fn is_instance_method(element: &Code) -> bool
    ensures { result ≡ has_instance_methods (and (code_of element.now) done) }
{
    match element {
        // #x() {}
        Code::PrivateMethod { is_static, .. } => !*is_static,
        _ => false,
    }
}
