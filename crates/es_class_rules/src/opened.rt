// What is evaluated elsewhere than where it stands.

ghost use Rattle.std.specs.Prelude.{◌≡◌, ◌++◌, ◌∷◌, [], IfOk, Some, map, option_map};
ghost use Rattle.es_steps.specs.Code.{and, done};
ghost use Rattle.es_steps.specs.Evaluation.{has_instance_methods};
ghost use Rattle.es_steps.specs.Opening as of;
ghost use Rattle.es_codes.specs.CodeView.{code_of, codes_of, opened_of};
ghost use Rattle.es_evaluator.specs.Running.{Returns, state_of};
ghost use Rattle.es_code_rules.specs.Elsewhere.{definition_behind, definition_of, definitions_behind, is_shut, left, opens_of};
ghost use Rattle.es_code_rules.specs.Within.{MayEvaluate, Evaluates};
ghost use Rattle.es_class_rules.specs.Steps.{opened_at, defined_at, construction_at};

use crate::classes::evaluate_fields;
use es_base::list::List;
use es_code_rules::definition::{Definition, Opening};
use es_code_rules::definitions::{Definitions, is_opened};
use es_code_rules::within::Within;
use es_codes::code::{Code, Opened};
use es_codes::value::Value;
use es_evaluator::fault::Fault;
use es_evaluator::operands::add_brand;
use es_evaluator::state::State;
use std::alloc::{AllocError, Global};

/// Whether one of these is a definition of what is opened.
fn is_shut(shut: &[&Definition], opened: &Opened) -> bool
    ensures { result ≡ is_shut (opened_of opened.now) (definitions_behind shut.now) }
{
    for definition in shut {
        if is_opened(definition, opened) {
            return true;
        }
    }
    false
}

/// The first definition of what is opened, unless it is shut.
#[tactic(auto, using(crate::proofs::Openings::found_there, crate::proofs::Openings::none_there))]
pub fn find_opened<'a>(
    definitions: &Definitions<'a>,
    shut: &[&Definition],
    opened: &Opened,
) -> Option<&'a Definition>
    ensures { option_map definition_behind result ≡ of.definition_of (opened_of opened.now) (left (map definition_of definitions.now) (definitions_behind shut.now)) }
{
    if is_shut(shut, opened) {
        return None;
    }
    definitions.get(opened)
}

/// What is shut where this is opened too. Fails on allocation failure alone.
fn shut_too<'a>(
    alloc: Global,
    shut: &[&'a Definition],
    definition: &'a Definition,
) -> Result<Vec<&'a Definition>, AllocError>
    ensures { IfOk result (λ v. v.items ≡ shut.now ++ definition.entry ∷ []) }
{
    let mut all = shut.to_vec(alloc)?;
    all.push(definition)?;
    Ok(all)
}

/// Evaluates what stands elsewhere, with all others but itself.
#[tactic(auto, using(crate::proofs::Openings::none_left, crate::proofs::Openings::none_defined, crate::proofs::Openings::one_defined))]
pub fn evaluate_opened<'a, F: Fn(Global, &Opening, &mut State, &Code) -> Result<Value, Fault>>(
    within: &Within<'a, F>,
    state: &mut State,
    opened: &Opened,
) -> Result<Value, Fault>
    requires may { MayEvaluate (F.pre within.now.evaluate.now) }
    requires does { Evaluates (F.post within.now.evaluate.now) within.now.definitions.now }
    ensures { Returns (λ v. v) result state.new (opened_at (opens_of within.now.definitions.now within.now.opening.now) (opened_of opened.now) (state_of state.old)) }
{
    if within.opening.depth == 0 {
        return Err(Fault::NoMeaning);
    }
    let shut = within.opening.shut.as_slice();
    match find_opened(within.definitions, shut, opened) {
        None => Err(Fault::NoMeaning),
        Some(definition) => {
            let shut = shut_too(within.alloc, shut, definition)?;
            let opening = Opening {
                shut,
                depth: within.opening.depth - 1,
            };
            let inside = Within {
                alloc: within.alloc,
                definitions: within.definitions,
                opening: &opening,
                evaluate: within.evaluate,
            };
            evaluate_definition(&inside, state, definition)
        }
    }
}

/// What a definition evaluates: its body, or the initializers of its class (ECMA-262, 7.3.33).
#[tactic(auto, using(crate::proofs::Openings::class_defined, crate::proofs::Openings::name_defined, crate::proofs::Openings::called_defined))]
pub fn evaluate_definition<'a, F: Fn(Global, &Opening, &mut State, &Code) -> Result<Value, Fault>>(
    within: &Within<'a, F>,
    state: &mut State,
    definition: &Definition,
) -> Result<Value, Fault>
    requires may { MayEvaluate (F.pre within.now.evaluate.now) }
    requires does { Evaluates (F.post within.now.evaluate.now) within.now.definitions.now }
    ensures { Returns (λ v. v) result state.new (defined_at (opens_of within.now.definitions.now within.now.opening.now) (Some (definition_of definition.now)) (state_of state.old)) }
{
    match definition {
        Definition::OfClass { class, elements } => evaluate_construction(
            within, state, *class, elements,
        ),
        Definition::OfName { body, .. } => within.evaluate(state, body),
        Definition::OfCalled { body, .. } => within.evaluate(state, body),
    }
}

/// What a construction does with the elements of its class.
#[tactic(auto, using(crate::proofs::Openings::constructed))]
fn evaluate_construction<'a, F: Fn(Global, &Opening, &mut State, &Code) -> Result<Value, Fault>>(
    within: &Within<'a, F>,
    state: &mut State,
    class: u32,
    elements: &List<Code>,
) -> Result<Value, Fault>
    requires may { MayEvaluate (F.pre within.now.evaluate.now) }
    requires does { Evaluates (F.post within.now.evaluate.now) within.now.definitions.now }
    ensures { Returns (λ v. v) result state.new (construction_at (opens_of within.now.definitions.now within.now.opening.now) class (codes_of elements.now) (state_of state.old)) }
{
    let has_methods = has_private_methods(elements.as_slice());
    let _undefined = add_brand(state, has_methods, class)?;
    evaluate_fields(within, state, class, elements.as_slice())
}

/// Whether there is a private method of instances.
#[tactic(auto, using(crate::proofs::Openings::has_next, crate::proofs::Openings::has_none))]
fn has_private_methods(elements: &[Code]) -> bool
    ensures { result ≡ has_instance_methods (codes_of elements.now) }
{
    for i in 0..elements.len() {
        if is_instance_method(&elements[i]) {
            return true;
        }
    }
    false
}

/// Whether it is a private method of instances.
#[tactic(auto, using(es_codes::proofs::Forms::private_method_is, crate::proofs::Openings::method_has, crate::proofs::NoElements::no_method))]
fn is_instance_method(element: &Code) -> bool
    ensures { result ≡ has_instance_methods (and (code_of element.now) done) }
{
    match element {
        Code::PrivateMethod { is_static, .. } => !*is_static,
        _ => false,
    }
}
