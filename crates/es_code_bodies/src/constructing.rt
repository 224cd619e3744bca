// Constructions of classes (ECMA-262, 10.2.2).

ghost use Rattle.std.specs.Prelude.{◌≡◌, ◌&&◌, List, false, true};
ghost use Rattle.es_codes.specs.CodeView.{code_of, codes_of, form_of};
ghost use Rattle.es_steps.specs.GeneratedForms.{is_plain};
ghost use Rattle.es_steps.specs.Opening.{all_arguments};
ghost use Rattle.es_steps.specs.Events.{SuperCallWithAll};
ghost use Rattle.es_steps.specs.Values.{ThisOf};
ghost use Rattle.es_evaluation.specs.Direct as direct;
ghost use Rattle.es_evaluation.specs.Flat as flat;
ghost use Rattle.es_evaluator.specs.Running.{Returns, state_of};
ghost use Rattle.es_code_rules.specs.Elsewhere.{opens_of};
ghost use Rattle.es_code_rules.specs.Within.{MayEvaluate, Evaluates};
ghost use Rattle.es_class_rules.specs.Steps.{construction_at};
ghost use Rattle.es_code_bodies.specs.Constructing.{base_at, constructing_at, constructor_at, default_at, derived_at, forwarded_at, in_order_at, new_at};

use crate::constructors::{Constructors, are_all_arguments, constructors_in};
use crate::elements::evaluate_initializers;
use crate::parameters::{evaluate_body, evaluate_given};
use es_base::list::List;
use es_code_rules::definition::Opening;
use es_code_rules::within::Within;
use es_codes::boxed::Boxed;
use es_codes::code::{Code, FunctionForm};
use es_codes::event::Token;
use es_codes::value::Value;
use es_evaluator::fault::Fault;
use es_evaluator::names::emit;
use es_evaluator::state::State;
use es_generated::numbers::has_number;
use std::alloc::Global;

/// What a construction of a class does; `late` are the classes whose parameters come before their fields.
#[tactic(auto, using(crate::proofs::Constructed::by_default, crate::proofs::Constructed::by_one, crate::proofs::Constructed::by_more))]
pub fn evaluate_construction<
    'a,
    F: Fn(Global, &Opening, &mut State, &Code) -> Result<Value, Fault>,
>(
    within: &Within<'a, F>,
    state: &mut State,
    late: &[u32],
    class: u32,
    heritage: &[Code],
    elements: &[Code],
) -> Result<Value, Fault>
    requires may { MayEvaluate (F.pre within.now.evaluate.now) }
    requires does { Evaluates (F.post within.now.evaluate.now) within.now.definitions.now }
    ensures { Returns (λ v. v) result state.new (constructing_at (opens_of within.now.definitions.now within.now.opening.now) late.now class (codes_of heritage.now) (codes_of elements.now) (state_of state.old)) }
{
    match constructors_in(elements) {
        Constructors::Nothing => construct_by_default(within, state, class, heritage, elements),
        Constructors::One(function) => construct_by(
            within, state, late, class, heritage, elements, function,
        ),
        Constructors::Several => Err(Fault::NoMeaning),
    }
}

/// What a construction does without a constructor: `super(...arguments)` behind a heritage (ECMA-262, 15.7.14).
#[tactic(auto, using(crate::proofs::Constructed::base_default, crate::proofs::Constructed::derived_default))]
fn construct_by_default<'a, F: Fn(Global, &Opening, &mut State, &Code) -> Result<Value, Fault>>(
    within: &Within<'a, F>,
    state: &mut State,
    class: u32,
    heritage: &[Code],
    elements: &[Code],
) -> Result<Value, Fault>
    requires may { MayEvaluate (F.pre within.now.evaluate.now) }
    requires does { Evaluates (F.post within.now.evaluate.now) within.now.definitions.now }
    ensures { Returns (λ v. v) result state.new (default_at (opens_of within.now.definitions.now within.now.opening.now) class (codes_of heritage.now) (codes_of elements.now) (state_of state.old)) }
{
    if heritage.len() > 0 {
        return construct_parent(within, state, class, elements);
    }
    evaluate_initializers(within, state, class, elements)
}

/// `super(...arguments)`, and the fields behind it.
fn construct_parent<'a, F: Fn(Global, &Opening, &mut State, &Code) -> Result<Value, Fault>>(
    within: &Within<'a, F>,
    state: &mut State,
    class: u32,
    elements: &[Code],
) -> Result<Value, Fault>
    requires may { MayEvaluate (F.pre within.now.evaluate.now) }
    requires does { Evaluates (F.post within.now.evaluate.now) within.now.definitions.now }
    ensures { Returns (λ v. v) result state.new (direct.and_then (direct.emit (flat.single (SuperCallWithAll class)) (ThisOf class)) (λ v. construction_at (opens_of within.now.definitions.now within.now.opening.now) class (codes_of elements.now)) (state_of state.old)) }
{
    let token = Token::SuperCallWithAll { class };
    let _this = emit(state, token, Value::this_of(class))?;
    evaluate_initializers(within, state, class, elements)
}

/// What a construction does with a constructor.
#[tactic(auto, using(crate::proofs::Constructed::base_constructor, crate::proofs::Constructed::derived_constructor))]
fn construct_by<'a, F: Fn(Global, &Opening, &mut State, &Code) -> Result<Value, Fault>>(
    within: &Within<'a, F>,
    state: &mut State,
    late: &[u32],
    class: u32,
    heritage: &[Code],
    elements: &[Code],
    function: &Code,
) -> Result<Value, Fault>
    requires may { MayEvaluate (F.pre within.now.evaluate.now) }
    requires does { Evaluates (F.post within.now.evaluate.now) within.now.definitions.now }
    ensures { Returns (λ v. v) result state.new (constructor_at (opens_of within.now.definitions.now within.now.opening.now) late.now class (codes_of heritage.now) (codes_of elements.now) (code_of function.now) (state_of state.old)) }
{
    if heritage.len() > 0 {
        return construct_derived(within, state, function);
    }
    construct_base(within, state, late, class, elements, function)
}

/// What a construction does with a constructor of a class that has no heritage.
#[tactic(auto, using(crate::proofs::CodeForms::function_base, crate::proofs::CodeForms::new_base, crate::proofs::CodeForms::no_base))]
fn construct_base<'a, F: Fn(Global, &Opening, &mut State, &Code) -> Result<Value, Fault>>(
    within: &Within<'a, F>,
    state: &mut State,
    late: &[u32],
    class: u32,
    elements: &[Code],
    function: &Code,
) -> Result<Value, Fault>
    requires may { MayEvaluate (F.pre within.now.evaluate.now) }
    requires does { Evaluates (F.post within.now.evaluate.now) within.now.definitions.now }
    ensures { Returns (λ v. v) result state.new (base_at (opens_of within.now.definitions.now within.now.opening.now) late.now class (codes_of elements.now) (code_of function.now) (state_of state.old)) }
{
    match function {
        // constructor(p) {}
        Code::Function {
            parameters,
            body,
            ..
        } => {
            let is_late = has_number(class, late);
            construct_in_order(within, state, is_late, class, elements, parameters, body)
        }
        Code::NewFunction {
            form,
            parameters,
            body,
            ..
        } => construct_new(within, state, *form, class, elements, parameters, body),
        _ => Err(Fault::NoMeaning),
    }
}

/// Fields, parameters and a body, the parameters first where they are late.
#[tactic(auto, using(crate::proofs::Constructed::parameters_first, crate::proofs::Constructed::fields_first))]
fn construct_in_order<'a, F: Fn(Global, &Opening, &mut State, &Code) -> Result<Value, Fault>>(
    within: &Within<'a, F>,
    state: &mut State,
    is_late: bool,
    class: u32,
    elements: &[Code],
    parameters: &List<Code>,
    body: &Boxed<Code>,
) -> Result<Value, Fault>
    requires may { MayEvaluate (F.pre within.now.evaluate.now) }
    requires does { Evaluates (F.post within.now.evaluate.now) within.now.definitions.now }
    ensures { Returns (λ v. v) result state.new (in_order_at (opens_of within.now.definitions.now within.now.opening.now) is_late class (codes_of elements.now) (codes_of parameters.now) (code_of body.now) (state_of state.old)) }
{
    if is_late {
        construct_late(within, state, class, elements, parameters, body)
    } else {
        construct_early(within, state, class, elements, parameters, body)
    }
}

/// Parameters, fields and a body.
#[tactic(auto, using(crate::proofs::Constructed::parameters_first))]
fn construct_late<'a, F: Fn(Global, &Opening, &mut State, &Code) -> Result<Value, Fault>>(
    within: &Within<'a, F>,
    state: &mut State,
    class: u32,
    elements: &[Code],
    parameters: &List<Code>,
    body: &Boxed<Code>,
) -> Result<Value, Fault>
    requires may { MayEvaluate (F.pre within.now.evaluate.now) }
    requires does { Evaluates (F.post within.now.evaluate.now) within.now.definitions.now }
    ensures { Returns (λ v. v) result state.new (in_order_at (opens_of within.now.definitions.now within.now.opening.now) true class (codes_of elements.now) (codes_of parameters.now) (code_of body.now) (state_of state.old)) }
{
    let _undefined = evaluate_given(within, state, parameters.as_slice())?;
    let _undefined = evaluate_initializers(within, state, class, elements)?;
    within.evaluate(state, body.get())
}

/// Fields, parameters and a body.
#[tactic(auto, using(crate::proofs::Constructed::fields_first))]
fn construct_early<'a, F: Fn(Global, &Opening, &mut State, &Code) -> Result<Value, Fault>>(
    within: &Within<'a, F>,
    state: &mut State,
    class: u32,
    elements: &[Code],
    parameters: &List<Code>,
    body: &Boxed<Code>,
) -> Result<Value, Fault>
    requires may { MayEvaluate (F.pre within.now.evaluate.now) }
    requires does { Evaluates (F.post within.now.evaluate.now) within.now.definitions.now }
    ensures { Returns (λ v. v) result state.new (in_order_at (opens_of within.now.definitions.now within.now.opening.now) false class (codes_of elements.now) (codes_of parameters.now) (code_of body.now) (state_of state.old)) }
{
    let _undefined = evaluate_initializers(within, state, class, elements)?;
    let _undefined = evaluate_given(within, state, parameters.as_slice())?;
    within.evaluate(state, body.get())
}

/// Fields and the body of a new constructor, which has no parameters.
#[tactic(auto, using(crate::proofs::Constructed::new_plain, crate::proofs::Constructed::new_with_parameters, crate::proofs::Constructed::new_not_plain))]
fn construct_new<'a, F: Fn(Global, &Opening, &mut State, &Code) -> Result<Value, Fault>>(
    within: &Within<'a, F>,
    state: &mut State,
    form: FunctionForm,
    class: u32,
    elements: &[Code],
    parameters: &List<Code>,
    body: &Boxed<Code>,
) -> Result<Value, Fault>
    requires may { MayEvaluate (F.pre within.now.evaluate.now) }
    requires does { Evaluates (F.post within.now.evaluate.now) within.now.definitions.now }
    ensures { Returns (λ v. v) result state.new (new_at (opens_of within.now.definitions.now within.now.opening.now) (form_of form) class (codes_of elements.now) (codes_of parameters.now) (code_of body.now) (state_of state.old)) }
{
    if parameters.len() > 0 {
        return Err(Fault::NoMeaning);
    }
    if !is_plain(form) {
        return Err(Fault::NoMeaning);
    }
    let _undefined = evaluate_initializers(within, state, class, elements)?;
    within.evaluate(state, body.get())
}

/// What a construction does with a constructor of a class that has a heritage.
#[tactic(auto, using(crate::proofs::CodeForms::function_derived, crate::proofs::CodeForms::new_derived, crate::proofs::CodeForms::no_derived))]
fn construct_derived<'a, F: Fn(Global, &Opening, &mut State, &Code) -> Result<Value, Fault>>(
    within: &Within<'a, F>,
    state: &mut State,
    function: &Code,
) -> Result<Value, Fault>
    requires may { MayEvaluate (F.pre within.now.evaluate.now) }
    requires does { Evaluates (F.post within.now.evaluate.now) within.now.definitions.now }
    ensures { Returns (λ v. v) result state.new (derived_at (opens_of within.now.definitions.now within.now.opening.now) (code_of function.now) (state_of state.old)) }
{
    match function {
        // constructor(p) {}
        Code::Function {
            parameters,
            body,
            ..
        } => evaluate_body(within, state, parameters.as_slice(), body.get()),
        // constructor(..._args) {}
        Code::NewFunction {
            form,
            parameters,
            body,
            ..
        } => construct_forwarded(within, state, *form, parameters, body),
        _ => Err(Fault::NoMeaning),
    }
}

/// The body of a new constructor, whose parameters take all arguments.
#[tactic(auto, using(crate::proofs::Constructed::forwarded, crate::proofs::Constructed::not_forwarded))]
fn construct_forwarded<'a, F: Fn(Global, &Opening, &mut State, &Code) -> Result<Value, Fault>>(
    within: &Within<'a, F>,
    state: &mut State,
    form: FunctionForm,
    parameters: &List<Code>,
    body: &Boxed<Code>,
) -> Result<Value, Fault>
    requires may { MayEvaluate (F.pre within.now.evaluate.now) }
    requires does { Evaluates (F.post within.now.evaluate.now) within.now.definitions.now }
    ensures { Returns (λ v. v) result state.new (forwarded_at (opens_of within.now.definitions.now within.now.opening.now) (form_of form) (codes_of parameters.now) (code_of body.now) (state_of state.old)) }
{
    if takes_all(form, parameters.as_slice()) {
        within.evaluate(state, body.get())
    } else {
        Err(Fault::NoMeaning)
    }
}

/// Whether a function is neither async nor a generator, and its parameters take all arguments.
fn takes_all(form: FunctionForm, parameters: &[Code]) -> bool
    ensures { result ≡ (is_plain (form_of form) && all_arguments (codes_of parameters.now)) }
{
    is_plain(form) && are_all_arguments(parameters)
}

/// Whether a function is neither async nor a generator.
pub fn is_plain(form: FunctionForm) -> bool
    ensures { result ≡ is_plain (form_of form) }
{
    !(form.is_async || form.is_generator)
}
