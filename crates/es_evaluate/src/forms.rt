// Each form of code by its rule.

ghost use Rattle.es_codes.specs.CodeView.{code_of};
ghost use Rattle.es_evaluator.specs.Running.{Returns, state_of};
ghost use Rattle.es_code_rules.specs.Elsewhere.{opens_of};
ghost use Rattle.es_code_rules.specs.Steps.{form_at, value_at};
ghost use Rattle.es_code_rules.specs.Within.{MayEvaluate, Evaluates};

use es_class_rules::classes::evaluate_class;
use es_class_rules::supers::{
    evaluate_call_closure, evaluate_initializers, evaluate_super_call, evaluate_super_call_with_all,
};
use es_code_rules::definition::Opening;
use es_code_rules::within::Within;
use es_codes::code::Code;
use es_codes::value::{Origin, Value};
use es_evaluator::fault::Fault;
use es_evaluator::names::{read_element, read_name, throw};
use es_evaluator::state::State;
use es_target_rules::assignments::{
    evaluate_assign, evaluate_compound, evaluate_gives_to, evaluate_logical_assign, evaluate_update,
};
use std::alloc::Global;

/// What a code does and gives, whatever evaluates the codes in it.
#[tactic(auto, using(es_codes::proofs::Forms::nothing_is, crate::proofs::Leaves::nothing_form, es_codes::proofs::Forms::no_rule_is, crate::proofs::Leaves::no_rule_form, es_codes::proofs::Forms::value_is, crate::proofs::Leaves::value_form, es_codes::proofs::Forms::spelled_is, crate::proofs::Leaves::spelled_form, es_codes::proofs::Forms::private_name_is, crate::proofs::Leaves::private_name_form, es_codes::proofs::Forms::binding_is, crate::proofs::Leaves::binding_form, es_codes::proofs::Forms::rest_is, crate::proofs::Leaves::rest_form, es_codes::proofs::Forms::name_is, crate::proofs::Leaves::name_form, es_codes::proofs::Forms::super_is, crate::proofs::Leaves::super_form, es_codes::proofs::Forms::template_string_is, crate::proofs::Leaves::template_string_form, es_codes::proofs::Forms::piece_is, crate::proofs::Leaves::piece_form, es_codes::proofs::Forms::pattern_is, crate::proofs::Leaves::pattern_form, es_codes::proofs::Forms::takes_is, crate::proofs::Leaves::takes_form, es_codes::proofs::Forms::function_is, crate::proofs::Leaves::function_form, es_codes::proofs::Forms::new_function_is, crate::proofs::Leaves::new_function_form, es_codes::proofs::Forms::new_return_is, crate::proofs::Leaves::new_return_form, es_codes::proofs::Forms::field_is, crate::proofs::Leaves::field_form, es_codes::proofs::Forms::private_field_is, crate::proofs::Leaves::private_field_form, es_codes::proofs::Forms::method_is, crate::proofs::Leaves::method_form, es_codes::proofs::Forms::private_method_is, crate::proofs::Leaves::private_method_form, es_codes::proofs::Forms::constructor_is, crate::proofs::Leaves::constructor_form, es_codes::proofs::Forms::static_block_is, crate::proofs::Leaves::static_block_form, es_codes::proofs::Forms::generated_element_is, crate::proofs::Leaves::generated_element_form, es_codes::proofs::Forms::from_call_is, crate::proofs::Leaves::from_call_form, es_codes::proofs::Forms::from_member_is, crate::proofs::Leaves::from_member_form, es_codes::proofs::Forms::helper_is, crate::proofs::Leaves::helper_form, es_codes::proofs::Forms::helper_call_is, crate::proofs::Leaves::helper_call_form, es_codes::proofs::Forms::throw_is, crate::proofs::Leaves::throw_form, es_codes::proofs::Forms::bound_is, crate::proofs::Leaves::bound_form, es_codes::proofs::Forms::setter_is, crate::proofs::Leaves::setter_form, es_codes::proofs::Forms::private_value_is, crate::proofs::Leaves::private_value_form, es_codes::proofs::Forms::give_function_is, crate::proofs::Leaves::give_function_form))]
pub fn evaluate_form<'a, F: Fn(Global, &Opening, &mut State, &Code) -> Result<Value, Fault>>(
    within: &Within<'a, F>,
    state: &mut State,
    code: &Code,
) -> Result<Value, Fault>
    requires may { MayEvaluate (F.pre within.now.evaluate.now) }
    requires does { Evaluates (F.post within.now.evaluate.now) within.now.definitions.now }
    ensures { Returns (λ v. v) result state.new (form_at (opens_of within.now.definitions.now within.now.opening.now) (code_of code.now) (state_of state.old)) }
{
    match code {
        Code::Nothing => Ok(Value::undefined()),
        Code::NoRule => Err(Fault::NoMeaning),
        Code::Value { value } => Ok(value.try_clone(within.alloc)?),
        Code::Spelled { .. } => Err(Fault::NoMeaning),
        Code::PrivateName { .. } => Err(Fault::NoMeaning),
        Code::Binding { .. } => Ok(Value::undefined()),
        Code::Rest { .. } => Err(Fault::NoMeaning),
        Code::Name {
            node,
            spelling,
            kind,
        } => read_name(within.alloc, state, *node, spelling, kind),
        Code::Super => Err(Fault::NoMeaning),
        Code::Member { node, object, key } => within.evaluate_member(state, *node, object, key),
        Code::PrivateMember {
            node,
            means,
            object,
        } => within.evaluate_private_member(state, *node, *means, object),
        Code::SuperMember {
            node,
            home,
            key,
            this,
        } => within.evaluate_super_member(state, *node, *home, key, this),
        Code::PrivateIn { node, test, object } => within.evaluate_private_in(
            state, *node, *test, object,
        ),
        Code::Assign { to, right } => evaluate_assign(within, state, to.get(), right),
        Code::Compound {
            node,
            operator,
            to,
            right,
        } => evaluate_compound(within, state, *node, operator, to.get(), right),
        Code::Logical {
            node,
            operator,
            left,
            right,
        } => within.evaluate_logical(state, *node, operator, left, right),
        Code::LogicalAssign {
            node,
            operator,
            to,
            right,
        } => evaluate_logical_assign(within, state, *node, operator, to.get(), right),
        Code::Update {
            node,
            operator,
            is_prefix,
            to,
        } => evaluate_update(within, state, *node, operator, *is_prefix, to.get()),
        Code::Call {
            node,
            callee,
            arguments,
        } => within.evaluate_call(state, *node, callee.get(), arguments),
        Code::Tag {
            node,
            callee,
            strings,
            arguments,
        } => within.evaluate_tag(state, *node, callee.get(), strings, arguments),
        Code::Construct {
            node,
            callee,
            arguments,
        } => within.evaluate_construct(state, *node, callee, arguments),
        Code::SuperCall {
            node,
            class,
            behind,
            arguments,
        } => evaluate_super_call(within, state, *node, *class, behind, arguments),
        Code::SuperCallWithAll { class } => evaluate_super_call_with_all(within, state, *class),
        Code::Sequence { all } => within.evaluate_sequence(state, all),
        Code::TemplateString { .. } => Err(Fault::NoMeaning),
        Code::Template {
            node,
            strings,
            expressions,
        } => within.evaluate_template(state, *node, strings, expressions),
        Code::Operation {
            node,
            operation,
            operands,
            held,
        } => within.evaluate_operation(state, *node, operation, operands, held),
        Code::Piece { .. } => Err(Fault::NoMeaning),
        Code::Chain { node, expression } => within.evaluate_chain(state, *node, expression),
        Code::Short { expression } => within.evaluate_short(state, expression),
        Code::Tested {
            object,
            again,
            rest,
        } => within.evaluate_tested(state, object, again, rest),
        Code::Pattern { .. } => Err(Fault::NoMeaning),
        Code::Takes { .. } => Err(Fault::NoMeaning),
        Code::Steps { all } => within.evaluate_steps(state, all),
        Code::GivesTo { node, to } => evaluate_gives_to(within, state, *node, to.get()),
        Code::ExportDefault { expression } => within.evaluate_export_default(state, expression),
        Code::Function { node, .. } => Ok(Value::of(Origin::FunctionOf(*node))),
        Code::NewFunction { .. } => Err(Fault::NoMeaning),
        Code::NewReturn { .. } => Err(Fault::NoMeaning),
        Code::Class {
            node,
            declared,
            heritage,
            elements,
        } => evaluate_class(within, state, *node, *declared, heritage, elements),
        Code::Field { .. } => Err(Fault::NoMeaning),
        Code::PrivateField { .. } => Err(Fault::NoMeaning),
        Code::Method { .. } => Err(Fault::NoMeaning),
        Code::PrivateMethod { .. } => Err(Fault::NoMeaning),
        Code::Constructor { .. } => Err(Fault::NoMeaning),
        Code::StaticBlock { .. } => Err(Fault::NoMeaning),
        Code::GeneratedElement { .. } => Err(Fault::NoMeaning),
        Code::FromCall { expression } => within.evaluate(state, expression.get()),
        Code::FromMember { expression } => within.evaluate(state, expression.get()),
        Code::KeyOf { expression } => within.evaluate_key_of(state, expression),
        Code::Helper { .. } => Err(Fault::NoMeaning),
        Code::HelperCall { .. } => Err(Fault::NoMeaning),
        Code::Throw => throw(state),
        Code::Define {
            node,
            object,
            key,
            right,
        } => within.evaluate_define(state, *node, object, key, right),
        Code::PrivateInitialize {
            node,
            key,
            object,
            right,
        } => within.evaluate_private_initialize(state, *node, *key, object, right),
        Code::AddBrand {
            node,
            class,
            object,
        } => within.evaluate_add_brand(state, *node, *class, object),
        Code::Bound { .. } => Err(Fault::NoMeaning),
        Code::Setter { .. } => Err(Fault::NoMeaning),
        Code::PrivateValue { spelling } => read_element(within.alloc, state, spelling),
        Code::CallArrow {
            parameters,
            body,
            arguments,
        } => within.evaluate_call_arrow(state, parameters, body, arguments),
        Code::CallClosure {
            spelling,
            arguments,
        } => evaluate_call_closure(within, state, spelling, arguments),
        Code::Initializers { class } => evaluate_initializers(within, state, *class),
        Code::GiveFunction { node, .. } => Ok(Value::result_of(*node)),
        Code::GiveClass { class, expression } => within.evaluate_give_class(
            state, *class, expression,
        ),
    }
}

/// The value of a code, whatever evaluates the codes in it: undefined if its list throws.
#[tactic(auto, using(crate::proofs::Leaves::value_of_form))]
pub fn evaluate_settled<'a, F: Fn(Global, &Opening, &mut State, &Code) -> Result<Value, Fault>>(
    within: &Within<'a, F>,
    state: &mut State,
    code: &Code,
) -> Result<Value, Fault>
    requires may { MayEvaluate (F.pre within.now.evaluate.now) }
    requires does { Evaluates (F.post within.now.evaluate.now) within.now.definitions.now }
    ensures { Returns (λ v. v) result state.new (value_at (opens_of within.now.definitions.now within.now.opening.now) (code_of code.now) (state_of state.old)) }
{
    let outer = state.enter();
    let value = evaluate_form(within, state, code)?;
    Ok(state.leave(outer, value))
}
