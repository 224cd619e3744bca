// The codes in a code that assign or define.

ghost use Rattle.std.specs.Prelude.{◌≡◌, ◌++◌, ◌∷◌, OnOk};
ghost use Rattle.es_codes.specs.CodeView.{callee_of, code_of, codes_of, target_of};
ghost use Rattle.es_opening.specs.Gathered.{all_gathered, callee_gathered, codes_seen, gathered, target_gathered};

use es_base::list::List;
use es_codes::boxed::Boxed;
use es_codes::code::{Callee, Code, Target};
use std::alloc::AllocError;

/// Adds the codes in a code that assign or define, itself first. Fails on allocation failure alone.
#[cycle(gather)]
#[tactic(auto, using(crate::proofs::Appended::nothing_added, es_codes::proofs::Forms::nothing_is, es_codes::proofs::Forms::no_rule_is, es_codes::proofs::Forms::value_is, es_codes::proofs::Forms::spelled_is, es_codes::proofs::Forms::private_name_is, es_codes::proofs::Forms::binding_is, es_codes::proofs::Forms::rest_is, es_codes::proofs::Forms::name_is, es_codes::proofs::Forms::super_is, es_codes::proofs::Forms::member_is, es_codes::proofs::Forms::private_member_is, es_codes::proofs::Forms::super_member_is, es_codes::proofs::Forms::private_in_is, es_codes::proofs::Forms::assign_is, es_codes::proofs::Forms::compound_is, es_codes::proofs::Forms::logical_is, es_codes::proofs::Forms::logical_assign_is, es_codes::proofs::Forms::update_is, es_codes::proofs::Forms::call_is, es_codes::proofs::Forms::tag_is, es_codes::proofs::Forms::construct_is, es_codes::proofs::Forms::super_call_is, es_codes::proofs::Forms::super_call_with_all_is, es_codes::proofs::Forms::sequence_is, es_codes::proofs::Forms::template_string_is, es_codes::proofs::Forms::template_is, es_codes::proofs::Forms::operation_is, es_codes::proofs::Forms::piece_is, es_codes::proofs::Forms::chain_is, es_codes::proofs::Forms::short_is, es_codes::proofs::Forms::tested_is, es_codes::proofs::Forms::pattern_is, es_codes::proofs::Forms::takes_is, es_codes::proofs::Forms::steps_is, es_codes::proofs::Forms::gives_to_is, es_codes::proofs::Forms::export_default_is, es_codes::proofs::Forms::function_is, es_codes::proofs::Forms::new_function_is, es_codes::proofs::Forms::new_return_is, es_codes::proofs::Forms::class_code_is, es_codes::proofs::Forms::field_is, es_codes::proofs::Forms::private_field_is, es_codes::proofs::Forms::method_is, es_codes::proofs::Forms::private_method_is, es_codes::proofs::Forms::constructor_is, es_codes::proofs::Forms::static_block_is, es_codes::proofs::Forms::generated_element_is, es_codes::proofs::Forms::from_call_is, es_codes::proofs::Forms::from_member_is, es_codes::proofs::Forms::key_of_is, es_codes::proofs::Forms::helper_is, es_codes::proofs::Forms::helper_call_is, es_codes::proofs::Forms::throw_is, es_codes::proofs::Forms::define_is, es_codes::proofs::Forms::private_initialize_is, es_codes::proofs::Forms::add_brand_is, es_codes::proofs::Forms::bound_is, es_codes::proofs::Forms::setter_is, es_codes::proofs::Forms::private_value_is, es_codes::proofs::Forms::call_arrow_is, es_codes::proofs::Forms::call_closure_is, es_codes::proofs::Forms::initializers_is, es_codes::proofs::Forms::give_function_is, es_codes::proofs::Forms::give_class_is))]
pub fn gather<'a>(code: &'a Code, codes: &mut Vec<&'a Code>) -> Result<(), AllocError>
    ensures { OnOk result (codes_seen codes.new.items ≡ codes_seen codes.old.items ++ gathered (code_of code.now)) }
{
    match code {
        Code::Assign { to, right } => gather_assigned(code, to.get(), right, codes),
        Code::Compound { to, right, .. } => gather_assigned(code, to.get(), right, codes),
        Code::LogicalAssign { to, right, .. } => gather_assigned(code, to.get(), right, codes),
        Code::Update { to, .. } => gather_updated(code, to.get(), codes),
        Code::Class {
            heritage,
            elements,
            ..
        } => gather_class(code, heritage, elements, codes),
        Code::PrivateMethod { function, .. } => gather_owner(code, function, codes),
        Code::GiveFunction { function, .. } => gather_owner(code, function, codes),
        Code::GeneratedElement { right, .. } => gather_owner(code, right, codes),
        Code::CallArrow {
            body,
            arguments,
            ..
        } => gather_arrow(code, body, arguments, codes),
        Code::Rest { to } => gather_target(to.get(), codes),
        Code::Pattern { to, .. } => gather_target(to.get(), codes),
        Code::GivesTo { to, .. } => gather_target(to.get(), codes),
        Code::Member { object, key, .. } => gather_two(object, key, codes),
        Code::Logical { left, right, .. } => gather_two(left, right, codes),
        Code::Field { key, right, .. } => gather_two(key, right, codes),
        Code::Method { key, function, .. } => gather_two(key, function, codes),
        Code::Define { key, right, .. } => gather_two(key, right, codes),
        Code::Bound { function, object } => gather_two(function, object, codes),
        Code::PrivateMember { object, .. } => gather(object.get(), codes),
        Code::SuperMember { key, .. } => gather(key.get(), codes),
        Code::PrivateIn { object, .. } => gather(object.get(), codes),
        Code::Chain { expression, .. } => gather(expression.get(), codes),
        Code::Short { expression } => gather(expression.get(), codes),
        Code::ExportDefault { expression } => gather(expression.get(), codes),
        Code::PrivateField { right, .. } => gather(right.get(), codes),
        Code::Constructor { function } => gather(function.get(), codes),
        Code::FromCall { expression } => gather(expression.get(), codes),
        Code::FromMember { expression } => gather(expression.get(), codes),
        Code::KeyOf { expression } => gather(expression.get(), codes),
        Code::PrivateInitialize { right, .. } => gather(right.get(), codes),
        Code::Setter { object, .. } => gather(object.get(), codes),
        Code::GiveClass { expression, .. } => gather(expression.get(), codes),
        Code::Call {
            callee,
            arguments,
            ..
        } => gather_call(callee.get(), arguments, codes),
        Code::Tag {
            callee,
            arguments,
            ..
        } => gather_call(callee.get(), arguments, codes),
        Code::Construct {
            callee,
            arguments,
            ..
        } => gather_construct(callee, arguments, codes),
        Code::SuperCall { arguments, .. } => gather_all(arguments.as_slice(), codes),
        Code::Sequence { all } => gather_all(all.as_slice(), codes),
        Code::Template { expressions, .. } => gather_all(expressions.as_slice(), codes),
        Code::Piece { operands, .. } => gather_all(operands.as_slice(), codes),
        Code::Steps { all } => gather_all(all.as_slice(), codes),
        Code::NewReturn { argument } => gather_all(argument.as_slice(), codes),
        Code::StaticBlock { all } => gather_all(all.as_slice(), codes),
        Code::CallClosure { arguments, .. } => gather_all(arguments.as_slice(), codes),
        Code::Operation { operands, held, .. } => gather_lists(operands, held, codes),
        Code::Tested {
            object,
            again,
            rest,
        } => gather_tested(object, again, rest, codes),
        Code::Takes { key, to, .. } => gather_takes(key, to.get(), codes),
        Code::Function {
            parameters,
            body,
            ..
        } => gather_function(parameters, body, codes),
        Code::NewFunction {
            parameters,
            body,
            ..
        } => gather_function(parameters, body, codes),
        Code::Nothing => Ok(()),
        Code::NoRule => Ok(()),
        Code::Value { .. } => Ok(()),
        Code::Spelled { .. } => Ok(()),
        Code::PrivateName { .. } => Ok(()),
        Code::Binding { .. } => Ok(()),
        Code::Name { .. } => Ok(()),
        Code::Super => Ok(()),
        Code::SuperCallWithAll { .. } => Ok(()),
        Code::TemplateString { .. } => Ok(()),
        Code::Helper { .. } => Ok(()),
        Code::HelperCall { .. } => Ok(()),
        Code::Throw => Ok(()),
        Code::AddBrand { .. } => Ok(()),
        Code::PrivateValue { .. } => Ok(()),
        Code::Initializers { .. } => Ok(()),
    }
}

// ---- codes that assign or define

/// `t = e`
#[cycle(gather)]
fn gather_assigned<'a>(
    code: &'a Code,
    to: &'a Target,
    right: &'a Boxed<Code>,
    codes: &mut Vec<&'a Code>,
) -> Result<(), AllocError>
    ensures { OnOk result (codes_seen codes.new.items ≡ codes_seen codes.old.items ++ (code_of code.now ∷ (target_gathered (target_of to.now) ++ gathered (code_of right.now)))) }
{
    codes.push(code)?;
    gather_target(to, codes)?;
    gather(right.get(), codes)
}

/// `t++`
#[cycle(gather)]
fn gather_updated<'a>(
    code: &'a Code,
    to: &'a Target,
    codes: &mut Vec<&'a Code>,
) -> Result<(), AllocError>
    ensures { OnOk result (codes_seen codes.new.items ≡ codes_seen codes.old.items ++ (code_of code.now ∷ target_gathered (target_of to.now))) }
{
    codes.push(code)?;
    gather_target(to, codes)
}

/// `class extends h {}`
#[cycle(gather)]
fn gather_class<'a>(
    code: &'a Code,
    heritage: &'a List<Code>,
    elements: &'a List<Code>,
    codes: &mut Vec<&'a Code>,
) -> Result<(), AllocError>
    ensures { OnOk result (codes_seen codes.new.items ≡ codes_seen codes.old.items ++ (code_of code.now ∷ (all_gathered (codes_of heritage.now) ++ all_gathered (codes_of elements.now)))) }
{
    codes.push(code)?;
    gather_lists(heritage, elements, codes)
}

/// `#x() {}`
#[cycle(gather)]
fn gather_owner<'a>(
    code: &'a Code,
    inner: &'a Boxed<Code>,
    codes: &mut Vec<&'a Code>,
) -> Result<(), AllocError>
    ensures { OnOk result (codes_seen codes.new.items ≡ codes_seen codes.old.items ++ (code_of code.now ∷ gathered (code_of inner.now))) }
{
    codes.push(code)?;
    gather(inner.get(), codes)
}

/// `(p => e)(a)`
#[cycle(gather)]
fn gather_arrow<'a>(
    code: &'a Code,
    body: &'a Boxed<Code>,
    arguments: &'a List<Code>,
    codes: &mut Vec<&'a Code>,
) -> Result<(), AllocError>
    ensures { OnOk result (codes_seen codes.new.items ≡ codes_seen codes.old.items ++ (code_of code.now ∷ (gathered (code_of body.now) ++ all_gathered (codes_of arguments.now)))) }
{
    codes.push(code)?;
    gather_construct(body, arguments, codes)
}

// ---- what stands in other codes

/// `a, b`
#[cycle(gather)]
fn gather_two<'a>(
    first: &'a Boxed<Code>,
    second: &'a Boxed<Code>,
    codes: &mut Vec<&'a Code>,
) -> Result<(), AllocError>
    ensures { OnOk result (codes_seen codes.new.items ≡ codes_seen codes.old.items ++ (gathered (code_of first.now) ++ gathered (code_of second.now))) }
{
    gather(first.get(), codes)?;
    gather(second.get(), codes)
}

/// `f(a)`
#[cycle(gather)]
fn gather_call<'a>(
    callee: &'a Callee,
    arguments: &'a List<Code>,
    codes: &mut Vec<&'a Code>,
) -> Result<(), AllocError>
    ensures { OnOk result (codes_seen codes.new.items ≡ codes_seen codes.old.items ++ (callee_gathered (callee_of callee.now) ++ all_gathered (codes_of arguments.now))) }
{
    gather_callee(callee, codes)?;
    gather_all(arguments.as_slice(), codes)
}

/// `new f(a)`
#[cycle(gather)]
fn gather_construct<'a>(
    callee: &'a Boxed<Code>,
    arguments: &'a List<Code>,
    codes: &mut Vec<&'a Code>,
) -> Result<(), AllocError>
    ensures { OnOk result (codes_seen codes.new.items ≡ codes_seen codes.old.items ++ (gathered (code_of callee.now) ++ all_gathered (codes_of arguments.now))) }
{
    gather(callee.get(), codes)?;
    gather_all(arguments.as_slice(), codes)
}

/// Operands, then held parts.
#[cycle(gather)]
fn gather_lists<'a>(
    first: &'a List<Code>,
    second: &'a List<Code>,
    codes: &mut Vec<&'a Code>,
) -> Result<(), AllocError>
    ensures { OnOk result (codes_seen codes.new.items ≡ codes_seen codes.old.items ++ (all_gathered (codes_of first.now) ++ all_gathered (codes_of second.now))) }
{
    gather_all(first.as_slice(), codes)?;
    gather_all(second.as_slice(), codes)
}

/// `o?.k`
#[cycle(gather)]
fn gather_tested<'a>(
    object: &'a Boxed<Code>,
    again: &'a List<Code>,
    rest: &'a Boxed<Code>,
    codes: &mut Vec<&'a Code>,
) -> Result<(), AllocError>
    ensures { OnOk result (codes_seen codes.new.items ≡ codes_seen codes.old.items ++ (gathered (code_of object.now) ++ all_gathered (codes_of again.now) ++ gathered (code_of rest.now))) }
{
    gather(object.get(), codes)?;
    gather_function(again, rest, codes)
}

/// `[k]: t`
#[cycle(gather)]
fn gather_takes<'a>(
    key: &'a List<Code>,
    to: &'a Target,
    codes: &mut Vec<&'a Code>,
) -> Result<(), AllocError>
    ensures { OnOk result (codes_seen codes.new.items ≡ codes_seen codes.old.items ++ (all_gathered (codes_of key.now) ++ target_gathered (target_of to.now))) }
{
    gather_all(key.as_slice(), codes)?;
    gather_target(to, codes)
}

/// `p => e`
#[cycle(gather)]
fn gather_function<'a>(
    parameters: &'a List<Code>,
    body: &'a Boxed<Code>,
    codes: &mut Vec<&'a Code>,
) -> Result<(), AllocError>
    ensures { OnOk result (codes_seen codes.new.items ≡ codes_seen codes.old.items ++ (all_gathered (codes_of parameters.now) ++ gathered (code_of body.now))) }
{
    gather_all(parameters.as_slice(), codes)?;
    gather(body.get(), codes)
}

/// What is assigned to.
#[cycle(gather)]
#[tactic(auto, using(crate::proofs::Appended::nothing_added, es_codes::proofs::Forms::to_name_is, es_codes::proofs::Forms::to_member_is, es_codes::proofs::Forms::to_private_is, es_codes::proofs::Forms::to_super_is, es_codes::proofs::Forms::to_setter_is, es_codes::proofs::Forms::to_pattern_is, es_codes::proofs::Forms::to_default_is, es_codes::proofs::Forms::no_target_is))]
fn gather_target<'a>(to: &'a Target, codes: &mut Vec<&'a Code>) -> Result<(), AllocError>
    ensures { OnOk result (codes_seen codes.new.items ≡ codes_seen codes.old.items ++ target_gathered (target_of to.now)) }
{
    match to {
        Target::ToName { .. } => Ok(()),
        Target::ToMember { object, key, .. } => gather_two(object, key, codes),
        Target::ToPrivate { object, .. } => gather(object.get(), codes),
        Target::ToSuper { key, .. } => gather(key.get(), codes),
        Target::ToSetter { object, .. } => gather(object.get(), codes),
        Target::ToPattern { members, .. } => gather_all(members.as_slice(), codes),
        Target::ToDefault { to, default, .. } => gather_default(to, default, codes),
        Target::NoTarget => Ok(()),
    }
}

/// `t = e` in a pattern
#[cycle(gather)]
fn gather_default<'a>(
    to: &'a Boxed<Target>,
    default: &'a Boxed<Code>,
    codes: &mut Vec<&'a Code>,
) -> Result<(), AllocError>
    ensures { OnOk result (codes_seen codes.new.items ≡ codes_seen codes.old.items ++ (target_gathered (target_of to.now) ++ gathered (code_of default.now))) }
{
    gather_target(to.get(), codes)?;
    gather(default.get(), codes)
}

/// What is called.
#[cycle(gather)]
#[tactic(auto, using(crate::proofs::Appended::nothing_added, es_codes::proofs::Forms::plain_is, es_codes::proofs::Forms::on_member_is, es_codes::proofs::Forms::on_private_is, es_codes::proofs::Forms::on_super_is, es_codes::proofs::Forms::with_receiver_is, es_codes::proofs::Forms::checked_is, es_codes::proofs::Forms::on_chain_is, es_codes::proofs::Forms::behind_test_is))]
fn gather_callee<'a>(callee: &'a Callee, codes: &mut Vec<&'a Code>) -> Result<(), AllocError>
    ensures { OnOk result (codes_seen codes.new.items ≡ codes_seen codes.old.items ++ callee_gathered (callee_of callee.now)) }
{
    match callee {
        Callee::Plain { expression } => gather(expression.get(), codes),
        Callee::OnMember { object, key, .. } => gather_two(object, key, codes),
        Callee::OnPrivate { object, .. } => gather(object.get(), codes),
        Callee::OnSuper { key, .. } => gather(key.get(), codes),
        Callee::WithReceiver { function, object } => gather_two(function, object, codes),
        Callee::Checked { callee } => gather_callee(callee.get(), codes),
        Callee::OnChain { callee, .. } => gather_callee(callee.get(), codes),
        Callee::BehindTest {
            object,
            again,
            callee,
        } => gather_behind_test(object, again, callee, codes),
    }
}

/// `o?.k(..)`
#[cycle(gather)]
fn gather_behind_test<'a>(
    object: &'a Boxed<Code>,
    again: &'a List<Code>,
    callee: &'a Boxed<Callee>,
    codes: &mut Vec<&'a Code>,
) -> Result<(), AllocError>
    ensures { OnOk result (codes_seen codes.new.items ≡ codes_seen codes.old.items ++ (gathered (code_of object.now) ++ all_gathered (codes_of again.now) ++ callee_gathered (callee_of callee.now))) }
{
    gather(object.get(), codes)?;
    gather_all(again.as_slice(), codes)?;
    gather_callee(callee.get(), codes)
}

/// Those in codes that stand in a list.
#[cycle(gather)]
fn gather_all<'a>(all: &'a [Code], codes: &mut Vec<&'a Code>) -> Result<(), AllocError>
    ensures { OnOk result (codes_seen codes.new.items ≡ codes_seen codes.old.items ++ all_gathered (codes_of all.now)) }
{
    for code in all {
        gather(code, codes)?;
    }
    Ok(())
}
