// Binary operators. (ECMA-262, 13.6 to 13.12; that some are tests for a class or have no event is our own.)

ghost use Rattle.std.specs.Prelude.{◌≡◌, ◌&&◌, IfOk, true};
ghost use Rattle.std.specs.Str.{chars};
ghost use Rattle.es_base.specs.Ascii.{is_ascii};
ghost use Rattle.es_base.specs.declared.kind.Kind.{Kind};
ghost use Rattle.es_codes.specs.CodeView.{code_of, codes_of, helper_of};
ghost use Rattle.es_codes.specs.View.{details_of, kind_of};
ghost use Rattle.es_steps.specs.Code as of;
ghost use Rattle.es_steps.specs.Expressions as spec;
ghost use Rattle.es_steps.specs.GeneratedForms as generated;
ghost use Rattle.es_steps.specs.Members as members;
ghost use Rattle.es_steps.specs.Values as values;
ghost use Rattle.es_code_members.specs.MembersView.{member_of};
ghost use Rattle.es_code_reading.specs.Contexts.{context_of};
ghost use Rattle.es_code_assignments.specs.Binaries.{binary_form, checked_form, checked_object, class_test_form, is_check, is_one, left_form, named_form};

use es_base::kind::Kind;
use es_base::ledger::GeneratedKind;
use es_base::list::List;
use es_base::strings::spells;
use es_code_conditionals::conditional::take_first;
use es_code_members::details::add_details_of;
use es_code_members::member::{Member, word_of};
use es_code_members::operands::add_operands_of;
use es_code_reading::context::Context;
use es_code_reading::letters::class_named;
use es_code_reading::literals::is_string;
use es_codes::boxed::Boxed;
use es_codes::code::{Code, Helper};
use es_codes::event::{Detail, Operation, PrivateTest};
use es_codes::name::NameKind;
use es_codes::value::Value;
use es_generated::numbers::is_new;
use std::alloc::{AllocError, Global};

// ---- the left operand

/// What the left operand of a binary operator is.
#[derive(Debug, Clone, Copy, PartialEq, Eq)]
pub enum LeftForm {
    /// `B.checkInRHS(o)`
    Checked,
    /// A temporary.
    Temporary,
    /// What no lowering makes.
    Other,
}

fn is_check(helper: Helper) -> bool
    ensures { result ≡ is_check (helper_of helper) }
{
    matches!(helper, Helper::CheckInRHS)
}

/// Whether one code is there.
#[tactic(auto, using(crate::proofs::BinaryForms::one_code))]
fn is_one(codes: &[Code]) -> bool
    ensures { result ≡ is_one (codes_of codes.now) }
{
    codes.len() == 1
}

fn called_form(helper: Helper, arguments: &List<Code>) -> LeftForm
    ensures { result ≡ checked_form (is_check (helper_of helper) && is_one (codes_of arguments.now)) }
{
    if is_check(helper) && is_one(arguments.as_slice()) {
        LeftForm::Checked
    } else {
        LeftForm::Other
    }
}

fn named_form(kind: &NameKind) -> LeftForm
    ensures { result ≡ named_form (kind_of kind.now) }
{
    match kind {
        NameKind::Generated(GeneratedKind::Temp) => LeftForm::Temporary,
        _ => LeftForm::Other,
    }
}

#[tactic(auto, using(crate::proofs::BinaryForms::a_call, crate::proofs::BinaryForms::a_name, crate::proofs::BinaryForms::another))]
fn left_form_of(code: &Code) -> LeftForm
    ensures { result ≡ left_form (code_of code.now) }
{
    match code {
        Code::HelperCall {
            helper,
            arguments,
            ..
        } => called_form(*helper, arguments),
        Code::Name { kind, .. } => named_form(kind),
        _ => LeftForm::Other,
    }
}

fn left_form(left: &Member) -> LeftForm
    ensures { result ≡ left_form (spec.the_code (member_of left.now)) }
{
    match left {
        Member::Code(code) => left_form_of(code),
        _ => LeftForm::Other,
    }
}

// ---- what the operator is

/// What a binary operator is.
#[derive(Debug, Clone, Copy, PartialEq, Eq)]
pub enum BinaryForm {
    /// `B.checkInRHS(o) === Z`: whether `o` is this class.
    ClassTest(u32),
    /// `t !== "name"`, t a temporary that holds a key: it has no event.
    KeyTest,
    /// Nothing that a lowering makes, though it begins so.
    NoRule,
    /// The operation.
    Whole,
}

fn class_test_form_of(code: &Code) -> BinaryForm
    ensures { result ≡ class_test_form (generated.class_named (code_of code.now)) }
{
    match class_named(code) {
        Some(class) => BinaryForm::ClassTest(class),
        None => BinaryForm::NoRule,
    }
}

fn class_test_form(right: &Member) -> BinaryForm
    ensures { result ≡ class_test_form (generated.class_named (spec.the_code (member_of right.now))) }
{
    match right {
        Member::Code(code) => class_test_form_of(code),
        _ => BinaryForm::NoRule,
    }
}

/// Whether this string stands at a member.
fn is_string_at(string: &str, member: &Member) -> bool
    requires { is_ascii string.now ≡ true }
    ensures { result ≡ generated.is_string string.now (spec.the_code (member_of member.now)) }
{
    match member {
        Member::Code(code) => is_string(string, code),
        _ => false,
    }
}

fn binary_form(c: &Context, node: u32, operator: &str, left: &Member, right: &Member) -> BinaryForm
    ensures { result ≡ binary_form (context_of c.now) node (chars operator.now) (left_form (spec.the_code (member_of left.now))) (spec.the_code (member_of right.now)) }
{
    match left_form(left) {
        LeftForm::Checked => {
            if spells(operator, "===") {
                class_test_form(right)
            } else {
                BinaryForm::NoRule
            }
        }
        LeftForm::Temporary => {
            if is_new(c.terms.first_new, node)
                && spells(operator, "!==")
                && is_string_at("name", right)
            {
                BinaryForm::KeyTest
            } else {
                BinaryForm::Whole
            }
        }
        LeftForm::Other => BinaryForm::Whole,
    }
}

// ---- its code

/// `o` of `B.checkInRHS(o)`, which is taken out.
#[tactic(auto, using(crate::proofs::BinaryForms::object_checked, crate::proofs::BinaryForms::no_object))]
fn take_object(code: &mut Code) -> Code
    ensures { code_of result ≡ checked_object (code_of code.old) }
{
    match code {
        Code::HelperCall { arguments, .. } => take_first(arguments.as_mut_slice()),
        _ => Code::no_rule(),
    }
}

fn take_checked(left: &mut Member) -> Code
    ensures { code_of result ≡ checked_object (spec.the_code (member_of left.old)) }
{
    match left {
        Member::Code(code) => take_object(code),
        _ => Code::no_rule(),
    }
}

/// `B.checkInRHS(o) === Z`. Fails on allocation failure alone.
fn class_test(alloc: Global, node: u32, class: u32, left: &mut Member) -> Result<Code, AllocError>
    ensures { IfOk result (λ e. code_of e ≡ of.private_in node (values.IsClass class) (checked_object (spec.the_code (member_of left.old)))) }
{
    let object = Boxed::new(alloc, take_checked(left))?;
    Ok(Code::private_in(node, PrivateTest::IsClass(class), object))
}

/// What stands beside the operands. Fails on allocation failure alone.
#[tactic(auto, using(es_code_operators::proofs::UnaryMembers::two_details))]
fn binary_details(
    alloc: Global,
    operator: &Member,
    left: &Member,
    right: &Member,
) -> Result<List<Detail>, AllocError>
    ensures { IfOk result (λ ds. details_of ds ≡ members.details (members.more (member_of operator.now) (members.more (member_of left.now) (members.more (member_of right.now) members.end)))) }
{
    let mut details = List::new(alloc);
    add_details_of(alloc, operator, &mut details)?;
    add_details_of(alloc, left, &mut details)?;
    add_details_of(alloc, right, &mut details)?;
    Ok(details)
}

/// The operands, which are taken out. Fails on allocation failure alone.
#[tactic(auto, using(crate::proofs::BinaryForms::three_operands))]
fn binary_operands(
    alloc: Global,
    operator: &mut Member,
    left: &mut Member,
    right: &mut Member,
) -> Result<List<Code>, AllocError>
    ensures { IfOk result (λ cs. codes_of cs ≡ members.operands (members.more (member_of operator.old) (members.more (member_of left.old) (members.more (member_of right.old) members.end)))) }
{
    let mut operands = List::new(alloc);
    add_operands_of(operator, &mut operands)?;
    add_operands_of(left, &mut operands)?;
    add_operands_of(right, &mut operands)?;
    Ok(operands)
}

/// `a + b`. Fails on allocation failure alone.
fn binary_operation(
    alloc: Global,
    node: u32,
    operator: &mut Member,
    left: &mut Member,
    right: &mut Member,
) -> Result<Code, AllocError>
    ensures { IfOk result (λ e. code_of e ≡ spec.operation_of Kind.BinaryExpression node (members.more (member_of operator.old) (members.more (member_of left.old) (members.more (member_of right.old) members.end)))) }
{
    let details = binary_details(alloc, operator, left, right)?;
    let operands = binary_operands(alloc, operator, left, right)?;
    let operation = Operation::OfKind {
        kind: Kind::BinaryExpression,
        details,
    };
    Ok(Code::operation(node, operation, operands, List::new(alloc)))
}

/// `a + b`: `B.checkInRHS(o) === Z` is a test for a class, and a new test that a generated key is not `"name"` has no event.
/// Fails on allocation failure alone.
#[tactic(auto, using(crate::proofs::BinaryForms::by_class_test, crate::proofs::BinaryForms::by_key_test, crate::proofs::BinaryForms::by_no_rule, crate::proofs::BinaryForms::by_whole))]
pub fn binary_code(
    alloc: Global,
    c: &Context,
    node: u32,
    operator: &mut Member,
    left: &mut Member,
    right: &mut Member,
) -> Result<Code, AllocError>
    ensures { IfOk result (λ e. code_of e ≡ spec.binary_code (context_of c.now) node (members.more (member_of operator.old) (members.more (member_of left.old) (members.more (member_of right.old) members.end)))) }
{
    match binary_form(c, node, word_of(operator), left, right) {
        BinaryForm::ClassTest(class) => class_test(alloc, node, class, left),
        BinaryForm::KeyTest => Ok(Code::value(Value::result_of(node))),
        BinaryForm::NoRule => Ok(Code::no_rule()),
        BinaryForm::Whole => binary_operation(alloc, node, operator, left, right),
    }
}
