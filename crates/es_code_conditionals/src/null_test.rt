// New tests of an object for null and undefined: `a === null || a === void 0`, and `a == null`. (ECMA-262, 13.11; that they are
// tests of a chain is our own.)

ghost use Rattle.std.specs.Prelude.{◌≡◌, [], ◌∷◌, true, option_map};
ghost use Rattle.es_base.specs.Ascii.{is_ascii};
ghost use Rattle.es_codes.specs.CodeView.{code_of, codes_of};
ghost use Rattle.es_codes.specs.View.{detail_of, details_of, operation_of};
ghost use Rattle.es_steps.specs.Expressions.{the_code};
ghost use Rattle.es_steps.specs.GeneratedForms as spec;
ghost use Rattle.es_code_members.specs.MembersView.{member_of};
ghost use Rattle.es_code_reading.specs.Contexts.{context_of};
ghost use Rattle.es_code_conditionals.specs.Comparisons.{compared, compared_by, compares, double_test, is_none, is_operand, second_of_two, single_test, spells_operator};

use es_base::kind::Kind;
use es_base::list::List;
use es_base::name::Name;
use es_base::strings::{is_word, spells};
use es_code_members::member::Member;
use es_code_reading::context::Context;
use es_code_reading::literals::{is_null, is_undefined};
use es_codes::code::Code;
use es_codes::event::{Detail, Operation};
use es_generated::numbers::is_new;

// ---- comparisons

#[tactic(auto, using(es_base::proofs::Ascii::chars_ascii))]
fn spells_operator(operator: &str, detail: &Detail) -> bool
    requires { is_ascii operator.now ≡ true }
    ensures { result ≡ spells_operator operator.now (detail_of detail.now) }
{
    match detail {
        Detail::Spelled(spelling) => is_word(spelling.as_str(), operator),
        _ => false,
    }
}

fn is_operand(detail: &Detail) -> bool
    ensures { result ≡ is_operand (detail_of detail.now) }
{
    matches!(detail, Detail::Operand)
}

#[tactic(auto, using(crate::proofs::Comparisons::three_details))]
fn compares_operands(operator: &str, spelled: &Detail, left: &Detail, right: &Detail) -> bool
    requires { is_ascii operator.now ≡ true }
    ensures { result ≡ spec.is_comparison operator.now (detail_of spelled.now ∷ detail_of left.now ∷ detail_of right.now ∷ []) }
{
    is_operand(left) && is_operand(right) && spells_operator(operator, spelled)
}

/// Whether these say that two operands are compared by this operator.
#[tactic(auto, using(crate::proofs::Comparisons::fewer_details, crate::proofs::Comparisons::more_details))]
fn is_comparison(operator: &str, details: &[Detail]) -> bool
    requires { is_ascii operator.now ≡ true }
    ensures { result ≡ spec.is_comparison operator.now (details_of details.now) }
{
    match details {
        [spelled, left, right] => compares_operands(operator, spelled, left, right),
        _ => false,
    }
}

fn compares(operator: &str, operation: &Operation) -> bool
    requires { is_ascii operator.now ≡ true }
    ensures { result ≡ compares operator.now (operation_of operation.now) }
{
    match operation {
        Operation::OfKind { kind, details } => {
            matches!(*kind, Kind::BinaryExpression) && is_comparison(operator, details.as_slice())
        }
        _ => false,
    }
}

#[tactic(auto, using(crate::proofs::Comparisons::fewer_codes, crate::proofs::Comparisons::more_codes))]
fn second_of_two(codes: &[Code]) -> Option<&Code>
    ensures { option_map (λ e. code_of e.now) result ≡ second_of_two (codes_of codes.now) }
{
    match codes {
        [_, second] => Some(second),
        _ => None,
    }
}

/// Whether no code is there.
#[tactic(auto, using(crate::proofs::Comparisons::none_held))]
fn is_none(codes: &List<Code>) -> bool
    ensures { result ≡ is_none (codes_of codes.now) }
{
    codes.is_empty()
}

/// The right operand, if the operation is a comparison by this operator.
fn compared_by<'c>(
    operator: &str,
    operation: &Operation,
    operands: &'c List<Code>,
    held: &List<Code>,
) -> Option<&'c Code>
    requires { is_ascii operator.now ≡ true }
    ensures { option_map (λ e. code_of e.now) result ≡ compared_by operator.now (operation_of operation.now) (codes_of operands.now) (codes_of held.now) }
{
    if compares(operator, operation) && is_none(held) {
        second_of_two(operands.as_slice())
    } else {
        None
    }
}

/// The right operand of a comparison by this operator: `b` in `a === b`.
#[tactic(auto, using(crate::proofs::Comparisons::an_operation, crate::proofs::Comparisons::no_operation))]
fn compared<'c>(operator: &str, code: &'c Code) -> Option<&'c Code>
    requires { is_ascii operator.now ≡ true }
    ensures { option_map (λ e. code_of e.now) result ≡ compared operator.now (code_of code.now) }
{
    match code {
        Code::Operation {
            operation,
            operands,
            held,
            ..
        } => compared_by(operator, operation, operands, held),
        _ => None,
    }
}

/// `a === null`
#[tactic(auto, using(crate::proofs::Comparisons::with_null, crate::proofs::Comparisons::without_null))]
fn is_null_test(operator: &str, code: &Code) -> bool
    requires { is_ascii operator.now ≡ true }
    ensures { result ≡ spec.is_null_test operator.now (code_of code.now) }
{
    match compared(operator, code) {
        Some(right) => is_null(right),
        None => false,
    }
}

/// `a === void 0`
#[tactic(auto, using(crate::proofs::Comparisons::with_undefined, crate::proofs::Comparisons::without_undefined))]
fn is_void_test(code: &Code) -> bool
    ensures { result ≡ spec.is_void_test (code_of code.now) }
{
    match compared("===", code) {
        Some(right) => is_undefined(right),
        None => false,
    }
}

// ---- tests

/// `a === null || b === void 0`, new
fn is_double_test(c: &Context, node: u32, operator: &Name, left: &Code, right: &Code) -> bool
    ensures { result ≡ double_test (context_of c.now) node operator.now (code_of left.now) (code_of right.now) }
{
    is_new(c.terms.first_new, node)
        && spells(operator.as_str(), "||")
        && is_null_test("===", left)
        && is_void_test(right)
}

/// `a == null`, new, where no object is `undefined` but `undefined` itself
fn is_single_test(c: &Context, node: u32, code: &Code) -> bool
    ensures { result ≡ single_test (context_of c.now) node (code_of code.now) }
{
    is_new(c.terms.first_new, node)
        && c.terms.options.assumptions.no_document_all
        && is_null_test("==", code)
}

/// Whether it is a new test for null and undefined.
#[tactic(auto, using(crate::proofs::Comparisons::two_tests, crate::proofs::Comparisons::one_test, crate::proofs::Comparisons::no_test))]
fn is_undefined_test_code(c: &Context, code: &Code) -> bool
    ensures { result ≡ spec.is_undefined_test (context_of c.now) (code_of code.now) }
{
    match code {
        Code::Logical {
            node,
            operator,
            left,
            right,
        } => is_double_test(c, *node, operator, left.get(), right.get()),
        Code::Operation { node, .. } => is_single_test(c, *node, code),
        _ => false,
    }
}

/// Whether a new test for null and undefined stands at a member.
pub fn is_undefined_test(c: &Context, test: &Member) -> bool
    ensures { result ≡ spec.is_undefined_test (context_of c.now) (the_code (member_of test.now)) }
{
    match test {
        Member::Code(code) => is_undefined_test_code(c, code),
        _ => false,
    }
}
