// Calls of helpers.

ghost use Rattle.std.specs.Prelude.{◌≡◌, bytes_eq, codes, true};
ghost use Rattle.es_base.specs.Ascii.{is_ascii};
ghost use Rattle.es_base.specs.Tree.{child};
ghost use Rattle.es_base.specs.Words.{assignment_operator_string};
ghost use Rattle.es_lowered.specs.HelperCalls as spec;

use crate::terms::CallTerms;
use es_base::kind::Kind;
use es_base::operator::AssignmentOperator;
use es_node::node::Node;
use es_owed_initialized::forms::{is_babel_helpers, is_helper_callee};
use es_tree::expression::{CallExpressionRef, MemberExpressionRef};

/// Whether the node is this helper, whose name is ASCII, as a callee.
#[tactic(auto, using(es_base::proofs::Ascii::chars_ascii))]
pub fn is_helper(first: u32, helper: &str, callee: &Node) -> bool
    requires { is_ascii helper.now ≡ true }
    ensures { result ≡ spec.is_helper_callee first helper.now (child callee.now) }
{
    is_helper_callee(first, helper, callee)
}

/// Whether the node is any helper, as a callee.
#[tactic(auto, using(crate::proofs::HelperNodes::any_helper, crate::proofs::HelperNodes::no_member))]
pub fn is_any_helper(first: u32, callee: &Node) -> bool
    ensures { result ≡ spec.is_any_helper first (child callee.now) }
{
    match callee.kind() {
        // babelHelpers.toPropertyKey
        Kind::MemberExpression => {
            is_babel_helpers(first, MemberExpressionRef::from_node(callee).object)
        }
        _ => false,
    }
}

/// Whether the node is a call of `babelHelpers.toPropertyKey`.
#[tactic(auto, using(crate::proofs::HelperNodes::no_conversion))]
pub fn is_key_conversion(terms: &CallTerms, node: &Node) -> bool
    ensures { result ≡ spec.is_key_conversion terms.now.first terms.now.ledger.now (child node.now) }
{
    match node.kind() {
        // babelHelpers.toPropertyKey(k)
        Kind::CallExpression => {
            is_helper(
                terms.first,
                "toPropertyKey",
                CallExpressionRef::from_node(node).callee,
            )
        }
        _ => false,
    }
}

/// `=`.
pub fn is_plain(operator: AssignmentOperator) -> bool
    ensures { result ≡ bytes_eq (assignment_operator_string operator) (codes "=") }
{
    matches!(operator, AssignmentOperator::Assign)
}
