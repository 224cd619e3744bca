// Tests that generated names are not `name`.

ghost use Rattle.std.specs.Prelude.{◌≡◌, ◌++◌, ◌&&◌, ◌∷◌, [], None, bytes_eq, codes, cond, is_some, IfOk, OnOk};
ghost use Rattle.es_base.specs.Tree as tree;
ghost use Rattle.es_base.specs.Tree.{child, end, literal, more};
ghost use Rattle.es_base.specs.Words.{binary_operator_string, logical_operator_string};
ghost use Rattle.es_base.specs.declared.kind.Kind.{Kind};
ghost use Rattle.es_lowered.specs.Definitions as definitions;
ghost use Rattle.es_lowered.specs.HelperCalls as spec;
ghost use Rattle.es_owed_calls.specs.StaticKeys.{key_view, key_views};
ghost use Rattle.es_owed_calls.specs.Strings.{strings};
ghost use Rattle.es_owed_calls.specs.Tests.{behind, is_name_test, tested_in};

use crate::spelled::is_generated_name;
use crate::static_key::StaticKey;
use crate::terms::CallTerms;
use es_base::kind::Kind;
use es_base::literal::LiteralValue;
use es_base::operator::{BinaryOperator, LogicalOperator};
use es_base::strings::is_among;
use es_node::node::Node;
use es_owed_initialized::spelling::spelling;
use es_tree::expression::{BinaryExpressionRef, LogicalExpressionRef};
use es_tree::literal::LiteralRef;
use es_validity::parts::is_string;
use std::alloc::{AllocError, Global};

/// `&&`.
pub fn is_and(operator: LogicalOperator) -> bool
    ensures { result ≡ bytes_eq (logical_operator_string operator) (codes "&&") }
{
    matches!(operator, LogicalOperator::And)
}

/// `!==`.
fn is_unequal(operator: BinaryOperator) -> bool
    ensures { result ≡ bytes_eq (binary_operator_string operator) (codes "!==") }
{
    matches!(operator, BinaryOperator::StrictInequality)
}

/// Whether the node is a test that a generated name is not `name`, or several by `&&`.
#[tactic(auto, using(crate::proofs::TestNodes::logical_test, crate::proofs::TestNodes::name_test, crate::proofs::TestNodes::no_test, es_node::proofs::Below::nodes_in))]
fn is_test(terms: &CallTerms, node: &Node) -> bool
    ensures { result ≡ is_some (spec.tests_of terms.now.first terms.now.ledger.now node.now) }
{
    match node.kind() {
        // _key !== 'name' && _other !== 'name'
        Kind::LogicalExpression => {
            let logical = LogicalExpressionRef::from_node(node);
            is_and(logical.operator)
                && (is_test(terms, logical.left) && is_test(terms, logical.right))
        }
        // _key !== 'name'
        Kind::BinaryExpression => is_name_test(terms, BinaryExpressionRef::from_node(node)),
        _ => false,
    }
}

fn is_name_test(terms: &CallTerms, test: BinaryExpressionRef) -> bool
    ensures { result ≡ is_name_test terms.now.ledger.now (binary_operator_string test.entry.operator) (child test.entry.left.now) (child test.entry.right.now) }
{
    is_unequal(test.operator)
        && (is_generated_name(terms.ledger, test.left) && is_name_literal(test.right))
}

#[tactic(auto, using(crate::proofs::TestNodes::name_literal, crate::proofs::TestNodes::no_name_literal))]
fn is_name_literal(node: &Node) -> bool
    ensures { result ≡ spec.is_name_literal (child node.now) }
{
    match node.kind() {
        // 'name'
        Kind::Literal => is_name_value(LiteralRef::from_node(node).value),
        _ => false,
    }
}

fn is_name_value(value: &LiteralValue) -> bool
    ensures { result ≡ spec.is_name_literal (child (tree.Node Kind.Literal 0 None None (more (literal value.now) end))) }
{
    match value {
        LiteralValue::String { value, .. } => is_string(value, "name"),
        _ => false,
    }
}

// ---- the names that are tested

/// Adds the generated names that are not `name` where such a test holds. Fails on allocation failure alone.
#[tactic(auto, using(crate::proofs::TestNodes::tests_nothing, es_node::proofs::Below::nodes_in))]
fn add_tested<'a>(
    terms: &CallTerms,
    node: &'a Node,
    tested: &mut Vec<&'a str>,
) -> Result<(), AllocError>
    ensures { OnOk result (strings tested.new.items ≡ strings tested.old.items ++ tested_in terms.now.ledger.now node.now) }
{
    match node.kind() {
        // _key !== 'name' && _other !== 'name'
        Kind::LogicalExpression => {
            let logical = LogicalExpressionRef::from_node(node);
            if !is_and(logical.operator) {
                return Ok(());
            }
            add_tested(terms, logical.left, tested)?;
            add_tested(terms, logical.right, tested)
        }
        // _key !== 'name'
        Kind::BinaryExpression => add_if_test(terms, BinaryExpressionRef::from_node(node), tested),
        _ => Ok(()),
    }
}

fn add_if_test<'a>(
    terms: &CallTerms,
    test: BinaryExpressionRef<'a>,
    tested: &mut Vec<&'a str>,
) -> Result<(), AllocError>
    ensures { OnOk result (strings tested.new.items ≡ strings tested.old.items ++ cond (is_name_test terms.now.ledger.now (binary_operator_string test.entry.operator) (child test.entry.left.now) (child test.entry.right.now)) (definitions.spelling (child test.entry.left.now) ∷ []) []) }
{
    if is_name_test(terms, test) {
        tested.push(spelling(test.left))?;
    }
    Ok(())
}

// ---- keys behind tests

/// The keys that may be `name` where the node holds: those that it does not test; where it is no test, there may be one. Fails on
/// allocation failure alone.
#[tactic(auto, using(crate::proofs::TestNodes::behind_test, crate::proofs::TestNodes::behind_no_test))]
pub fn keys_behind<'a>(
    alloc: Global,
    terms: &CallTerms,
    test: &'a Node,
    keys: &[StaticKey<'a>],
) -> Result<Vec<StaticKey<'a>>, AllocError>
    ensures { IfOk result (λ r. key_views r.items ≡ spec.behind_tests (spec.tests_of terms.now.first terms.now.ledger.now test.now) (key_views keys.now)) }
{
    if !is_test(terms, test) {
        let mut one = Vec::new(alloc);
        one.push(StaticKey::Name)?;
        return Ok(one);
    }
    let mut tested = Vec::new(alloc);
    add_tested(terms, test, &mut tested)?;
    keys_not_among(alloc, tested.as_slice(), keys)
}

/// Those of these keys that these names are not. Fails on allocation failure alone.
fn keys_not_among<'a>(
    alloc: Global,
    tested: &[&str],
    keys: &[StaticKey<'a>],
) -> Result<Vec<StaticKey<'a>>, AllocError>
    ensures { IfOk result (λ r. key_views r.items ≡ behind (strings tested.now) (key_views keys.now)) }
{
    let mut left = Vec::new(alloc);
    for key in keys {
        add_unless_tested(tested, *key, &mut left)?;
    }
    Ok(left)
}

fn add_unless_tested<'a>(
    tested: &[&str],
    key: StaticKey<'a>,
    keys: &mut Vec<StaticKey<'a>>,
) -> Result<(), AllocError>
    ensures { OnOk result (key_views keys.new.items ≡ key_views keys.old.items ++ spec.not_among (strings tested.now) (key_view key.entry)) }
{
    if !is_tested(tested, key) {
        keys.push(key)?;
    }
    Ok(())
}

fn is_tested(tested: &[&str], key: StaticKey) -> bool
    ensures { spec.not_among (strings tested.now) (key_view key.entry) ≡ cond result [] (key_view key.entry ∷ []) }
{
    match key {
        StaticKey::Name => false,
        StaticKey::KeptBy(name) => is_among(name, tested),
    }
}
