// Nodes whose value is that of a computed key of the source.

ghost use Rattle.std.specs.Prelude.{◌≡◌, ◌≤◌, ◌||◌, option_map};
ghost use Rattle.std.specs.Str.{chars};
ghost use Rattle.es_base.specs.Preorder.{nodes_of, nodes_of_part};
ghost use Rattle.es_base.specs.Tree.{child, nullable, trees};
ghost use Rattle.es_lowered.specs.HelperCalls as spec;
ghost use Rattle.es_node.specs.View.{kind_of, number_in, parts_in};
ghost use Rattle.es_steps.specs.Parts.{at};
ghost use Rattle.es_owed_calls.specs.KeyForms.{gives_key_at};

use crate::helper::{is_helper, is_plain};
use crate::spelled::is_generated_name;
use crate::tells::tells;
use crate::terms::CallTerms;
use es_base::kind::Kind;
use es_base::strings::is_word;
use es_node::node::Node;
use es_owed_initialized::spelling::spelling;
use es_shapes::walk::{NodeTest, any_of_list};
use es_tree::expression::{AssignmentExpressionRef, CallExpressionRef, SequenceExpressionRef};

/// Whether the node is a computed key of the source, and its number tells its value.
#[tactic(auto, using(crate::proofs::KeyFormNodes::key_node))]
pub fn is_key(terms: &CallTerms, node: &Node) -> bool
    ensures by_kind { result ≡ spec.is_key terms.now.first terms.now.ledger.now terms.now.keys.now (kind_of node.now) (number_in node.now) (parts_in node.now) }
    ensures as_part { result ≡ spec.is_key_part terms.now.first terms.now.ledger.now terms.now.keys.now (child node.now) }
{
    terms.keys.has(node.node_id().0) && tells(terms, node)
}

// ---- lists of nodes

/// The last of these nodes.
#[tactic(auto, using(crate::proofs::KeyFormNodes::last_at, es_node::proofs::Below::tree_below))]
pub fn last_of(nodes: &[Node]) -> Option<&Node>
    ensures part { nullable (option_map (λ x. x.now) result) ≡ spec.last_part (trees nodes.now) }
    ensures below { nodes_of_part (nullable (option_map (λ x. x.now) result)) ≤ nodes_of (trees nodes.now) }
{
    if nodes.is_empty() {
        None
    } else {
        Some(&nodes[nodes.len() - 1])
    }
}

/// The i-th of these nodes.
#[tactic(auto, using(crate::proofs::KeyFormNodes::part_at, crate::proofs::KeyFormNodes::no_part_at, es_node::proofs::Below::tree_below))]
pub fn node_at(nodes: &[Node], i: usize) -> Option<&Node>
    ensures part { nullable (option_map (λ x. x.now) result) ≡ at i (trees nodes.now) }
    ensures below { nodes_of_part (nullable (option_map (λ x. x.now) result)) ≤ nodes_of (trees nodes.now) }
{
    if i < nodes.len() {
        Some(&nodes[i])
    } else {
        None
    }
}

// ---- keys that a generated name keeps

/// Whether the last of these expressions is a generated name that is given a key in one of them.
#[tactic(auto, using(crate::proofs::KeyFormNodes::any_gives))]
fn ends_with_key(terms: &CallTerms, expressions: &[Node]) -> bool
    ensures { result ≡ spec.ends_with_key terms.now.first terms.now.ledger.now terms.now.keys.now (trees expressions.now) }
{
    let Some(last) = last_of(expressions) else {
        return false
    };
    if !is_generated_name(terms.ledger, last) {
        return false;
    }
    let test = GivesKey {
        terms: *terms,
        name: spelling(last),
    };
    any_of_list(&test, expressions)
}

/// Whether a node gives a computed key of the source to this name.
#[derive(Drop)]
struct GivesKey<'a> {
    terms: CallTerms<'a>,
    name: &'a str,
}

impl<'a> NodeTest for GivesKey<'a> {
    ghost passes = { λ k t. gives_key_at k.terms.first k.terms.ledger.now k.terms.keys.now (chars k.name.now) t };

    #[tactic(auto, using(crate::proofs::KeyFormNodes::gives_none))]
    fn passes(&self, node: &Node) -> bool
        ensures { result ≡ gives_key_at self.now.terms.first self.now.terms.ledger.now self.now.terms.keys.now (chars self.now.name.now) node.now }
    {
        match node.kind() {
            // _key = k
            Kind::AssignmentExpression => {
                let assignment = AssignmentExpressionRef::from_node(node);
                is_word(spelling(assignment.left), self.name)
                    && is_key(&self.terms, assignment.right)
            }
            _ => false,
        }
    }
}

// ---- what keys were lowered to

/// Whether the node is a computed key of the source, or has the value of one: `(_key = k, _key)`, `a = k`,
/// `babelHelpers.toPropertyKey(k)`, `babelHelpers.classPrivateFieldSet2(W, o, k)`, `babelHelpers.superPropSet(h, p, k, r, 1)`.
#[cycle(key_forms)]
#[tactic(auto, using(crate::proofs::KeyFormNodes::has_node))]
pub fn has_key(terms: &CallTerms, node: &Node) -> bool
    ensures { result ≡ spec.has_key terms.now.first terms.now.ledger.now terms.now.keys.now node.now }
{
    is_key(terms, node) || form_has_key(terms, node)
}

#[cycle(key_forms)]
#[tactic(auto, using(crate::proofs::KeyFormNodes::no_form, crate::proofs::KeyFormNodes::last_has, crate::proofs::KeyFormNodes::first_has, crate::proofs::KeyFormNodes::third_has, es_node::proofs::Below::nodes_in))]
fn form_has_key(terms: &CallTerms, node: &Node) -> bool
    ensures { result ≡ spec.form_has_key terms.now.first terms.now.ledger.now terms.now.keys.now (kind_of node.now) (parts_in node.now) }
{
    match node.kind() {
        // (_key = k, _key), (e, k)
        Kind::SequenceExpression => {
            let expressions = SequenceExpressionRef::from_node(node).expressions;
            ends_with_key(terms, expressions) || part_has_key(terms, last_of(expressions))
        }
        // a = k
        Kind::AssignmentExpression => {
            let assignment = AssignmentExpressionRef::from_node(node);
            is_plain(assignment.operator) && has_key(terms, assignment.right)
        }
        // babelHelpers.toPropertyKey(k), babelHelpers.superPropSet(h, p, k, r, 1)
        Kind::CallExpression => {
            let call = CallExpressionRef::from_node(node);
            (is_helper(terms.first, "toPropertyKey", call.callee)
                && part_has_key(terms, node_at(call.arguments, 0)))
                || (is_write(terms, call.callee) && part_has_key(terms, node_at(call.arguments, 2)))
        }
        _ => false,
    }
}

#[cycle(key_forms)]
fn part_has_key(terms: &CallTerms, node: Option<&Node>) -> bool
    ensures { result ≡ spec.part_has_key terms.now.first terms.now.ledger.now terms.now.keys.now (nullable (option_map (λ x. x.now) node.entry)) }
{
    match node {
        Some(node) => has_key(terms, node),
        None => false,
    }
}

/// Whether the node is a helper that writes a member, as a callee.
fn is_write(terms: &CallTerms, callee: &Node) -> bool
    ensures { result ≡ spec.is_write terms.now.first terms.now.ledger.now terms.now.keys.now (child callee.now) }
{
    is_helper(terms.first, "classPrivateFieldSet2", callee)
        || is_helper(terms.first, "superPropSet", callee)
}
