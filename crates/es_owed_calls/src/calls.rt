// Calls of helpers that convert or name, and the keys by which functions and classes keep their names, node by node.

ghost use Rattle.std.specs.Prelude.{◌≡◌, ◌&&◌, ◌||◌, not, option_map, IfOk};
ghost use Rattle.es_base.specs.Conforms as conforms;
ghost use Rattle.es_base.specs.Tree.{child, end, more, nullable, nullable_trees, trees};
ghost use Rattle.es_lowered.specs.HelperCalls as spec;
ghost use Rattle.es_node.specs.View.{kind_of, number_in, part_of, parts_in, parts_of};
ghost use Rattle.es_steps.specs.Printable.{name_of_part};
ghost use Rattle.es_owed_calls.specs.Conversions.{conversions_view, is_string_value};
ghost use Rattle.es_owed_calls.specs.Strings.{if_string, strings};

use crate::conversions::{Conversions, is_new_private, private_keys_inside};
use crate::helper::is_helper;
use crate::key_forms::{has_key, last_of};
use crate::naming::is_nameless;
use crate::spelled::{generated_spelling, is_one_among};
use crate::terms::CallTerms;
use es_base::kind::Kind;
use es_base::literal::LiteralValue;
use es_base::strings::is_among;
use es_generated::numbers::is_new;
use es_node::node::{Node, Part};
use es_tree::class::PropertyDefinitionRef;
use es_tree::expression::{CallExpressionRef, PrivateFieldRef, PropertyRef, SequenceExpressionRef};
use es_tree::literal::LiteralRef;
use es_validity::names::name_of;
use std::alloc::{AllocError, Global};

/// What calls of helpers in a lowered program are read by.
#[derive(Drop)]
pub struct CallFacts<'r, 'a> {
    pub terms: CallTerms<'r>,
    pub conversions: Conversions<'a>,
}

// ---- calls

/// Whether the call, if it is one of `babelHelpers.toPropertyKey` or `babelHelpers.setFunctionName`, converts a computed key of
/// the source or names what has no name. Fails on allocation failure alone.
fn call_fits(alloc: Global, facts: &CallFacts, call: CallExpressionRef) -> Result<bool, AllocError>
    ensures { IfOk result (λ holds. holds ≡ spec.call_fits facts.now.terms.first facts.now.terms.ledger.now facts.now.terms.keys.now (conversions_view facts.now.conversions) call.entry.node_id.0 (child call.entry.callee.now) (trees call.entry.arguments.now)) }
{
    match call.arguments {
        [first, ..] => first_fits(alloc, facts, call, first),
        [] => Ok(true),
    }
}

/// The same of a call with this first argument. Fails on allocation failure alone.
fn first_fits(
    alloc: Global,
    facts: &CallFacts,
    call: CallExpressionRef,
    first: &Node,
) -> Result<bool, AllocError>
    ensures { IfOk result (λ holds. holds ≡ spec.call_fits facts.now.terms.first facts.now.terms.ledger.now facts.now.terms.keys.now (conversions_view facts.now.conversions) call.entry.node_id.0 (child call.entry.callee.now) (more (child first.now) end)) }
{
    let new = facts.terms.first;
    if is_helper(new, "toPropertyKey", call.callee) && !has_key(&facts.terms, first) {
        return Ok(false);
    }
    if is_helper(new, "setFunctionName", call.callee) {
        may_be_named(alloc, facts, call.node_id.0, first)
    } else {
        Ok(true)
    }
}

/// Whether the call of this number may name this. Fails on allocation failure alone.
#[tactic(auto, using(crate::proofs::CallNodes::this_named, crate::proofs::CallNodes::other_named))]
fn may_be_named(
    alloc: Global,
    facts: &CallFacts,
    number: u32,
    named: &Node,
) -> Result<bool, AllocError>
    ensures { IfOk result (λ holds. holds ≡ spec.may_be_named facts.now.terms.first facts.now.terms.ledger.now facts.now.terms.keys.now (conversions_view facts.now.conversions) number (child named.now)) }
{
    match named.kind() {
        // babelHelpers.setFunctionName(this, 'x')
        Kind::ThisExpression => Ok(facts.conversions.naming.has(number)),
        _ => is_nameless(alloc, &facts.terms, named),
    }
}

// ---- keys

/// Whether the key of a new property is kept: a private element that is new, a string, or a generated name of a converted key.
#[tactic(auto, using(crate::proofs::CallNodes::literal_kept, crate::proofs::CallNodes::other_kept))]
fn is_kept_key(facts: &CallFacts, key: &Node) -> bool
    ensures { result ≡ spec.is_kept_key facts.now.terms.first facts.now.terms.ledger.now facts.now.terms.keys.now (conversions_view facts.now.conversions) (child key.now) }
{
    match key.kind() {
        // { [A.#x]: e }
        Kind::PrivateField => {
            let name = name_of(PrivateFieldRef::from_node(key).property);
            is_among(name, facts.conversions.privates.as_slice())
        }
        // { 'x': e }
        Kind::Literal => is_string_value(LiteralRef::from_node(key).value),
        // { [_key]: e }
        _ => is_converted(facts, generated_spelling(&facts.terms, key)),
    }
}

fn is_string_value(value: &LiteralValue) -> bool
    ensures { result ≡ is_string_value value.now }
{
    matches!(value, LiteralValue::String { .. })
}

fn is_converted(facts: &CallFacts, name: Option<&str>) -> bool
    ensures { result ≡ spec.is_one_among (if_string name.entry) (conversions_view facts.now.conversions).converted }
{
    is_one_among(name, facts.conversions.converted.as_slice())
}

/// The generated name that the value is, or that a sequence ends with.
#[tactic(auto, using(crate::proofs::CallNodes::other_last))]
fn last_spelling<'a>(facts: &CallFacts, value: Option<&'a Node>) -> Option<&'a str>
    ensures { if_string result ≡ spec.last_spelling facts.now.terms.first facts.now.terms.ledger.now facts.now.terms.keys.now (conversions_view facts.now.conversions) (nullable (option_map (λ x. x.now) value.entry)) }
{
    let Some(value) = value else { return None };
    match value.kind() {
        // (e, _key)
        Kind::SequenceExpression => {
            spelling_if_any(
                facts,
                last_of(SequenceExpressionRef::from_node(value).expressions),
            )
        }
        // _key
        _ => generated_spelling(&facts.terms, value),
    }
}

fn spelling_if_any<'a>(facts: &CallFacts, node: Option<&'a Node>) -> Option<&'a str>
    ensures { if_string result ≡ spec.generated_spelling facts.now.terms.first facts.now.terms.ledger.now (nullable (option_map (λ x. x.now) node.entry)) }
{
    match node {
        Some(node) => generated_spelling(&facts.terms, node),
        None => None,
    }
}

/// Whether the field, if it is one of the private names that keys are read from and new, is given a converted key.
fn field_fits(facts: &CallFacts, names: &[&str], field: PropertyDefinitionRef) -> bool
    ensures { result ≡ (not (spec.is_new_private facts.now.terms.first facts.now.terms.ledger.now (child field.entry.key.now) && conforms.is_among (name_of_part (child field.entry.key.now)) (strings names.now))
        || spec.is_one_among (spec.last_spelling facts.now.terms.first facts.now.terms.ledger.now facts.now.terms.keys.now (conversions_view facts.now.conversions) (nullable (option_map (λ x. x.now) field.entry.value))) (conversions_view facts.now.conversions).converted) }
{
    !(is_new_private(&facts.terms, field.key) && is_among(name_of(field.key), names))
        || is_converted(facts, last_spelling(facts, field.value))
}

// ---- nodes

/// Whether the node fits, in a class whose properties have keys that are read from these private names. Fails on allocation
/// failure alone.
#[tactic(auto, using(crate::proofs::CallNodes::other_fits))]
fn node_fits(
    alloc: Global,
    facts: &CallFacts,
    names: &[&str],
    node: &Node,
) -> Result<bool, AllocError>
    ensures { IfOk result (λ holds. holds ≡ spec.node_fits facts.now.terms.first facts.now.terms.ledger.now facts.now.terms.keys.now (conversions_view facts.now.conversions) (strings names.now) (kind_of node.now) (number_in node.now) (parts_in node.now)) }
{
    match node.kind() {
        // babelHelpers.toPropertyKey(k)
        Kind::CallExpression => call_fits(alloc, facts, CallExpressionRef::from_node(node)),
        // { [_key]: e }
        Kind::Property => {
            let property = PropertyRef::from_node(node);
            let is_asked = is_new(facts.terms.first, property.node_id.0) && property.computed;
            Ok(!is_asked || is_kept_key(facts, property.key))
        }
        // static #_ = _key;
        Kind::PropertyDefinition => {
            Ok(field_fits(facts, names, PropertyDefinitionRef::from_node(node)))
        }
        _ => Ok(true),
    }
}

/// Whether each node of this tree does. Fails on allocation failure alone.
#[cycle(calls)]
#[tactic(auto, using(crate::proofs::CallNodes::fits_node, crate::proofs::CallNodes::fits_body, crate::proofs::CallNodes::fits_other, es_node::proofs::Below::nodes_in))]
pub fn calls_fit(
    alloc: Global,
    facts: &CallFacts,
    names: &[&str],
    node: &Node,
) -> Result<bool, AllocError>
    ensures { IfOk result (λ holds. holds ≡ spec.calls_fit facts.now.terms.first facts.now.terms.ledger.now facts.now.terms.keys.now (conversions_view facts.now.conversions) (strings names.now) node.now) }
{
    if !node_fits(alloc, facts, names, node)? {
        return Ok(false);
    }
    match node.kind() {
        // { static #_ = _key; }
        Kind::ClassBody => {
            let inside = private_keys_inside(alloc, &facts.terms, node)?;
            calls_in(alloc, facts, inside.as_slice(), node.parts())
        }
        _ => calls_in(alloc, facts, names, node.parts()),
    }
}

#[cycle(calls)]
fn calls_in(
    alloc: Global,
    facts: &CallFacts,
    names: &[&str],
    parts: &[Part],
) -> Result<bool, AllocError>
    ensures { IfOk result (λ holds. holds ≡ spec.calls_in facts.now.terms.first facts.now.terms.ledger.now facts.now.terms.keys.now (conversions_view facts.now.conversions) (strings names.now) (parts_of parts.now)) }
{
    for part in parts {
        if !calls_at(alloc, facts, names, part)? {
            return Ok(false);
        }
    }
    Ok(true)
}

#[cycle(calls)]
fn calls_at(
    alloc: Global,
    facts: &CallFacts,
    names: &[&str],
    part: &Part,
) -> Result<bool, AllocError>
    ensures { IfOk result (λ holds. holds ≡ spec.calls_at facts.now.terms.first facts.now.terms.ledger.now facts.now.terms.keys.now (conversions_view facts.now.conversions) (strings names.now) (part_of part.now)) }
{
    match part {
        Part::Child(node) => calls_fit(alloc, facts, names, node),
        Part::List(nodes) => calls_of_list(alloc, facts, names, nodes.as_slice()),
        Part::Holes(nodes) => calls_of_list_with_holes(alloc, facts, names, nodes.as_slice()),
        _ => Ok(true),
    }
}

#[cycle(calls)]
fn calls_of_list(
    alloc: Global,
    facts: &CallFacts,
    names: &[&str],
    nodes: &[Node],
) -> Result<bool, AllocError>
    ensures { IfOk result (λ holds. holds ≡ spec.calls_in facts.now.terms.first facts.now.terms.ledger.now facts.now.terms.keys.now (conversions_view facts.now.conversions) (strings names.now) (trees nodes.now)) }
{
    for node in nodes {
        if !calls_fit(alloc, facts, names, node)? {
            return Ok(false);
        }
    }
    Ok(true)
}

#[cycle(calls)]
fn calls_of_list_with_holes(
    alloc: Global,
    facts: &CallFacts,
    names: &[&str],
    nodes: &[Option<Node>],
) -> Result<bool, AllocError>
    ensures { IfOk result (λ holds. holds ≡ spec.calls_in facts.now.terms.first facts.now.terms.ledger.now facts.now.terms.keys.now (conversions_view facts.now.conversions) (strings names.now) (nullable_trees nodes.now)) }
{
    for node in nodes {
        if !calls_of_hole(alloc, facts, names, node)? {
            return Ok(false);
        }
    }
    Ok(true)
}

#[cycle(calls)]
fn calls_of_hole(
    alloc: Global,
    facts: &CallFacts,
    names: &[&str],
    node: &Option<Node>,
) -> Result<bool, AllocError>
    ensures { IfOk result (λ holds. holds ≡ spec.calls_at facts.now.terms.first facts.now.terms.ledger.now facts.now.terms.keys.now (conversions_view facts.now.conversions) (strings names.now) (nullable node.now)) }
{
    match node {
        Some(node) => calls_fit(alloc, facts, names, node),
        None => Ok(true),
    }
}
