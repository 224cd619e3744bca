// The calls that name the class around by `this`, and what else a call may name.

ghost use Rattle.std.specs.Prelude.{◌≡◌, ◌++◌, ◌&&◌, ◌∷◌, [], codes, cond, not, option_map, IfOk, OnOk};
ghost use Rattle.std.specs.Option.{option_to_list};
ghost use Rattle.es_base.specs.Tree.{child, nullable, trees};
ghost use Rattle.es_binding_faults.specs.Seen.{seen};
ghost use Rattle.es_lowered.specs.HelperCalls as spec;
ghost use Rattle.es_owed_calls.specs.StaticKeys.{key_views};
ghost use Rattle.es_owed_calls.specs.Namings.{naming_of_node};

use crate::helper::is_helper;
use crate::key_forms::node_at;
use crate::name_tests::{is_and, keys_behind};
use crate::static_key::{StaticKey, add_field_keys, has_none, method_keys};
use crate::terms::CallTerms;
use es_base::kind::Kind;
use es_node::node::Node;
use es_owed_initialized::runs::body_runs;
use es_tree::class::{ClassBodyRef, ClassExpressionRef, PropertyDefinitionRef};
use es_tree::expression::{CallExpressionRef, LogicalExpressionRef, SequenceExpressionRef};
use std::alloc::{AllocError, Global};

/// The numbers of the calls of `babelHelpers.setFunctionName` that stand in a static element of a class that has no name of its
/// own there: alone, first in a sequence, or behind tests. Fails on allocation failure alone.
#[tactic(auto, using(crate::proofs::NamingNodes::naming_more))]
pub fn naming_calls(
    alloc: Global,
    terms: &CallTerms,
    nodes: &[&Node],
) -> Result<Vec<u32>, AllocError>
    ensures { IfOk result (λ r. r.items ≡ spec.naming_calls terms.now.first terms.now.ledger.now (seen nodes.now)) }
{
    let mut numbers = Vec::new(alloc);
    for node in nodes {
        add_naming_of_node(alloc, terms, node, &mut numbers)?;
    }
    Ok(numbers)
}

/// Adds those of the elements of a class, if the node is the body of one. Fails on allocation failure alone.
#[tactic(auto, using(crate::proofs::NamingNodes::no_body))]
fn add_naming_of_node(
    alloc: Global,
    terms: &CallTerms,
    node: &Node,
    numbers: &mut Vec<u32>,
) -> Result<(), AllocError>
    ensures { OnOk result (numbers.new.items ≡ numbers.old.items ++ naming_of_node terms.now.first terms.now.ledger.now node.now) }
{
    match node.kind() {
        // { static x = 1; }
        Kind::ClassBody => {
            add_naming_of_body(alloc, terms, ClassBodyRef::from_node(node).body, numbers)
        }
        _ => Ok(()),
    }
}

fn add_naming_of_body(
    alloc: Global,
    terms: &CallTerms,
    elements: &[Node],
    numbers: &mut Vec<u32>,
) -> Result<(), AllocError>
    ensures { OnOk result (numbers.new.items ≡ numbers.old.items ++ spec.body_naming terms.now.first terms.now.ledger.now (spec.method_keys terms.now.first terms.now.ledger.now (trees elements.now)) (trees elements.now)) }
{
    let mut keys = method_keys(alloc, terms, elements)?;
    for element in elements {
        let number = element_naming(alloc, terms, keys.as_slice(), element)?;
        add_some(number, numbers)?;
        add_field_keys(terms, element, &mut keys)?;
    }
    Ok(())
}

fn add_some(number: Option<u32>, numbers: &mut Vec<u32>) -> Result<(), AllocError>
    ensures { OnOk result (numbers.new.items ≡ numbers.old.items ++ option_to_list number) }
{
    if let Some(number) = number {
        numbers.push(number)?;
    }
    Ok(())
}

/// The number of such a call in an element, where the class has these keys in front of it. Fails on allocation failure alone.
#[tactic(auto, using(crate::proofs::NamingNodes::no_field))]
fn element_naming<'a>(
    alloc: Global,
    terms: &CallTerms,
    keys: &[StaticKey<'a>],
    element: &'a Node,
) -> Result<Option<u32>, AllocError>
    ensures { IfOk result (λ r. option_to_list r ≡ spec.element_naming terms.now.first terms.now.ledger.now (key_views keys.now) (child element.now)) }
{
    match element.kind() {
        // static x = 1;
        Kind::PropertyDefinition => {
            let field = PropertyDefinitionRef::from_node(element);
            if field.is_static {
                naming_at(alloc, terms, keys, field.value)
            } else {
                Ok(None)
            }
        }
        _ => Ok(None),
    }
}

/// That of a call in a value. Fails on allocation failure alone.
#[cycle(naming)]
#[tactic(auto, using(crate::proofs::NamingNodes::names_nothing, crate::proofs::NamingNodes::first_named, es_node::proofs::Below::nodes_in))]
fn naming_in<'a>(
    alloc: Global,
    terms: &CallTerms,
    keys: &[StaticKey<'a>],
    value: &'a Node,
) -> Result<Option<u32>, AllocError>
    ensures { IfOk result (λ r. option_to_list r ≡ spec.naming_in terms.now.first terms.now.ledger.now (key_views keys.now) value.now) }
{
    match value.kind() {
        // babelHelpers.setFunctionName(this, 'x')
        Kind::CallExpression => Ok(naming_call(terms, keys, CallExpressionRef::from_node(value))),
        // (babelHelpers.setFunctionName(this, 'x'), e)
        Kind::SequenceExpression => {
            let expressions = SequenceExpressionRef::from_node(value).expressions;
            naming_at(alloc, terms, keys, node_at(expressions, 0))
        }
        // _key !== 'name' && babelHelpers.setFunctionName(this, 'x')
        Kind::LogicalExpression => {
            let logical = LogicalExpressionRef::from_node(value);
            if !is_and(logical.operator) {
                return Ok(None);
            }
            let behind = keys_behind(alloc, terms, logical.left, keys)?;
            naming_in(alloc, terms, behind.as_slice(), logical.right)
        }
        _ => Ok(None),
    }
}

#[cycle(naming)]
fn naming_at<'a>(
    alloc: Global,
    terms: &CallTerms,
    keys: &[StaticKey<'a>],
    value: Option<&'a Node>,
) -> Result<Option<u32>, AllocError>
    ensures { IfOk result (λ r. option_to_list r ≡ spec.naming_at terms.now.first terms.now.ledger.now (key_views keys.now) (nullable (option_map (λ x. x.now) value.entry))) }
{
    match value {
        Some(value) => naming_in(alloc, terms, keys, value),
        None => Ok(None),
    }
}

/// The number of the call, if it names and there are none of these keys.
fn naming_call(terms: &CallTerms, keys: &[StaticKey], call: CallExpressionRef) -> Option<u32>
    ensures { option_to_list result ≡ cond (spec.is_helper_callee terms.now.first (codes "setFunctionName") (child call.entry.callee.now) && spec.has_none (key_views keys.now)) (call.entry.node_id.0 ∷ []) [] }
{
    if is_helper(terms.first, "setFunctionName", call.callee) && has_none(keys) {
        Some(call.node_id.0)
    } else {
        None
    }
}

// ---- what has no `name` of its own

/// Whether the node is a function, or a class without static keys that may be `name` and with which nothing runs.
#[tactic(auto, using(crate::proofs::NamingNodes::function_named, crate::proofs::NamingNodes::arrow_named, crate::proofs::NamingNodes::none_named))]
pub fn is_nameless(alloc: Global, terms: &CallTerms, node: &Node) -> Result<bool, AllocError>
    ensures { IfOk result (λ holds. holds ≡ spec.is_nameless terms.now.first terms.now.ledger.now (child node.now)) }
{
    match node.kind() {
        // function() {}
        Kind::FunctionExpression => Ok(true),
        // () => {}
        Kind::ArrowFunctionExpression => Ok(true),
        // class {}
        Kind::ClassExpression => {
            is_class_nameless(alloc, terms, ClassExpressionRef::from_node(node).body)
        }
        _ => Ok(false),
    }
}

fn is_class_nameless(alloc: Global, terms: &CallTerms, body: &Node) -> Result<bool, AllocError>
    ensures { IfOk result (λ holds. holds ≡ (spec.has_none (spec.body_keys terms.now.first terms.now.ledger.now (child body.now)) && not (spec.body_runs (child body.now)))) }
{
    let keys = body_keys(alloc, terms, body)?;
    Ok(has_none(keys.as_slice()) && !body_runs(body))
}

/// The keys of the static methods in the body of a class that may be `name`. Fails on allocation failure alone.
#[tactic(auto, using(crate::proofs::NamingNodes::no_body_keys))]
fn body_keys<'a>(
    alloc: Global,
    terms: &CallTerms,
    body: &'a Node,
) -> Result<Vec<StaticKey<'a>>, AllocError>
    ensures { IfOk result (λ r. key_views r.items ≡ spec.body_keys terms.now.first terms.now.ledger.now (child body.now)) }
{
    match body.kind() {
        // {}
        Kind::ClassBody => method_keys(alloc, terms, ClassBodyRef::from_node(body).body),
        _ => Ok(Vec::new(alloc)),
    }
}
