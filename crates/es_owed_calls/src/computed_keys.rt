// The computed keys of a program.

ghost use Rattle.std.specs.Prelude.{◌≡◌, ◌++◌, [], None, cond, IfOk, OnOk};
ghost use Rattle.std.specs.Option.{option_to_list};
ghost use Rattle.es_base.specs.Tree as tree;
ghost use Rattle.es_base.specs.Tree.{child, end, literal, more, trees};
ghost use Rattle.es_base.specs.declared.kind.Kind.{Kind};
ghost use Rattle.es_binding_faults.specs.Seen.{seen};
ghost use Rattle.es_lowered.specs.HelperCalls as spec;

use crate::key_forms::last_of;
use es_base::kind::Kind;
use es_base::literal::LiteralValue;
use es_node::node::Node;
use es_tree::class::{MethodDefinitionRef, PropertyDefinitionRef};
use es_tree::expression::{PropertyRef, SequenceExpressionRef};
use es_tree::literal::LiteralRef;
use std::alloc::{AllocError, Global};

/// The numbers of the nodes whose values the computed keys among these nodes have, and those of the numbers that are keys of
/// fields and properties. Fails on allocation failure alone.
pub fn computed_keys(alloc: Global, nodes: &[&Node]) -> Result<Vec<u32>, AllocError>
    ensures { IfOk result (λ keys. keys.items ≡ spec.computed_keys (seen nodes.now)) }
{
    let mut keys = Vec::new(alloc);
    for node in nodes {
        add_computed_key(node, &mut keys)?;
    }
    Ok(keys)
}

/// Adds the key of the element or the property, if it is computed, or a number and not that of a method. Fails on allocation
/// failure alone.
#[tactic(auto, using(crate::proofs::Keys::no_key))]
fn add_computed_key(node: &Node, keys: &mut Vec<u32>) -> Result<(), AllocError>
    ensures { OnOk result (keys.new.items ≡ keys.old.items ++ spec.computed_key node.now) }
{
    match node.kind() {
        // [k] = 1; 0 = 1;
        Kind::PropertyDefinition => {
            let field = PropertyDefinitionRef::from_node(node);
            add_if(field.computed || is_number_key(field.key), field.key, keys)
        }
        // [k]() {}
        Kind::MethodDefinition => {
            let method = MethodDefinitionRef::from_node(node);
            add_if(method.computed, method.key, keys)
        }
        // { [k]: 1, 0: 1 }
        Kind::Property => {
            let property = PropertyRef::from_node(node);
            add_if(
                property.computed || is_number_key(property.key),
                property.key,
                keys,
            )
        }
        _ => Ok(()),
    }
}

fn add_if(computed: bool, key: &Node, keys: &mut Vec<u32>) -> Result<(), AllocError>
    ensures { OnOk result (keys.new.items ≡ keys.old.items ++ cond computed (spec.value_number key.now) []) }
{
    if !computed {
        return Ok(());
    }
    if let Some(number) = value_number(key) {
        keys.push(number)?;
    }
    Ok(())
}

#[tactic(auto, using(crate::proofs::Keys::number_key, crate::proofs::Keys::no_number_key))]
fn is_number_key(key: &Node) -> bool
    ensures { result ≡ spec.is_number_key (child key.now) }
{
    match key.kind() {
        // 0, 0n
        Kind::Literal => is_number(LiteralRef::from_node(key).value),
        _ => false,
    }
}

fn is_number(value: &LiteralValue) -> bool
    ensures { result ≡ spec.is_number_key (child (tree.Node Kind.Literal 0 None None (more (literal value.now) end))) }
{
    matches!(
        value,
        LiteralValue::Number { .. } | LiteralValue::BigInt { .. }
    )
}

// ---- the node whose value a key has

/// The number of the node whose value this one has: of a sequence that of the last expression.
#[cycle(value)]
#[tactic(auto, using(crate::proofs::Keys::other_value, es_node::proofs::Below::nodes_in))]
fn value_number(node: &Node) -> Option<u32>
    ensures { option_to_list result ≡ spec.value_number node.now }
{
    match node.kind() {
        // (a, b)
        Kind::SequenceExpression => {
            last_value_number(SequenceExpressionRef::from_node(node).expressions)
        }
        _ => Some(node.node_id().0),
    }
}

#[cycle(value)]
#[tactic(auto, using(crate::proofs::Keys::last_value))]
fn last_value_number(expressions: &[Node]) -> Option<u32>
    ensures { option_to_list result ≡ spec.last_value_number (trees expressions.now) }
{
    match last_of(expressions) {
        Some(last) => value_number(last),
        None => None,
    }
}
