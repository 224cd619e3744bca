// What is known of a lowered program: the calls that name classes by `this`, converted keys, and private names that are new.

ghost use Rattle.std.specs.Prelude.{◌≡◌, IfOk};
ghost use Rattle.es_base.specs.Preorder.{preorder_of};
ghost use Rattle.es_base.specs.Tree.{child};
ghost use Rattle.es_base.specs.declared.kind.Kind.{Kind};
ghost use Rattle.es_binding_faults.specs.Seen.{seen};
ghost use Rattle.es_lowered.specs.HelperCalls as spec;
ghost use Rattle.es_node.specs.View.{kind_of, parts_in};
ghost use Rattle.es_owed_calls.specs.Conversions.{conversions_view, new_private_name, private_key};
ghost use Rattle.es_owed_calls.specs.Strings.{if_string, strings};

use crate::helper::is_key_conversion;
use crate::naming::naming_calls;
use crate::spelled::{add_name, generated_spelling};
use crate::terms::CallTerms;
use es_base::kind::Kind;
use es_binding_faults::preorder::preorder;
use es_generated::numbers::is_new;
use es_node::node::Node;
use es_number_set::NumberSet;
use es_tree::class::PropertyDefinitionRef;
use es_tree::expression::{AssignmentExpressionRef, PrivateFieldRef, PropertyRef};
use es_validity::names::name_of;
use std::alloc::{AllocError, Global};

/// What is known of a lowered program.
#[derive(Drop)]
pub struct Conversions<'a> {
    /// The numbers of the calls that name classes by `this`.
    pub naming: NumberSet,
    /// The generated names that are given a converted key.
    pub converted: Vec<&'a str>,
    /// The private names that are new.
    pub privates: Vec<&'a str>,
}

/// What these nodes say. Fails on allocation failure alone.
pub fn conversions_in<'a>(
    alloc: Global,
    terms: &CallTerms,
    nodes: &[&'a Node],
) -> Result<Conversions<'a>, AllocError>
    ensures { IfOk result (λ x. conversions_view x ≡ spec.conversions terms.now.first terms.now.ledger.now (seen nodes.now)) }
{
    let numbers = naming_calls(alloc, terms, nodes)?;
    let naming = NumberSet::of(alloc, numbers)?;
    let converted = converted_keys(alloc, terms, nodes)?;
    let privates = new_private_names(alloc, terms, nodes)?;
    Ok(Conversions {
        naming,
        converted,
        privates,
    })
}

// ---- converted keys

/// The generated names that `babelHelpers.toPropertyKey` gives a key. Fails on allocation failure alone.
fn converted_keys<'a>(
    alloc: Global,
    terms: &CallTerms,
    nodes: &[&'a Node],
) -> Result<Vec<&'a str>, AllocError>
    ensures { IfOk result (λ r. strings r.items ≡ spec.converted_keys terms.now.first terms.now.ledger.now (seen nodes.now)) }
{
    let mut converted = Vec::new(alloc);
    for node in nodes {
        add_name(converted_key(terms, node), &mut converted)?;
    }
    Ok(converted)
}

#[tactic(auto, using(crate::proofs::ConversionNodes::none_converted))]
fn converted_key<'a>(terms: &CallTerms, node: &'a Node) -> Option<&'a str>
    ensures { if_string result ≡ spec.converted_key terms.now.first terms.now.ledger.now node.now }
{
    match node.kind() {
        // _key = babelHelpers.toPropertyKey(k)
        Kind::AssignmentExpression => {
            let assignment = AssignmentExpressionRef::from_node(node);
            if is_key_conversion(terms, assignment.right) {
                generated_spelling(terms, assignment.left)
            } else {
                None
            }
        }
        _ => None,
    }
}

// ---- private names

/// The new private names of the fields among these nodes. Fails on allocation failure alone.
#[tactic(auto, using(crate::proofs::ConversionNodes::names_more))]
fn new_private_names<'a>(
    alloc: Global,
    terms: &CallTerms,
    nodes: &[&'a Node],
) -> Result<Vec<&'a str>, AllocError>
    ensures { IfOk result (λ r. strings r.items ≡ spec.new_private_names terms.now.first terms.now.ledger.now (seen nodes.now)) }
{
    let mut names = Vec::new(alloc);
    for node in nodes {
        add_name(new_private_name(terms, node), &mut names)?;
    }
    Ok(names)
}

#[tactic(auto, using(crate::proofs::ConversionNodes::no_field))]
fn new_private_name<'a>(terms: &CallTerms, node: &'a Node) -> Option<&'a str>
    ensures { if_string result ≡ new_private_name terms.now.first terms.now.ledger.now node.now }
{
    match node.kind() {
        // #x = 1;
        Kind::PropertyDefinition => {
            let key = PropertyDefinitionRef::from_node(node).key;
            if is_new_private(terms, key) {
                Some(name_of(key))
            } else {
                None
            }
        }
        _ => None,
    }
}

/// Whether the node is a private name that is new.
#[tactic(auto, using(crate::proofs::ConversionNodes::private_node, crate::proofs::ConversionNodes::no_private))]
pub fn is_new_private(terms: &CallTerms, key: &Node) -> bool
    ensures { result ≡ spec.is_new_private terms.now.first terms.now.ledger.now (child key.now) }
{
    match key.kind() {
        // #x
        Kind::PrivateIdentifier => is_new(terms.first, key.node_id().0),
        _ => false,
    }
}

/// The private names that keys of new properties among these nodes are read from. Fails on allocation failure alone.
#[tactic(auto, using(crate::proofs::ConversionNodes::keys_more))]
fn private_keys<'a>(
    alloc: Global,
    terms: &CallTerms,
    nodes: &[&'a Node],
) -> Result<Vec<&'a str>, AllocError>
    ensures { IfOk result (λ r. strings r.items ≡ spec.private_keys terms.now.first terms.now.ledger.now (seen nodes.now)) }
{
    let mut names = Vec::new(alloc);
    for node in nodes {
        add_name(private_key(terms, node), &mut names)?;
    }
    Ok(names)
}

/// The same of the nodes in the body of a class. Fails on allocation failure alone.
#[tactic(auto, using(crate::proofs::ConversionNodes::keys_below))]
pub fn private_keys_inside<'a>(
    alloc: Global,
    terms: &CallTerms,
    body: &'a Node,
) -> Result<Vec<&'a str>, AllocError>
    requires { kind_of body.now ≡ Kind.ClassBody }
    ensures { IfOk result (λ r. strings r.items ≡ spec.private_keys terms.now.first terms.now.ledger.now (preorder_of (parts_in body.now))) }
{
    let nodes = preorder(alloc, body)?;
    private_keys(alloc, terms, nodes.as_slice())
}

#[tactic(auto, using(crate::proofs::ConversionNodes::no_property))]
fn private_key<'a>(terms: &CallTerms, node: &'a Node) -> Option<&'a str>
    ensures { if_string result ≡ private_key terms.now.first terms.now.ledger.now node.now }
{
    match node.kind() {
        // { [A.#x]: e }
        Kind::Property => {
            let property = PropertyRef::from_node(node);
            if is_new(terms.first, property.node_id.0) && property.computed {
                private_spelling(terms, property.key)
            } else {
                None
            }
        }
        _ => None,
    }
}

#[tactic(auto, using(crate::proofs::ConversionNodes::no_private_field))]
fn private_spelling<'a>(terms: &CallTerms, node: &'a Node) -> Option<&'a str>
    ensures { if_string result ≡ spec.private_spelling terms.now.first terms.now.ledger.now (child node.now) }
{
    match node.kind() {
        // A.#x
        Kind::PrivateField => Some(name_of(PrivateFieldRef::from_node(node).property)),
        _ => None,
    }
}
