// Classes among the nodes of a program.

ghost use Rattle.std.specs.Prelude.{◌≡◌, ◌&&◌, false, true, nat_eq, option_map, IfOk, MatchOption};
ghost use Rattle.es_base.specs.Tree.{child};
ghost use Rattle.es_binding_faults.specs.Seen.{seen};
ghost use Rattle.es_node.specs.View.{kind_of, number_in, parts_in, parts_of};
ghost use Rattle.es_steps.specs.KeptNodes as kept;
ghost use Rattle.es_steps.specs.LoweredClasses as lowered;
ghost use Rattle.es_steps.specs.Parts.{at};
ghost use Rattle.es_steps.specs.PrivateNames.{is_class};
ghost use Rattle.es_steps.specs.Scopes as scopes;
ghost use Rattle.es_owed.specs.KeptNodes.{body_numbers};

use crate::listed::Listed;
use crate::numbers::numbers_below;
use es_base::kind::Kind;
use es_binding_faults::hoisted::part_at;
use es_binding_faults::preorder::preorder;
use es_node::node::{Node, Part};
use es_seen_names::class_in::class_in;
use es_shapes::class::{class_of, elements_of};
use es_shapes::element::element_kinds;
use es_shapes::walk::{NodeTest, any_node};
use es_steps::options::Options;
use es_tree::class::{ClassDeclarationRef, ClassExpressionRef};
use std::alloc::{AllocError, Global};

/// The body of a class.
#[tactic(auto, using(crate::proofs::Nodes::no_class))]
pub fn class_body(node: &Node) -> Option<&Node>
    ensures { MatchOption result (is_class (kind_of node.now) ≡ false) (λ body. (is_class (kind_of node.now) ≡ true) × (at 2 (parts_in node.now) ≡ child body.now)) }
{
    match node.kind() {
        // class A {}
        Kind::ClassDeclaration => Some(ClassDeclarationRef::from_node(node).body),
        // (class {})
        Kind::ClassExpression => Some(ClassExpressionRef::from_node(node).body),
        _ => None,
    }
}

/// The body of a node, if that is the class of this number.
pub fn body_if(class: u32, node: &Node) -> Option<&Node>
    ensures { MatchOption result ((is_class (kind_of node.now) && nat_eq class (number_in node.now)) ≡ false) (λ body. ((is_class (kind_of node.now) && nat_eq class (number_in node.now)) ≡ true) × (at 2 (parts_in node.now) ≡ child body.now)) }
{
    if class == node.node_id().0 {
        class_body(node)
    } else {
        None
    }
}

/// The body of the first class of this number among these nodes.
#[tactic(auto, using(crate::proofs::Nodes::numbers_here, crate::proofs::Nodes::numbers_behind))]
fn body_of_class<'a>(class: u32, nodes: &[&'a Node]) -> Option<&'a Node>
    ensures { body_numbers (option_map (λ x. x.now) result) ≡ kept.numbers_in_class class (seen nodes.now) }
{
    for node in nodes {
        if let Some(body) = body_if(class, node) {
            return Some(body);
        }
    }
    None
}

/// The numbers of the nodes in the body of this class of a program. Fails on allocation failure alone.
#[tactic(auto, using(crate::proofs::NumberedNodes::in_class_numbered))]
pub fn numbers_in_class(alloc: Global, class: u32, program: &Listed) -> Result<Vec<u32>, AllocError>
    ensures { IfOk result (λ r. r.items ≡ kept.numbers_in_class class (seen program.now.nodes.items)) }
{
    match body_of_class(class, program.numbered(class)) {
        Some(body) => numbers_below(alloc, body),
        None => Ok(Vec::new(alloc)),
    }
}

/// Whether the node is a class that the options lower.
#[tactic(auto, using(crate::proofs::Nodes::lowered_by_class))]
pub fn is_lowered_class(options: &Options, node: &Node) -> bool
    ensures { result ≡ lowered.is_lowered_class options.now (kind_of node.now) (parts_in node.now) }
{
    match class_of(node) {
        Some(class) => element_kinds(options, elements_of(class.body)).has_lowered,
        None => false,
    }
}

/// Whether a class in the node, or the node itself, is lowered.
pub fn has_lowered_class(options: &Options, node: &Node) -> bool
    ensures { result ≡ lowered.has_lowered_class options.now node.now }
{
    let test = IsLoweredClass { options: *options };
    any_node(&test, node)
}

/// Whether a node is a class that the options lower.
#[derive(Drop)]
struct IsLoweredClass {
    options: Options,
}

impl NodeTest for IsLoweredClass {
    ghost passes = { λ k t. lowered.is_lowered_class k.options (kind_of t) (parts_in t) };

    fn passes(&self, node: &Node) -> bool
        ensures { result ≡ lowered.is_lowered_class self.now.options (kind_of node.now) (parts_in node.now) }
    {
        is_lowered_class(&self.options, node)
    }
}

// ---- the class in an initializer

/// The number of the first class expression in a node, in preorder. Fails on allocation failure alone.
pub fn class_below(alloc: Global, node: &Node) -> Result<Option<u32>, AllocError>
    ensures { IfOk result (λ class. class ≡ scopes.class_in (child node.now)) }
{
    let nodes = preorder(alloc, node)?;
    Ok(first_class(nodes.as_slice()))
}

/// The number of the first class expression in the part at this place. Fails on allocation failure alone.
pub fn class_at(alloc: Global, parts: &[Part], i: usize) -> Result<Option<u32>, AllocError>
    ensures { IfOk result (λ class. class ≡ scopes.class_in (at i (parts_of parts.now))) }
{
    match part_at(parts, i) {
        Some(part) => class_in(alloc, part),
        None => Ok(None),
    }
}

fn first_class(nodes: &[&Node]) -> Option<u32>
    ensures { result ≡ scopes.first_class (seen nodes.now) }
{
    for node in nodes {
        if is_class_expression(node) {
            return Some(node.node_id().0);
        }
    }
    None
}

fn is_class_expression(node: &Node) -> bool
    ensures { result ≡ scopes.is_class_expression (kind_of node.now) }
{
    matches!(node.kind(), Kind::ClassExpression)
}
