// Classes with those that stand in them.

ghost use Rattle.std.specs.Prelude.{◌≡◌, ◌++◌, ◌∷◌, ◌&&◌, [], cond, nat_eq, IfOk, OnOk};
ghost use Rattle.es_base.specs.Preorder.{preorder_of, preorder_of_part};
ghost use Rattle.es_base.specs.Tree.{child};
ghost use Rattle.es_binding_faults.specs.Seen.{seen};
ghost use Rattle.es_node.specs.View.{kind_of, number_in, parts_in};
ghost use Rattle.es_steps.specs.PrivateNames as names;
ghost use Rattle.es_lowered.specs.ClassNames as class_names;
ghost use Rattle.es_lowered.specs.Lowered as spec;
ghost use Rattle.es_lowered.specs.Temporaries.{nodes_of_class};

use crate::kinds::is_class;
use crate::numbers::{add_numbers, without};
use es_base::kind::Kind;
use es_binding_faults::preorder::preorder;
use es_node::node::Node;
use es_owed::listed::Listed;
use es_owed::numbers::numbers_below;
use es_shapes::element::is_private_key;
use es_tree::class::MethodDefinitionRef;
use std::alloc::{AllocError, Global};

/// This class of a source, and those that stand in it, but for those in functions of private methods. Fails on allocation failure
/// alone.
#[tactic(auto, using(crate::proofs::InnerClasses::nodes_numbered))]
pub fn with_inner(alloc: Global, class: u32, source: &Listed) -> Result<Vec<u32>, AllocError>
    ensures { IfOk result (λ r. r.items ≡ spec.with_inner (seen source.now.nodes.items) (class ∷ [])) }
{
    let mut classes = Vec::new(alloc);
    classes.push(class)?;
    let inner = nodes_of_class(alloc, class, source.numbered(class))?;
    add_inner(alloc, inner.as_slice(), &mut classes)?;
    Ok(classes)
}

/// Adds the numbers of the classes among the nodes of a class, but for those in functions of private methods. Fails on
/// allocation failure alone.
fn add_inner(alloc: Global, nodes: &[&Node], classes: &mut Vec<u32>) -> Result<(), AllocError>
    ensures { OnOk result (classes.new.items ≡ classes.old.items ++ class_names.without (spec.private_numbers (seen nodes.now)) (class_names.class_numbers (seen nodes.now))) }
{
    let inner = class_numbers(alloc, nodes)?;
    let behind = private_numbers(alloc, nodes)?;
    let before = without(alloc, behind.as_slice(), inner.as_slice())?;
    add_numbers(before.as_slice(), classes)
}

/// The numbers of the classes among these nodes. Fails on allocation failure alone.
#[tactic(auto, using(crate::proofs::InnerClasses::more_classes))]
pub fn class_numbers(alloc: Global, nodes: &[&Node]) -> Result<Vec<u32>, AllocError>
    ensures { IfOk result (λ r. r.items ≡ class_names.class_numbers (seen nodes.now)) }
{
    let mut numbers = Vec::new(alloc);
    for node in nodes {
        add_class(node, &mut numbers)?;
    }
    Ok(numbers)
}

fn add_class(node: &Node, numbers: &mut Vec<u32>) -> Result<(), AllocError>
    ensures { OnOk result (numbers.new.items ≡ numbers.old.items ++ cond (names.is_class (kind_of node.now)) (number_in node.now ∷ []) []) }
{
    if is_class(node.kind()) {
        numbers.push(node.node_id().0)?;
    }
    Ok(())
}

/// The numbers of what stands in the functions of private methods among these nodes. Fails on allocation failure alone.
#[tactic(auto, using(crate::proofs::InnerClasses::more_private))]
fn private_numbers(alloc: Global, nodes: &[&Node]) -> Result<Vec<u32>, AllocError>
    ensures { IfOk result (λ r. r.items ≡ spec.private_numbers (seen nodes.now)) }
{
    let mut numbers = Vec::new(alloc);
    for node in nodes {
        add_private(alloc, node, &mut numbers)?;
    }
    Ok(numbers)
}

/// Adds the numbers of what stands in the function of a private method. Fails on allocation failure alone.
#[tactic(auto, using(crate::proofs::InnerClasses::private_method, crate::proofs::InnerClasses::no_method))]
fn add_private(alloc: Global, node: &Node, numbers: &mut Vec<u32>) -> Result<(), AllocError>
    ensures { OnOk result (numbers.new.items ≡ numbers.old.items ++ spec.private_numbers (node.now ∷ [])) }
{
    match node.kind() {
        // #m() {}
        Kind::MethodDefinition => {
            let method = MethodDefinitionRef::from_node(node);
            add_below_if(alloc, is_private_key(method.key), method.value, numbers)
        }
        _ => Ok(()),
    }
}

fn add_below_if(
    alloc: Global,
    is_private: bool,
    function: &Node,
    numbers: &mut Vec<u32>,
) -> Result<(), AllocError>
    ensures { OnOk result (numbers.new.items ≡ numbers.old.items ++ cond is_private (class_names.numbers_of (preorder_of_part (child function.now))) []) }
{
    if is_private {
        let below = numbers_below(alloc, function)?;
        add_numbers(below.as_slice(), numbers)?;
    }
    Ok(())
}

/// The nodes in the classes of this number. Fails on allocation failure alone.
#[tactic(auto, using(crate::proofs::InnerClasses::more_nodes))]
pub fn nodes_of_class<'a>(
    alloc: Global,
    class: u32,
    nodes: &[&'a Node],
) -> Result<Vec<&'a Node>, AllocError>
    ensures { IfOk result (λ r. seen r.items ≡ nodes_of_class class (seen nodes.now)) }
{
    let mut inner = Vec::new(alloc);
    for node in nodes {
        add_if_of_class(alloc, class, node, &mut inner)?;
    }
    Ok(inner)
}

fn add_if_of_class<'a>(
    alloc: Global,
    class: u32,
    node: &'a Node,
    inner: &mut Vec<&'a Node>,
) -> Result<(), AllocError>
    ensures { OnOk result (seen inner.new.items ≡ seen inner.old.items ++ cond (names.is_class (kind_of node.now) && nat_eq class (number_in node.now)) (preorder_of (parts_in node.now)) []) }
{
    if is_class(node.kind()) && class == node.node_id().0 {
        add_below(alloc, node, inner)?;
    }
    Ok(())
}

/// Adds the nodes below a node, in preorder. Fails on allocation failure alone.
#[tactic(auto, using(crate::proofs::InnerClasses::below_node))]
fn add_below<'a>(alloc: Global, node: &'a Node, nodes: &mut Vec<&'a Node>) -> Result<(), AllocError>
    ensures { OnOk result (seen nodes.new.items ≡ seen nodes.old.items ++ preorder_of (parts_in node.now)) }
{
    let all = preorder(alloc, node)?;
    match all.as_slice() {
        [_, below @ ..] => add_all(below, nodes),
        [] => Ok(()),
    }
}

fn add_all<'a>(more: &[&'a Node], nodes: &mut Vec<&'a Node>) -> Result<(), AllocError>
    ensures { OnOk result (seen nodes.new.items ≡ seen nodes.old.items ++ seen more.now) }
{
    for node in more {
        nodes.push(*node)?;
    }
    Ok(())
}
