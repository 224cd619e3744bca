// What stands in a class: in its heritage and keys, and in its elements.

ghost use Rattle.std.specs.Prelude.{◌≡◌, ◌++◌, IfOk, OnOk};
ghost use Rattle.es_base.specs.Preorder.{preorder, preorder_of};
ghost use Rattle.es_base.specs.Tree.{child, trees};
ghost use Rattle.es_binding_faults.specs.Seen.{seen};
ghost use Rattle.es_lowered.specs.ClassNames as spec;
ghost use Rattle.es_node.specs.View.{parts_in};
ghost use Rattle.es_owed_class_names.specs.Inside.{element_number, numbers_in, runs_by};

use crate::lists::without;
use es_base::kind::Kind;
use es_node::node::Node;
use es_owed::classes::body_if;
use es_owed::listed::Listed;
use es_owed::numbers::{numbers_below, numbers_of};
use es_owed_initialized::inner::nodes_of_class;
use es_owed_initialized::numbers::add_numbers;
use es_owed_initialized::runs::body_runs;
use es_tree::class::{ClassBodyRef, MethodDefinitionRef, PropertyDefinitionRef};
use std::alloc::{AllocError, Global};

/// The numbers of what stands in the heritage and keys of this class. Fails on allocation failure alone.
pub fn head_numbers(alloc: Global, class: u32, listed: &Listed) -> Result<Vec<u32>, AllocError>
    ensures { IfOk result (λ r. r.items ≡ spec.head_numbers class (preorder listed.now.program.now)) }
{
    let inside = numbers_inside(alloc, class, listed)?;
    let all = numbers_of_class(alloc, class, listed)?;
    without(alloc, inside.as_slice(), all.as_slice())
}

/// The numbers of what stands in this class. Fails on allocation failure alone.
pub fn numbers_of_class(alloc: Global, class: u32, listed: &Listed) -> Result<Vec<u32>, AllocError>
    ensures { IfOk result (λ r. r.items ≡ spec.numbers_of_class class (preorder listed.now.program.now)) }
{
    let inner = nodes_of_class(alloc, class, listed.numbered(class))?;
    numbers_of(alloc, inner.as_slice())
}

// ---- what stands in elements

/// The numbers of what stands in the elements of this class, but for their keys. Fails on allocation failure alone.
pub fn numbers_inside(alloc: Global, class: u32, listed: &Listed) -> Result<Vec<u32>, AllocError>
    ensures { IfOk result (λ r. r.items ≡ spec.numbers_inside class (preorder listed.now.program.now)) }
{
    numbers_inside_any(alloc, class, listed.numbered(class))
}

#[tactic(auto, using(crate::proofs::ClassNodes::inside_more))]
fn numbers_inside_any(alloc: Global, class: u32, nodes: &[&Node]) -> Result<Vec<u32>, AllocError>
    ensures { IfOk result (λ r. r.items ≡ spec.numbers_inside class (seen nodes.now)) }
{
    let mut numbers = Vec::new(alloc);
    for node in nodes {
        add_inside(alloc, class, node, &mut numbers)?;
    }
    Ok(numbers)
}

/// Adds those in a node, if that is this class. Fails on allocation failure alone.
#[tactic(auto, using(crate::proofs::ClassNodes::in_class, crate::proofs::ClassNodes::in_other))]
fn add_inside(
    alloc: Global,
    class: u32,
    node: &Node,
    numbers: &mut Vec<u32>,
) -> Result<(), AllocError>
    ensures { OnOk result (numbers.new.items ≡ numbers.old.items ++ numbers_in class node.now) }
{
    match body_if(class, node) {
        Some(body) => add_of_body(alloc, body, numbers),
        None => Ok(()),
    }
}

#[tactic(auto, using(crate::proofs::ClassNodes::no_body))]
fn add_of_body(alloc: Global, body: &Node, numbers: &mut Vec<u32>) -> Result<(), AllocError>
    ensures { OnOk result (numbers.new.items ≡ numbers.old.items ++ spec.body_numbers (child body.now)) }
{
    match body.kind() {
        // { a = 1; }
        Kind::ClassBody => add_of_elements(alloc, ClassBodyRef::from_node(body).body, numbers),
        _ => Ok(()),
    }
}

#[tactic(auto, using(crate::proofs::ClassNodes::element_more))]
fn add_of_elements(
    alloc: Global,
    elements: &[Node],
    numbers: &mut Vec<u32>,
) -> Result<(), AllocError>
    ensures { OnOk result (numbers.new.items ≡ numbers.old.items ++ spec.element_numbers (trees elements.now)) }
{
    for element in elements {
        add_of_element(alloc, element, numbers)?;
    }
    Ok(())
}

/// Adds the numbers of what stands in an element, but for its key. Fails on allocation failure alone.
#[tactic(auto, using(crate::proofs::ClassNodes::method_element, crate::proofs::ClassNodes::field_element, crate::proofs::ClassNodes::other_element))]
fn add_of_element(alloc: Global, element: &Node, numbers: &mut Vec<u32>) -> Result<(), AllocError>
    ensures { OnOk result (numbers.new.items ≡ numbers.old.items ++ element_number element.now) }
{
    match element.kind() {
        // m() {}
        Kind::MethodDefinition => {
            let below = numbers_below(alloc, MethodDefinitionRef::from_node(element).value)?;
            add_numbers(below.as_slice(), numbers)
        }
        // a = 1;
        Kind::PropertyDefinition => match PropertyDefinitionRef::from_node(element).value {
            Some(value) => {
                let below = numbers_below(alloc, value)?;
                add_numbers(below.as_slice(), numbers)
            }
            None => Ok(()),
        },
        // static {}
        _ => add_below(alloc, element, numbers),
    }
}

/// Adds the numbers of the nodes below a node. Fails on allocation failure alone.
#[tactic(auto, using(crate::proofs::ClassNodes::numbers_with))]
fn add_below(alloc: Global, node: &Node, numbers: &mut Vec<u32>) -> Result<(), AllocError>
    ensures { OnOk result (numbers.new.items ≡ numbers.old.items ++ spec.numbers_of (preorder_of (parts_in node.now))) }
{
    let all = numbers_below(alloc, node)?;
    match all.as_slice() {
        [_, below @ ..] => add_numbers(below, numbers),
        [] => Ok(()),
    }
}

// ---- elements that run with the class

/// Whether this class has elements that run with it.
#[tactic(auto, using(crate::proofs::ClassNodes::runs_numbered))]
pub fn class_runs(class: u32, listed: &Listed) -> bool
    ensures { result ≡ spec.class_runs class (preorder listed.now.program.now) }
{
    any_runs(class, listed.numbered(class))
}

#[tactic(auto, using(crate::proofs::ClassNodes::runs_more))]
fn any_runs(class: u32, nodes: &[&Node]) -> bool
    ensures { result ≡ spec.class_runs class (seen nodes.now) }
{
    for node in nodes {
        if is_running(class, node) {
            return true;
        }
    }
    false
}

#[tactic(auto, using(crate::proofs::ClassNodes::runs_class, crate::proofs::ClassNodes::runs_other))]
fn is_running(class: u32, node: &Node) -> bool
    ensures { result ≡ runs_by class node.now }
{
    match body_if(class, node) {
        Some(body) => body_runs(body),
        None => false,
    }
}
