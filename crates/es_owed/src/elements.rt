// The elements of classes that are not lowered stay.

ghost use Rattle.std.specs.Prelude.{◌≡◌, ◌||◌, ◌++◌, ◌∷◌, [], cond, not, option_map, IfOk, OnOk};
ghost use Rattle.std.specs.Option.{option_to_list};
ghost use Rattle.es_base.specs.Preorder.{preorder};
ghost use Rattle.es_base.specs.Tree.{child};
ghost use Rattle.es_binding_faults.specs.Seen.{seen};
ghost use Rattle.es_node.specs.View.{kind_of, number_in, parts_in};
ghost use Rattle.es_shapes.specs.Classes.{element_view};
ghost use Rattle.es_lowered.specs.Definitions as spec;
ghost use Rattle.es_steps.specs.KeptNodes as kept;
ghost use Rattle.es_steps.specs.LoweredClasses as classes;
ghost use Rattle.es_steps.specs.LoweredClasses.{element_of};
ghost use Rattle.es_steps.specs.PrivateNames.{is_class};
ghost use Rattle.es_owed.specs.Elements.{all_in, kept_in, kept_numbers};

use crate::classes::{body_if, class_body};
use crate::listed::Listed;
use crate::numbers::is_within;
use es_node::node::Node;
use es_shapes::asked::{lowers_blocks, lowers_fields};
use es_shapes::class::elements_of;
use es_shapes::element::{ElementRef, element_of};
use es_steps::options::Options;
use std::alloc::{AllocError, Global};

/// Whether the methods, constructors and all other elements of each class that the options do not lower stand in the body of
/// that class, in their order. Fails on allocation failure alone.
pub fn elements_kept(
    alloc: Global,
    options: &Options,
    source: &Listed,
    lowered: &Listed,
) -> Result<bool, AllocError>
    ensures { IfOk result (λ holds. holds ≡ spec.elements_kept options.now (preorder source.now.program.now) (preorder lowered.now.program.now)) }
{
    elements_stay(alloc, options, source.nodes.as_slice(), lowered)
}

#[tactic(auto, using(crate::proofs::Staying::elements_more))]
fn elements_stay(
    alloc: Global,
    options: &Options,
    source: &[&Node],
    lowered: &Listed,
) -> Result<bool, AllocError>
    ensures { IfOk result (λ holds. holds ≡ spec.elements_kept options.now (seen source.now) (seen lowered.now.nodes.items)) }
{
    for node in source {
        if !class_stays(alloc, options, node, lowered)? {
            return Ok(false);
        }
    }
    Ok(true)
}

/// The same of one node, if that is a class. Fails on allocation failure alone.
#[tactic(auto, using(crate::proofs::Staying::elements_by_body, crate::proofs::NumberedNodes::body_numbered))]
fn class_stays(
    alloc: Global,
    options: &Options,
    node: &Node,
    lowered: &Listed,
) -> Result<bool, AllocError>
    ensures { IfOk result (λ holds. holds ≡ (not (is_class (kind_of node.now)) || kept.is_within (kept_numbers options.now (classes.elements_of (parts_in node.now))) (spec.body_numbers (number_in node.now) (seen lowered.now.nodes.items)))) }
{
    match class_body(node) {
        Some(body) => {
            let number = node.node_id().0;
            let numbers = kept_numbers(alloc, options, body)?;
            let there = body_numbers(alloc, number, lowered.numbered(number))?;
            Ok(is_within(numbers.as_slice(), there.as_slice()))
        }
        None => Ok(true),
    }
}

// ---- the elements of the source

/// The numbers of the elements of a body that are not lowered. Fails on allocation failure alone.
#[tactic(auto, using(crate::proofs::Staying::kept_by_element))]
fn kept_numbers(alloc: Global, options: &Options, body: &Node) -> Result<Vec<u32>, AllocError>
    ensures { IfOk result (λ numbers. numbers.items ≡ kept_numbers options.now (classes.body_elements (child body.now))) }
{
    kept_in(alloc, options, elements_of(body))
}

fn kept_in(alloc: Global, options: &Options, elements: &[Node]) -> Result<Vec<u32>, AllocError>
    ensures { IfOk result (λ numbers. numbers.items ≡ kept_in options.now elements.now) }
{
    let mut numbers = Vec::new(alloc);
    for element in elements {
        add_kept(options, element_of(element), &mut numbers)?;
    }
    Ok(numbers)
}

/// Adds the number of an element, unless the options lower it. Fails on allocation failure alone.
fn add_kept(
    options: &Options,
    element: Option<ElementRef>,
    numbers: &mut Vec<u32>,
) -> Result<(), AllocError>
    ensures { OnOk result (numbers.new.items ≡ numbers.old.items ++ kept_numbers options.now (option_to_list (option_map element_view element.entry))) }
{
    match element {
        Some(element) => add_unless(
            is_lowered_element(options, &element),
            element.node_id.0,
            numbers,
        ),
        None => Ok(()),
    }
}

fn add_unless(is_lowered: bool, number: u32, numbers: &mut Vec<u32>) -> Result<(), AllocError>
    ensures { OnOk result (numbers.new.items ≡ numbers.old.items ++ cond is_lowered [] (number ∷ [])) }
{
    if !is_lowered {
        numbers.push(number)?;
    }
    Ok(())
}

fn is_lowered_element(options: &Options, element: &ElementRef) -> bool
    ensures { result ≡ classes.is_lowered_element options.now (element_view element.now) }
{
    (lowers_fields(options) && (element.is_field || element.is_private))
        || (lowers_blocks(options) && element.is_block)
}

// ---- the elements that stand

/// The numbers of the elements in the body of the first class of this number. Fails on allocation failure alone.
#[tactic(auto, using(crate::proofs::Staying::numbers_here, crate::proofs::Staying::numbers_behind))]
fn body_numbers(alloc: Global, class: u32, nodes: &[&Node]) -> Result<Vec<u32>, AllocError>
    ensures { IfOk result (λ numbers. numbers.items ≡ spec.body_numbers class (seen nodes.now)) }
{
    for node in nodes {
        if let Some(body) = body_if(class, node) {
            return all_numbers(alloc, body);
        }
    }
    Ok(Vec::new(alloc))
}

#[tactic(auto, using(crate::proofs::Staying::all_by_element))]
fn all_numbers(alloc: Global, body: &Node) -> Result<Vec<u32>, AllocError>
    ensures { IfOk result (λ numbers. numbers.items ≡ spec.element_numbers (classes.body_elements (child body.now))) }
{
    all_in(alloc, elements_of(body))
}

fn all_in(alloc: Global, elements: &[Node]) -> Result<Vec<u32>, AllocError>
    ensures { IfOk result (λ numbers. numbers.items ≡ all_in elements.now) }
{
    let mut numbers = Vec::new(alloc);
    for element in elements {
        add_element(element_of(element), &mut numbers)?;
    }
    Ok(numbers)
}

/// Adds the number of an element. Fails on allocation failure alone.
fn add_element(element: Option<ElementRef>, numbers: &mut Vec<u32>) -> Result<(), AllocError>
    ensures { OnOk result (numbers.new.items ≡ numbers.old.items ++ spec.element_numbers (option_to_list (option_map element_view element.entry))) }
{
    if let Some(element) = element {
        numbers.push(element.node_id.0)?;
    }
    Ok(())
}
