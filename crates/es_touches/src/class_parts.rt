// The nodes of the classes of a program that are told apart: of the heritage, of keys, and of what moves in front of the heritage.

ghost use Rattle.std.specs.Prelude.{◌≡◌, ◌++◌, ◌∷◌, ◌&&◌, [], Some, not, IfOk, OnOk};
ghost use Rattle.es_base.specs.Tree.{child, trees};
ghost use Rattle.es_binding_faults.specs.Seen.{seen};
ghost use Rattle.es_lowered.specs.DeadZones as spec;
ghost use Rattle.es_node.specs.View.{part_of};
ghost use Rattle.es_shapes.specs.Classes.{class_of, class_view};
ghost use Rattle.es_steps.specs.Options.{lowers_blocks};
ghost use Rattle.es_steps.specs.LoweredClasses.{element_of, elements_in};
ghost use Rattle.es_steps.specs.References.{resolve, written};
ghost use Rattle.es_steps.specs.Shapes.{ClassAt};
ghost use Rattle.es_touches.specs.ClassNodes.{is_still, keys_of, moved_block, moving_of, parts_if, parts_of_class, passed_if};
ghost use Rattle.es_touches.specs.Touches as code;
ghost use Rattle.es_touches.specs.Touches.{classes_of};

use crate::below::{add_numbers_of, numbers_inside};
use crate::source::ClassParts;
use es_base::kind::Kind;
use es_node::node::{Node, Part};
use es_owed_initialized::kinds::is_element;
use es_owed_initialized::numbers::add_numbers;
use es_shapes::asked::{lowers_blocks, lowers_fields};
use es_shapes::class::{ClassRef, class_of, elements_of};
use es_shapes::class_head::names_itself;
use es_shapes::element::{ElementKinds, element_kinds, element_of};
use es_shapes::facts::NameFacts;
use es_shapes::heritage::needs_temporary;
use es_steps::options::Options;
use es_tree::class::ClassBodyRef;
use std::alloc::{AllocError, Global};

/// The classes among these nodes, where the facts are of their program. Fails on allocation failure alone.
#[tactic(auto, using(crate::proofs::ClassNodes::classes_more))]
pub fn class_parts<F: NameFacts>(
    alloc: Global,
    options: &Options,
    facts: &F,
    nodes: &[&Node],
) -> Result<Vec<ClassParts>, AllocError>
    ensures { IfOk result (λ r. classes_of r.items ≡ spec.class_parts options.now (written (F.program facts.now)) (resolve (F.program facts.now)) (seen nodes.now)) }
{
    let mut classes = Vec::new(alloc);
    for node in nodes {
        add_class(alloc, options, facts, node, &mut classes)?;
    }
    Ok(classes)
}

fn add_class<F: NameFacts>(
    alloc: Global,
    options: &Options,
    facts: &F,
    node: &Node,
    classes: &mut Vec<ClassParts>,
) -> Result<(), AllocError>
    ensures { OnOk result (classes_of classes.new.items ≡ classes_of classes.old.items ++ parts_if options.now (written (F.program facts.now)) (resolve (F.program facts.now)) (class_of node.now)) }
{
    match class_of(node) {
        // class A extends B { [c]; static {} }
        Some(class) => {
            let parts = parts_of(alloc, options, facts, is_still(node), class)?;
            classes.push(parts)?;
            Ok(())
        }
        None => Ok(()),
    }
}

/// Whether the node is a class expression whose making is no event.
#[tactic(auto, using(crate::proofs::ClassNodes::still_expression, crate::proofs::ClassNodes::still_no_expression))]
fn is_still(node: &Node) -> bool
    ensures { (k : ClassAt) → Some k ≡ class_of node.now → is_still k ≡ result }
{
    match node.kind() {
        // (class A {})
        Kind::ClassExpression => !names_itself(node),
        _ => false,
    }
}

fn parts_of<F: NameFacts>(
    alloc: Global,
    options: &Options,
    facts: &F,
    is_still: bool,
    class: ClassRef,
) -> Result<ClassParts, AllocError>
    ensures { IfOk result (λ r. code.class_of r ≡ parts_of_class is_still options.now (written (F.program facts.now)) (resolve (F.program facts.now)) (class_view class.entry)) }
{
    let passed = passed_numbers(alloc, options, is_still, class)?;
    let mut keys = Vec::new(alloc);
    add_keys(class_elements(class.body), &mut keys)?;
    let mut moving = Vec::new(alloc);
    add_moving(alloc, options, facts, class, &mut moving)?;
    Ok(ClassParts {
        number: class.node_id.0,
        passed,
        keys,
        moving,
    })
}

/// The heritage of a class where fields are lowered, and the class if its making is no event. Fails on allocation failure alone.
fn passed_numbers(
    alloc: Global,
    options: &Options,
    is_still: bool,
    class: ClassRef,
) -> Result<Vec<u32>, AllocError>
    ensures { IfOk result (λ r. r.items ≡ passed_if is_still options.now (class_view class.entry)) }
{
    let mut passed = Vec::new(alloc);
    if lowers_fields(options) {
        add_numbers_of(alloc, class.super_class, &mut passed)?;
    }
    if is_still {
        passed.push(class.node_id.0)?;
    }
    Ok(passed)
}

/// The elements in the body of a class.
#[tactic(auto, using(crate::proofs::ClassNodes::no_elements))]
fn class_elements(body: &Node) -> &[Node]
    ensures { trees result.now ≡ spec.class_elements (child body.now) }
{
    match body.kind() {
        Kind::ClassBody => ClassBodyRef::from_node(body).body,
        _ => &[],
    }
}

// ---- keys that are references

#[tactic(auto, using(crate::proofs::ClassNodes::keys_more))]
fn add_keys(elements: &[Node], numbers: &mut Vec<u32>) -> Result<(), AllocError>
    ensures { OnOk result (numbers.new.items ≡ numbers.old.items ++ spec.key_references (trees elements.now)) }
{
    for element in elements {
        add_key(element, numbers)?;
    }
    Ok(())
}

#[tactic(auto, using(crate::proofs::ClassNodes::key_first, crate::proofs::ClassNodes::key_none))]
fn add_key(element: &Node, numbers: &mut Vec<u32>) -> Result<(), AllocError>
    ensures { OnOk result (numbers.new.items ≡ numbers.old.items ++ keys_of element.now) }
{
    match element.parts() {
        [key, ..] => {
            if is_element(element.kind()) {
                add_reference(key, numbers)
            } else {
                Ok(())
            }
        }
        [] => Ok(()),
    }
}

fn add_reference(part: &Part, numbers: &mut Vec<u32>) -> Result<(), AllocError>
    ensures { OnOk result (numbers.new.items ≡ numbers.old.items ++ spec.reference_number (part_of part.now)) }
{
    match part {
        Part::Child(node) => add_reference_node(node, numbers),
        _ => Ok(()),
    }
}

#[tactic(auto, using(crate::proofs::ClassNodes::reference_node, crate::proofs::ClassNodes::no_reference))]
fn add_reference_node(node: &Node, numbers: &mut Vec<u32>) -> Result<(), AllocError>
    ensures { OnOk result (numbers.new.items ≡ numbers.old.items ++ spec.reference_number (child node.now)) }
{
    match node.kind() {
        // a
        Kind::IdentifierReference => {
            numbers.push(node.node_id().0)?;
            Ok(())
        }
        _ => Ok(()),
    }
}

// ---- what moves in front of the heritage

fn add_moving<F: NameFacts>(
    alloc: Global,
    options: &Options,
    facts: &F,
    class: ClassRef,
    numbers: &mut Vec<u32>,
) -> Result<(), AllocError>
    ensures { OnOk result (numbers.new.items ≡ numbers.old.items ++ moving_of options.now (written (F.program facts.now)) (resolve (F.program facts.now)) (class_view class.entry)) }
{
    let elements = elements_of(class.body);
    let kinds = element_kinds(options, elements);
    if !kinds.has_lowered {
        return Ok(());
    }
    add_moving_keys(alloc, facts, elements, numbers)?;
    if class.is_expression && moves_blocks(options, kinds) {
        add_moving_blocks(alloc, class_elements(class.body), numbers)?;
    }
    Ok(())
}

fn moves_blocks(options: &Options, kinds: ElementKinds) -> bool
    ensures { result ≡ (lowers_blocks options.now && (kinds.has_block && not kinds.has_static_field)) }
{
    lowers_blocks(options) && kinds.has_block && !kinds.has_static_field
}

#[tactic(auto, using(crate::proofs::ClassNodes::moving_more))]
fn add_moving_keys<F: NameFacts>(
    alloc: Global,
    facts: &F,
    elements: &[Node],
    numbers: &mut Vec<u32>,
) -> Result<(), AllocError>
    ensures { OnOk result (numbers.new.items ≡ numbers.old.items ++ spec.moving_keys (written (F.program facts.now)) (resolve (F.program facts.now)) (elements_in (trees elements.now))) }
{
    for element in elements {
        add_moving_key(alloc, facts, element, numbers)?;
    }
    Ok(())
}

#[tactic(auto, using(crate::proofs::ClassNodes::moving_one))]
fn add_moving_key<F: NameFacts>(
    alloc: Global,
    facts: &F,
    element: &Node,
    numbers: &mut Vec<u32>,
) -> Result<(), AllocError>
    ensures { OnOk result (numbers.new.items ≡ numbers.old.items ++ spec.moving_keys (written (F.program facts.now)) (resolve (F.program facts.now)) (element_of (child element.now))) }
{
    match element_of(element) {
        // [a];
        Some(element) => {
            if element.computed && needs_temporary(facts, element.key) {
                add_numbers_of(alloc, element.key, numbers)
            } else {
                Ok(())
            }
        }
        None => Ok(()),
    }
}

#[tactic(auto, using(crate::proofs::ClassNodes::blocks_more))]
fn add_moving_blocks(
    alloc: Global,
    elements: &[Node],
    numbers: &mut Vec<u32>,
) -> Result<(), AllocError>
    ensures { OnOk result (numbers.new.items ≡ numbers.old.items ++ spec.moving_blocks (trees elements.now)) }
{
    for element in elements {
        add_moving_block(alloc, element, numbers)?;
    }
    Ok(())
}

#[tactic(auto, using(crate::proofs::ClassNodes::block_node, crate::proofs::ClassNodes::no_block))]
fn add_moving_block(alloc: Global, element: &Node, numbers: &mut Vec<u32>) -> Result<(), AllocError>
    ensures { OnOk result (numbers.new.items ≡ numbers.old.items ++ moved_block element.now) }
{
    match element.kind() {
        // static {}
        Kind::StaticBlock => {
            let inside = numbers_inside(alloc, element)?;
            add_numbers(inside.as_slice(), numbers)
        }
        _ => Ok(()),
    }
}
