// The functions and arrows where `this` is there behind `super(..)` alone.

ghost use Rattle.std.specs.Prelude.{◌≡◌, ◌++◌, ◌&&◌, [], cond, IfOk, OnOk};
ghost use Rattle.std.specs.Option.{option_to_list};
ghost use Rattle.es_base.specs.Tree.{child, nullable, nullable_trees, trees};
ghost use Rattle.es_binding_faults.specs.Seen.{seen};
ghost use Rattle.es_lowered.specs.ClassNames as lists;
ghost use Rattle.es_lowered.specs.DeadZones as spec;
ghost use Rattle.es_lowered.specs.HelperCalls as calls;
ghost use Rattle.es_node.specs.View.{kind_of, number_in, part_of, parts_in, parts_of};
ghost use Rattle.es_steps.specs.LoweredClasses.{constructor_in};
ghost use Rattle.es_steps.specs.NameScopes as scopes;
ghost use Rattle.es_steps.specs.Parts.{at};
ghost use Rattle.es_steps.specs.PrivateNames as names;
ghost use Rattle.es_steps.specs.References as references;
ghost use Rattle.es_touches.specs.Derived.{arrows_inside, arrows_of_key, arrows_of_key_hole};

use crate::below::push_if;
use es_base::kind::Kind;
use es_binding_faults::hoisted::part_at;
use es_binding_faults::numbers::Numbers;
use es_node::node::{Node, Part};
use es_number_set::NumberSet;
use es_owed::numbers::set_of;
use es_owed_initialized::kinds::{is_arrow, is_class, is_element, is_function};
use es_owed_initialized::runs::runs_with_class;
use es_seen_names::parts::is_present_at;
use es_shapes::class::elements_of;
use es_shapes::late_class::constructor_among;
use es_shapes::walk::is_any_function;
use std::alloc::{AllocError, Global};

// ---- constructors

/// The function of the constructor of a class whose body stands at this place.
#[tactic(auto, using(es_owed::proofs::Nodes::number_of_node))]
fn constructor_at(parts: &[Part], i: usize) -> Option<u32>
    ensures { option_to_list result ≡ calls.part_number (constructor_in (at i (parts_of parts.now))) }
{
    match part_at(parts, i) {
        // { constructor() {} }
        Some(Part::Child(body)) => constructor_of(body),
        _ => None,
    }
}

#[tactic(auto, using(es_owed::proofs::Nodes::number_of_node))]
fn constructor_of(body: &Node) -> Option<u32>
    ensures { option_to_list result ≡ calls.part_number (constructor_in (child body.now)) }
{
    match constructor_among(elements_of(body)) {
        Some(function) => Some(function.node_id().0),
        None => None,
    }
}

/// The functions of constructors of classes with a heritage, among these nodes. Fails on allocation failure alone.
#[tactic(auto, using(crate::proofs::DerivedFunctions::constructors_more))]
pub fn derived_constructors(alloc: Global, nodes: &[&Node]) -> Result<Vec<u32>, AllocError>
    ensures { IfOk result (λ r. r.items ≡ spec.derived_constructors (seen nodes.now)) }
{
    let mut numbers = Vec::new(alloc);
    for node in nodes {
        add_constructor(node, &mut numbers)?;
    }
    Ok(numbers)
}

fn add_constructor(node: &Node, numbers: &mut Vec<u32>) -> Result<(), AllocError>
    ensures { OnOk result (numbers.new.items ≡ numbers.old.items ++ spec.derived_constructor (kind_of node.now) (parts_in node.now)) }
{
    // class A extends B { constructor() {} }
    if is_class(node.kind()) && is_present_at(node.parts(), 1) {
        add_number(constructor_at(node.parts(), 2), numbers)?;
    }
    Ok(())
}

fn add_number(number: Option<u32>, numbers: &mut Vec<u32>) -> Result<(), AllocError>
    ensures { OnOk result (numbers.new.items ≡ numbers.old.items ++ option_to_list number) }
{
    if let Some(number) = number {
        numbers.push(number)?;
    }
    Ok(())
}

/// Whether the number is this one.
#[tactic(auto, using(crate::proofs::DerivedFunctions::one_number))]
pub fn is_one(number: u32, other: Option<u32>) -> bool
    ensures { result ≡ references.has_number number (option_to_list other) }
{
    match other {
        Some(other) => number == other,
        None => false,
    }
}

/// The class whose constructor a function is, among these nodes.
#[tactic(auto, using(crate::proofs::DerivedFunctions::constructs_more))]
pub fn constructs(function: u32, nodes: &[&Node]) -> Option<u32>
    ensures { option_to_list result ≡ spec.constructs function (seen nodes.now) }
{
    for node in nodes {
        if is_constructed_by(function, node) {
            return Some(node.node_id().0);
        }
    }
    None
}

fn is_constructed_by(function: u32, node: &Node) -> bool
    ensures { result ≡ (names.is_class (kind_of node.now) && references.has_number function (calls.part_number (constructor_in (at 2 (parts_in node.now))))) }
{
    is_class(node.kind()) && is_one(function, constructor_at(node.parts(), 2))
}

// ---- arrows

/// The arrows that have the `this` of one of these functions, among these nodes. Fails on allocation failure alone.
pub fn derived_arrows(
    alloc: Global,
    constructors: &[u32],
    nodes: &[&Node],
) -> Result<Vec<u32>, AllocError>
    ensures { IfOk result (λ r. r.items ≡ spec.derived_arrows constructors.now (seen nodes.now)) }
{
    let set = set_of(alloc, constructors)?;
    arrows_of(alloc, &set, nodes)
}

#[tactic(auto, using(crate::proofs::DerivedFunctions::arrows_more))]
fn arrows_of(alloc: Global, constructors: &Numbers, nodes: &[&Node]) -> Result<Vec<u32>, AllocError>
    ensures { IfOk result (λ r. r.items ≡ spec.derived_arrows constructors.now (seen nodes.now)) }
{
    let mut numbers = Vec::new(alloc);
    for node in nodes {
        add_arrows_if(constructors, node, &mut numbers)?;
    }
    Ok(numbers)
}

fn add_arrows_if(
    constructors: &Numbers,
    node: &Node,
    numbers: &mut Vec<u32>,
) -> Result<(), AllocError>
    ensures { OnOk result (numbers.new.items ≡ numbers.old.items ++ cond (scopes.is_any_function (kind_of node.now) && references.has_number (number_in node.now) constructors.now) (spec.arrows_in (parts_in node.now)) []) }
{
    if is_any_function(node.kind()) && constructors.has(node.node_id()) {
        add_arrows_in(node.parts(), numbers)?;
    }
    Ok(())
}

/// The arrows of what runs with a class, whose `this` is the class, among these nodes. Fails on allocation failure alone.
#[tactic(auto, using(crate::proofs::DerivedFunctions::statics_more))]
pub fn static_arrows(alloc: Global, nodes: &[&Node]) -> Result<Vec<u32>, AllocError>
    ensures { IfOk result (λ r. r.items ≡ spec.static_arrows (seen nodes.now)) }
{
    let mut numbers = Vec::new(alloc);
    for node in nodes {
        add_static_arrows(node, &mut numbers)?;
    }
    Ok(numbers)
}

fn add_static_arrows(node: &Node, numbers: &mut Vec<u32>) -> Result<(), AllocError>
    ensures { OnOk result (numbers.new.items ≡ numbers.old.items ++ cond (calls.runs_with_class (child node.now)) (spec.value_arrows (kind_of node.now) (parts_in node.now)) []) }
{
    // static a = () => b; static { () => b; }
    if runs_with_class(node) {
        add_value_arrows(node, numbers)?;
    }
    Ok(())
}

fn add_value_arrows(element: &Node, numbers: &mut Vec<u32>) -> Result<(), AllocError>
    ensures { OnOk result (numbers.new.items ≡ numbers.old.items ++ spec.value_arrows (kind_of element.now) (parts_in element.now)) }
{
    let parts = element.parts();
    if !is_element(element.kind()) {
        return add_arrows_in(parts, numbers);
    }
    match part_at(parts, 1) {
        Some(value) => add_arrows_at(value, numbers),
        None => Ok(()),
    }
}

/// Adds those of these numbers that are among the others. Fails on allocation failure alone.
pub fn add_common(
    others: &NumberSet,
    numbers: &[u32],
    common: &mut Vec<u32>,
) -> Result<(), AllocError>
    ensures { OnOk result (common.new.items ≡ common.old.items ++ lists.common others.now numbers.now) }
{
    for number in numbers {
        push_if(others.has(*number), *number, common)?;
    }
    Ok(())
}

/// Adds the arrows that have the `this` around a node. Fails on allocation failure alone.
#[cycle(arrows)]
#[tactic(auto, using(crate::proofs::DerivedFunctions::arrows_node, es_node::proofs::Below::nodes_in))]
fn add_arrows(node: &Node, numbers: &mut Vec<u32>) -> Result<(), AllocError>
    ensures { OnOk result (numbers.new.items ≡ numbers.old.items ++ spec.arrows node.now) }
{
    push_if(is_arrow(node.kind()), node.node_id().0, numbers)?;
    add_arrows_inside(node, numbers)
}

#[cycle(arrows)]
#[tactic(auto, using(crate::proofs::DerivedFunctions::inside_node))]
fn add_arrows_inside(node: &Node, numbers: &mut Vec<u32>) -> Result<(), AllocError>
    ensures { OnOk result (numbers.new.items ≡ numbers.old.items ++ arrows_inside node.now) }
{
    let kind = node.kind();
    if is_class_body(kind) {
        add_arrows_of_body(node.parts(), numbers)
    } else if is_function(kind) {
        Ok(())
    } else {
        add_arrows_in(node.parts(), numbers)
    }
}

fn is_class_body(kind: Kind) -> bool
    ensures { result ≡ calls.is_class_body kind }
{
    matches!(kind, Kind::ClassBody)
}

#[cycle(arrows)]
fn add_arrows_in(parts: &[Part], numbers: &mut Vec<u32>) -> Result<(), AllocError>
    ensures { OnOk result (numbers.new.items ≡ numbers.old.items ++ spec.arrows_in (parts_of parts.now)) }
{
    for part in parts {
        add_arrows_at(part, numbers)?;
    }
    Ok(())
}

#[cycle(arrows)]
fn add_arrows_at(part: &Part, numbers: &mut Vec<u32>) -> Result<(), AllocError>
    ensures { OnOk result (numbers.new.items ≡ numbers.old.items ++ spec.arrows_at (part_of part.now)) }
{
    match part {
        Part::Child(node) => add_arrows(node, numbers),
        Part::List(nodes) => add_arrows_of_list(nodes.as_slice(), numbers),
        Part::Holes(nodes) => add_arrows_of_list_with_holes(nodes.as_slice(), numbers),
        _ => Ok(()),
    }
}

#[cycle(arrows)]
fn add_arrows_of_list(nodes: &[Node], numbers: &mut Vec<u32>) -> Result<(), AllocError>
    ensures { OnOk result (numbers.new.items ≡ numbers.old.items ++ spec.arrows_in (trees nodes.now)) }
{
    for node in nodes {
        add_arrows(node, numbers)?;
    }
    Ok(())
}

#[cycle(arrows)]
fn add_arrows_of_list_with_holes(
    nodes: &[Option<Node>],
    numbers: &mut Vec<u32>,
) -> Result<(), AllocError>
    ensures { OnOk result (numbers.new.items ≡ numbers.old.items ++ spec.arrows_in (nullable_trees nodes.now)) }
{
    for node in nodes {
        add_arrows_of_hole(node, numbers)?;
    }
    Ok(())
}

#[cycle(arrows)]
fn add_arrows_of_hole(node: &Option<Node>, numbers: &mut Vec<u32>) -> Result<(), AllocError>
    ensures { OnOk result (numbers.new.items ≡ numbers.old.items ++ spec.arrows_at (nullable node.now)) }
{
    match node {
        Some(node) => add_arrows(node, numbers),
        None => Ok(()),
    }
}

/// Adds those of the keys in the body of a class. Fails on allocation failure alone.
#[cycle(arrows)]
fn add_arrows_of_body(parts: &[Part], numbers: &mut Vec<u32>) -> Result<(), AllocError>
    ensures { OnOk result (numbers.new.items ≡ numbers.old.items ++ spec.arrows_of_body (parts_of parts.now)) }
{
    match parts {
        [Part::List(elements), ..] => add_arrows_of_keys(elements.as_slice(), numbers),
        [Part::Holes(elements), ..] => add_arrows_of_keys_with_holes(elements.as_slice(), numbers),
        _ => Ok(()),
    }
}

#[cycle(arrows)]
#[tactic(auto, using(crate::proofs::DerivedFunctions::keys_more))]
fn add_arrows_of_keys(elements: &[Node], numbers: &mut Vec<u32>) -> Result<(), AllocError>
    ensures { OnOk result (numbers.new.items ≡ numbers.old.items ++ spec.arrows_of_keys (trees elements.now)) }
{
    for element in elements {
        add_arrows_of_key(element, numbers)?;
    }
    Ok(())
}

#[cycle(arrows)]
#[tactic(auto, using(crate::proofs::DerivedFunctions::keys_more_hole))]
fn add_arrows_of_keys_with_holes(
    elements: &[Option<Node>],
    numbers: &mut Vec<u32>,
) -> Result<(), AllocError>
    ensures { OnOk result (numbers.new.items ≡ numbers.old.items ++ spec.arrows_of_keys (nullable_trees elements.now)) }
{
    for element in elements {
        add_arrows_of_key_hole(element, numbers)?;
    }
    Ok(())
}

#[cycle(arrows)]
fn add_arrows_of_key_hole(element: &Option<Node>, numbers: &mut Vec<u32>) -> Result<(), AllocError>
    ensures { OnOk result (numbers.new.items ≡ numbers.old.items ++ arrows_of_key_hole element.now) }
{
    match element {
        Some(element) => add_arrows_of_key(element, numbers),
        None => Ok(()),
    }
}

#[cycle(arrows)]
#[tactic(auto, using(crate::proofs::DerivedFunctions::key_first, crate::proofs::DerivedFunctions::key_none, es_node::proofs::Below::nodes_in))]
fn add_arrows_of_key(element: &Node, numbers: &mut Vec<u32>) -> Result<(), AllocError>
    ensures { OnOk result (numbers.new.items ≡ numbers.old.items ++ arrows_of_key element.now) }
{
    match element.parts() {
        [key, ..] => add_arrows_at_if(is_element(element.kind()), key, numbers),
        [] => Ok(()),
    }
}

#[cycle(arrows)]
fn add_arrows_at_if(is_asked: bool, part: &Part, numbers: &mut Vec<u32>) -> Result<(), AllocError>
    ensures { OnOk result (numbers.new.items ≡ numbers.old.items ++ cond is_asked (spec.arrows_at (part_of part.now)) []) }
{
    if is_asked {
        add_arrows_at(part, numbers)?;
    }
    Ok(())
}
