// Facts of a program: its variables, its classes, its calls of `super`, and its updates of private members.

ghost use Rattle.std.specs.Prelude.{◌≡◌, ◌++◌, [], cond, IfOk, OnOk};
ghost use Rattle.es_base.specs.Preorder.{preorder_of_part};
ghost use Rattle.es_base.specs.Tree.{child};
ghost use Rattle.es_binding_faults.specs.Seen.{seen};
ghost use Rattle.es_lowered.specs.DeadZones as spec;
ghost use Rattle.es_lowered.specs.HelperCalls as calls;
ghost use Rattle.es_node.specs.View.{kind_of, parts_in, parts_of};
ghost use Rattle.es_steps.specs.Parts.{at};
ghost use Rattle.es_steps.specs.PrivateNames as names;

use crate::below::{add_number_at, nodes_at, push_if};
use es_base::kind::Kind;
use es_base::strings::spells;
use es_binding_faults::bound::is_binding_identifier;
use es_binding_faults::hoisted::part_at;
use es_node::node::{Node, Part};
use es_owed_initialized::kinds::is_class;
use es_seen_names::parts::string_at;
use es_validity::class::is_super_call;
use std::alloc::{AllocError, Global};

// ---- variables

/// The identifiers that declare variables among these nodes. Fails on allocation failure alone.
#[tactic(auto, using(crate::proofs::FactsOfNodes::variables_more))]
pub fn variables(alloc: Global, nodes: &[&Node]) -> Result<Vec<u32>, AllocError>
    ensures { IfOk result (λ r. r.items ≡ spec.variables (seen nodes.now)) }
{
    let mut numbers = Vec::new(alloc);
    for node in nodes {
        add_variables(alloc, node, &mut numbers)?;
    }
    Ok(numbers)
}

#[tactic(auto, using(crate::proofs::FactsOfNodes::bound_first, crate::proofs::FactsOfNodes::bound_catch, crate::proofs::FactsOfNodes::bound_arrow, crate::proofs::FactsOfNodes::bound_function, crate::proofs::FactsOfNodes::bound_expression, crate::proofs::FactsOfNodes::bound_none))]
fn add_variables(alloc: Global, node: &Node, numbers: &mut Vec<u32>) -> Result<(), AllocError>
    ensures { OnOk result (numbers.new.items ≡ numbers.old.items ++ spec.variables_by (kind_of node.now) (parts_in node.now)) }
{
    match node.kind() {
        // let a; catch (a) {} a => b
        Kind::VariableDeclarator | Kind::CatchClause | Kind::ArrowFunctionExpression => {
            add_bound_at(alloc, node.parts(), 0, numbers)
        }
        // function f(a) {}
        Kind::FunctionDeclaration | Kind::FunctionExpression => {
            add_bound_at(alloc, node.parts(), 1, numbers)
        }
        _ => Ok(()),
    }
}

fn add_bound_at(
    alloc: Global,
    parts: &[Part],
    i: usize,
    numbers: &mut Vec<u32>,
) -> Result<(), AllocError>
    ensures { OnOk result (numbers.new.items ≡ numbers.old.items ++ spec.bound_numbers (preorder_of_part (at i (parts_of parts.now)))) }
{
    let nodes = nodes_at(alloc, parts, i)?;
    add_bound(nodes.as_slice(), numbers)
}

/// Adds the identifiers that declare among these nodes. Fails on allocation failure alone.
#[tactic(auto, using(crate::proofs::FactsOfNodes::bound_more))]
fn add_bound(nodes: &[&Node], numbers: &mut Vec<u32>) -> Result<(), AllocError>
    ensures { OnOk result (numbers.new.items ≡ numbers.old.items ++ spec.bound_numbers (seen nodes.now)) }
{
    for node in nodes {
        push_if(is_binding_identifier(node), node.node_id().0, numbers)?;
    }
    Ok(())
}

// ---- classes and calls of `super`

/// The names of the classes among these nodes. Fails on allocation failure alone.
#[tactic(auto, using(crate::proofs::FactsOfNodes::names_more))]
pub fn class_names(alloc: Global, nodes: &[&Node]) -> Result<Vec<u32>, AllocError>
    ensures { IfOk result (λ r. r.items ≡ spec.class_names (seen nodes.now)) }
{
    let mut numbers = Vec::new(alloc);
    for node in nodes {
        add_class_name(node, &mut numbers)?;
    }
    Ok(numbers)
}

fn add_class_name(node: &Node, numbers: &mut Vec<u32>) -> Result<(), AllocError>
    ensures { OnOk result (numbers.new.items ≡ numbers.old.items ++ cond (names.is_class (kind_of node.now)) (calls.part_number (at 0 (parts_in node.now))) []) }
{
    if is_class(node.kind()) {
        add_number_at(node.parts(), 0, numbers)?;
    }
    Ok(())
}

/// The calls of `super` among these nodes. Fails on allocation failure alone.
#[tactic(auto, using(crate::proofs::FactsOfNodes::supers_more))]
pub fn super_calls(alloc: Global, nodes: &[&Node]) -> Result<Vec<u32>, AllocError>
    ensures { IfOk result (λ r. r.items ≡ spec.super_calls (seen nodes.now)) }
{
    let mut numbers = Vec::new(alloc);
    for node in nodes {
        push_if(is_super_call(node), node.node_id().0, &mut numbers)?;
    }
    Ok(numbers)
}

// ---- updates of private members

/// The updates and compound writes of private members among these nodes. Fails on allocation failure alone.
#[tactic(auto, using(crate::proofs::FactsOfNodes::updates_more))]
pub fn private_updates(alloc: Global, nodes: &[&Node]) -> Result<Vec<u32>, AllocError>
    ensures { IfOk result (λ r. r.items ≡ spec.private_updates (seen nodes.now)) }
{
    let mut numbers = Vec::new(alloc);
    for node in nodes {
        push_if(updates_private(node), node.node_id().0, &mut numbers)?;
    }
    Ok(numbers)
}

#[tactic(auto, using(crate::proofs::FactsOfNodes::updates_by_assignment, crate::proofs::FactsOfNodes::updates_by_update, crate::proofs::FactsOfNodes::updates_none))]
fn updates_private(node: &Node) -> bool
    ensures { result ≡ spec.updates_private (kind_of node.now) (parts_in node.now) }
{
    match node.kind() {
        // a.#b += c
        Kind::AssignmentExpression => {
            !spells(string_at(node.parts(), 0), "=") && is_private_at(node.parts(), 1)
        }
        // a.#b++
        Kind::UpdateExpression => is_private_at(node.parts(), 1),
        _ => false,
    }
}

fn is_private_at(parts: &[Part], i: usize) -> bool
    ensures { result ≡ spec.is_private (at i (parts_of parts.now)) }
{
    match part_at(parts, i) {
        Some(Part::Child(node)) => is_private(node),
        _ => false,
    }
}

/// `a.#b`
#[tactic(auto, using(crate::proofs::FactsOfNodes::private_node))]
fn is_private(node: &Node) -> bool
    ensures { result ≡ spec.is_private (child node.now) }
{
    matches!(node.kind(), Kind::PrivateField)
}
