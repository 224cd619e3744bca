// Where identifiers are referred to.

ghost use Rattle.std.specs.Prelude.{◌≡◌, ◌++◌, ◌∷◌, [], cond, option_map, IfOk, OnOk};
ghost use Rattle.es_base.specs.Preorder.{preorder, preorder_of_part};
ghost use Rattle.es_base.specs.Tree.{nullable};
ghost use Rattle.es_binding_faults.specs.Seen.{seen};
ghost use Rattle.es_lowered.specs.OwnNames as spec;
ghost use Rattle.es_references.specs.References.{reference_of, references_of};

use crate::numbers::set_of;
use es_binding_faults::numbers::Numbers;
use es_binding_faults::preorder::preorder;
use es_generated::numbers::has_number;
use es_node::node::Node;
use es_references::references::Reference;
use std::alloc::{AllocError, Global};

/// The references to these identifiers. Fails on allocation failure alone.
pub fn references_to(
    alloc: Global,
    identifiers: &[u32],
    references: &[Reference],
) -> Result<Vec<u32>, AllocError>
    ensures { IfOk result (λ r. r.items ≡ spec.references_to identifiers.now (references_of references.now)) }
{
    let mut numbers = Vec::new(alloc);
    for reference in references {
        add_reference(identifiers, *reference, &mut numbers)?;
    }
    Ok(numbers)
}

fn add_reference(
    identifiers: &[u32],
    reference: Reference,
    numbers: &mut Vec<u32>,
) -> Result<(), AllocError>
    ensures { OnOk result (numbers.new.items ≡ numbers.old.items ++ cond (spec.is_bound_among identifiers.now (reference_of reference.entry).to) ((reference_of reference.entry).number ∷ []) []) }
{
    if is_bound_among(identifiers, reference) {
        numbers.push(reference.node.0)?;
    }
    Ok(())
}

/// Whether the reference means one of these identifiers.
pub fn is_bound_among(identifiers: &[u32], reference: Reference) -> bool
    ensures { result ≡ spec.is_bound_among identifiers.now (reference_of reference.entry).to }
{
    match reference.binding {
        Some(binding) => has_number(binding.0, identifiers),
        None => false,
    }
}

/// Whether a node of one of these numbers is among these.
#[tactic(auto, using(es_owed::proofs::Nodes::number_of_node))]
fn any_stands(numbers: &Numbers, nodes: &[&Node]) -> bool
    ensures { result ≡ spec.any_stands numbers.now (seen nodes.now) }
{
    for node in nodes {
        if numbers.has(node.node_id()) {
            return true;
        }
    }
    false
}

/// Whether a reference to one of these identifiers stands in the node. Fails on allocation failure alone.
#[tactic(auto, using(crate::proofs::NameReads::same_stand))]
pub fn is_read_in(
    alloc: Global,
    identifiers: &[u32],
    references: &[Reference],
    node: &Node,
) -> Result<bool, AllocError>
    ensures { IfOk result (λ reads. reads ≡ spec.any_stands (spec.references_to identifiers.now (references_of references.now)) (preorder node.now)) }
{
    let numbers = references_to(alloc, identifiers, references)?;
    let set = set_of(alloc, numbers.as_slice())?;
    let nodes = preorder(alloc, node)?;
    Ok(any_stands(&set, nodes.as_slice()))
}

/// The nodes of a tree that may be absent, in preorder. Fails on allocation failure alone.
pub fn nodes_of<'a>(alloc: Global, node: Option<&'a Node>) -> Result<Vec<&'a Node>, AllocError>
    ensures { IfOk result (λ r. seen r.items ≡ preorder_of_part (nullable (option_map (λ x. x.now) node.entry))) }
{
    match node {
        Some(node) => preorder(alloc, node),
        None => Ok(Vec::new(alloc)),
    }
}
