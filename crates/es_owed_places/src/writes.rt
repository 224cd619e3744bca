// What is written: a generated name by `=` or an update, and else what the source writes.

ghost use Rattle.std.specs.Prelude.{◌≡◌, ℕ, ◌++◌, ◌∷◌, [], bytes_eq, codes, cond, IfOk, OnOk};
ghost use Rattle.es_base.specs.Preorder.{number_of, preorder};
ghost use Rattle.es_base.specs.Words.{assignment_operator_string};
ghost use Rattle.es_binding_faults.specs.Seen.{seen};
ghost use Rattle.es_lowered.specs.KeptReferences as spec;
ghost use Rattle.es_references.specs.Frames.{ids};
ghost use Rattle.es_references.specs.References.{reference_of, references_of};
ghost use Rattle.es_steps.specs.References.{has_number, resolve};

use es_base::ids::NodeId;
use es_base::kind::Kind;
use es_base::operator::AssignmentOperator;
use es_binding_faults::numbers::Numbers;
use es_generated::ledger::Ledger;
use es_generated::numbers::is_new;
use es_node::node::Node;
use es_owed::listed::Listed;
use es_references::references::Reference;
use es_tree::expression::{AssignmentExpressionRef, UpdateExpressionRef};
use std::alloc::{AllocError, Global};

/// Whether each reference that writes in what a program was lowered to writes in the source too or, if its name was generated,
/// is new and what an `=` or an update writes. Fails on allocation failure alone.
#[tactic(auto, using(crate::proofs::WrittenNames::fit_alike))]
pub fn writes_fit(
    alloc: Global,
    first: u32,
    ledger: &Ledger,
    source: &Listed,
    lowered: &Listed,
) -> Result<bool, AllocError>
    ensures { IfOk result (λ holds. holds ≡ spec.writes_fit first ledger.now (spec.plain_targets (preorder lowered.now.program.now)) (spec.writing_numbers (resolve source.now.program.now)) (resolve lowered.now.program.now)) }
{
    let targets = plain_targets(alloc, lowered.nodes.as_slice())?;
    let writing = writing_in(alloc, source.references.list.as_slice())?;
    let references = lowered.references.list.as_slice();
    Ok(all_fit(first, ledger, &targets, &writing, references))
}

// ---- what `=` and updates write

/// The set of what `=` and updates among these nodes write. Fails on allocation failure alone.
fn plain_targets(alloc: Global, nodes: &[&Node]) -> Result<Numbers, AllocError>
    ensures { IfOk result (λ r. (n : ℕ) → has_number n r ≡ has_number n (spec.plain_targets (seen nodes.now))) }
{
    let targets = listed_targets(alloc, nodes)?;
    let set = Numbers::of(alloc, targets.as_slice())?;
    Ok(set)
}

fn listed_targets(alloc: Global, nodes: &[&Node]) -> Result<Vec<NodeId>, AllocError>
    ensures { IfOk result (λ targets. ids targets.items ≡ spec.plain_targets (seen nodes.now)) }
{
    let mut targets = Vec::new(alloc);
    for node in nodes {
        add_plain_target(node, &mut targets)?;
    }
    Ok(targets)
}

#[tactic(auto, using(crate::proofs::WrittenNames::no_target))]
fn add_plain_target(node: &Node, targets: &mut Vec<NodeId>) -> Result<(), AllocError>
    ensures { OnOk result (ids targets.new.items ≡ ids targets.old.items ++ spec.plain_target node.now) }
{
    match node.kind() {
        // a = 1
        Kind::AssignmentExpression => {
            let assignment = AssignmentExpressionRef::from_node(node);
            add_if(is_plain(assignment.operator), assignment.left, targets)
        }
        // a++
        Kind::UpdateExpression => {
            add_if(true, UpdateExpressionRef::from_node(node).argument, targets)
        }
        _ => Ok(()),
    }
}

/// Whether it is `=`.
fn is_plain(operator: AssignmentOperator) -> bool
    ensures { result ≡ bytes_eq (assignment_operator_string operator) (codes "=") }
{
    matches!(operator, AssignmentOperator::Assign)
}

/// Adds the number of a node. Fails on allocation failure alone.
#[tactic(auto, using(es_owed::proofs::Nodes::number_of_node))]
fn add_if(holds: bool, node: &Node, numbers: &mut Vec<NodeId>) -> Result<(), AllocError>
    ensures { OnOk result (ids numbers.new.items ≡ ids numbers.old.items ++ cond holds (number_of node.now ∷ []) []) }
{
    if holds {
        numbers.push(node.node_id())?;
    }
    Ok(())
}

// ---- references that write

/// The set of those of these references that write. Fails on allocation failure alone.
fn writing_in(alloc: Global, references: &[Reference]) -> Result<Numbers, AllocError>
    ensures { IfOk result (λ r. (n : ℕ) → has_number n r ≡ has_number n (spec.writing_numbers (references_of references.now))) }
{
    let numbers = writing_numbers(alloc, references)?;
    let set = Numbers::of(alloc, numbers.as_slice())?;
    Ok(set)
}

/// Those of these references that write. Fails on allocation failure alone.
fn writing_numbers(alloc: Global, references: &[Reference]) -> Result<Vec<NodeId>, AllocError>
    ensures { IfOk result (λ numbers. ids numbers.items ≡ spec.writing_numbers (references_of references.now)) }
{
    let mut numbers = Vec::new(alloc);
    for reference in references {
        add_writing(*reference, &mut numbers)?;
    }
    Ok(numbers)
}

fn add_writing(reference: Reference, numbers: &mut Vec<NodeId>) -> Result<(), AllocError>
    ensures { OnOk result (ids numbers.new.items ≡ ids numbers.old.items ++ cond (reference_of reference.entry).writes ((reference_of reference.entry).number ∷ []) []) }
{
    if reference.writes {
        numbers.push(reference.node)?;
    }
    Ok(())
}

// ---- each write fits

fn all_fit(
    first: u32,
    ledger: &Ledger,
    targets: &Numbers,
    writing: &Numbers,
    references: &[Reference],
) -> bool
    ensures { result ≡ spec.writes_fit first ledger.now targets.now writing.now (references_of references.now) }
{
    for reference in references {
        if !write_fits(first, ledger, targets, writing, *reference) {
            return false;
        }
    }
    true
}

fn write_fits(
    first: u32,
    ledger: &Ledger,
    targets: &Numbers,
    writing: &Numbers,
    reference: Reference,
) -> bool
    ensures { result ≡ spec.write_fits first ledger.now targets.now writing.now (reference_of reference.entry) }
{
    if !reference.writes {
        true
    } else if ledger.is_generated(reference.name) {
        is_new(first, reference.node.0) && targets.has(reference.node)
    } else {
        writing.has(reference.node)
    }
}
