// What is read by functions that are called, and by those that these call.
//
// A step adds the reads of the names of functions that hold what is reached so far. It is taken until nothing is added, and at
// most as often as there are generated names.

ghost use Rattle.std.specs.Prelude.{◌≡◌, ◌++◌, ◌∷◌, [], cond, true, IfOk, OnOk};
ghost use Rattle.es_base.specs.Conforms as among;
ghost use Rattle.es_binding_faults.specs.Seen.{seen};
ghost use Rattle.es_owed_references.specs.Moved.{functions_of, names_of};
ghost use Rattle.es_owed_references.specs.Reaching as spec;
ghost use Rattle.es_references.specs.References.{references_of};

use crate::moved::{MovedFunction, names_holding};
use crate::numbers::set_of;
use es_base::kind::Kind;
use es_base::strings::is_among;
use es_binding_faults::numbers::Numbers;
use es_generated::ledger::Ledger;
use es_node::node::Node;
use es_owed_initialized::numbers::add_numbers;
use es_references::references::Reference;
use es_seen_names::parts::string_at;
use std::alloc::{AllocError, Global};

// ---- reads of names

/// A reference that reads a name.
#[derive(Clone, Copy, Debug)]
pub struct NameRead<'a> {
    pub number: u32,
    pub name: &'a str,
}

/// The references among these nodes that write nothing. Fails on allocation failure alone.
#[tactic(auto, using(crate::proofs::Steps::same_reads))]
pub fn name_reads<'a>(
    alloc: Global,
    references: &[Reference],
    nodes: &[&'a Node],
) -> Result<Vec<NameRead<'a>>, AllocError>
    ensures { IfOk result (λ r. spec.reads_of r.items ≡ spec.reads_besides (spec.written_numbers (references_of references.now)) (seen nodes.now)) }
{
    let numbers = written_numbers(alloc, references)?;
    let written = set_of(alloc, numbers.as_slice())?;
    reads_besides(alloc, &written, nodes)
}

/// The references that write. Fails on allocation failure alone.
fn written_numbers(alloc: Global, references: &[Reference]) -> Result<Vec<u32>, AllocError>
    ensures { IfOk result (λ r. r.items ≡ spec.written_numbers (references_of references.now)) }
{
    let mut numbers = Vec::new(alloc);
    for reference in references {
        add_if_written(*reference, &mut numbers)?;
    }
    Ok(numbers)
}

fn add_if_written(reference: Reference, numbers: &mut Vec<u32>) -> Result<(), AllocError>
    ensures { OnOk result (numbers.new.items ≡ numbers.old.items ++ cond reference.entry.writes (reference.entry.node.0 ∷ []) []) }
{
    if reference.writes {
        numbers.push(reference.node.0)?;
    }
    Ok(())
}

/// The references among these nodes that are none of those. Fails on allocation failure alone.
fn reads_besides<'a>(
    alloc: Global,
    written: &Numbers,
    nodes: &[&'a Node],
) -> Result<Vec<NameRead<'a>>, AllocError>
    ensures { IfOk result (λ r. spec.reads_of r.items ≡ spec.reads_besides written.now (seen nodes.now)) }
{
    let mut reads = Vec::new(alloc);
    for node in nodes {
        add_read(written, node, &mut reads)?;
    }
    Ok(reads)
}

#[tactic(auto, using(crate::proofs::Steps::read_reference, crate::proofs::Steps::no_reference))]
fn add_read<'a>(
    written: &Numbers,
    node: &'a Node,
    reads: &mut Vec<NameRead<'a>>,
) -> Result<(), AllocError>
    ensures { OnOk result (spec.reads_of reads.new.items ≡ spec.reads_of reads.old.items ++ spec.read_at written.now node.now) }
{
    match node.kind() {
        // x
        Kind::IdentifierReference => {
            if !written.has(node.node_id()) {
                let number = node.node_id().0;
                let name = string_at(node.parts(), 0);
                reads.push(NameRead { number, name })?;
            }
            Ok(())
        }
        _ => Ok(()),
    }
}

// ---- what is reached

/// These references, those to functions that hold one of them, and so on, as often as there are generated names. Fails on
/// allocation failure alone.
#[tactic(auto, using(crate::proofs::Steps::settled))]
pub fn reached(
    alloc: Global,
    ledger: &Ledger,
    functions: &[MovedFunction],
    reads: &[NameRead],
    numbers: &[u32],
) -> Result<Vec<u32>, AllocError>
    ensures { IfOk result (λ r. r.items ≡ spec.reached_from ledger.now (functions_of functions.now) (spec.reads_of reads.now) numbers.now numbers.now) }
{
    let mut reached = Vec::new(alloc);
    add_numbers(numbers, &mut reached)?;
    for _entry in ledger.entries() {
        let next = next_reached(alloc, functions, reads, numbers, reached.as_slice())?;
        if are_same(next.as_slice(), reached.as_slice()) {
            return Ok(reached);
        }
        reached = next;
    }
    Ok(reached)
}

/// These references, and the reads of functions that hold what is reached. Fails on allocation failure alone.
#[tactic(auto, using(crate::proofs::Steps::same_holding))]
fn next_reached(
    alloc: Global,
    functions: &[MovedFunction],
    reads: &[NameRead],
    numbers: &[u32],
    reached: &[u32],
) -> Result<Vec<u32>, AllocError>
    ensures { IfOk result (λ r. r.items ≡ spec.next_reached (functions_of functions.now) (spec.reads_of reads.now) numbers.now reached.now) }
{
    let held = set_of(alloc, reached)?;
    let names = names_holding(alloc, &held, functions)?;
    let mut next = Vec::new(alloc);
    add_numbers(numbers, &mut next)?;
    add_reading(names.as_slice(), reads, &mut next)?;
    Ok(next)
}

/// Adds the reads of these names. Fails on allocation failure alone.
fn add_reading(names: &[&str], reads: &[NameRead], numbers: &mut Vec<u32>) -> Result<(), AllocError>
    ensures { OnOk result (numbers.new.items ≡ numbers.old.items ++ spec.reading_of (names_of names.now) (spec.reads_of reads.now)) }
{
    for read in reads {
        add_if_reading(names, *read, numbers)?;
    }
    Ok(())
}

fn add_if_reading(names: &[&str], read: NameRead, numbers: &mut Vec<u32>) -> Result<(), AllocError>
    ensures { OnOk result (numbers.new.items ≡ numbers.old.items ++ cond (among.is_among (spec.read_of read.entry).1 (names_of names.now)) ((spec.read_of read.entry).0 ∷ []) []) }
{
    if is_among(read.name, names) {
        numbers.push(read.number)?;
    }
    Ok(())
}

/// Whether these are the same numbers, in the same order.
#[tactic(auto, using(crate::proofs::Steps::same_numbers))]
fn are_same(numbers: &[u32], others: &[u32]) -> bool
    ensures { result ≡ true → numbers.now ≡ others.now }
{
    numbers == others
}
