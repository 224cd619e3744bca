// A source, and what it was lowered to.

ghost use Rattle.std.specs.Prelude.{◌≡◌, ℕ, true, IfOk};
ghost use Rattle.es_base.specs.Preorder.{preorder};
ghost use Rattle.es_binding_faults.specs.Seen.{seen};
ghost use Rattle.es_grouped.specs.Groups.{group};
ghost use Rattle.es_lowered.specs.ClassNames as spec;
ghost use Rattle.es_marks.specs.Marks.{marks_of};
ghost use Rattle.es_owed_class_names.specs.Asked.{naming_in_lowered};
ghost use Rattle.es_owed_class_names.specs.HeldNumbers.{held_numbers};
ghost use Rattle.es_owed_class_names.specs.NodeMarks.{node_marks};
ghost use Rattle.es_owed_class_names.specs.PlacedNumbers.{all_placed};
ghost use Rattle.es_owed_places.specs.Placed as places;
ghost use Rattle.es_owed_references.specs.Moved.{functions_of};
ghost use Rattle.es_references.specs.References.{references_of};
ghost use Rattle.es_steps.specs.References.{has_number, resolve};

use crate::holders::Holders;
use crate::located::NodeMarks;
use crate::marked::ProgramMarks;
use crate::naming::names_by_class;
use crate::placed::placed_by_number;
use es_binding_faults::numbers::Numbers;
use es_generated::ledger::Ledger;
use es_grouped::Grouped;
use es_node::node::Node;
use es_owed::listed::Listed;
use es_owed_initialized::inner::class_numbers;
use es_owed_initialized::numbers::add_numbers;
use es_owed_places::placed::PlacedReference;
use es_owed_references::lowered_reads::Reads;
use es_owed_references::moved::MovedFunction;
use es_owed_references::numbers::set_of;
use std::alloc::{AllocError, Global};

/// A source, and what it was lowered to, with the references to names of the source's classes in both.
#[derive(Drop)]
pub struct Lowering<'r, 'm, 'a> {
    /// The number of the first new node.
    pub first: u32,
    pub source: &'r Listed<'a>,
    pub lowered: &'r Listed<'a>,
    /// The nodes of the lowered program.
    pub nodes: &'r [&'a Node],
    /// The marks of references and classes in the source.
    pub source_marks: NodeMarks<'m, 'a>,
    pub marks: NodeMarks<'m, 'a>,
    /// The references in the source by their numbers, with the functions that they stand in.
    pub source_placed: Grouped<PlacedReference<'a>>,
    pub placed: Grouped<PlacedReference<'a>>,
    /// The classes of the source.
    pub classes: Vec<u32>,
    /// Of each of these the references to names of it in the source, but those that write one.
    pub source_names: Grouped<u32>,
    /// The same in the lowered program.
    pub names: Grouped<u32>,
    /// The functions of the lowered program that hold these classes.
    pub holders: Holders<'r, 'a>,
    /// What is read in the lowered program.
    pub reads: Reads<'r, 'a>,
    /// What stands in its functions of generated names by which they are called.
    pub held: Numbers,

    ghost classes_are: { classes.items ≡ spec.class_numbers (preorder source.now.program.now) },
    ghost source_names_are: { (n : ℕ) → has_number n classes.items ≡ true → group n source_names ≡ spec.naming_in_source first n source.now.program.now },
    ghost names_are: { (n : ℕ) → has_number n classes.items ≡ true → group n names ≡ naming_in_lowered first reads.ledger.now lowered.now.program.now n },
    ghost source_marks_are: { marks_of source_marks.marks.now ≡ node_marks first source.now.program.now },
    ghost marks_are: { marks_of marks.marks.now ≡ node_marks first lowered.now.program.now },
    ghost source_placed_are: { (k : ℕ) → places.references_of (group k source_placed) ≡ spec.numbered k (all_placed first source.now.program.now) },
    ghost placed_are: { (k : ℕ) → places.references_of (group k placed) ≡ spec.numbered k (all_placed first lowered.now.program.now) },
    ghost holders_are: { holders.lowered.now ≡ lowered.now },
    ghost nodes_are: { seen nodes.now ≡ preorder lowered.now.program.now },
    ghost held_are: { (k : ℕ) → has_number k held ≡ has_number k (held_numbers (spec.moved_functions reads.ledger.now (preorder lowered.now.program.now))) },
    ghost read_nodes_are: { seen reads.nodes.now ≡ preorder lowered.now.program.now },
    ghost read_references_are: { references_of reads.references.now ≡ resolve lowered.now.program.now },
}

impl<'r, 'm, 'a> Lowering<'r, 'm, 'a> {
    /// That of this source to this program, where these are the marks of references and classes of both. Fails on allocation
    /// failure alone.
    pub fn of(
        alloc: Global,
        first: u32,
        ledger: &'r Ledger<'r>,
        source: &'r Listed<'a>,
        lowered: &'r Listed<'a>,
        marks: &'m ProgramMarks<'a>,
    ) -> Result<Lowering<'r, 'm, 'a>, AllocError>
        requires source_marks { marks_of marks.now.source.items ≡ node_marks first source.now.program.now }
        requires marks { marks_of marks.now.lowered.items ≡ node_marks first lowered.now.program.now }
        ensures first { IfOk result (λ l. l.first ≡ first) }
        ensures ledger { IfOk result (λ l. l.reads.ledger.now ≡ ledger.now) }
        ensures source { IfOk result (λ l. l.source.now.program.now ≡ source.now.program.now) }
        ensures lowered { IfOk result (λ l. l.lowered.now.program.now ≡ lowered.now.program.now) }
    {
        let classes = class_numbers(alloc, source.nodes.as_slice())?;
        let source_names = names_in_source(alloc, first, classes.as_slice(), source)?;
        let names = names_in_lowered(alloc, first, ledger, classes.as_slice(), lowered)?;
        let nodes = lowered.nodes.as_slice();
        let source_marks = NodeMarks::of(alloc, marks.source.as_slice())?;
        let marks = NodeMarks::of(alloc, marks.lowered.as_slice())?;
        let source_placed = placed_by_number(alloc, first, source.program)?;
        let placed = placed_by_number(alloc, first, lowered.program)?;
        let holders = Holders::of(alloc, first, classes.as_slice(), lowered)?;
        let reads = Reads::of(alloc, ledger, lowered.references.list.as_slice(), nodes)?;
        let held = held_by(alloc, &reads)?;
        Ok(Lowering {
            first,
            source,
            lowered,
            nodes,
            source_marks,
            marks,
            source_placed,
            placed,
            classes,
            source_names,
            names,
            holders,
            reads,
            held,
        })
    }
}

/// Of each of these classes the references to names of it in a source, but those that write one. Fails on allocation failure
/// alone.
fn names_in_source(
    alloc: Global,
    first: u32,
    classes: &[u32],
    source: &Listed,
) -> Result<Grouped<u32>, AllocError>
    ensures { IfOk result (λ g. (n : ℕ) → has_number n classes.now ≡ true → group n g ≡ spec.naming_in_source first n source.now.program.now) }
{
    let nodes = source.nodes.as_slice();
    let ledger = Ledger::new(alloc);
    names_by_class(alloc, first, &ledger, classes, &source.references, nodes)
}

/// Of each of these classes the references to names of it in a lowered program, but those that write one. Fails on allocation
/// failure alone.
fn names_in_lowered(
    alloc: Global,
    first: u32,
    ledger: &Ledger,
    classes: &[u32],
    lowered: &Listed,
) -> Result<Grouped<u32>, AllocError>
    ensures { IfOk result (λ g. (n : ℕ) → has_number n classes.now ≡ true → group n g ≡ naming_in_lowered first ledger.now lowered.now.program.now n) }
{
    let nodes = lowered.nodes.as_slice();
    names_by_class(alloc, first, ledger, classes, &lowered.references, nodes)
}

/// What stands in functions of generated names by which they are called. Fails on allocation failure alone.
fn held_by(alloc: Global, reads: &Reads) -> Result<Numbers, AllocError>
    ensures { IfOk result (λ r. (k : ℕ) → has_number k r ≡ has_number k (held_numbers (spec.moved_functions reads.now.ledger.now (seen reads.now.nodes.now)))) }
{
    let numbers = held_numbers(alloc, reads.functions.as_slice())?;
    set_of(alloc, numbers.as_slice())
}

fn held_numbers(alloc: Global, functions: &[MovedFunction]) -> Result<Vec<u32>, AllocError>
    ensures { IfOk result (λ r. r.items ≡ held_numbers (functions_of functions.now)) }
{
    let mut numbers = Vec::new(alloc);
    for function in functions {
        add_numbers(function.numbers.as_slice(), &mut numbers)?;
    }
    Ok(numbers)
}
