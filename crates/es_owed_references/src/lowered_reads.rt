// What is read in a lowered program, by names and by functions that are called.

ghost use Rattle.std.specs.Prelude.{◌≡◌, IfOk};
ghost use Rattle.es_binding_faults.specs.Seen.{seen};
ghost use Rattle.es_lowered.specs.ClassNames as classes;
ghost use Rattle.es_owed_references.specs.Moved.{functions_of};
ghost use Rattle.es_owed_references.specs.Reaching.{reads_besides, reads_of, written_numbers};
ghost use Rattle.es_references.specs.References.{references_of};

use crate::moved::{MovedFunction, moved_functions, outside_class};
use crate::numbers::set_of;
use crate::reaching::{NameRead, name_reads, reached};
use es_generated::ledger::Ledger;
use es_node::node::Node;
use es_references::references::Reference;
use std::alloc::{AllocError, Global};

/// What is read in a lowered program of these nodes: its references, its functions of generated names by which they are called,
/// and the reads of names.
#[derive(Drop)]
pub struct Reads<'r, 'a> {
    pub ledger: &'r Ledger<'r>,
    pub references: &'r [Reference<'a>],
    pub nodes: &'r [&'a Node],
    pub functions: Vec<MovedFunction<'a>>,
    pub names: Vec<NameRead<'a>>,

    ghost functions_are: { functions_of functions.items ≡ classes.moved_functions ledger.now (seen nodes.now) },
    ghost names_are: { reads_of names.items ≡ reads_besides (written_numbers (references_of references.now)) (seen nodes.now) },
}

impl<'r, 'a> Reads<'r, 'a> {
    /// Those of these. Fails on allocation failure alone.
    pub fn of(
        alloc: Global,
        ledger: &'r Ledger<'r>,
        references: &'r [Reference<'a>],
        nodes: &'r [&'a Node],
    ) -> Result<Reads<'r, 'a>, AllocError>
        ensures ledger { IfOk result (λ r. r.ledger.now ≡ ledger.now) }
        ensures references { IfOk result (λ r. references_of r.references.now ≡ references_of references.now) }
        ensures nodes { IfOk result (λ r. seen r.nodes.now ≡ seen nodes.now) }
    {
        let functions = moved_functions(alloc, ledger, nodes)?;
        let names = name_reads(alloc, references, nodes)?;
        Ok(Reads {
            ledger,
            references,
            nodes,
            functions,
            names,
        })
    }

    /// The functions that hold none of these nodes. Fails on allocation failure alone.
    #[tactic(auto, using(crate::proofs::Steps::same_outside))]
    pub fn functions_outside(
        &self,
        alloc: Global,
        numbers: &[u32],
    ) -> Result<Vec<MovedFunction<'a>>, AllocError>
        ensures { IfOk result (λ r. functions_of r.items ≡ classes.outside_class numbers.now (classes.moved_functions self.now.ledger.now (seen self.now.nodes.now))) }
    {
        let inside = set_of(alloc, numbers)?;
        outside_class(alloc, &inside, self.functions.as_slice())
    }

    /// These references, with those to functions that hold one of them, and so on. Fails on allocation failure alone.
    #[tactic(auto, using(crate::proofs::Steps::reaching_steps))]
    pub fn reaching(
        &self,
        alloc: Global,
        functions: &[MovedFunction],
        numbers: &[u32],
    ) -> Result<Vec<u32>, AllocError>
        ensures { IfOk result (λ r. r.items ≡ classes.reaching self.now.ledger.now (functions_of functions.now) (references_of self.now.references.now) (seen self.now.nodes.now) numbers.now) }
    {
        reached(
            alloc,
            self.ledger,
            functions,
            self.names.as_slice(),
            numbers,
        )
    }
}
