// A program with its nodes, references and names.

ghost use Rattle.std.specs.Prelude.{◌≡◌, ℕ, map, IfOk};
ghost use Rattle.es_base.specs.Preorder.{number_of, preorder};
ghost use Rattle.es_binding_faults.specs.Seen.{seen};
ghost use Rattle.es_by_number.specs.Numbered.{pairs};
ghost use Rattle.es_grouped.specs.Groups.{group};
ghost use Rattle.es_owed.specs.Listed.{numbered};
ghost use Rattle.es_references.specs.References.{references_of};
ghost use Rattle.es_steps.specs.References.{resolve};

use es_binding_faults::preorder::preorder;
use es_by_number::numbered::Numbered;
use es_grouped::Grouped;
use es_node::node::Node;
use es_outside::names::ProgramNames;
use es_referents::Referents;
use std::alloc::{AllocError, Global};

/// A program, its nodes in preorder, its references, and its names.
#[derive(Drop)]
pub struct Listed<'a> {
    pub program: &'a Node,
    pub nodes: Vec<&'a Node>,
    /// The same nodes by their numbers.
    pub by_number: Grouped<&'a Node>,
    pub references: Referents<'a>,
    pub names: ProgramNames<'a>,

    ghost in_preorder: { seen nodes.items ≡ preorder program.now },
    ghost are_numbered: { (m : ℕ) → seen (group m by_number) ≡ numbered m (seen nodes.items) },
    ghost are_resolved: { references_of references.list.items ≡ resolve program.now },
    ghost are_named: { names.program.now ≡ program.now },
}

impl<'a> Listed<'a> {
    /// This program with its nodes, references and names. Fails on allocation failure alone.
    pub fn of(alloc: Global, program: &'a Node) -> Result<Listed<'a>, AllocError>
        ensures { IfOk result (λ l. l.program.now ≡ program.now) }
    {
        let nodes = preorder(alloc, program)?;
        let by_number = by_number(alloc, nodes.as_slice())?;
        let references = Referents::of(alloc, program)?;
        let names = ProgramNames::from_references(
            alloc,
            program,
            references.list.as_slice(),
            nodes.as_slice(),
        )?;
        Ok(Listed {
            program,
            nodes,
            by_number,
            references,
            names,
        })
    }

    /// The nodes of this number in preorder: at most one, where no number stands twice.
    pub fn numbered(&self, number: u32) -> &[&'a Node]
        ensures { seen result.now ≡ numbered number (seen self.now.nodes.items) }
    {
        self.by_number.get(number)
    }
}

/// These nodes by their numbers. Fails on allocation failure alone.
#[tactic(auto, using(crate::proofs::NumberedNodes::by_numbers))]
fn by_number<'a>(alloc: Global, nodes: &[&'a Node]) -> Result<Grouped<&'a Node>, AllocError>
    ensures { IfOk result (λ g. (m : ℕ) → seen (group m g) ≡ numbered m (seen nodes.now)) }
{
    let items = with_numbers(alloc, nodes)?;
    Grouped::of(alloc, items)
}

/// These nodes, each with its number. Fails on allocation failure alone.
#[tactic(auto, using(crate::proofs::Nodes::number_of_node))]
fn with_numbers<'a>(
    alloc: Global,
    nodes: &[&'a Node],
) -> Result<Vec<Numbered<&'a Node>>, AllocError>
    ensures { IfOk result (λ r. pairs r.items ≡ map (λ n. (number_of n.now, n)) nodes.now) }
{
    let mut items = Vec::new(alloc);
    for node in nodes {
        items.push(Numbered {
            number: node.node_id().0,
            value: *node,
        })?;
    }
    Ok(items)
}
