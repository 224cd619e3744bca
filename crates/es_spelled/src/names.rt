// The identifiers that declare names, and references, looked up by their spelling.

ghost use Rattle.std.specs.Prelude.{◌≡◌, ℕ, IfOk};
ghost use Rattle.std.specs.Str.{chars};
ghost use Rattle.es_binding_faults.specs.Seen.{seen};
ghost use Rattle.es_by_number.specs.Numbered.{pairs};
ghost use Rattle.es_grouped.specs.Groups.{group, having};
ghost use Rattle.es_lowered.specs.Lowered as spec;
ghost use Rattle.es_references.specs.References.{references_of};
ghost use Rattle.es_spelled.specs.Spelled.{numbered_declaring, numbered_references};

use es_binding_faults::bound::is_binding_identifier;
use es_binding_faults::leasts::Leasts;
use es_by_number::numbered::Numbered;
use es_generated::spellings::spelling_number;
use es_grouped::Grouped;
use es_node::node::Node;
use es_references::references::Reference;
use es_seen_names::parts::string_at;
use std::alloc::{AllocError, Global};

/// The identifiers that declare names among the nodes of a program, and its references, by the numbers of their spellings.
#[derive(Drop)]
pub struct Names<'r, 'a> {
    pub nodes: &'r [&'a Node],
    pub references: &'r [Reference<'a>],
    pub spellings: &'r Leasts<'a>,
    pub declaring: Grouped<&'a Node>,
    pub referring: Grouped<Reference<'a>>,

    ghost declaring_are: { (m : ℕ) → group m declaring ≡ having m (numbered_declaring spellings.now nodes.now) },
    ghost referring_are: { (m : ℕ) → group m referring ≡ having m (numbered_references spellings.now references.now) },
}

impl<'r, 'a> Names<'r, 'a> {
    /// Those of these nodes and references. Fails on allocation failure alone.
    pub fn of(
        alloc: Global,
        spellings: &'r Leasts<'a>,
        nodes: &'r [&'a Node],
        references: &'r [Reference<'a>],
    ) -> Result<Names<'r, 'a>, AllocError>
        ensures nodes { IfOk result (λ n. n.nodes.now ≡ nodes.now) }
        ensures references { IfOk result (λ n. n.references.now ≡ references.now) }
    {
        let declaring = declaring_by_number(alloc, spellings, nodes)?;
        let referring = referring_by_number(alloc, spellings, references)?;
        Ok(Names {
            nodes,
            references,
            spellings,
            declaring,
            referring,
        })
    }

    /// Nodes among which are the identifiers that declare this name.
    #[tactic(auto, using(crate::proofs::SpelledNames::declaring_by_number))]
    pub fn declaring(&self, name: &str) -> &[&'a Node]
        ensures { spec.declaring_numbers (chars name.now) (seen result.now) ≡ spec.declaring_numbers (chars name.now) (seen self.now.nodes.now) }
    {
        self.declaring.get(spelling_number(name, self.spellings))
    }

    /// References among which are those of this name.
    #[tactic(auto, using(crate::proofs::SpelledNames::referring_by_number))]
    pub fn referring(&self, name: &str) -> &[Reference<'a>]
        ensures { (b : ℕ) → spec.all_mean (chars name.now) b (references_of result.now) ≡ spec.all_mean (chars name.now) b (references_of self.now.references.now) }
    {
        self.referring.get(spelling_number(name, self.spellings))
    }
}

fn declaring_by_number<'a>(
    alloc: Global,
    spellings: &Leasts,
    nodes: &[&'a Node],
) -> Result<Grouped<&'a Node>, AllocError>
    ensures { IfOk result (λ g. (m : ℕ) → group m g ≡ having m (numbered_declaring spellings.now nodes.now)) }
{
    let items = declaring_with_numbers(alloc, spellings, nodes)?;
    Grouped::of(alloc, items)
}

/// The identifiers that declare, each with the number of its spelling. Fails on allocation failure alone.
fn declaring_with_numbers<'a>(
    alloc: Global,
    spellings: &Leasts,
    nodes: &[&'a Node],
) -> Result<Vec<Numbered<&'a Node>>, AllocError>
    ensures { IfOk result (λ r. pairs r.items ≡ numbered_declaring spellings.now nodes.now) }
{
    let mut items = Vec::new(alloc);
    for node in nodes {
        if is_binding_identifier(node) {
            items.push(Numbered {
                number: spelling_number(string_at(node.parts(), 0), spellings),
                value: *node,
            })?;
        }
    }
    Ok(items)
}

fn referring_by_number<'a>(
    alloc: Global,
    spellings: &Leasts,
    references: &[Reference<'a>],
) -> Result<Grouped<Reference<'a>>, AllocError>
    ensures { IfOk result (λ g. (m : ℕ) → group m g ≡ having m (numbered_references spellings.now references.now)) }
{
    let items = referring_with_numbers(alloc, spellings, references)?;
    Grouped::of(alloc, items)
}

/// The references, each with the number of its spelling. Fails on allocation failure alone.
fn referring_with_numbers<'a>(
    alloc: Global,
    spellings: &Leasts,
    references: &[Reference<'a>],
) -> Result<Vec<Numbered<Reference<'a>>>, AllocError>
    ensures { IfOk result (λ r. pairs r.items ≡ numbered_references spellings.now references.now) }
{
    let mut items = Vec::new(alloc);
    for reference in references {
        items.push(Numbered {
            number: spelling_number(reference.name, spellings),
            value: *reference,
        })?;
    }
    Ok(items)
}
