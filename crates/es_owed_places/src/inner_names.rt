// The name of a function in a block is read in the functions of the source in which it was: in sloppy code it means a `var` of
// these (ECMA-262, B.3.2).
//
// Each such reference of a lowered program is sought among those of the source.

ghost use Rattle.std.specs.Prelude.{◌≡◌, ◌||◌, IfOk, OnOk};
ghost use Rattle.std.specs.Str.{chars};
ghost use Rattle.es_base.specs.Conforms.{is_among};
ghost use Rattle.es_binding_faults.specs.Seen.{seen};
ghost use Rattle.es_lowered.specs.KeptReferences as spec;
ghost use Rattle.es_outside.specs.InnerFunctions.{texts};
ghost use Rattle.es_steps.specs.References.{gives_inside};
ghost use Rattle.es_steps.specs.Values.{String};
ghost use Rattle.es_owed_places.specs.InnerNames.{gives_name};

use crate::placed::{Asks, placed_references};
use crate::same_places::all_stand_where;
use es_name_set::Names;
use es_node::node::Node;
use es_outside::inner_functions::inner_functions;
use es_owed::listed::Listed;
use std::alloc::{AllocError, Global};

/// The names of the functions in blocks, in cases and in branches of an `if` among these nodes.
#[derive(Drop)]
struct InnerNames<'r, 'a> {
    nodes: &'r [&'a Node],
    names: Names<'a>,

    ghost are_its: { (s : String) → is_among s names ≡ gives_inside s (seen nodes.now) },
}

impl<'r, 'a> Asks for InnerNames<'r, 'a> {
    ghost asks = { λ k m s. gives_inside s (seen k.nodes.now) };

    fn asks(&self, _number: u32, name: &str) -> bool
        ensures { result ≡ gives_inside (chars name.now) (seen self.now.nodes.now) }
    {
        self.names.has(name)
    }
}

/// Whether each reference of what a program was lowered to by such a name stands in the functions in which it stood, or one of
/// its name if it is new. Fails on allocation failure alone.
pub fn inner_names_stay(
    alloc: Global,
    first: u32,
    source: &Listed,
    lowered: &Listed,
) -> Result<bool, AllocError>
    ensures { IfOk result (λ holds. holds ≡ spec.inner_names_stay first source.now.program.now lowered.now.program.now) }
{
    let names = InnerNames::of(alloc, source.nodes.as_slice())?;
    let there = placed_references(alloc, first, &names, source.program)?;
    let found = placed_references(alloc, first, &names, lowered.program)?;
    Ok(all_stand_where(first, found.as_slice(), there.as_slice()))
}

impl<'r, 'a> InnerNames<'r, 'a> {
    /// Those of these nodes. Fails on allocation failure alone.
    fn of(alloc: Global, nodes: &'r [&'a Node]) -> Result<InnerNames<'r, 'a>, AllocError>
        ensures { IfOk result (λ n. seen n.nodes.now ≡ seen nodes.now) }
    {
        let mut names = Names::new(alloc);
        for node in nodes {
            add_inner(alloc, node, &mut names)?;
        }
        Ok(InnerNames { nodes, names })
    }
}

/// Adds those of a node. Fails on allocation failure alone.
#[tactic(auto, using(crate::proofs::GivenNames::name_node))]
fn add_inner<'a>(alloc: Global, node: &'a Node, names: &mut Names<'a>) -> Result<(), AllocError>
    ensures { OnOk result ((s : String) → is_among s names.new ≡ (is_among s names.old || gives_name s node.now)) }
{
    let functions = inner_functions(alloc, false, node)?;
    add_all(functions.as_slice(), names)
}

fn add_all<'a>(functions: &[&'a str], names: &mut Names<'a>) -> Result<(), AllocError>
    ensures { OnOk result ((s : String) → is_among s names.new ≡ (is_among s names.old || is_among s (texts functions.now))) }
{
    for function in functions {
        names.insert(*function)?;
    }
    Ok(())
}
