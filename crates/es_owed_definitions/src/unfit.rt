// Which class of a source does not have its definitions.

ghost use Rattle.std.specs.Prelude.{◌≡◌, IfOk};
ghost use Rattle.es_base.specs.Preorder.{preorder};
ghost use Rattle.es_binding_faults.specs.Seen.{seen};
ghost use Rattle.es_owed_definitions.specs.Fields.{HasStatics};
ghost use Rattle.es_owed_definitions.specs.Unfit.{first_unfit};
ghost use Rattle.es_seen_names.specs.PrivateMembers.{private_members_of};
ghost use Rattle.es_steps.specs.PrivateNames as privates;

use crate::fields::class_stands;
use crate::lowered::LoweredProgram;
use crate::terms::Terms;
use es_generated::ledger::Ledger;
use es_node::node::Node;
use es_outside::names::ProgramNames;
use es_owed::listed::Listed;
use es_seen_names::private_member::private_members;
use es_steps::options::Options;
use std::alloc::{AllocError, Global};

/// The number of the first class of the source in preorder that does not have its definitions in what the source was lowered to
/// (`definitions_stand` says what they are); none where each has them. Fails on allocation failure alone.
pub fn first_unfit(
    alloc: Global,
    first: u32,
    options: &Options,
    ledger: &Ledger,
    source: &Listed,
    lowered: &Listed,
) -> Result<Option<u32>, AllocError>
    ensures { IfOk result (λ n. n ≡ first_unfit first options.now ledger.now (privates.private_members source.now.program.now) source.now.program.now lowered.now.program.now (preorder source.now.program.now)) }
{
    let terms = Terms {
        first,
        options,
        ledger,
    };
    unfit_under(alloc, terms, source, lowered)
}

fn unfit_under(
    alloc: Global,
    terms: Terms,
    source: &Listed,
    lowered: &Listed,
) -> Result<Option<u32>, AllocError>
    ensures { IfOk result (λ n. n ≡ first_unfit terms.entry.first terms.entry.options.now terms.entry.ledger.now (privates.private_members source.now.program.now) source.now.program.now lowered.now.program.now (preorder source.now.program.now)) }
{
    let members = private_members(alloc, source.program)?;
    let lowered = LoweredProgram::of(alloc, terms, members.as_slice(), lowered)?;
    unfit_in(alloc, source, &lowered)
}

fn unfit_in(
    alloc: Global,
    source: &Listed,
    lowered: &LoweredProgram,
) -> Result<Option<u32>, AllocError>
    requires { HasStatics lowered.now.terms (private_members_of lowered.now.members.now) lowered.now.listed.now.program.now lowered.now.statics }
    ensures { IfOk result (λ n. n ≡ first_unfit lowered.now.terms.first lowered.now.terms.options.now lowered.now.terms.ledger.now (private_members_of lowered.now.members.now) source.now.program.now lowered.now.listed.now.program.now (preorder source.now.program.now)) }
{
    let nodes = source.nodes.as_slice();
    unfit_among(alloc, &source.names, lowered, nodes)
}

#[tactic(auto, using(crate::proofs::UnfitClasses::unfit_here, crate::proofs::UnfitClasses::unfit_behind))]
fn unfit_among(
    alloc: Global,
    source: &ProgramNames,
    lowered: &LoweredProgram,
    nodes: &[&Node],
) -> Result<Option<u32>, AllocError>
    requires { HasStatics lowered.now.terms (private_members_of lowered.now.members.now) lowered.now.listed.now.program.now lowered.now.statics }
    ensures { IfOk result (λ n. n ≡ first_unfit lowered.now.terms.first lowered.now.terms.options.now lowered.now.terms.ledger.now (private_members_of lowered.now.members.now) source.now.program.now lowered.now.listed.now.program.now (seen nodes.now)) }
{
    for node in nodes {
        if !class_stands(alloc, source, lowered, node)? {
            return Ok(Some(node.node_id().0));
        }
    }
    Ok(None)
}
