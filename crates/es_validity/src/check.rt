// Whether a program is valid.

ghost use Rattle.std.specs.Prelude.{◌≡◌, ◌<◌, ◌^◌, map, true, IfOk, OnOk, IfErr};
ghost use Rattle.es_base.specs.Preorder.{nodes};
ghost use Rattle.es_validity.specs.Faults.{first_with};
ghost use Rattle.es_validity.specs.Found.{found};
ghost use Rattle.es_validity.specs.Names.{facts_in};
ghost use Rattle.es_validity.specs.Validity.{fact_faults, first_fault_by, is_valid_by, IsErrorOf, IsRefusedBy};

use crate::error::LowerError;
use crate::fault::{Cause, Fault, LeftOut, TreeRule};
use crate::first::each;
use crate::privates::private_faults;
use crate::walk::tree_faults;
use es_base::ids::NodeId;
use es_node::node::Node;
use es_steps::options::Options;
use std::alloc::{AllocError, Global};

/// A program has at most this many nodes.
const MOST_NODES: u32 = 1048576;

/// What is known of the names of a program, as numbers of nodes.
#[derive(Clone, Copy)]
pub struct Facts<'a> {
    /// Identifiers that declare a name again, where one of both is by `let`, `const`, `class` or `import`.
    pub repeated_names: &'a [NodeId],
    /// Calls of the free name `eval`.
    pub eval_calls: &'a [NodeId],
}

/// The first fault of a program with these facts on its names: that of the least node, and at one node the first in the order
/// of rules. `foreign` are the numbers of nodes that have members outside the table. Fails on allocation failure alone.
#[tactic(auto, using(crate::proofs::Firsts::first_with_append))]
pub fn first_fault(
    alloc: Global,
    program: &Node,
    foreign: &[NodeId],
    facts: &Facts,
    options: &Options,
) -> Result<Option<Fault>, AllocError>
    ensures { IfOk result (λ r. found r ≡ first_fault_by (facts_in facts.now) options.now (map (λ n. n.0) foreign.now) program.now) }
{
    let first = tree_faults(options, program, None);
    let first = private_faults(alloc, program, first)?;
    let first = fact_faults(facts, first);
    Ok(each(first, foreign, Cause::Unsupported(LeftOut::Foreign)))
}

/// The first of the faults that these facts tell, and of the one that was first before.
#[tactic(auto, using(crate::proofs::Firsts::first_with_append))]
fn fact_faults(facts: &Facts, first: Option<Fault>) -> Option<Fault>
    ensures { found result ≡ first_with (found first) (fact_faults (facts_in facts.now)) }
{
    let first = each(
        first,
        facts.repeated_names,
        Cause::BadTree(TreeRule::RepeatedName),
    );
    each(first, facts.eval_calls, Cause::Unsupported(LeftOut::Eval))
}

/// Whether a program is valid, where these are the facts on its names: it has no more than 1,048,576 nodes, and no fault. The
/// error is `TooLarge`, or its first fault. `foreign` are the numbers of nodes that have members outside the table. Takes time
/// in proportion to the program, but for labels of labels and classes in classes. `NoMemory` comes on allocation failure alone.
pub fn check_valid(
    alloc: Global,
    program: &Node,
    foreign: &[NodeId],
    facts: &Facts,
    options: &Options,
) -> Result<(), LowerError>
    requires { nodes program.now < 2 ^ 32 }
    ensures valid { OnOk result (is_valid_by (facts_in facts.now) options.now (map (λ n. n.0) foreign.now) program.now ≡ true) }
    ensures refused { IfErr result (IsRefusedBy (facts_in facts.now) options.now (map (λ n. n.0) foreign.now) program.now) }
{
    if !program.has_at_most(MOST_NODES) {
        return Err(LowerError::TooLarge {
            nodes: program.nodes(),
        });
    }
    match first_fault(alloc, program, foreign, facts, options)? {
        None => Ok(()),
        Some(fault) => Err(refusal(fault)),
    }
}

/// The refusal of a program with this first fault.
fn refusal(fault: Fault) -> LowerError
    ensures { IsErrorOf fault.node.0 fault.cause result }
{
    let node = fault.node;
    match fault.cause {
        Cause::BadTree(rule) => LowerError::BadTree { node, rule },
        Cause::DuplicatePrivate => LowerError::DuplicatePrivate { node },
        Cause::UndeclaredPrivate => LowerError::UndeclaredPrivate { node },
        Cause::Unsupported(what) => LowerError::Unsupported { node, what },
    }
}
