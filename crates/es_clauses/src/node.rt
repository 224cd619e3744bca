// The node that tells of a clause.

ghost use Rattle.std.specs.Prelude.{◌≡◌, IfOk};
ghost use Rattle.es_clauses.specs.Nodes.{node_of, or_none};
ghost use Rattle.es_clauses.specs.declared.clause.Clause.{Clause};

use crate::clause::Clause;
use crate::pair::Pair;
use es_base::ids::NodeId;
use es_left::left::first_left;
use es_owed_definitions::unfit::first_unfit;
use std::alloc::{AllocError, Global};

/// The node that tells of a clause which a lowered program does not meet: the first node that is left to be lowered, or the first
/// class of the source that does not have its definitions; 0 with every other clause. Fails on allocation failure alone.
pub fn node_of(alloc: Global, pair: &Pair, clause: Clause) -> Result<NodeId, AllocError>
    ensures { IfOk result (λ n. n.0 ≡ node_of clause pair.now.first pair.now.options.now pair.now.ledger.now pair.now.source.program.now pair.now.lowered.program.now) }
{
    match clause {
        Clause::Left => Ok(left_node(pair)),
        Clause::Definitions => unfit_class(alloc, pair),
        _ => Ok(NodeId(0)),
    }
}

fn left_node(pair: &Pair) -> NodeId
    ensures { result.0 ≡ node_of Clause.Left pair.now.first pair.now.options.now pair.now.ledger.now pair.now.source.program.now pair.now.lowered.program.now }
{
    match first_left(pair.lowered.program, pair.options) {
        Some(node) => node,
        None => NodeId(0),
    }
}

fn unfit_class(alloc: Global, pair: &Pair) -> Result<NodeId, AllocError>
    ensures { IfOk result (λ n. n.0 ≡ node_of Clause.Definitions pair.now.first pair.now.options.now pair.now.ledger.now pair.now.source.program.now pair.now.lowered.program.now) }
{
    let (first, options, ledger) = (pair.first, pair.options, pair.ledger);
    let class = first_unfit(alloc, first, options, ledger, &pair.source, &pair.lowered)?;
    Ok(NodeId(number_or_none(class)))
}

fn number_or_none(number: Option<u32>) -> u32
    ensures { result ≡ or_none number }
{
    match number {
        Some(number) => number,
        None => 0,
    }
}
