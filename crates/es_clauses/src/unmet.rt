// Which clause is not met.

ghost use Rattle.std.specs.Prelude.{◌≡◌, IfOk};
ghost use Rattle.es_clauses.specs.Clauses.{first_unmet, in_order};

use crate::clause::Clause;
use crate::pair::{Pair, meets};
use std::alloc::{AllocError, Global};

/// The clauses that are asked in front of the meaning, in order: all but `Clause::Texts`. A name or a literal that is another one
/// mostly makes another meaning, which tells more.
pub fn in_order() -> &'static [Clause]
    ensures { result.now ≡ in_order }
{
    &[
        Clause::Left,
        Clause::Declared,
        Clause::Accounted,
        Clause::Initialized,
        Clause::Timely,
        Clause::Temporaries,
        Clause::Keys,
        Clause::Names,
        Clause::References,
        Clause::Strict,
        Clause::Carriers,
        Clause::Nodes,
        Clause::Classes,
        Clause::Statements,
        Clause::Lists,
        Clause::Homes,
        Clause::Printable,
        Clause::Definitions,
        Clause::Elements,
        Clause::Calls,
    ]
}

fn first_of(alloc: Global, pair: &Pair, clauses: &[Clause]) -> Result<Option<Clause>, AllocError>
    ensures { IfOk result (λ c. c ≡ first_unmet clauses.now pair.now.first pair.now.options.now pair.now.ledger.now pair.now.source.program.now pair.now.lowered.program.now) }
{
    for clause in clauses {
        if !meets(alloc, pair, *clause)? {
            return Ok(Some(*clause));
        }
    }
    Ok(None)
}

/// The first of these clauses that a lowered program does not meet, whoever lowered it; none where it meets them all, and with
/// `Clause::Texts` every clause (`all_met` of `Meeting`). Fails on allocation failure alone.
pub fn first_unmet(alloc: Global, pair: &Pair) -> Result<Option<Clause>, AllocError>
    ensures { IfOk result (λ c. c ≡ first_unmet in_order pair.now.first pair.now.options.now pair.now.ledger.now pair.now.source.program.now pair.now.lowered.program.now) }
{
    first_of(alloc, pair, in_order())
}
