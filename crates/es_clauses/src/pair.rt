// A source, and what it was lowered to.

ghost use Rattle.std.specs.Prelude.{◌≡◌, IfOk};
ghost use Rattle.es_clauses.specs.Clauses.{holds};
ghost use Rattle.es_clauses.specs.declared.clause.Clause.{Clause};

use crate::clause::Clause;
use crate::references::references_stay;
use es_generated::ledger::Ledger;
use es_left::left::nothing_left;
use es_owed::elements::elements_kept;
use es_owed::free::statements_kept;
use es_owed::homes::homes_kept;
use es_owed::kept_nodes::{classes_kept, nodes_kept};
use es_owed::listed::Listed;
use es_owed::lists::lists_kept;
use es_owed::strict::none_becomes_strict;
use es_owed_calls::helper_calls::helper_calls_fit;
use es_owed_carriers::carried::numbers_carried;
use es_owed_definitions::definitions::definitions_stand;
use es_owed_initialized::initialized::initializations_stand;
use es_owed_keys::keys::keys_stand;
use es_owed_names::accounted::declarations_accounted;
use es_owed_names::declared::names_declared;
use es_owed_printable::printable::stays_printable;
use es_owed_references::own_names::own_names_stay;
use es_owed_temporaries::temporaries::temporaries_steady;
use es_owed_texts::texts::texts_stay;
use es_owed_timely::timely::names_timely;
use es_seen_names::private_member::private_members;
use es_steps::options::Options;
use std::alloc::{AllocError, Global};

/// A source, and what it was lowered to.
#[derive(Drop)]
pub struct Pair<'a> {
    /// The number of the first node that is new.
    pub first: u32,
    pub options: &'a Options,
    /// The generated names.
    pub ledger: &'a Ledger<'a>,
    pub source: Listed<'a>,
    pub lowered: Listed<'a>,
}

/// Whether the lowered program meets the clause (docs/MEANING.md has what each asks). Fails on allocation failure alone.
pub fn meets(alloc: Global, pair: &Pair, clause: Clause) -> Result<bool, AllocError>
    ensures { IfOk result (λ is_met. is_met ≡ holds clause pair.now.first pair.now.options.now pair.now.ledger.now pair.now.source.program.now pair.now.lowered.program.now) }
{
    let (first, options, ledger) = (pair.first, pair.options, pair.ledger);
    let (source, lowered) = (&pair.source, &pair.lowered);
    match clause {
        Clause::Left => Ok(nothing_left(lowered.program, options)),
        Clause::Declared => names_declared(alloc, first, ledger, lowered),
        Clause::Accounted => declarations_accounted(alloc, first, ledger, source, lowered),
        Clause::Names => own_names_stay(alloc, ledger, source, lowered),
        Clause::References => references_stay(alloc, pair),
        Clause::Strict => none_becomes_strict(alloc, first, source.program, lowered.program),
        Clause::Texts => texts_stay(alloc, first, source, lowered),
        Clause::Initialized => initializations_stand(alloc, first, ledger, source, lowered),
        Clause::Timely => are_timely(alloc, pair),
        Clause::Temporaries => are_steady(alloc, pair),
        Clause::Keys => keys_stand(alloc, first, options, ledger, source, lowered),
        Clause::Carriers => numbers_carried(alloc, first, source, lowered),
        Clause::Nodes => Ok(nodes_kept(source, lowered)),
        Clause::Classes => classes_kept(alloc, first, source, lowered),
        Clause::Statements => Ok(statements_kept(options, source, lowered)),
        Clause::Lists => lists_kept(alloc, options, source, lowered),
        Clause::Homes => homes_kept(alloc, first, options, source, lowered),
        Clause::Definitions => definitions_stand(alloc, first, options, ledger, source, lowered),
        Clause::Elements => elements_kept(alloc, options, source, lowered),
        Clause::Calls => helper_calls_fit(alloc, first, ledger, source, lowered),
        Clause::Printable => stays_printable(alloc, source, lowered),
    }
}

/// Whether no generated name is used before it has its value. Fails on allocation failure alone.
fn are_timely(alloc: Global, pair: &Pair) -> Result<bool, AllocError>
    ensures { IfOk result (λ is_met. is_met ≡ holds Clause.Timely pair.now.first pair.now.options.now pair.now.ledger.now pair.now.source.program.now pair.now.lowered.program.now) }
{
    let members = private_members(alloc, pair.source.program)?;
    names_timely(
        alloc,
        pair.first,
        pair.ledger,
        members.as_slice(),
        &pair.lowered,
    )
}

/// Whether a temporary holds one value wherever it is read. Fails on allocation failure alone.
fn are_steady(alloc: Global, pair: &Pair) -> Result<bool, AllocError>
    ensures { IfOk result (λ is_met. is_met ≡ holds Clause.Temporaries pair.now.first pair.now.options.now pair.now.ledger.now pair.now.source.program.now pair.now.lowered.program.now) }
{
    let members = private_members(alloc, pair.source.program)?;
    temporaries_steady(
        alloc,
        pair.first,
        pair.ledger,
        members.as_slice(),
        &pair.lowered,
    )
}
