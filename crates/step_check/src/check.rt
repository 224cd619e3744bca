// Whether a lowered program is what its source may be lowered to.

ghost use Rattle.std.specs.Prelude.{◌≡◌, ◌<◌, ◌^◌, IfOk, None, length};
ghost use Rattle.es_base.specs.Numbered.{IsNumbered};
ghost use Rattle.es_base.specs.Preorder.{nodes};
ghost use Rattle.es_clauses.specs.Clauses.{in_order};
ghost use Rattle.es_clauses.specs.Clauses.{first_unmet as unmet};
ghost use Rattle.es_steps.specs.Meaning.{lowered_means, source_means};
ghost use Rattle.step_check.specs.Comparison.{AreOne};
ghost use Rattle.step_check.specs.Judged.{AreJudgedFrom, IsFailure, IsJudged, IsJudgedByClauses, IsJudgedFrom};

use crate::compare::compare;
use crate::verdict::{CheckError, Part, Verdict};
use es_base::ids::NodeId;
use es_base::ledger::LedgerEntry;
use es_clauses::clause::Clause;
use es_clauses::node::node_of;
use es_clauses::pair::{Pair, meets};
use es_clauses::unmet::first_unmet;
use es_generated::ledger::Ledger;
use es_node::node::Node;
use es_owed::listed::Listed;
use es_owed::numbered::is_numbered;
use es_steps::options::Options;
use std::alloc::{AllocError, Global};

/// In what the lowered program of a pair fails, meanings and texts aside.
fn first_failure(alloc: Global, pair: &Pair) -> Result<Option<(Part, NodeId)>, AllocError>
    ensures { IfOk result (λ f. IsFailure f pair.now.first pair.now.options.now pair.now.ledger.now pair.now.source.program.now pair.now.lowered.program.now) }
{
    if !is_numbered(alloc, pair.first, &pair.lowered)? {
        return Ok(Some((Part::Numbers, NodeId(0))));
    }
    match first_unmet(alloc, pair)? {
        Some(clause) => {
            let node = node_of(alloc, pair, clause)?;
            Ok(Some((Part::Lowered(clause), node)))
        }
        None => Ok(None),
    }
}

/// What is said of a pair with one meaning, which fails in nothing else: whether texts stay.
#[tactic(auto, using(crate::proofs::Judging::is_right))]
fn judge_texts(alloc: Global, pair: &Pair) -> Result<Verdict, AllocError>
    requires numbered { IsNumbered pair.now.first pair.now.lowered.program.now }
    requires met { unmet in_order pair.now.first pair.now.options.now pair.now.ledger.now pair.now.source.program.now pair.now.lowered.program.now ≡ None }
    requires one { AreOne (source_means pair.now.options.now pair.now.source.program.now) (lowered_means pair.now.options.now pair.now.ledger.now pair.now.source.program.now pair.now.lowered.program.now) }
    ensures { IfOk result (λ v. IsJudgedFrom v pair.now.first pair.now.options.now pair.now.ledger.now pair.now.source.program.now pair.now.lowered.program.now) }
{
    if meets(alloc, pair, Clause::Texts)? {
        return Ok(Verdict::Yes);
    }
    let (part, node) = (Part::Texts, NodeId(0));
    Ok(Verdict::No { part, node })
}

/// What is said of a pair whose lowered program meets the clauses that are asked in front of the meaning.
#[tactic(auto, using(crate::proofs::Judging::fails))]
fn judge_meanings(alloc: Global, pair: &Pair) -> Result<Verdict, CheckError>
    requires first { pair.now.first ≡ nodes pair.now.source.program.now }
    requires numbered { IsNumbered pair.now.first pair.now.lowered.program.now }
    requires met { unmet in_order pair.now.first pair.now.options.now pair.now.ledger.now pair.now.source.program.now pair.now.lowered.program.now ≡ None }
    ensures { IfOk result (λ v. IsJudgedFrom v pair.now.first pair.now.options.now pair.now.ledger.now pair.now.source.program.now pair.now.lowered.program.now) }
{
    match compare(
        alloc,
        pair.first,
        pair.options,
        pair.ledger,
        &pair.source,
        &pair.lowered,
    ) {
        Ok(Verdict::Yes) => Ok(judge_texts(alloc, pair)?),
        Ok(Verdict::No { part, node }) => Ok(Verdict::No { part, node }),
        Err(error) => Err(error),
    }
}

/// What is said of a pair.
#[tactic(auto, using(crate::proofs::Judging::first_fails))]
fn judge(alloc: Global, pair: &Pair) -> Result<Verdict, CheckError>
    requires { pair.now.first ≡ nodes pair.now.source.program.now }
    ensures { IfOk result (λ v. IsJudgedFrom v pair.now.first pair.now.options.now pair.now.ledger.now pair.now.source.program.now pair.now.lowered.program.now) }
{
    match first_failure(alloc, pair)? {
        Some((part, node)) => Ok(Verdict::No { part, node }),
        None => judge_meanings(alloc, pair),
    }
}

/// How many nodes these are.
fn count(nodes: &[&Node]) -> u32
    requires { length nodes.now < 2 ^ 32 }
    ensures { result ≡ length nodes.now }
{
    nodes.len() as u32
}

/// A source and a lowered program with their nodes. Fails on allocation failure alone.
fn pair_of<'a>(
    alloc: Global,
    options: &'a Options,
    ledger: &'a Ledger<'a>,
    source: &'a Node,
    lowered: &'a Node,
) -> Result<Pair<'a>, AllocError>
    requires { nodes source.now < 2 ^ 32 }
    ensures first { IfOk result (λ p. p.first ≡ nodes source.now) }
    ensures ledger { IfOk result (λ p. (p.options.now ≡ options.now) × (p.ledger.now ≡ ledger.now)) }
    ensures programs { IfOk result (λ p. (p.source.program.now ≡ source.now) × (p.lowered.program.now ≡ lowered.now)) }
{
    let source = Listed::of(alloc, source)?;
    let lowered = Listed::of(alloc, lowered)?;
    Ok(Pair {
        first: count(source.nodes.as_slice()),
        options,
        ledger,
        source,
        lowered,
    })
}

/// Whether `lowered`, whose generated names are those of `ledger`, is what `source` may be lowered to under the options: whether
/// it meets the clauses (docs/MEANING.md), and means what the source means. Nothing is asked of who lowered it. Where it is not,
/// the first part in which it fails is told, with a node. The source has less than 4,294,967,296 nodes. Fails on allocation
/// failure, and where codes stand in codes too often.
pub fn step_check<'a>(
    alloc: Global,
    options: &'a Options,
    ledger: &'a [LedgerEntry],
    source: &'a Node,
    lowered: &'a Node,
) -> Result<Verdict, CheckError>
    requires { nodes source.now < 2 ^ 32 }
    ensures { IfOk result (λ v. IsJudged v options.now ledger.now source.now lowered.now) }
{
    let ledger = Ledger::of(alloc, ledger)?;
    judge_programs(alloc, options, &ledger, source, lowered)
}

/// The same, where the generated names are looked up.
fn judge_programs(
    alloc: Global,
    options: &Options,
    ledger: &Ledger,
    source: &Node,
    lowered: &Node,
) -> Result<Verdict, CheckError>
    requires { nodes source.now < 2 ^ 32 }
    ensures { IfOk result (λ v. IsJudged v options.now ledger.now source.now lowered.now) }
{
    let pair = pair_of(alloc, options, ledger, source, lowered)?;
    judge(alloc, &pair)
}

/// What is said, by the clauses alone, of a pair that meets those in front of the meaning: whether texts stay.
#[tactic(auto, using(crate::proofs::Judging::meets_all))]
fn judge_last_clause(alloc: Global, pair: &Pair) -> Result<Verdict, AllocError>
    requires numbered { IsNumbered pair.now.first pair.now.lowered.program.now }
    requires met { unmet in_order pair.now.first pair.now.options.now pair.now.ledger.now pair.now.source.program.now pair.now.lowered.program.now ≡ None }
    ensures { IfOk result (λ v. AreJudgedFrom v pair.now.first pair.now.options.now pair.now.ledger.now pair.now.source.program.now pair.now.lowered.program.now) }
{
    if meets(alloc, pair, Clause::Texts)? {
        return Ok(Verdict::Yes);
    }
    let (part, node) = (Part::Texts, NodeId(0));
    Ok(Verdict::No { part, node })
}

/// What is said of a pair by the clauses alone.
#[tactic(auto, using(crate::proofs::Judging::clauses_fail))]
fn judge_clauses(alloc: Global, pair: &Pair) -> Result<Verdict, AllocError>
    ensures { IfOk result (λ v. AreJudgedFrom v pair.now.first pair.now.options.now pair.now.ledger.now pair.now.source.program.now pair.now.lowered.program.now) }
{
    match first_failure(alloc, pair)? {
        Some((part, node)) => Ok(Verdict::No { part, node }),
        None => judge_last_clause(alloc, pair),
    }
}

/// Whether `lowered` meets the clauses on lowered programs (docs/MEANING.md) as what `source` was lowered to, whatever the two
/// mean. Where it does not, the first part in which it fails is told, with a node. The source has less than 4,294,967,296 nodes.
/// Fails on allocation failure alone.
pub fn check_clauses<'a>(
    alloc: Global,
    options: &'a Options,
    ledger: &'a [LedgerEntry],
    source: &'a Node,
    lowered: &'a Node,
) -> Result<Verdict, AllocError>
    requires { nodes source.now < 2 ^ 32 }
    ensures { IfOk result (λ v. IsJudgedByClauses v options.now ledger.now source.now lowered.now) }
{
    let ledger = Ledger::of(alloc, ledger)?;
    check_programs(alloc, options, &ledger, source, lowered)
}

/// The same, where the generated names are looked up.
fn check_programs(
    alloc: Global,
    options: &Options,
    ledger: &Ledger,
    source: &Node,
    lowered: &Node,
) -> Result<Verdict, AllocError>
    requires { nodes source.now < 2 ^ 32 }
    ensures { IfOk result (λ v. IsJudgedByClauses v options.now ledger.now source.now lowered.now) }
{
    let pair = pair_of(alloc, options, ledger, source, lowered)?;
    judge_clauses(alloc, &pair)
}
