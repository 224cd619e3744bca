// The pair of programs that a value is.

ghost use Rattle.std.specs.Prelude.{◌≡◌, ◌+◌, ◌<◌, ◌^◌, IfErr, IfOk, None, Some};
ghost use Rattle.borrowed_json.specs.View.{items_view, view};
ghost use Rattle.check_run.specs.Pair.{lowered_in, pair_between, pair_in, pair_of_items};
ghost use Rattle.check_run.specs.ReadPair.{pair_of};
ghost use Rattle.check_run.specs.declared.pair.PairError.{PairError};
ghost use Rattle.es_base.specs.Preorder.{nodes};
ghost use Rattle.es_reading.specs.Told.{values, values_of_items};

use borrowed_json::value::Value;
use es_base::ids::NodeId;
use es_base::ledger::Ledger;
use es_base::list::List;
use es_ledger::ledger::{LedgerError, read_ledger};
use es_node::node::Node;
use es_reading::fault::ReadError;
use es_reading::numbers::Numbers;
use es_reading::tree::read_tree;
use std::alloc::Global;
use thiserror::Error;

/// A source, and a program that it is said to be lowered to.
#[derive(Drop)]
pub struct ReadPair {
    /// Its nodes are numbered in preorder.
    pub source: Node,
    /// The numbers of nodes of the source that have members outside the table.
    pub foreign: List<NodeId>,
    /// Its nodes have the numbers of their members `node`.
    pub lowered: Node,
    /// The generated names of the lowered program.
    pub names: Ledger,
}

/// Why a value is no pair of programs.
#[derive(Debug, Drop, Error)]
pub enum PairError {
    /// There was not enough memory.
    #[error("out of memory")]
    NoMemory,
    /// It is no list of a source and of a lowered program with its generated names.
    #[error("not a pair")]
    NotAPair,
}

impl From<ReadError> for PairError {
    ghost use Rattle.check_run.specs.PairErrors.{error_of_tree};

    ghost from_gives = { λ e r. r ≡ error_of_tree e };

    fn from(error: ReadError) -> PairError {
        match error {
            ReadError::NoMemory => PairError::NoMemory,
            ReadError::NotATree { .. } | ReadError::Float { .. } => PairError::NotAPair,
        }
    }
}

impl From<LedgerError> for PairError {
    ghost use Rattle.check_run.specs.PairErrors.{error_of_names};

    ghost from_gives = { λ e r. r ≡ error_of_names e };

    fn from(error: LedgerError) -> PairError {
        match error {
            LedgerError::NoMemory => PairError::NoMemory,
            LedgerError::BadLedger => PairError::NotAPair,
        }
    }
}

/// The pair of programs that a value is: a list of two, the source, whose nodes are numbered in preorder, and the lowered
/// program, whose nodes have the members `node`, and which has the member `generated`. (docs/JSON.md) What is no such list is
/// refused as `NotAPair`; `NoMemory` comes on allocation failure alone. The value, which takes most of the memory, is let go.
pub fn read_pair(alloc: Global, value: Value<'_>) -> Result<ReadPair, PairError>
    requires { values (view value) + 1 < 2 ^ 32 }
    ensures ok { IfOk result (λ x. pair_in (view value.entry) ≡ Some (pair_of x)) }
    ensures few { IfOk result (λ x. nodes x.source < 2 ^ 32) }
    ensures err { IfErr result (λ e. e ≡ PairError.NotAPair → pair_in (view value.entry) ≡ None) }
{
    match value.as_array() {
        Some(items) => read_items(alloc, items.as_slice()),
        None => Err(PairError::NotAPair),
    }
}

fn read_items(alloc: Global, items: &[Value<'_>]) -> Result<ReadPair, PairError>
    requires { values_of_items (items_view items.now) + 1 < 2 ^ 32 }
    ensures ok { IfOk result (λ x. pair_of_items (items_view items.now) ≡ Some (pair_of x)) }
    ensures few { IfOk result (λ x. nodes x.source < 2 ^ 32) }
    ensures err { IfErr result (λ e. e ≡ PairError.NotAPair → pair_of_items (items_view items.now) ≡ None) }
{
    match items {
        [source, lowered] => read_programs(alloc, source, lowered),
        _ => Err(PairError::NotAPair),
    }
}

/// The pair of the programs that two values are.
fn read_programs(
    alloc: Global,
    source: &Value<'_>,
    lowered: &Value<'_>,
) -> Result<ReadPair, PairError>
    requires source { values (view source.now) + 1 < 2 ^ 32 }
    requires lowered { values (view lowered.now) + 1 < 2 ^ 32 }
    ensures ok { IfOk result (λ x. pair_between (view source.now) (view lowered.now) ≡ Some (pair_of x)) }
    ensures few { IfOk result (λ x. nodes x.source < 2 ^ 32) }
    ensures err { IfErr result (λ e. e ≡ PairError.NotAPair → pair_between (view source.now) (view lowered.now) ≡ None) }
{
    let names = read_ledger(alloc, lowered)?;
    let lowered = read_lowered(alloc, lowered)?;
    let (source, foreign) = read_tree(alloc, source, Numbers::Preorder)?;
    Ok(ReadPair {
        source,
        foreign,
        lowered,
        names,
    })
}

/// The lowered program that a value is. None of its nodes has members outside the table, which no tree shows.
fn read_lowered(alloc: Global, value: &Value<'_>) -> Result<Node, PairError>
    requires { values (view value.now) + 1 < 2 ^ 32 }
    ensures ok { IfOk result (λ q. lowered_in (view value.now) ≡ Some q) }
    ensures err { IfErr result (λ e. e ≡ PairError.NotAPair → lowered_in (view value.now) ≡ None) }
{
    let (lowered, foreign) = read_tree(alloc, value, Numbers::Given)?;
    if foreign.is_empty() {
        Ok(lowered)
    } else {
        Err(PairError::NotAPair)
    }
}
