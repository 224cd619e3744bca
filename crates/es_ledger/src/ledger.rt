// The generated names of a lowered program.

ghost use Rattle.std.specs.Prelude.{◌≡◌, IfErr, IfOk, None, Some};
ghost use Rattle.es_ledger.specs.Ledger.{entries_in, ledger_in};
ghost use Rattle.borrowed_json.specs.View.{items_view, view};
ghost use Rattle.es_ledger.specs.declared.ledger.LedgerError.{LedgerError};

use crate::entry::read_entry;
use borrowed_json::value::Value;
use es_base::ledger::{Ledger, LedgerEntry};
use es_base::list::List;
use es_reading::look::array_at;
use std::alloc::{AllocError, Global};
use thiserror::Error;

/// Why a value gives no generated names.
#[derive(Debug, Drop, Error)]
pub enum LedgerError {
    /// There was not enough memory.
    #[error("out of memory")]
    NoMemory,
    /// The member `generated` is no list of generated names.
    #[error("bad ledger")]
    BadLedger,
}

impl From<AllocError> for LedgerError {
    ghost use Rattle.es_ledger.specs.declared.ledger.LedgerError.{LedgerError};

    ghost from_gives = { λ e r. r ≡ LedgerError.NoMemory };

    fn from(_: AllocError) -> LedgerError {
        LedgerError::NoMemory
    }
}

/// The generated names of a lowered program: its member `generated`, a list of objects, each with the strings
/// `name` and `kind`, and a whole number of u32 at `class` or `member` where the kind carries one. The name of a
/// private name begins with `#`. (docs/JSON.md) Other members are passed by. What is no such list is refused as
/// `BadLedger`; `NoMemory` comes on allocation failure alone.
pub fn read_ledger(alloc: Global, program: &Value<'_>) -> Result<Ledger, LedgerError>
    ensures ok { IfOk result (λ l. ledger_in (view program.now) ≡ Some l.entries) }
    ensures err { IfErr result (λ e. e ≡ LedgerError.BadLedger → ledger_in (view program.now) ≡ None) }
{
    match array_at(program, "generated") {
        Some(items) => Ok(Ledger {
            entries: read_entries(alloc, items.as_slice())?,
        }),
        None => Err(LedgerError::BadLedger),
    }
}

fn read_entries(alloc: Global, items: &[Value<'_>]) -> Result<List<LedgerEntry>, LedgerError>
    ensures ok { IfOk result (λ es. entries_in (items_view items.now) ≡ Some es) }
    ensures err { IfErr result (λ e. e ≡ LedgerError.BadLedger → entries_in (items_view items.now) ≡ None) }
{
    let mut entries = List::new(alloc);
    for item in items {
        entries.push(read_entry(alloc, item)?)?;
    }
    Ok(entries)
}
