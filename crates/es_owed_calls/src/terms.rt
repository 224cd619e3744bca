// What calls of helpers are read by.

use es_generated::ledger::Ledger;
use es_number_set::NumberSet;

/// What calls of helpers are read by.
#[derive(Clone, Copy)]
pub struct CallTerms<'a> {
    /// The number of the first node that is new.
    pub first: u32,
    /// The generated names.
    pub ledger: &'a Ledger<'a>,
    /// The computed keys of the source that are what they were.
    pub keys: &'a NumberSet,
}
