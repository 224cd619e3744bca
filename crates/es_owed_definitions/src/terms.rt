// What a program was lowered under.

use es_generated::ledger::Ledger;
use es_steps::options::Options;

/// What a program was lowered under.
#[derive(Clone, Copy)]
pub struct Terms<'a> {
    /// The number of the first node that is new.
    pub first: u32,
    pub options: &'a Options,
    /// The generated names.
    pub ledger: &'a Ledger<'a>,
}
