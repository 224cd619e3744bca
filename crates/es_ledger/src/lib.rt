//! Reading the generated names of a lowered program from JSON.
#![tactic(auto)]

mod entry;
pub mod law;
pub mod ledger;
#[cfg(test)]
mod tests;
