//! Which names were generated and which nodes are new.
#![tactic(auto)]

pub mod ledger;
pub mod numbers;
pub mod spellings;
