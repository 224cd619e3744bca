//! Options of a lowering that are read from JSON.
#![tactic(auto)]

pub mod assumptions;
