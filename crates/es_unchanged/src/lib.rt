//! Programs that have nothing to lower owe nothing, and mean the same, as they are.
#![tactic(auto)]

pub mod law;
