//! What a lowered program owes, clause by clause: which is the first that it does not meet.
#![tactic(auto)]

pub mod clause;
pub mod node;
pub mod pair;
mod references;
pub mod unmet;
