//! Worked programs with what they are lowered to, and programs that have to be told apart: their meanings, what a lowered
//! program owes and the shapes of its source, computed.
#![tactic(auto)]

pub mod law;
pub mod lists;
