//! Rules of targets: what they evaluate, what writes them, and assignments, each whatever evaluates the codes in it.
#![tactic(auto)]

pub mod assignments;
pub mod operands;
pub mod targets;
