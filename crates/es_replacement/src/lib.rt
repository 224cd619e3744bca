//! The law of replacement: what may stand in the place of an expression.
#![tactic(auto)]

pub mod law;
