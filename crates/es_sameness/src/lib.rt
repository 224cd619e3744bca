//! What the tests of a meaning find the same is one.
#![tactic(auto)]

pub mod law;
