//! What is known where a program begins, and in a part of a node.
#![tactic(auto)]

pub mod inside;
mod seen;
pub mod start;
