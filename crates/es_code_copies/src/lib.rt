//! Copies of codes, for rules that make two of one.
#![tactic(auto)]

pub mod copy;
pub mod parts;
