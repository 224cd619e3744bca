//! What the private members of a program are, as its meaning has it: fields, or functions.
#![tactic(auto)]

pub mod entries;
pub mod entry;
