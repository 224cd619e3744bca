//! The entries of the functions and the classes in a code.
#![tactic(auto)]

pub mod entries;
pub mod found;
pub mod walk;
