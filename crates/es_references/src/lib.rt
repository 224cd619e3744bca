//! The references of a program, each with what it means.
#![tactic(auto)]

pub mod frame;
pub mod references;
