// The scope table of a program: built from its tree, on whose nodes the numbers are written. (docs/SCOPES.md)
#![tactic(auto)]

pub mod build;
pub mod collect;
pub mod flags;
pub mod inside;
pub mod written;
