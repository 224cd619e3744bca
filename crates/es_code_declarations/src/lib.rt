//! The rules of declarations: what a declaration initializes, a declarator, and what a generated name is given.
#![tactic(auto)]

pub mod declaration;
pub mod declarator;
pub mod given;
