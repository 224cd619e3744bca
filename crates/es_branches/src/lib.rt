//! Functions that are branches of an `if`, with the names around them.
#![tactic(auto)]

pub mod branches;
