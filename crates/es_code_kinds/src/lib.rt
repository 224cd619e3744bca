//! The rule of each kind of node: the code that it makes of the members of a node whose children were read.
#![tactic(auto)]

pub mod classes;
pub mod expressions;
pub mod kinds;
pub mod names;
pub mod patterns;
pub mod statements;
mod taking;
