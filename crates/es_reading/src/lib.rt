// Reading JSON as a tree (ESTree), by the table of kinds.
#![tactic(auto)]

pub mod count;
pub mod fault;
mod kinds;
mod leaf;
mod lengths;
mod literal;
pub mod look;
mod members;
pub mod numbers;
mod read;
pub mod spot;
mod strings;
pub mod tree;
mod unlisted;
