//! The code of a tree: each node by the rule of its kind, over the codes of its children, under what is known at its place.
#![tactic(auto)]

mod leaf;
pub mod read;
