//! The lowering for what transforms a program next: the lowered tree with its scope table, which agrees with it.
#![tactic(auto)]

pub mod tree;
