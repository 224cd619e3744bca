//! The rules that ask what is known at the place of a node: names, private names and members, `this` and `new.target`, and what
//! leaves a function.
#![tactic(auto)]

pub mod leaving;
pub mod name;
pub mod private;
