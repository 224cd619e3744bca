//! The rules of `for`-`in` and `for`-`of`: what the head initializes, and what it is given each time.
#![tactic(auto)]

pub mod head;
pub mod loops;
