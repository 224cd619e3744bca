//! The value of a code, over a state: each form by its rule, and the codes in it again.
#![tactic(auto)]

pub mod evaluate;
pub mod forms;
#[cfg(test)]
mod tests;
