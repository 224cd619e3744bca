//! What a lowered program owes where classes become variables: what these are given, what is exported as default, and what is
//! evaluated in the head of a loop.
#![tactic(auto)]

pub mod class_lets;
pub mod default_export;
pub mod head_values;
pub mod numbers;
