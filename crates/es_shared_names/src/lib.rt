//! Which declaring identifiers of a program share one binding.
#![tactic(auto)]

pub mod earlier;
pub mod numbers;
pub mod shared;
