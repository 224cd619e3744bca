//! Whether a lowered program is what its source may be lowered to, whoever lowered it.
#![tactic(auto)]

pub mod check;
mod compare;
pub mod evaluated;
pub mod meaning;
pub mod parts;
pub mod standing;
pub mod verdict;
