// Generated names, and nodes that a lowering makes.
//
// A generated name is the first of its candidates that the program does not spell and that was not given
// before. The crate also has the helpers of a lowered program, and bound identifiers with their makers.
#![tactic(auto)]

pub mod base;
pub mod candidate;
pub mod keys;
pub mod law;
pub mod names;
pub mod numbers;
pub mod spellings;
