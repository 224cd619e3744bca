//! What calls of functions and constructions of classes do, and what comes in front of the codes in a code, over a state.
#![tactic(auto)]

pub mod alone;
pub mod among;
pub mod constructing;
pub mod constructors;
pub mod elements;
pub mod parameters;
