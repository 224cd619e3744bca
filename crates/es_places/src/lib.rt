//! Where the functions, classes and declaring identifiers of a program stand: in which part that is evaluated again.
#![tactic(auto)]

pub mod places;
pub mod surroundings;
