//! The environments in which codes stand, and the entries of functions and classes that stand in one.
#![tactic(auto)]

pub mod assigned;
pub mod class;
pub mod function;
pub mod here;
pub mod names;
pub mod part;
pub mod terms;
