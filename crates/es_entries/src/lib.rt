//! What entries of functions and classes are made of: parameters, constructors, methods, lists with their values; and their comparison.
#![tactic(auto)]

pub mod constructor;
pub mod entry;
pub mod form;
pub mod listed;
pub mod method;
pub mod parameter;
