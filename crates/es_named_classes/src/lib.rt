//! Classes that are known by names of their own.
#![tactic(auto)]

pub mod named_classes;
