//! Marks of names and nodes of a program, in the order of evaluation, and whether each use among them stands in time.
#![tactic(auto)]

pub mod around;
pub mod in_time;
pub mod located;
pub mod marks;
pub mod method_functions;
pub mod needing;
