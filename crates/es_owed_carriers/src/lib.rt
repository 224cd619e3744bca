//! Which node of a source each node of a lowered program stands for: that of its number.
#![tactic(auto)]

pub mod accessors;
pub mod bodies;
pub mod bound;
pub mod bound_kinds;
pub mod calls;
pub mod carried;
pub mod exports;
pub mod forms;
pub mod kinds;
pub mod pairs;
pub mod questions;
pub mod targets;
pub mod words;
