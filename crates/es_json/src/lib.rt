// Programs as JSON, both ways (ESTree): reading a value as a program, writing a program and a lowered
// program as values, and the laws that a value, and its text, fix what was written.
#![tactic(auto)]

pub mod law;
pub mod read;
pub mod write;

pub use es_reading::{count, fault};
