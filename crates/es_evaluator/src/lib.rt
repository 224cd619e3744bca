//! Evaluation of codes over a state: what reads and writes names, adds events, and begins and ends parts.
#![tactic(auto)]

pub mod fault;
pub mod names;
pub mod operands;
pub mod state;
pub mod targets;
pub mod templates;
