//! What a lowered program owes to a printer: where its source can be printed, it can be printed too.
#![tactic(auto)]

pub mod bad_nodes;
pub mod bare_strings;
pub mod printable;
pub mod reserved;
pub mod stray_jumps;
pub mod stray_targets;
pub mod words;
