//! That generated names are declared and given values in front of where they are used.
#![tactic(auto)]

pub mod functions;
pub mod needed;
pub mod search;
pub mod terms;
pub mod timely;
pub mod walk;
