//! Runs with any lowering: what it makes of a valid program is judged, and written where it is right.
#![tactic(auto)]

pub mod judged;
pub mod law;
pub mod run;
