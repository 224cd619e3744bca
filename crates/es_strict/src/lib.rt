//! What makes code strict.
#![tactic(auto)]

pub mod strict;
