//! What references of a lowered program owe: that no name of a class is read where it is not there yet.
#![tactic(auto)]

pub mod lowered_reads;
pub mod moved;
pub mod numbers;
pub mod own_names;
pub mod reaching;
pub mod reads;
