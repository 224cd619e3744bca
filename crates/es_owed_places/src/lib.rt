//! Where references, private names and `super` of a lowered program stand: where they stood, or where they may.
#![tactic(auto)]

pub mod inner_names;
pub mod placed;
pub mod private_names;
pub mod same_places;
pub mod super_place;
pub mod supers;
pub mod writes;
