//! What the texts of a lowered program owe: that each literal, string of a template, directive and private name is written
//! as it was.
#![tactic(auto)]

pub mod by_text;
pub mod characters;
pub mod literals;
pub mod texts;
pub mod written;
