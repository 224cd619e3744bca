//! Programs that have nothing to lower: whether one has, and where; no class of theirs is lowered, and they have no shape.
#![tactic(auto)]

pub mod law;
pub mod left;
