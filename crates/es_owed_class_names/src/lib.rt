//! That names of classes are read in a lowered program behind their classes, or in their elements.
#![tactic(auto)]

pub mod asked;
pub mod holders;
pub mod inside;
pub mod kept_places;
pub mod lists;
pub mod located;
pub mod lowering;
pub mod marked;
pub mod naming;
pub mod new_names;
pub mod placed;
pub mod timely;
