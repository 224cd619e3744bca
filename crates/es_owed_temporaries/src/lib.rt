//! That a temporary of a lowered program holds one value wherever it is read, and that what a class needs is given as often as
//! the class is evaluated.
#![tactic(auto)]

pub mod apart;
pub mod class_places;
pub mod named_touches;
pub mod steady;
pub mod temporaries;
pub mod touches;
