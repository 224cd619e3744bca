//! The clause on definitions: that a lowered program defines the fields of the source, in its order. The definitions of these go
//! over the nodes of the lowered program for each class of the source; here they are gone over once, and what is of a class is
//! looked up.
#![tactic(auto)]

pub mod callee;
pub mod definition;
pub mod definitions;
pub mod fields;
pub mod forms;
pub mod found;
pub mod keys;
pub mod lowered;
mod statics;
mod super_names;
pub mod supers;
pub mod terms;
pub mod unfit;
pub mod values;
