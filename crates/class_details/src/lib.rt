// What a lowering knows of the classes around a place: their names, their private members, and what is to be put beside
// them.
#![tactic(auto)]

pub mod class_bindings;
pub mod class_details;
pub mod classes_stack;
mod find;
pub mod found;
pub mod law;
