//! The shapes that put a program outside the theorem on the order of its events, all of them in one list.
#![tactic(auto)]

pub mod bindings;
pub mod changing;
pub mod given;
pub mod inner_functions;
pub mod names;
pub mod outside;
pub mod private_names;
pub mod private_target;
