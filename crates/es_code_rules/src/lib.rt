//! Rules of forms of code, each whatever evaluates the codes in it.
#![tactic(auto)]

pub mod accesses;
pub mod callees;
pub mod calls;
pub mod definition;
pub mod definitions;
pub mod lists;
pub mod parts;
pub mod within;
