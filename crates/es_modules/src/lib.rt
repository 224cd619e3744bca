//! What a module imports, and what it exports from other modules.
#![tactic(auto)]

pub mod link;
pub mod links;
pub mod names;
