//! Identifiers, references and generated names, looked up by their spelling.
#![tactic(auto)]

pub mod generated;
pub mod names;
pub mod spellings;
