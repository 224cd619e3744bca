// Generated names that are bound: in the scope table, and in the list of generated names.
#![tactic(auto)]

pub mod traverse_scoping;
