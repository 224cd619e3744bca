// The names of a program: those that it spells, which no generated name may be, and those that its expressions
// suggest for generated names.
#![tactic(auto)]

pub mod collect;
pub mod suggest;
