//! What a lowering is, whoever wrote it: of a program it makes another one, or tells why it makes none.
#![tactic(auto)]

pub mod lowering;
