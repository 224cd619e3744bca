//! What a lowered program owes, whatever it means. docs/MEANING.md has each clause in plain words.
#![tactic(auto)]

pub mod law;
