//! What a program means: names, values, events, evaluation, classes; and what may be printed.
//! docs/MEANING.md has each definition in plain words.
#![tactic(auto)]

pub mod law;
pub mod options;
