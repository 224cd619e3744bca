//! Heritages of programs, whose form says what their evaluation says: whether they have events.
#![tactic(auto)]

pub mod law;
