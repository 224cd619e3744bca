//! What is written where a code stands as target; the rules of patterns: a target and its default, elements, properties and
//! their keys; and what a catch is given.
#![tactic(auto)]

pub mod caught;
pub mod key;
pub mod pattern;
pub mod target;
