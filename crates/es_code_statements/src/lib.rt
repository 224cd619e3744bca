//! The rules of statements whose parts are evaluated in order, or may run or not, or again. (ECMA-262, 14.)
#![tactic(auto)]

pub mod held;
pub mod steps;
