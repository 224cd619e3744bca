//! The rule of conditional expressions, of which a lowering makes chains, and new tests for null and undefined. (ECMA-262, 13.14.)
#![tactic(auto)]

pub mod conditional;
pub mod null_test;
