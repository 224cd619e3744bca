//! The rules of binary operators and of assignments, with what a lowering makes of private members: tests for a class, generated
//! names that are given what stands for members, and private members that are written. (ECMA-262, 13.10, 13.11 and 13.15.)
#![tactic(auto)]

pub mod assignment;
pub mod binary;
pub mod private;
pub mod value;
