//! The rules of functions, classes and their elements. (ECMA-262, 15.)
#![tactic(auto)]

pub mod arrow;
pub mod class;
pub mod field;
pub mod function;
pub mod method;
