//! New object literals and arrays, of which generated forms are made: the property of an object literal of one, the value of
//! `{ writable: true, value: v }`, the elements of an array; and whether two keys of generated forms are the same.
#![tactic(auto)]

pub mod array;
mod detail;
mod operation;
pub mod property;
pub mod same_key;
pub mod writable;
