//! Rules of classes, of `super(..)`, and of what stands elsewhere than where it is evaluated, each whatever evaluates
//! the codes in it.
#![tactic(auto)]

pub mod classes;
pub mod elements;
pub mod forget;
pub mod opened;
pub mod supers;
