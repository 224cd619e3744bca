//! The rules of unary and logical operators, and parts of those of chains. (ECMA-262, 13.3.9, 13.5 and 13.13.)
#![tactic(auto)]

pub mod chain;
pub mod deleted;
pub mod logical;
pub mod named;
pub mod unary;
