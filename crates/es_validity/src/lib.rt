//! Which programs are valid: early errors of ECMA-262, private names, and what is not supported, each by its cause and the
//! number of its node. (docs/REFUSALS.md)
#![tactic(auto)]

pub mod around;
pub mod check;
pub mod class;
pub mod error;
pub mod fault;
pub mod first;
pub mod inside;
pub mod jumps;
pub mod names;
pub mod parts;
pub mod privates;
pub mod rules;
pub mod unsupported;
pub mod walk;
