//! Rules of expressions that ask nothing of the place where a node stands: literals, keys of members, properties of objects,
//! updates, calls with `new`, and chains. (ECMA-262, 13.)
#![tactic(auto)]

pub mod key;
pub mod literal;
pub mod operator;
pub mod property;
