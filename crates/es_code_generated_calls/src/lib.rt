//! The rule of calls, with all forms of calls that a lowering makes. (ECMA-262, 13.3.6 and 13.3.7; what the forms stand for is
//! our own.)
#![tactic(auto)]

pub mod arrow;
pub mod call;
pub mod member;
pub mod receiver;
pub mod supers;
