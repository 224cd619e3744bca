//! The members of a node whose children were read into codes, and what rules make of them alike: the operands, what stands
//! beside them, and the codes, in order; and each member by its place.
#![tactic(auto)]

pub mod codes;
pub mod details;
pub mod member;
pub mod operands;
pub mod operation;
