//! The rule of members, and of the members that generated forms are: the member `_` of a static field or a setter, a member
//! that is kept as a property, a function that gets its name, `super[k]`, `babelHelpers.h`. (ECMA-262, 13.3.2 and 13.3.7; that
//! such forms stand for private members is a premise of the definitions.)
#![tactic(auto)]

pub mod access;
mod kept;
mod loose;
pub mod member;
mod setter;
mod underscore;
