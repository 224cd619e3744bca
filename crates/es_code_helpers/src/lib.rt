//! The rule of calls of helpers, as `babelHelpers.h(a, b)`: what such a call stands for, helper by helper; and which helper the
//! member `babelHelpers.h` is. (Babel's runtime helpers; what each does is a premise of the definitions.)
#![tactic(auto)]

pub mod call;
pub mod helper;
pub mod key;
pub mod known;
pub mod moved;
pub mod private;
pub mod private_call;
pub mod property_call;
pub mod supers;
