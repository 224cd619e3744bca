//! The rules of what is called, and of templates, which tags are called with. (ECMA-262, 13.2.8, 13.3.6 and 13.3.11.)
#![tactic(auto)]

pub mod callee;
pub mod template;
