//! What the texts of tokens may be: names, numbers, regular expressions, templates and directives (ECMA-262, 12).
#![tactic(auto)]

pub mod literals;
pub mod names;
pub mod numbers;
pub mod text;
