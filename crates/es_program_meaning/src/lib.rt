//! Parts of the meaning of a program: what it does itself, what it exports of its own, and what it declares and imports.
#![tactic(auto)]

pub mod exported;
pub mod run;
pub mod tables;
