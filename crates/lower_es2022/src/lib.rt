//! The run of the program: programs of the first form are lowered as is proved of them, other classes by `es2022`, whose lowered
//! programs are judged; with the main theorem on `run::run`.
#![tactic(auto)]

pub mod classes;
pub mod own;
pub mod run;
