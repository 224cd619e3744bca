//! Another tool's output held against its source, as a library: from the arguments and the bytes of two programs to the bytes
//! that a sink gains, with the main theorem on `run::check_run`.
#![tactic(auto)]

mod answer;
mod lines;
mod pair;
pub mod run;
pub mod status;
