// The run of the program as a library: from the arguments and the bytes of a source to the bytes that a sink gains, with
// the main theorem on `run::run`.
#![tactic(auto)]

mod answer;
pub mod first_form;
mod lines;
pub mod lowering;
pub mod program;
pub mod run;
pub mod status;
