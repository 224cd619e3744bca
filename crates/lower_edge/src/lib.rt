//! The run of a program that reads all bytes of a source and answers them: what each status of a run means, whatever the program
//! answers, and the lines that programs share.
#![tactic(auto)]

pub mod answers;
pub mod arguments;
pub mod lines;
pub mod output;
pub mod run;
pub mod status;
