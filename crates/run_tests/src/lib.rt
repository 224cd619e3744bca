// Tests of the runs, and of the sources and sinks that they go over: bytes in, bytes and status out; of the program, of pairs, and over
// lowerings of which nothing is known, right ones and wrong ones. Expected values were written out by hand, or come from outside.
#![tactic(auto)]

pub mod arguments;
#[cfg(test)]
mod checks;
#[cfg(test)]
mod edge;
pub mod programs;
pub mod recorded;
pub mod recorded_programs;
#[cfg(test)]
mod recorded_runs;
#[cfg(test)]
mod runs;
#[cfg(test)]
mod validity;
