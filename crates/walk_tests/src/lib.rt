// Small transforms as examples of the laws of walks: what each promises follows from laws of its hooks.
#![tactic(auto)]

pub mod calls;
#[cfg(test)]
mod context;
pub mod hoist;
pub mod power;
#[cfg(test)]
mod programs;
pub mod references;
pub mod warnings;
