// Visitors as examples of what a walk promises: their contracts are exact, and each follows from the
// visitor's own hooks with no induction over trees.
#![tactic(auto)]

pub mod classes;
#[cfg(test)]
mod programs;
pub mod suspends;
pub mod unnumbered;
