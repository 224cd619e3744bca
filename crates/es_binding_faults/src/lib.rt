//! Faults of declared names and of calls of `eval`, which need the scopes of the whole program, and with them whether a program
//! is valid. (docs/REFUSALS.md)
#![tactic(auto)]

pub mod bound;
pub mod check;
pub mod counted;
pub mod evals;
pub mod facts;
pub mod hoisted;
pub mod leasts;
pub mod numbers;
pub mod preorder;
pub mod repeats;
pub mod scopes;
pub mod vars;
