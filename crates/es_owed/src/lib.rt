//! What a lowered program owes: its clauses, computed from a source and what it was lowered to.
#![tactic(auto)]

pub mod classes;
pub mod elements;
pub mod free;
pub mod homes;
pub mod kept_nodes;
pub mod listed;
pub mod lists;
pub mod numbered;
pub mod numbers;
pub mod same;
pub mod statements;
pub mod strict;
