//! Values with the numbers of nodes: sorted by their numbers, and compared item by item.
#![tactic(auto)]

pub mod numbered;
pub mod same;
