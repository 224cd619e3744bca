//! That what reads a name or `this` in a lowered program, and what makes a class of such, stands behind what it stood behind in
//! the source.
#![tactic(auto)]

pub mod bodies;
pub mod classes;
pub mod dead_zones;
pub mod held;
pub mod named_closures;
pub mod own;
pub mod spot;
pub mod terms;
pub mod walk;
