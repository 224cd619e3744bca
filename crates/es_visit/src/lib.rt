// Visitors: hooks that are called at the nodes of a tree, and the walks that call them. docs/WALK.md says
// what they promise.
#![tactic(auto)]

pub mod law;
pub mod roles;
pub mod visit;
pub mod visit_mut;
