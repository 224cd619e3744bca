// What a walk that lowers carries along: the nodes around, the statements and declarations that are still to be put into
// the lists of statements that are open, the scope table, the names and the warnings. docs/WALK.md says what is promised.
#![tactic(auto)]

pub mod ancestor;
pub mod ancestor_kind;
pub mod ancestors;
pub mod beside;
pub mod ctx;
mod scopes;
pub mod stores;
