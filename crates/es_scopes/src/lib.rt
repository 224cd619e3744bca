// The scope table: scopes, the symbols that they hold, and the references to these, by their numbers.
//
// The crate answers which binding a name means at a place, and keeps that right while a transform adds,
// renames and moves scopes and bindings. (docs/SCOPES.md)
#![tactic(auto)]

pub mod bindings;
pub mod declare;
pub mod entry;
pub mod flags;
pub mod law;
pub mod refer;
pub mod reference_set;
pub mod rows;
pub mod scope_ancestors;
pub mod scoping;
pub mod surroundings;
pub mod table;
