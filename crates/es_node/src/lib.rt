// The syntax tree in code: a node with what stands at its members, seen by contracts as the tree of the
// definitions, and the walks over it that need no names for members.
#![tactic(auto)]

pub mod node;
pub mod parts;
pub mod room;
pub mod semantic_ids;
