//! What is around the parts of a node, as marks have it, and the declarations at the heads of lists.
#![tactic(auto)]

pub mod inside;
pub mod leading;
