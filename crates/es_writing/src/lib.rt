// Writing a tree as a JSON value (ESTree), by the table of kinds, and a lowered program with its generated
// names, warnings and shapes, as a value and as text.
#![tactic(auto)]

mod entries;
mod generated;
mod kept;
mod kinds;
mod literal;
mod literal_text;
pub mod lowered;
mod members;
pub mod node;
mod order;
pub mod program;
mod slots;
mod text;
mod warnings;
