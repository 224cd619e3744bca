//! What is told of a program beside its meaning: its warnings, and the shapes that put it outside the theorem on the order
//! of its events.
#![tactic(auto)]

pub mod around;
pub mod asked;
mod changing_key;
pub mod class;
pub mod class_head;
pub mod element;
pub mod facts;
pub mod heritage;
pub mod kept_block;
pub mod late_class;
pub mod moved_heritage;
mod name_scope;
pub mod own_name;
pub mod private_chain;
pub mod quiet;
pub mod twice_read;
pub mod walk;
pub mod warnings;
pub mod written_class;
