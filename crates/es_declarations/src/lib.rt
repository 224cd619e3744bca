//! What a program declares, as its meaning has it: function declarations, bindings, and the names that a script gives to other
//! scripts. All are sorted by the numbers of their nodes.
#![tactic(auto)]

pub mod bindings;
pub mod declaring;
pub mod functions;
pub mod globals;
pub mod kind;
