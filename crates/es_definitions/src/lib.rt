//! What the codes in a code define: what is evaluated elsewhere than where it stands, and the functions of private members.
#![tactic(auto)]

pub mod body;
pub mod definitions;
pub mod function;
pub mod private_functions;
