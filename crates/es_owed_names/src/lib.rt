//! What generated names owe: that they are declared, and that all new declarations are theirs.
#![tactic(auto)]

pub mod accounted;
pub mod declared;
pub mod own_names;
pub mod single;
