//! Reading: the code of a tree, each node by the rule of its kind, over the codes of its children. So far: what is known at a
//! place of a tree, what a name and a private name are there, and what the rules ask of codes.
#![tactic(auto)]

pub mod context;
pub mod form;
pub mod inside;
pub mod keys;
pub mod letters;
pub mod literals;
pub mod name_kind;
pub mod private_name;
pub mod quiet;
pub mod spread;
pub mod supers;
