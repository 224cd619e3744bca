//! What is seen at a place of a tree, by syntax alone: names, with the classes that these name, private members, and
//! which `super(..)` of a constructor comes first.
#![tactic(auto)]

pub mod class_in;
pub mod declaration;
pub mod firsts;
pub mod frame;
pub mod lexical;
pub mod names;
pub mod parts;
pub mod private_member;
pub mod privates;
pub mod scope;
pub mod super_call;
