//! That each generated name of a lowered program is given what it stands for, once and in its place.
#![tactic(auto)]

pub mod behind;
pub mod class_names;
pub mod forms;
pub mod generated;
pub mod givers;
pub mod identifiers;
pub mod initialized;
pub mod initializing;
pub mod inner;
pub mod keys;
pub mod kinds;
pub mod members;
pub mod numbers;
pub mod order;
pub mod private_classes;
pub mod runs;
pub mod spelling;
