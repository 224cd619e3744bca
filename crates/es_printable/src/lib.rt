//! Which trees can be printed as JavaScript: names, literals, templates, directives and forms, node by node (ECMA-262, 12 to 16).
#![tactic(auto)]

pub mod bodies;
pub mod chains;
pub mod declarations;
pub mod directives;
pub mod elements;
pub mod forms;
pub mod modules;
pub mod names;
pub mod nodes;
pub mod properties;
pub mod templates;
