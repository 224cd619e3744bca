// The walk that lowers: enters each node, walks what the hook left there, and leaves it. docs/WALK.md says
// what it promises.
#![tactic(auto)]

pub mod hooks;
pub mod program;
pub mod walk;
