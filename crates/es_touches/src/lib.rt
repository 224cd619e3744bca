//! What code touches: what tells it, and how what a lowered program touches is held against what its source touches.
#![tactic(auto)]

pub mod behind;
pub mod below;
pub mod called;
pub mod class_parts;
pub mod closures;
pub mod counts;
pub mod derived;
pub mod facts;
pub mod fits;
pub mod forms;
pub mod found;
pub mod pairs;
pub mod source;
pub mod throws;
pub mod touch;
