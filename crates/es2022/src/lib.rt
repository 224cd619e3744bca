//! Class properties: public fields of classes, and static blocks, lowered by hooks of the walk (oxc_transformer,
//! `es2022/class_properties`). What it gives is judged by whoever writes it (`lower_with`): of the code itself it is proved that it
//! is safe and ends, and that the lowered program has at most 64 times the nodes of its source.
#![tactic(auto)]

mod builders;
mod class;
mod class_details;
pub mod class_properties;
mod computed_key;
mod constructor;
mod instance_prop_init;
pub mod lower;
mod names;
mod outside_super;
mod prop_decl;
mod rewrite;
mod state;
mod static_block_and_prop_init;
mod super_converter;
mod utils;
