//! The clause on calls: that the helpers which convert a key or name a function are called with what they are for.
#![tactic(auto)]

pub mod calls;
pub mod computed_keys;
pub mod conversions;
pub mod helper;
pub mod helper_calls;
pub mod kept_keys;
pub mod key_forms;
pub mod lowering;
pub mod name_tests;
pub mod naming;
pub mod spelled;
pub mod static_key;
pub mod tells;
pub mod terms;
