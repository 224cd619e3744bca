// Expressions that are evaluated once and read more than once: which are written again, and which a temporary holds
// (oxc_transformer, `common/duplicate` and `common/computed_key`).
#![tactic(auto)]

pub mod computed_key;
pub mod copy;
pub mod duplicate;
pub mod law;
mod read;
pub mod repetition;
