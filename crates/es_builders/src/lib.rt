// Nodes that a lowering makes: calls of helpers, bound identifiers, and small expressions.
#![tactic(auto)]

pub mod bound_identifier;
pub mod builders;
pub mod helper;
#[cfg(test)]
mod tests;
