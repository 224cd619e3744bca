// Functions that are called where they stand (immediately invoked function expressions), and the scopes that they put
// between an expression and what is around it.
#![tactic(auto)]

pub mod first_scopes;
pub mod iife;
pub mod law;
pub mod scope_below;
