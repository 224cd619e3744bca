// That a built table agrees with its tree. (docs/SCOPES.md)
#![tactic(auto)]

pub mod law;
