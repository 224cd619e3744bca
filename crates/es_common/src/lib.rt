// What all lowerings share: temporaries that are declared, and laws of expressions that are evaluated once and read again.
#![tactic(auto)]

pub mod declare;
pub mod law;
