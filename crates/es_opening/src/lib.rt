//! What the codes in a code assign or define: the generated names that it gives a value, and what is evaluated elsewhere than
//! where it stands.
#![tactic(auto)]

pub mod assigned;
pub mod gather;
