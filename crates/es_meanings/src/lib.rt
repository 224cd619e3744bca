//! What programs mean, and where two meanings differ first.
#![tactic(auto)]

pub mod difference;
pub mod entries;
pub mod meaning;
pub mod part;
