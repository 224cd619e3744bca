//! Whether the bodies of a lowered program fit those of the source, of which most touch what they touched there.
#![tactic(auto)]

pub mod bodies;
mod indexed;
mod kept;
