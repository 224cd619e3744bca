//! The clause on keys: that the temporaries that keep the keys of fields are given before their classes, each for one field.
#![tactic(auto)]

pub mod keys;
mod temporaries;
