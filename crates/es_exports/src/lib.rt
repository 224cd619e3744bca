//! What a module exports of its own, by what the exported names mean.
#![tactic(auto)]

pub mod export;
pub mod exports;
