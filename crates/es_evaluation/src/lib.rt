//! Evaluation of codes in direct style over a state, as the definitions of meaning (es_steps) say it.
#![tactic(auto)]

pub mod law;
