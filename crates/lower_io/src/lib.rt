// The edge of a program that reads all bytes of a source and writes bytes to a sink.
#![tactic(auto)]

mod calls;
pub mod failed;
mod rest;
mod room;
pub mod settings;
pub mod sink;
pub mod source;
pub mod standard;
pub mod whole;
