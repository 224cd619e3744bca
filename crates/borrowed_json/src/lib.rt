// JSON values that borrow their strings: from a text, and from a value of `serde_json`.
#![tactic(auto)]

mod members;
pub mod owned;
pub mod parse;
pub mod value;
