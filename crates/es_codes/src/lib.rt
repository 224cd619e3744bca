//! Values, events and codes of the definitions of meaning (es_steps), as types, and their comparison.
//!
//! **Codes.** A [`code::Code`], a [`code::Target`] and a [`code::Callee`] are seen by `code_of`,
//! `target_of` and `callee_of` (specs/CodeView.antt), a `List<Code>` by `codes_of`. Each form is a function
//! that takes its parts, what the code itself owns in a [`boxed::Boxed`], and whose contract says what the
//! result is seen as:
//!
//! ```rust
//! // o[k]
//! let object = Boxed::new(alloc, object)?;
//! let key = Boxed::new(alloc, key)?;
//! let code = Code::member(node, object, key);   // code_of code ≡ of.member node (code_of object) (code_of key)
//! ```
//!
//! A `Boxed` is seen as what it holds, a `Name` as its string, a `List` as the list of its items; what
//! stands in a code besides is seen by the functions of specs/View.antt and specs/CodeView.antt.
//!
//! To take a code apart, match on it. What the form is seen as is the lemma of its name in
//! proofs/Forms.antt, which the function that matches names:
//!
//! ```rust
//! #[tactic(auto, using(es_codes::proofs::Forms::member_is))]
//! ```
//!
//! The views are `unfoldable`: a goal shows `code_of c`, and only the lemmas say more of it.
//!
//! **Values.** A [`value::Value`] is seen as a value of the definitions: `Value::of(Origin::BindingOf(b))`
//! is `BindingOf b`, and `into_key` is `KeyOf`.
//!
//! **Events.** A list of events is a list of [`event::Token`]s, as es_evaluation has it: `tokens_of`
//! (specs/View.antt).
//!
//! **Comparison.** Each function of [`same`] says yes exactly where both sides are equal; `same_lists`
//! says it of the lists of events that two lists of tokens are.
#![tactic(auto)]

pub mod boxed;
pub mod code;
pub mod event;
pub mod name;
pub mod same;
pub mod value;
