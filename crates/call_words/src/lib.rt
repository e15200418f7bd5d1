//! The words of a call: which of them have a form, and what they ask for. A form is found by the words themselves; the
//! words that have one are then read by `clap`.
#![tactic(auto)]

pub mod form;
mod numbers;
mod words;

pub use form::{Form, form_of};
pub use numbers::number_within;
