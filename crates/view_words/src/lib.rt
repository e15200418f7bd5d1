//! The words of a call of `cfdview`: what they ask for, and what is said of help and of words that ask for nothing.
//! Options may stand anywhere behind the first word. Words are told apart here; help, the version and what is wrong with
//! words is told by `clap`.
#![tactic(auto)]

mod command;
pub mod form;
pub mod reading;
mod told;
mod words;

pub use form::{Asked, Form, asked_of};
pub use told::{fault_text, help_text};
