//! What the edits of a drawn project lead to.
#![tactic(auto)]

mod summary;

pub use summary::{Summary, generate};
