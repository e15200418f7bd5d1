//! What is told of an edit, done or refused, and the answer to a fix. Each text is appended to a buffer.
#![tactic(auto)]

pub mod edit_text;
mod fix_text;
pub mod fixing;

pub use edit_text::{push_done, push_edit_refused, push_refused};
pub use fixing::answer_fix;
