//! How a call of the program goes: which files it fetches, within the limits on their bytes, what it refuses, what it
//! writes, and the status that it ends with. What a form of words asks for is a task, and what may be written for a task
//! is one definition.
#![tactic(auto)]

pub mod ending;
pub mod fetching;
pub mod refusal;
pub mod rule_files;
pub mod status;
pub mod table_files;

pub use ending::{end_by, end_with};
pub use fetching::{Stop, fetch_file, refused};
pub use refusal::{Cause, LineFlaw, Refusal, limit_word, refusal_line};
pub use rule_files::{fetch_book, fetch_rules, fetch_schema};
pub use status::Status;
pub use table_files::{fetch_rows, fetch_table};
