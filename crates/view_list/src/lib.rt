//! The violations of a project as text for people: all of them, or those that are asked for, by rule and by group; and
//! those of one row, with its values. It is a function of the rules, of how many rows were read, and of what was found.
#![tactic(auto)]

mod attrs;
mod groups;
mod listed;
mod missing;
mod pieces;
mod rows;
mod values;

pub use listed::{list_body, list_refusal, list_text};
pub use rows::{no_row, no_table, row_body, row_text};
