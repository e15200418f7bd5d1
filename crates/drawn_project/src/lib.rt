//! A project that is drawn off a number, the same for the same number on any machine: two tables with their rules, and
//! 5,000 edits in five thousands.
#![tactic(auto)]

mod bench;
mod draws;
mod edits;
mod project;

pub use bench::draw_bench;
pub use draws::Draws;
pub use edits::{Thousand, draw_thousands};
