//! What is odd in the rows of a table, whatever its rules say: cells of many lines, values with blanks at an end that also
//! stand without them, and rows that stand twice.
#![tactic(auto)]

mod columns;
mod flaws;
mod rows;

pub use columns::{MOST_LINES, long_rows, spaced_rows};
pub use flaws::{Flaw, flaws_of};
pub use rows::repeated_rows;
