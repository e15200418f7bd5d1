//! What is off in a project that was read: what is odd in the rows of its tables, the tables whose dependencies no row can
//! satisfy and the values with which none can, and the editing rules that apply to nothing.
#![tactic(auto)]

mod cited;
mod edits;
mod items;
mod names;
mod rows;
mod told;
mod values;
mod verdicts;

pub use cited::RowName;
pub use rows::TableRows;
pub use told::{Counts, Told, told_on};
pub use values::{MayStand, ValueVerdict};
pub use verdicts::Verdict;
