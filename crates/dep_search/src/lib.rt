//! What follows from what in a table: the dependencies that its rows satisfy, and of which no part is satisfied. They are
//! told by numbers of attributes and of rows; names and rules stand above.
//!
//! Two rows that agree on some attributes have one leader there, the first row that agrees with them. Leaders by one
//! attribute more come from those by the others in one pass, or class by class where few rows are left, as
//! partitions of rows are refined in TANE (Huhtala et al., 1999); constants are the classes of enough rows (after Chiang and
//! Miller, 2008, and Fan et al., 2011).
#![tactic(auto)]

mod ahead;
pub mod candidate;
mod classes;
mod columns;
mod facts;
pub mod finder;
mod grouped;
mod pairs;
mod parts;
mod samples;
mod settled;
mod sides;
mod sorting;
mod table;

pub use candidate::Candidate;
pub use finder::{FindFault, all_found};
pub use sides::left_sides;
pub use sorting::sorted;
