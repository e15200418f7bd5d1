//! The violations of a bench as people look at them: for each dependency the rows that break it, by the values that they
//! share on the left and by those that they have on the right; for each inclusion the keys that are missing, with the rows
//! that have them. It is the list of the bench, arranged (`specs/Groups.antt`).
//!
//! Rows are grouped by the ids of their values, which differ where the values do; only what is found is written as text.
#![tactic(auto)]

mod dep_groups;
mod finding;
mod groups;
mod listed;
mod missing_keys;
mod named;
mod sizes;

pub use finding::findings;
pub use groups::{Findings, Group, Missing, ValueRows};
pub use sizes::{groups_size, missing_size, sum_of};
