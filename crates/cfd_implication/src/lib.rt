//! Whether the dependencies of a table imply one more: the question as clauses about two tuples, and a decider that answers
//! with two tuples, with a tree of cases that refutes the question, or with the tree so far.
#![tactic(auto)]

pub mod answer;
mod decider;
mod literals;
mod question;
mod rows;

pub use answer::Implication;
pub use decider::{implies, implies_from};
pub use question::{DepQuestion, asked_values, clauses_from, implication_clauses};
