//! The search for an assignment that makes all clauses true: a model, or a case tree that refutes the clauses, or, where
//! the budget of leaves is spent before, a partial tree. From a budget of `enough` on it never gives up.
#![tactic(auto)]

mod assignments;
mod bound;
mod guards;
mod hints;
mod learner;
mod lists;
mod named;
mod places;
mod prune;
mod recency;
mod search;
mod step;

pub use bound::enough;
pub use search::{Found, decide};
