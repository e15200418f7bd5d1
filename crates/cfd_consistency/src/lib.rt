//! Whether the dependencies of a table are consistent: whether some tuple, alone, satisfies all of them. The answer is
//! such a tuple, or a tree of cases that refutes the question's clauses, which anybody can check, or, where the budget of
//! leaves is spent before, the tree so far.
#![tactic(auto)]

mod clauses;
mod decider;
mod question;

pub use decider::{Consistency, DecideFault, consistent};
pub use question::{TableQuestion, consistency_clauses};
