//! Verdicts.

use rule_runs::{Marks, Move, Run};
use schema_core::List;
use value_pool::ValueId;

/// What the fix of a tuple is: the tuple and the validated attributes at which all maximal runs end, with one of
/// these runs; or two maximal runs, and the first attribute at which their tuples differ.
#[derive(Drop)]
pub enum Verdict {
    Unique {
        tuple: List<ValueId>,
        covered: Marks,
        moves: List<Move>,
    },
    Conflict {
        first: Run,
        second: Run,
        attr: usize,
    },
}
