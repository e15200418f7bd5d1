//! How many orphans each row of the tableau has, kept in step with the rows under all keys, so that a count is told without a
//! walk over the dirty keys.
ghost use Rattle.std.specs.Prelude.{◌≡◌, ◌<◌, ℕ, List, Some, length, slice_index_or, IfOk, IfSome};
ghost use Rattle.std.specs.Option.{ForSome};
ghost use Rattle.cind_index.specs.Totals.{told, AreZero, AreChanged, IsChanged, Changes};

use crate::key_rows::KeyRows;
use cfd_semantics::InclusionRow;
use std::alloc::{AllocError, Global};
use value_pool::ValueId;

// Each change of a key's rows looks at each row of the tableau again, so totals are for tableaux of few rows.
const MOST_ROWS: usize = 8;

/// Whether the orphans of a key come in, or go away.
#[derive(Clone, Copy)]
pub(crate) enum Change {
    Comes,
    Goes,
}

/// A number for each row of the tableau. There is none for a tableau of many rows, where memory is refused at first, or once a
/// number goes beyond its type.
pub(crate) struct Totals {
    pub(crate) counts: Option<Vec<usize>>,
}

// By hand, so that whatever drops totals calls this, and isn't proved for whether there are any.
impl Drop for Totals {
    fn drop(self) {
        let Totals { counts: _ } = self;
    }
}

impl Totals {
    /// The totals of no keys, for a tableau of so many rows.
    pub(crate) fn new(alloc: Global, rows: usize) -> Totals
        ensures { ForSome (told result) (AreZero rows) }
    {
        if rows > MOST_ROWS {
            return Totals { counts: None };
        }
        Totals {
            counts: zeros(alloc, rows).ok(),
        }
    }

    /// The total of a row of the tableau, where it is kept.
    pub(crate) fn of_row(&self, k: usize) -> Option<usize>
        requires { ForSome (told self.now) (λ counts. k < length counts) }
        ensures { IfSome result (λ count. (counts : List ℕ) × (told self.now ≡ Some counts) × (slice_index_or counts k 0 ≡ count)) }
    {
        match &self.counts {
            Some(counts) => Some(counts[k]),
            None => None,
        }
    }

    /// Counts the orphans of a key in, or takes them away again. Its rows aren't gone over.
    pub(crate) fn change(
        &mut self,
        change: Change,
        tableau: &[InclusionRow<ValueId>],
        rows: &KeyRows,
    )
        requires { ForSome (told self.old) (λ counts. length counts ≡ length tableau.now) }
        ensures { Changes change tableau.now rows.now self.old self.new }
    {
        if let Some(counts) = &mut self.counts {
            if change_all(counts, change, tableau, rows).is_none() {
                self.counts = None;
            }
        }
    }
}

fn zeros(alloc: Global, rows: usize) -> Result<Vec<usize>, AllocError>
    ensures { IfOk result (λ counts. AreZero rows counts.items) }
{
    vec![in alloc; 0; rows]
}

// Changes each number by how many orphans its row has under the key, or gives up.
fn change_all(
    counts: &mut Vec<usize>,
    change: Change,
    tableau: &[InclusionRow<ValueId>],
    rows: &KeyRows,
) -> Option<()>
    requires { length counts.old.items ≡ length tableau.now }
    ensures { IfSome result (λ _. AreChanged change tableau.now rows.now counts.old.items counts.new.items) }
{
    for (k, tableau_row) in tableau.iter().enumerate() {
        counts[k] = changed(counts[k], change, rows.count_orphans(tableau_row))?;
    }
    Some(())
}

fn changed(count: usize, change: Change, orphans: usize) -> Option<usize>
    ensures { IfSome result (IsChanged change count orphans) }
{
    match change {
        Change::Comes => count.checked_add(orphans),
        Change::Goes => count.checked_sub(orphans),
    }
}
