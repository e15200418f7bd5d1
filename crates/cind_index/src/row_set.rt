//! The ids of the rows that have the same key and the same pattern values. A lone row stands in place, without memory.
ghost use Rattle.std.specs.Prelude.{◌≡◌, ◌⊎◌, ◌==◌, ◌&&◌, ◌||◌, ◌++◌, [], ◌∷◌, ℕ, not, false, ◌↔◌, IsTrue, IfOk, IfSome, OnOk, OnErr, Contains};
ghost use Rattle.cind_index.specs.RowsHeld.{is_in, is_filled, HoldsSoMany};

use row_store::RowId;
use std::alloc::{AllocError, Global};
use std::collections::BTreeSet;

pub(crate) enum RowSet {
    One(RowId),
    More(BTreeSet<RowId>),
}

// By hand, so that whatever drops a set calls this, and isn't proved for each way that it stands.
impl Drop for RowSet {
    fn drop(self) {
        match self {
            RowSet::One(_) | RowSet::More(_) => {}
        }
    }
}

impl RowSet {
    /// Whether there is a row.
    pub(crate) fn is_filled(&self) -> bool
        ensures { result ≡ is_filled self.now }
    {
        match self {
            RowSet::One(_) => true,
            RowSet::More(rows) => !rows.is_empty(),
        }
    }

    /// Puts the row in, and tells whether it is new.
    pub(crate) fn put(&mut self, alloc: Global, row: RowId) -> Result<bool, AllocError>
        ensures ok { OnOk result ((other : ℕ) → is_in self.new other ≡ (other == row || is_in self.old other)) }
        ensures new { IfOk result (λ added. added ≡ not (is_in self.old row)) }
        ensures err { OnErr result ((other : ℕ) → is_in self.new other ≡ is_in self.old other) }
    {
        match self {
            RowSet::One(held) => {
                let first = *held;
                if first == row {
                    return Ok(false);
                }
                *self = RowSet::More(set_of_two(alloc, first, row)?);
                Ok(true)
            }
            RowSet::More(rows) => Ok(rows.insert(row)?),
        }
    }

    /// Takes the row away, and tells whether no other is left. A lone row stays, to be taken away with the set.
    pub(crate) fn take(&mut self, row: RowId) -> bool
        ensures left { result ≡ false → (other : ℕ) → is_in self.new other ≡ (not (other == row) && is_in self.old other) }
        ensures none { IsTrue result → (other : ℕ) → (not (other == row) && is_in self.old other) ≡ false }
    {
        match self {
            RowSet::One(held) => *held == row,
            RowSet::More(rows) => {
                rows.remove(&row);
                let Some(only) = lone(rows) else {
                    return rows.is_empty();
                };
                *self = RowSet::One(only);
                false
            }
        }
    }

    /// How many rows there are.
    pub(crate) fn len(&self) -> usize
        ensures { HoldsSoMany (is_in self.now) result }
    {
        match self {
            RowSet::One(_) => 1,
            RowSet::More(rows) => rows.len(),
        }
    }

    /// Appends the rows.
    pub(crate) fn push_rows(&self, found: &mut Vec<RowId>) -> Result<(), AllocError>
        ensures { OnOk result ((row : ℕ) → Contains found.new.items row ↔ (Contains found.old.items row ⊎ IsTrue (is_in self.now row))) }
    {
        match self {
            RowSet::One(held) => {
                found.push(*held)?;
                Ok(())
            }
            RowSet::More(rows) => push_all(rows, found),
        }
    }
}

// The row that stands there by itself.
fn lone(rows: &BTreeSet<RowId>) -> Option<RowId>
    ensures { IfSome result (λ only. rows.now.keys ≡ only ∷ []) }
{
    if rows.len() != 1 {
        return None;
    }
    rows.first().copied()
}

fn set_of_two(alloc: Global, one: RowId, other: RowId) -> Result<BTreeSet<RowId>, AllocError>
    ensures { IfOk result (λ rows. (row : ℕ) → is_in (RowSet.More rows) row ≡ (row == other || row == one)) }
{
    let mut rows = BTreeSet::new(alloc);
    rows.insert(one)?;
    rows.insert(other)?;
    Ok(rows)
}

fn push_all(rows: &BTreeSet<RowId>, found: &mut Vec<RowId>) -> Result<(), AllocError>
    ensures { OnOk result (found.new.items ≡ found.old.items ++ rows.now.keys) }
{
    for row in rows.iter() {
        found.push(*row)?;
    }
    Ok(())
}
