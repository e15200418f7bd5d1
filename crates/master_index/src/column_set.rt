//! Sets of columns.
ghost use Rattle.std.specs.Prelude.{◌≡◌, ◌==◌, ◌<◌, ◌||◌, ℕ, false, slice_get};
ghost use Rattle.master_index.specs.ColumnSets.{has_column};

use value_pool::ValueId;

/// A set of columns among the first 64, each of which is a bit.
#[derive(Clone, Copy)]
pub(crate) struct ColumnSet(u64);

impl ColumnSet {
    pub(crate) fn none() -> ColumnSet
        ensures { (column : ℕ) → has_column result column ≡ false }
    {
        ColumnSet(0)
    }

    pub(crate) fn has(self, column: usize) -> bool
        requires { column < 64 }
        ensures { result ≡ has_column self column }
    {
        (self.0 >> column) & 1 == 1
    }

    fn with(self, column: usize) -> ColumnSet
        requires { column < 64 }
        ensures { (other : ℕ) → has_column result other ≡ (other == column || has_column self other) }
    {
        let bits = self.0;
        ColumnSet(bits | (1 << column))
    }

    /// The columns of both sets.
    pub(crate) fn joined(self, other: ColumnSet) -> ColumnSet
        ensures { (column : ℕ) → has_column result column ≡ (has_column self column || has_column other column) }
    {
        ColumnSet(self.0 | other.0)
    }
}

fn differ_at(one: &[ValueId], other: &[ValueId], column: usize) -> bool
    ensures { result ≡ false → slice_get one.now column ≡ slice_get other.now column }
{
    one.get(column).copied() != other.get(column).copied()
}

/// The columns in which two tuples differ, as far as a set can have them.
pub(crate) fn differences(one: &[ValueId], other: &[ValueId]) -> ColumnSet
    ensures { (column : ℕ) → column < 64 → has_column result column ≡ false → slice_get one.now column ≡ slice_get other.now column }
{
    let mut apart = ColumnSet::none();
    let width = one.len().max(other.len());
    for column in 0..width.min(64) {
        if differ_at(one, other, column) {
            apart = apart.with(column);
        }
    }
    apart
}
