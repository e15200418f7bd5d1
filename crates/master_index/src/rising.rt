//! Row ids in rising order. A lone one stands in place, without memory.
ghost use Rattle.std.specs.Prelude.{◌≡◌, ◌≢◌, ◌==◌, ◌||◌, ◌&&◌, ◌+◌, ◌<◌, ◌≤◌, [], ◌∷◌, ℕ, length, false, not, IfOk, OnOk, OnErr};
ghost use Rattle.std.specs.List.Sorted.{IsStrictlyIncreasing};
ghost use Rattle.master_index.specs.ColumnRows.{Tells, is_among, listed, noted};
ghost use Rattle.master_index.specs.ColumnSets.{has_column};

use crate::column_set::ColumnSet;
use row_store::RowId;
use std::alloc::{AllocError, Global};
use std::slice;

/// The rows under a key.
pub(crate) enum RowIds {
    One(RowId),
    Several(Box<Group>),
}

// By hand, so that whatever drops the rows under a key calls this, and isn't proved for each way that they stand.
impl Drop for RowIds {
    fn drop(self) {
        match self {
            RowIds::One(_) | RowIds::Several(_) => {}
        }
    }
}

/// Rows of which more than one were there at once, and the columns in which two of them were ever seen to
/// differ.
#[derive(Drop)]
pub(crate) struct Group {
    rows: Vec<RowId>,
    apart: ColumnSet,
}

impl RowIds {
    /// The ids, rising.
    pub(crate) fn as_slice(&self) -> &[RowId]
        ensures { result.now ≡ listed self.now }
    {
        match self {
            RowIds::One(only) => slice::from_ref(only),
            RowIds::Several(group) => group.rows.as_slice(),
        }
    }

    /// The ids, or the first alone where the rows were never seen to differ in the column.
    pub(crate) fn telling(&self, column: usize) -> &[RowId]
        ensures { Tells self.now column result.now }
    {
        let rows = self.as_slice();
        if column < 64 && !self.has_noted(column) {
            return &rows[..rows.len().min(1)];
        }
        rows
    }

    fn has_noted(&self, column: usize) -> bool
        requires { column < 64 }
        ensures { result ≡ noted self.now column }
    {
        match self {
            RowIds::One(_) => false,
            RowIds::Several(group) => group.apart.has(column),
        }
    }

    /// Puts the row in its place, where it isn't there yet, and notes the columns in which it differs from a row
    /// that is there.
    pub(crate) fn put(
        &mut self,
        alloc: Global,
        row: RowId,
        apart: ColumnSet,
    ) -> Result<(), AllocError>
        requires { IsStrictlyIncreasing (listed self.old) }
        ensures rising { IsStrictlyIncreasing (listed self.new) }
        ensures ok { OnOk result ((other : ℕ) → is_among other (listed self.new) ≡ (other == row || is_among other (listed self.old))) }
        ensures err { OnErr result (listed self.new ≡ listed self.old) }
        ensures new { OnErr result (is_among row (listed self.old) ≡ false) }
        ensures no_fewer { length (listed self.old) ≤ length (listed self.new) }
        ensures noted { (column : ℕ) → noted self.new column ≡ false → noted self.old column ≡ false }
        ensures apart { OnOk result (listed self.old ≢ row ∷ [] → (column : ℕ) → noted self.new column ≡ false → has_column apart column ≡ false) }
    {
        match self {
            RowIds::One(only) => {
                let only = *only;
                if only != row {
                    *self = RowIds::Several(two(alloc, only, row, apart)?);
                }
                Ok(())
            }
            RowIds::Several(group) => {
                group.apart = group.apart.joined(apart);
                put_id(&mut group.rows, row)
            }
        }
    }

    /// Takes the row away, where it is there, beside others.
    pub(crate) fn take(&mut self, row: RowId)
        requires rising { IsStrictlyIncreasing (listed self.old) }
        requires others { listed self.old ≢ row ∷ [] }
        ensures rising { IsStrictlyIncreasing (listed self.new) }
        ensures at_most_one { length (listed self.old) ≤ length (listed self.new) + 1 }
        ensures none { is_among row (listed self.old) ≡ false → listed self.new ≡ listed self.old }
        ensures left { (other : ℕ) → is_among other (listed self.new) ≡ (not (other == row) && is_among other (listed self.old)) }
        ensures noted { (column : ℕ) → noted self.new column ≡ noted self.old column }
    {
        match self {
            RowIds::One(_) => {}
            RowIds::Several(group) => take_id(&mut group.rows, row),
        }
    }
}

fn two(alloc: Global, one: RowId, other: RowId, apart: ColumnSet) -> Result<Box<Group>, AllocError>
    requires { one ≢ other }
    ensures rising { IfOk result (λ group. IsStrictlyIncreasing group.value.rows.items) }
    ensures both { IfOk result (λ group. (row : ℕ) → is_among row group.value.rows.items ≡ (row == other || row == one)) }
    ensures count { IfOk result (λ group. length group.value.rows.items ≡ 2) }
    ensures apart { IfOk result (λ group. group.value.apart ≡ apart) }
{
    let rows = Vec::from_array(alloc, [one.min(other), one.max(other)])?;
    Ok(Box::new(alloc, Group { rows, apart })?)
}

/// Puts the row in its place, where it isn't there yet.
pub(crate) fn put_id(rows: &mut Vec<RowId>, row: RowId) -> Result<(), AllocError>
    requires { IsStrictlyIncreasing rows.old.items }
    ensures rising { IsStrictlyIncreasing rows.new.items }
    ensures ok { OnOk result ((other : ℕ) → is_among other rows.new.items ≡ (other == row || is_among other rows.old.items)) }
    ensures err { OnErr result (rows.new.items ≡ rows.old.items) }
    ensures new { OnErr result (is_among row rows.old.items ≡ false) }
    ensures no_fewer { length rows.old.items ≤ length rows.new.items }
{
    match rows.as_slice().binary_search(&row) {
        Ok(_) => Ok(()),
        Err(place) => {
            rows.insert(place, row)?;
            Ok(())
        }
    }
}

/// Takes the row away, where it is there.
pub(crate) fn take_id(rows: &mut Vec<RowId>, row: RowId)
    requires { IsStrictlyIncreasing rows.old.items }
    ensures rising { IsStrictlyIncreasing rows.new.items }
    ensures at_most_one { length rows.old.items ≤ length rows.new.items + 1 }
    ensures none { is_among row rows.old.items ≡ false → rows.new.items ≡ rows.old.items }
    ensures left { (other : ℕ) → is_among other rows.new.items ≡ (not (other == row) && is_among other rows.old.items) }
{
    match rows.as_slice().binary_search(&row) {
        Err(_) => {}
        Ok(place) => drop(rows.remove(place)),
    }
}
