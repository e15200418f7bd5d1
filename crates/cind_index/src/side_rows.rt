//! The rows of one side with one key. A lone row with at most one pattern value stands in place, without memory; others
//! stand by their pattern values, in a box of their own.
ghost use Rattle.std.specs.Prelude.{◌≡◌, true, ◌⊎◌, ◌==◌, ◌&&◌, [], ◌∷◌, ℕ, not, ◌↔◌, IsTrue, IfOk, IfSome, OnOk, OnErr, Contains};
ghost use Rattle.std.specs.Str.{bytes_eq};
ghost use Rattle.cind_index.specs.RowsHeld.{has, has_by, has_some, HasRowMore, HasRowLess, HaveTheSame, HasNothing, IsLeftOf, is_few, IsOnly, IsMore, IsSame, HoldsSoMany};

use crate::pattern_rows::PatternRows;
use crate::row_set::RowSet;
use row_store::RowId;
use std::alloc::{AllocError, Global};
use value_pool::ValueId;

pub(crate) enum SideRows {
    Empty,
    Lone(RowId),
    LoneWith(ValueId, RowId),
    Rows(Box<PatternRows>),
}

// By hand, so that whatever drops the rows of a side calls this, and isn't proved for each way that they stand.
impl Drop for SideRows {
    fn drop(self) {
        match self {
            SideRows::Empty | SideRows::Lone(_) | SideRows::LoneWith(_, _) | SideRows::Rows(_) => {}
        }
    }
}

impl SideRows {
    /// Whether there is no row.
    pub(crate) fn is_empty(&self) -> bool
        ensures { IsTrue result → HasNothing self.now }
    {
        match self {
            SideRows::Empty => true,
            SideRows::Lone(_) => false,
            SideRows::LoneWith(_, _) => false,
            SideRows::Rows(rows) => rows.is_empty(),
        }
    }

    /// Whether some row has these pattern values.
    pub(crate) fn has_some(&self, pattern: &[ValueId]) -> bool
        ensures { result ≡ has_some self.now pattern.now }
    {
        match self {
            SideRows::Empty => false,
            SideRows::Lone(_) => pattern.is_empty(),
            SideRows::LoneWith(value, _) => is_one(pattern, *value),
            SideRows::Rows(rows) => rows.has_some(pattern),
        }
    }

    /// How many rows have these pattern values.
    pub(crate) fn count_rows(&self, pattern: &[ValueId]) -> usize
        ensures { HoldsSoMany (has self.now pattern.now) result }
    {
        match self {
            SideRows::Empty => 0,
            SideRows::Lone(_) => count_lone(&[], pattern),
            SideRows::LoneWith(value, _) => count_lone(&[*value], pattern),
            SideRows::Rows(rows) => rows.count_rows(pattern),
        }
    }

    /// Appends the rows with these pattern values.
    pub(crate) fn push_rows(
        &self,
        pattern: &[ValueId],
        found: &mut Vec<RowId>,
    ) -> Result<(), AllocError>
        ensures { OnOk result ((row : ℕ) → Contains found.new.items row ↔ (Contains found.old.items row ⊎ IsTrue (has self.now pattern.now row))) }
    {
        match self {
            SideRows::Empty => Ok(()),
            SideRows::Lone(own) => push_lone(&[], *own, pattern, found),
            SideRows::LoneWith(value, own) => push_lone(&[*value], *own, pattern, found),
            SideRows::Rows(rows) => rows.push_rows(pattern, found),
        }
    }

    /// Puts the row in, and tells whether it is new.
    pub(crate) fn put(
        &mut self,
        alloc: Global,
        pattern: &[ValueId],
        row: RowId,
    ) -> Result<bool, AllocError>
        ensures ok { OnOk result (HasRowMore pattern.now row self.old self.new) }
        ensures new { IfOk result (λ added. added ≡ not (has self.old pattern.now row)) }
        ensures err { OnErr result (HaveTheSame self.old self.new) }
    {
        match self {
            SideRows::Empty => {
                *self = first_row(alloc, pattern, row)?;
                Ok(true)
            }
            SideRows::Lone(own) => {
                let own = *own;
                if pattern.is_empty() && own == row {
                    return Ok(false);
                }
                *self = two_rows(alloc, &[], own, pattern, row)?;
                Ok(true)
            }
            SideRows::LoneWith(value, own) => {
                let (value, own) = (*value, *own);
                if is_it_with(value, own, pattern, row) {
                    return Ok(false);
                }
                *self = two_rows(alloc, &[value], own, pattern, row)?;
                Ok(true)
            }
            SideRows::Rows(rows) => rows.put(alloc, pattern, row),
        }
    }

    /// Takes the row away. Takes no memory.
    pub(crate) fn take(&mut self, pattern: &[ValueId], row: RowId)
        ensures less { HasRowLess pattern.now row self.old self.new }

        // A lone row stays as it is, or goes.
        ensures lone { is_few self.old ≡ true → IsLeftOf self.old self.new }
    {
        match self {
            SideRows::Empty => {}
            SideRows::Lone(own) => {
                if pattern.is_empty() && *own == row {
                    *self = SideRows::Empty;
                }
            }
            SideRows::LoneWith(value, own) => {
                if is_it_with(*value, *own, pattern, row) {
                    *self = SideRows::Empty;
                }
            }
            SideRows::Rows(rows) => {
                rows.take(pattern, row);
                if let Some(left) = unboxed(rows) {
                    *self = left;
                }
            }
        }
    }
}

/// Appends a lone row where these are its pattern values.
pub(crate) fn push_lone(
    held: &[ValueId],
    own: RowId,
    pattern: &[ValueId],
    found: &mut Vec<RowId>,
) -> Result<(), AllocError>
    ensures { OnOk result ((row : ℕ) → Contains found.new.items row ↔ (Contains found.old.items row ⊎ IsTrue (bytes_eq pattern.now held.now && row == own))) }
{
    if pattern == held {
        found.push(own)?;
    }
    Ok(())
}

/// How many rows there are with these pattern values where a lone one has those: it, whichever it is, or none.
pub(crate) fn count_lone(held: &[ValueId], pattern: &[ValueId]) -> usize
    ensures { (own : ℕ) → HoldsSoMany (λ row. bytes_eq pattern.now held.now && row == own) result }
{
    if are_same(pattern, held) { 1 } else { 0 }
}

fn are_same(pattern: &[ValueId], held: &[ValueId]) -> bool
    ensures { result ≡ bytes_eq pattern.now held.now }
{
    pattern == held
}

/// Whether the pattern values are this one.
pub(crate) fn is_one(pattern: &[ValueId], value: ValueId) -> bool
    ensures { result ≡ bytes_eq pattern.now (value ∷ []) }
{
    match pattern {
        [own] => *own == value,
        _ => false,
    }
}

// Whether a lone row with one pattern value is this one with these.
fn is_it_with(value: ValueId, own: RowId, pattern: &[ValueId], row: RowId) -> bool
    ensures { result ≡ (bytes_eq pattern.now (value ∷ []) && row == own) }
{
    is_one(pattern, value) && row == own
}

fn first_row(alloc: Global, pattern: &[ValueId], row: RowId) -> Result<SideRows, AllocError>
    ensures { IfOk result (λ rows. IsOnly pattern.now row (has rows)) }
{
    if let Some(rows) = in_place(pattern, row) {
        return Ok(rows);
    }
    let rows = PatternRows::Single(Vec::from_slice(alloc, pattern)?, RowSet::One(row));
    Ok(SideRows::Rows(Box::new(alloc, rows)?))
}

// A lone row, where it can stand in place.
fn in_place(pattern: &[ValueId], row: RowId) -> Option<SideRows>
    ensures { IfSome result (λ rows. IsOnly pattern.now row (has rows)) }
{
    match pattern {
        [] => Some(SideRows::Lone(row)),
        [value] => Some(SideRows::LoneWith(*value, row)),
        _ => None,
    }
}

// The rows in place, where none is left or one that can stand there.
fn unboxed(rows: &PatternRows) -> Option<SideRows>
    ensures { IfSome result (λ left. IsSame (has_by rows.now) (has left)) }
{
    if rows.is_empty() {
        return Some(SideRows::Empty);
    }
    let (held, own) = rows.lone()?;
    in_place(held, own)
}

// A row with pattern values, and one more.
fn two_rows(
    alloc: Global,
    held: &[ValueId],
    own: RowId,
    pattern: &[ValueId],
    row: RowId,
) -> Result<SideRows, AllocError>
    ensures { IfOk result (λ rows. IsMore pattern.now row (λ ids other. bytes_eq ids held.now && other == own) (has rows)) }
{
    let mut rows = PatternRows::Single(Vec::from_slice(alloc, held)?, RowSet::One(own));
    rows.put(alloc, pattern, row)?;
    Ok(SideRows::Rows(Box::new(alloc, rows)?))
}
