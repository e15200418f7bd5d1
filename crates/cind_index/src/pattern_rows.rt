//! The rows of one side with one key, by their pattern values. Where all have the same ones, the rows stand in place, without
//! a map.
ghost use Rattle.std.specs.Prelude.{◌≡◌, ◌⊎◌, true, false, option_copied, ◌==◌, ◌&&◌, ℕ, List, not, ◌↔◌, IsTrue, IfSome, IfOk, OnOk, OnErr, Contains};
ghost use Rattle.std.specs.Option.{option_map_or};
ghost use Rattle.std.specs.Str.{bytes_eq};
ghost use Rattle.cind_index.specs.RowsHeld.{is_in, is_filled, rows_for, in_map, has_by, has_some_by, IsMore, IsLess, IsSame, IsOnly, HoldsSoMany};

use crate::row_set::RowSet;
use row_store::RowId;
use std::alloc::{AllocError, Global};
use std::collections::BTreeMap;
use std::mem;
use value_pool::ValueId;

pub(crate) type Patterns = BTreeMap<Vec<ValueId>, RowSet>;

pub(crate) enum PatternRows {
    Nothing,
    Single(Vec<ValueId>, RowSet),
    Several(Patterns),
}

// By hand, so that whatever drops the rows calls this, and isn't proved for each way that they stand.
impl Drop for PatternRows {
    fn drop(self) {
        match self {
            PatternRows::Nothing | PatternRows::Single(_, _) | PatternRows::Several(_) => {}
        }
    }
}

impl PatternRows {
    /// Whether there is no row.
    pub(crate) fn is_empty(&self) -> bool
        ensures { IsTrue result → (ids : List ℕ) (row : ℕ) → has_by self.now ids row ≡ false }
    {
        match self {
            PatternRows::Nothing => true,
            PatternRows::Single(_, _) => false,
            PatternRows::Several(patterns) => patterns.is_empty(),
        }
    }

    /// Whether some row has these pattern values.
    pub(crate) fn has_some(&self, pattern: &[ValueId]) -> bool
        ensures { result ≡ has_some_by self.now pattern.now }
    {
        match self.rows_with(pattern) {
            Some(rows) => rows.is_filled(),
            None => false,
        }
    }

    /// How many rows have these pattern values.
    pub(crate) fn count_rows(&self, pattern: &[ValueId]) -> usize
        ensures { HoldsSoMany (has_by self.now pattern.now) result }
    {
        match self.rows_with(pattern) {
            Some(rows) => rows.len(),
            None => 0,
        }
    }

    /// Appends the rows with these pattern values.
    pub(crate) fn push_rows(
        &self,
        pattern: &[ValueId],
        found: &mut Vec<RowId>,
    ) -> Result<(), AllocError>
        ensures { OnOk result ((row : ℕ) → Contains found.new.items row ↔ (Contains found.old.items row ⊎ IsTrue (has_by self.now pattern.now row))) }
    {
        match self.rows_with(pattern) {
            Some(rows) => rows.push_rows(found),
            None => Ok(()),
        }
    }

    /// Puts the row in, and tells whether it is new.
    pub(crate) fn put(
        &mut self,
        alloc: Global,
        pattern: &[ValueId],
        row: RowId,
    ) -> Result<bool, AllocError>
        ensures ok { OnOk result (IsMore pattern.now row (has_by self.old) (has_by self.new)) }
        ensures new { IfOk result (λ added. added ≡ not (has_by self.old pattern.now row)) }
        ensures err { OnErr result (IsSame (has_by self.old) (has_by self.new)) }
    {
        match self {
            PatternRows::Nothing => {
                *self = PatternRows::Single(Vec::from_slice(alloc, pattern)?, RowSet::One(row));
                Ok(true)
            }
            PatternRows::Single(held, rows) => {
                if held.as_slice() == pattern {
                    return rows.put(alloc, row);
                }
                *self = PatternRows::Several(map_beside(alloc, held, rows, pattern, row)?);
                Ok(true)
            }
            PatternRows::Several(patterns) => put_in_map(patterns, alloc, pattern, row),
        }
    }

    /// Takes the row away.
    pub(crate) fn take(&mut self, pattern: &[ValueId], row: RowId)
        ensures { IsLess pattern.now row (has_by self.old) (has_by self.new) }
    {
        match self {
            PatternRows::Nothing => {}
            PatternRows::Single(held, rows) => {
                if held.as_slice() == pattern && rows.take(row) {
                    *self = PatternRows::Nothing;
                }
            }
            PatternRows::Several(patterns) => take_from_map(patterns, pattern, row),
        }
    }

    // The rows with these pattern values, if there are any.
    fn rows_with(&self, pattern: &[ValueId]) -> Option<&RowSet>
        ensures some { has_some_by self.now pattern.now ≡ option_map_or is_filled (option_copied result) false }
        ensures has { (row : ℕ) → has_by self.now pattern.now row ≡ option_map_or (λ rows. is_in rows row) (option_copied result) false }
    {
        match self {
            PatternRows::Nothing => None,
            PatternRows::Single(held, rows) => {
                if held.as_slice() == pattern {
                    Some(rows)
                } else {
                    None
                }
            }
            PatternRows::Several(patterns) => patterns.get(pattern),
        }
    }

    /// The row that is there by itself, with its pattern values.
    pub(crate) fn lone(&self) -> Option<(&[ValueId], RowId)>
        ensures { IfSome result (λ found. IsOnly found.0.now found.1 (has_by self.now)) }
    {
        let (held, rows) = self.only_pattern()?;
        match rows {
            RowSet::One(own) => Some((held, *own)),
            RowSet::More(_) => None,
        }
    }

    // The pattern values that all rows have, and the rows.
    fn only_pattern(&self) -> Option<(&[ValueId], &RowSet)>
        ensures { IfSome result (λ found. (ids : List ℕ) (row : ℕ) → has_by self.now ids row ≡ (bytes_eq ids found.0.now && is_in found.1.now row)) }
    {
        match self {
            PatternRows::Nothing => None,
            PatternRows::Single(held, rows) => Some((held.as_slice(), rows)),
            PatternRows::Several(patterns) => only_entry(patterns),
        }
    }
}

// The pattern values that stand there by themselves, and their rows.
fn only_entry(patterns: &Patterns) -> Option<(&[ValueId], &RowSet)>
    ensures { IfSome result (λ found. (ids : List ℕ) (row : ℕ) → in_map patterns.now ids row ≡ (bytes_eq ids found.0.now && is_in found.1.now row)) }
{
    if patterns.len() != 1 {
        return None;
    }
    let (held, rows) = patterns.first_key_value()?;
    Some((held.as_slice(), rows))
}

// Moves rows that stood in place into a map, beside one with other pattern values. After a refusal they stand as before.
fn map_beside(
    alloc: Global,
    held: &mut Vec<ValueId>,
    rows: &mut RowSet,
    pattern: &[ValueId],
    row: RowId,
) -> Result<Patterns, AllocError>
    requires { bytes_eq pattern.now held.old.items ≡ false }
    ensures ok { IfOk result (λ patterns. IsMore pattern.now row (has_by (PatternRows.Single held.old rows.old)) (in_map patterns)) }
    ensures err { OnErr result ((held.new ≡ held.old) × (rows.new ≡ rows.old)) }
{
    let mut patterns = BTreeMap::new(alloc);
    put_in_map(&mut patterns, alloc, pattern, row)?;
    let own = mem::replace(held, Vec::new(alloc));
    let own_rows = mem::replace(rows, RowSet::One(row));
    match patterns.insert(own, own_rows) {
        Ok(_) => Ok(patterns),
        Err(refused) => {
            let (own, own_rows) = refused.value;
            *held = own;
            *rows = own_rows;
            Err(AllocError)
        }
    }
}

fn put_in_map(
    patterns: &mut Patterns,
    alloc: Global,
    pattern: &[ValueId],
    row: RowId,
) -> Result<bool, AllocError>
    ensures ok { OnOk result (IsMore pattern.now row (in_map patterns.old) (in_map patterns.new)) }
    ensures new { IfOk result (λ added. added ≡ not (in_map patterns.old pattern.now row)) }
    ensures err { OnErr result (IsSame (in_map patterns.old) (in_map patterns.new)) }
{
    if let Some(rows) = patterns.get_mut(pattern) {
        return rows.put(alloc, row);
    }
    patterns.insert(Vec::from_slice(alloc, pattern)?, RowSet::One(row))?;
    Ok(true)
}

fn take_from_map(patterns: &mut Patterns, pattern: &[ValueId], row: RowId)
    ensures { IsLess pattern.now row (in_map patterns.old) (in_map patterns.new) }
{
    if take_in_map(patterns, pattern, row) {
        patterns.remove(pattern);
    }
}

// Takes the row away from those with its pattern values, and tells whether no other is left there.
fn take_in_map(patterns: &mut Patterns, pattern: &[ValueId], row: RowId) -> bool
    ensures left { result ≡ false → IsLess pattern.now row (in_map patterns.old) (in_map patterns.new) }
    ensures none { result ≡ true → (other : ℕ) → (not (other == row) && in_map patterns.old pattern.now other) ≡ false }
    ensures others { (ids : List ℕ) → bytes_eq ids pattern.now ≡ false → rows_for patterns.new ids ≡ rows_for patterns.old ids }
{
    match patterns.get_mut(pattern) {
        Some(rows) => rows.take(row),
        None => false,
    }
}
