//! The rows of both sides with one key. A lone row with at most one pattern value, or one without pattern values on each side,
//! stands in place, without memory; others stand in a box of their own.
ghost use Rattle.std.specs.Prelude.{◌≡◌, ◌⊎◌, false, ◌==◌, ◌&&◌, ℕ, List, not, ◌↔◌, IsTrue, IfOk, IfSome, IfNone, OnOk, OnErr, Contains};
ghost use Rattle.std.specs.Str.{bytes_eq};
ghost use Rattle.cind_index.specs.RowsHeld.{has, has_some, both_sides, is_boxed, rows_on, across, lacks_answer, is_dirty, is_orphaned, HoldsSoMany, HasRowMore, HasRowLess, HaveTheSame, HasNothing, ChangesOn};
ghost use Rattle.cind_index.specs.declared.side.Side.TheVariants.{Left, Right};
ghost use Rattle.cind_index.specs.declared.key_rows.KeyRows.{KeyRows};

use crate::both_sides::BothSides;
use crate::side::Side;
use crate::side_rows::{SideRows, count_lone, is_one, push_lone};
use cfd_semantics::InclusionRow;
use row_store::RowId;
use std::alloc::{AllocError, Global};
use value_pool::ValueId;

pub(crate) enum KeyRows {
    NoRows,
    LoneLeft(RowId),
    LoneRight(RowId),
    LeftWith(ValueId, RowId),
    RightWith(ValueId, RowId),
    OneEach(RowId, RowId),
    Boxed(Box<BothSides>),
}

// By hand, so that whatever drops the rows of a key calls this, and isn't proved for each way that they stand.
impl Drop for KeyRows {
    fn drop(self) {
        match self {
            KeyRows::NoRows
            | KeyRows::LoneLeft(_)
            | KeyRows::LoneRight(_)
            | KeyRows::LeftWith(_, _)
            | KeyRows::RightWith(_, _)
            | KeyRows::OneEach(_, _)
            | KeyRows::Boxed(_) => {}
        }
    }
}

impl KeyRows {
    /// A lone row on one side.
    pub(crate) fn with_row(
        alloc: Global,
        side: Side,
        pattern: &[ValueId],
        row: RowId,
    ) -> Result<KeyRows, AllocError>
        ensures here { IfOk result (λ rows. (ids : List ℕ) (other : ℕ) → has (rows_on rows side) ids other ≡ (bytes_eq ids pattern.now && other == row)) }
        ensures beside { IfOk result (λ rows. HasNothing (rows_on rows (across side))) }
    {
        let mut rows = KeyRows::NoRows;
        rows.put(alloc, side, pattern, row)?;
        Ok(rows)
    }

    /// Puts a row in on one side, and tells whether it is new.
    pub(crate) fn put(
        &mut self,
        alloc: Global,
        side: Side,
        pattern: &[ValueId],
        row: RowId,
    ) -> Result<bool, AllocError>
        ensures ok { OnOk result (ChangesOn side (HasRowMore pattern.now row) self.old self.new) }
        ensures new { IfOk result (λ added. added ≡ not (has (rows_on self.old side) pattern.now row)) }
        ensures err { OnErr result (ChangesOn side HaveTheSame self.old self.new) }
    {
        if let KeyRows::Boxed(sides) = self {
            return sides.put(alloc, side, pattern, row);
        }
        let mut sides = self.in_place();
        let added = sides.put(alloc, side, pattern, row)?;
        *self = packed(alloc, sides)?;
        Ok(added)
    }

    // A copy of the two sides that stand in place.
    fn in_place(&self) -> BothSides
        requires { is_boxed self.now ≡ false }
        ensures { result ≡ both_sides self.now }
    {
        match self {
            KeyRows::NoRows => BothSides {
                lefts: SideRows::Empty,
                rights: SideRows::Empty,
            },
            KeyRows::LoneLeft(left) => BothSides {
                lefts: SideRows::Lone(*left),
                rights: SideRows::Empty,
            },
            KeyRows::LoneRight(right) => BothSides {
                lefts: SideRows::Empty,
                rights: SideRows::Lone(*right),
            },
            KeyRows::LeftWith(value, left) => BothSides {
                lefts: SideRows::LoneWith(*value, *left),
                rights: SideRows::Empty,
            },
            KeyRows::RightWith(value, right) => BothSides {
                lefts: SideRows::Empty,
                rights: SideRows::LoneWith(*value, *right),
            },
            KeyRows::OneEach(left, right) => BothSides {
                lefts: SideRows::Lone(*left),
                rights: SideRows::Lone(*right),
            },
            KeyRows::Boxed(_) => unreachable!(),
        }
    }

    /// Takes a row away from one side. Takes no memory.
    pub(crate) fn take(&mut self, side: Side, pattern: &[ValueId], row: RowId)
        ensures { ChangesOn side (HasRowLess pattern.now row) self.old self.new }
    {
        if let KeyRows::Boxed(sides) = self {
            sides.take(side, pattern, row);
            if let Some(rows) = unboxed(sides) {
                *self = rows;
            }
            return;
        }
        // What stands in place still does when a row goes.
        let mut sides = self.in_place();
        sides.take(side, pattern, row);
        *self = unboxed(&sides).unwrap();
    }

    /// Whether there is no row on either side.
    pub(crate) fn is_empty(&self) -> bool
        ensures { IsTrue result → (side : Side) → HasNothing (rows_on self.now side) }
    {
        match self {
            KeyRows::NoRows => true,
            KeyRows::Boxed(sides) => sides.is_empty(),
            _ => false,
        }
    }

    // Whether some row of a side has these pattern values.
    fn has_some(&self, side: Side, pattern: &[ValueId]) -> bool
        ensures { result ≡ has_some (rows_on self.now side) pattern.now }
    {
        match (self, side) {
            (KeyRows::Boxed(sides), _) => sides.on(side).has_some(pattern),
            (KeyRows::LoneLeft(_) | KeyRows::OneEach(_, _), Side::Left) => pattern.is_empty(),
            (KeyRows::LoneRight(_) | KeyRows::OneEach(_, _), Side::Right) => pattern.is_empty(),
            (KeyRows::LeftWith(value, _), Side::Left) => is_one(pattern, *value),
            (KeyRows::RightWith(value, _), Side::Right) => is_one(pattern, *value),
            _ => false,
        }
    }

    /// Whether some left row has the constants of Xp, and no right row those of Yp.
    pub(crate) fn lacks_answer(&self, tableau_row: &InclusionRow<ValueId>) -> bool
        ensures { result ≡ lacks_answer self.now tableau_row.now }
    {
        self.has_some(Side::Left, tableau_row.xp.as_slice())
            && !self.has_some(Side::Right, tableau_row.yp.as_slice())
    }

    /// Whether there is an orphan for some row of the tableau.
    pub(crate) fn is_dirty(&self, tableau: &[InclusionRow<ValueId>]) -> bool
        ensures { result ≡ is_dirty tableau.now self.now }
    {
        tableau.iter().any(|row| self.lacks_answer(row))
    }

    /// Whether a right row has the constants of Yp.
    pub(crate) fn has_answer(&self, tableau_row: &InclusionRow<ValueId>) -> bool
        ensures { result ≡ has_some (rows_on self.now Right) tableau_row.now.yp }
    {
        self.has_some(Side::Right, tableau_row.yp.as_slice())
    }

    /// How many left rows are orphans for a row of the tableau. None of them is gone over.
    pub(crate) fn count_orphans(&self, tableau_row: &InclusionRow<ValueId>) -> usize
        ensures { HoldsSoMany (is_orphaned self.now tableau_row.now) result }
    {
        if self.has_answer(tableau_row) {
            return 0;
        }
        self.count_lefts(tableau_row.xp.as_slice())
    }

    // How many left rows have these pattern values.
    fn count_lefts(&self, pattern: &[ValueId]) -> usize
        ensures { HoldsSoMany (has (rows_on self.now Left) pattern.now) result }
    {
        match self {
            KeyRows::LoneLeft(_) => count_lone(&[], pattern),
            KeyRows::OneEach(_, _) => count_lone(&[], pattern),
            KeyRows::LeftWith(value, _) => count_lone(&[*value], pattern),
            KeyRows::Boxed(sides) => sides.lefts.count_rows(pattern),
            KeyRows::NoRows => 0,
            KeyRows::LoneRight(_) => 0,
            KeyRows::RightWith(_, _) => 0,
        }
    }

    /// Appends the left rows that are orphans for a row of the tableau.
    pub(crate) fn push_orphans(
        &self,
        tableau_row: &InclusionRow<ValueId>,
        found: &mut Vec<RowId>,
    ) -> Result<(), AllocError>
        ensures { OnOk result ((row : ℕ) → Contains found.new.items row ↔ (Contains found.old.items row
            ⊎ (IsTrue (has (rows_on self.now Left) tableau_row.now.xp row) × (has_some (rows_on self.now Right) tableau_row.now.yp ≡ false)))) }
    {
        if self.has_answer(tableau_row) {
            return Ok(());
        }
        self.push_lefts(tableau_row.xp.as_slice(), found)
    }

    // Appends the left rows with these pattern values.
    fn push_lefts(&self, pattern: &[ValueId], found: &mut Vec<RowId>) -> Result<(), AllocError>
        ensures { OnOk result ((row : ℕ) → Contains found.new.items row ↔ (Contains found.old.items row ⊎ IsTrue (has (rows_on self.now Left) pattern.now row))) }
    {
        match self {
            KeyRows::LoneLeft(own) => push_lone(&[], *own, pattern, found),
            KeyRows::OneEach(own, _) => push_lone(&[], *own, pattern, found),
            KeyRows::LeftWith(value, own) => push_lone(&[*value], *own, pattern, found),
            KeyRows::Boxed(sides) => sides.lefts.push_rows(pattern, found),
            _ => Ok(()),
        }
    }
}

// The two sides in place, or in a box where they can't stand there.
fn packed(alloc: Global, sides: BothSides) -> Result<KeyRows, AllocError>
    ensures { IfOk result (λ rows. both_sides rows ≡ sides) }
{
    match unboxed(&sides) {
        Some(rows) => Ok(rows),
        None => Ok(KeyRows::Boxed(Box::new(alloc, sides)?)),
    }
}

// The two sides in place, where they can stand there.
fn unboxed(sides: &BothSides) -> Option<KeyRows>
    ensures some { IfSome result (λ rows. both_sides rows ≡ sides.now) }
    ensures none { IfNone result ((rows : KeyRows) → is_boxed rows ≡ false → both_sides rows ≡ sides.now → ⊥) }
{
    match (&sides.lefts, &sides.rights) {
        (SideRows::Empty, SideRows::Empty) => Some(KeyRows::NoRows),
        (SideRows::Lone(left), SideRows::Empty) => Some(KeyRows::LoneLeft(*left)),
        (SideRows::Empty, SideRows::Lone(right)) => Some(KeyRows::LoneRight(*right)),
        (SideRows::LoneWith(value, left), SideRows::Empty) => {
            Some(KeyRows::LeftWith(*value, *left))
        }
        (SideRows::Empty, SideRows::LoneWith(value, right)) => {
            Some(KeyRows::RightWith(*value, *right))
        }
        (SideRows::Lone(left), SideRows::Lone(right)) => Some(KeyRows::OneEach(*left, *right)),
        _ => None,
    }
}
