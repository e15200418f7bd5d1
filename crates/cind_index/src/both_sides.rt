//! The rows of both sides with one key, each side by itself.
ghost use Rattle.std.specs.Prelude.{◌≡◌, true, ◌&&◌, not, IsTrue, IfOk, OnOk, OnErr};
ghost use Rattle.cind_index.specs.RowsHeld.{has, side_of, across, is_few, IsLeftOf, HasRowMore, HasRowLess, HaveTheSame, HasNothing, ChangesSide};

use crate::side::Side;
use crate::side_rows::SideRows;
use row_store::RowId;
use std::alloc::{AllocError, Global};
use value_pool::ValueId;

pub(crate) struct BothSides {
    pub(crate) lefts: SideRows,
    pub(crate) rights: SideRows,
}

// By hand, so that whatever drops both sides calls this, and isn't proved for each of them.
impl Drop for BothSides {
    fn drop(self) {
        let BothSides {
            lefts: _,
            rights: _,
        } = self;
    }
}

impl BothSides {
    /// The rows of a side.
    pub(crate) fn on(&self, side: Side) -> &SideRows
        ensures { result.now ≡ side_of self.now side }
    {
        match side {
            Side::Left => &self.lefts,
            Side::Right => &self.rights,
        }
    }

    /// Puts a row in on one side, and tells whether it is new.
    pub(crate) fn put(
        &mut self,
        alloc: Global,
        side: Side,
        pattern: &[ValueId],
        row: RowId,
    ) -> Result<bool, AllocError>
        ensures ok { OnOk result (ChangesSide side (HasRowMore pattern.now row) self.old self.new) }
        ensures new { IfOk result (λ added. added ≡ not (has (side_of self.old side) pattern.now row)) }
        ensures err { OnErr result (ChangesSide side HaveTheSame self.old self.new) }
    {
        match side {
            Side::Left => self.lefts.put(alloc, pattern, row),
            Side::Right => self.rights.put(alloc, pattern, row),
        }
    }

    /// Takes a row away from one side.
    pub(crate) fn take(&mut self, side: Side, pattern: &[ValueId], row: RowId)
        ensures less { ChangesSide side (HasRowLess pattern.now row) self.old self.new }

        // A lone row stays as it is, or goes.
        ensures here { is_few (side_of self.old side) ≡ true → IsLeftOf (side_of self.old side) (side_of self.new side) }
        ensures beside { side_of self.new (across side) ≡ side_of self.old (across side) }
    {
        match side {
            Side::Left => self.lefts.take(pattern, row),
            Side::Right => self.rights.take(pattern, row),
        }
    }

    /// Whether there is no row on either side.
    pub(crate) fn is_empty(&self) -> bool
        ensures { IsTrue result → (side : Side) → HasNothing (side_of self.now side) }
    {
        self.lefts.is_empty() && self.rights.is_empty()
    }
}
