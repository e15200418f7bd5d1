//! A walk over the rows of a store.
ghost use Rattle.std.specs.Prelude.{◌≡◌};
ghost use Rattle.row_store.specs.Slots.{entries_from};

use crate::store::{RowId, Tuple};

/// The rows of a store, by rising ids.
#[derive(Drop)]
pub struct Rows<'a> {
    slots: &'a [Option<Tuple>],
    // The id of the first slot that is left.
    place: usize,
}

impl<'a> Rows<'a> {
    ghost use Rattle.row_store.specs.Rows.{rows_left};

    pub(crate) fn over(slots: &'a [Option<Tuple>]) -> Self
        ensures { rows_left result ≡ entries_from 0 slots.now }
    {
        Rows { slots, place: 0 }
    }
}

impl<'a> Iterator for Rows<'a> {
    ghost use Rattle.std.specs.Iterator.{YieldsFirstBy, item_count};
    ghost use Rattle.row_store.specs.Rows.{row_seen, rows_left};

    type Item = (RowId, &'a Tuple);

    ghost next_gives = { YieldsFirstBy row_seen rows_left };

    ghost remaining = { item_count rows_left };

    #[tactic(auto, using(crate::proofs::Walk::walk_steps))]
    fn next(&mut self) -> Option<(RowId, &'a Tuple)> {
        while self.place < self.slots.len() {
            let id = self.place;
            self.place += 1;
            if let Some(tuple) = &self.slots[id] {
                return Some((id as RowId, tuple));
            }
        }
        None
    }
}
