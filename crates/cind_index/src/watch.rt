//! The index kept in step with rows. A row gives an entry on each side whose table is its own.
ghost use Rattle.std.specs.Prelude.{◌==◌, ◌||◌};
ghost use Rattle.cind_index.specs.Entries.{CindMade, CindEntry, table_on, gives_entry, attributes_of};
ghost use Rattle.cind_index.specs.KeysHeld.{held};
ghost use Rattle.cind_index.specs.Laws.{given_names_row, unneeded_gives_none};
ghost use Rattle.cind_index.specs.declared.side.Side.TheVariants.{Left, Right};

use crate::index::CindIndex;
use crate::side::Side;
use probe_steps::Steps;
use row_store::{RowId, Tuple, Watch};
use std::alloc::AllocError;
use std::sync::ledger::Ledger;

impl Watch for CindIndex {
    ghost Entry = { CindEntry };

    ghost Made = { CindMade };

    ghost made = { λ index. record { left = index.left; right = index.right; rule = index.rule } };

    ghost holds = { λ index e. held index.keys e.side e.entry };

    ghost gives = { gives_entry };

    ghost table_of = { λ how e. table_on how e.side };

    ghost row_of = { λ _ e. e.entry.row };

    ghost needed = { λ how table. (table == how.left) || (table == how.right) };

    ghost attributes = { attributes_of };

    ghost cost = { λ _. 2 };

    fn needs(&self, table: usize) -> bool {
        table == self.left || table == self.right
    }

    fn add<L: Ledger>(
        &mut self,
        table: usize,
        row: RowId,
        old: Option<&Tuple>,
        new: &Tuple,
        steps: &mut Steps<L>,
    ) -> Result<(), AllocError> {
        self.make_room()?;
        let left = self.add_on(Side::Left, table, row, old, new, steps)?;
        match self.add_on(Side::Right, table, row, old, new, steps) {
            Ok(_) => Ok(()),
            Err(refused) => {
                if let Some(place) = left {
                    self.take_back(place, row, new);
                }
                Err(refused)
            }
        }
    }

    fn remove<L: Ledger>(
        &mut self,
        table: usize,
        row: RowId,
        old: &Tuple,
        new: Option<&Tuple>,
        steps: &mut Steps<L>,
    ) {
        // Without a key nothing is held, and there may be no room.
        if self.keys.len() == 0 {
            return;
        }
        self.remove_on(Side::Left, table, row, old, new, steps);
        self.remove_on(Side::Right, table, row, old, new, steps);
    }

    ghost names_row = { given_names_row };

    ghost unneeded = { unneeded_gives_none };
}
