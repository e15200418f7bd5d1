//! The rows of tables by the tables' numbers, which are places in one growing vector.
ghost use Rattle.std.specs.Prelude.{◌≡◌, ◌<◌, Some, None, length, IsSome, OnOk};
ghost use Rattle.std.specs.FinMap as finite;
ghost use Rattle.row_store.specs.Tuple.{ids_of, ids_behind};
ghost use Rattle.master_index.specs.Tables.{rows_of_tables, HasRoom};

use row_store::{RowId, RowStore, Tuple};
use std::alloc::{AllocError, Global};

/// A store of rows for each table up to the last that was asked for.
pub(crate) struct Tables {
    // The store of a table stands at the place of the table's number.
    stores: Vec<RowStore>,
}

// By hand, so that whatever drops the tables calls this, and isn't proved for each table.
impl Drop for Tables {
    fn drop(self) {
        let Tables { stores: _ } = self;
    }
}

impl Tables {
    pub(crate) fn new(alloc: Global) -> Tables
        ensures { rows_of_tables result.stores.items ≡ finite.empty }
    {
        Tables {
            stores: Vec::new(alloc),
        }
    }

    /// The tuple of a row, if it is there.
    pub(crate) fn get(&self, table: usize, row: RowId) -> Option<&Tuple>
        ensures { ids_behind result ≡ finite.get (rows_of_tables self.now.stores.items) (table, row) }
    {
        self.stores.get(table)?.get(row)
    }

    /// Makes room for a row, so that it can be put without memory. No row changes.
    pub(crate) fn ready(&mut self, table: usize, row: RowId) -> Result<(), AllocError>
        ensures ready { OnOk result (HasRoom self.new.stores.items table row) }
        ensures rows { rows_of_tables self.new.stores.items ≡ rows_of_tables self.old.stores.items }
    {
        self.reach(table)?;
        ready_row(&mut self.stores[table], row)
    }

    /// Puts a row that isn't there, where there is room for it.
    pub(crate) fn put(&mut self, table: usize, row: RowId, tuple: Tuple)
        requires room { HasRoom self.old.stores.items table row }
        requires absent { finite.get (rows_of_tables self.old.stores.items) (table, row) ≡ None }
        ensures { rows_of_tables self.new.stores.items ≡ finite.insert (rows_of_tables self.old.stores.items) (table, row) (ids_of tuple) }
    {
        self.stores[table].put_back(row, tuple);
    }

    #[tactic(auto, using(crate::proofs::TableRows::table_there, crate::proofs::TableRows::row_stands, crate::proofs::TableRows::row_was, crate::proofs::TableRows::row_gone, crate::proofs::TableRows::row_changed))]
    /// Takes a row away, and gives its tuple.
    pub(crate) fn take(&mut self, table: usize, row: RowId) -> Tuple
        requires { IsSome (finite.get (rows_of_tables self.old.stores.items) (table, row)) }
        ensures old { finite.get (rows_of_tables self.old.stores.items) (table, row) ≡ Some (ids_of result) }
        ensures rows { rows_of_tables self.new.stores.items ≡ finite.remove (rows_of_tables self.old.stores.items) (table, row) }
    {
        self.stores[table].take(row)
    }

    #[tactic(auto, using(crate::proofs::TableRows::table_there, crate::proofs::TableRows::row_stands, crate::proofs::TableRows::row_was, crate::proofs::TableRows::row_gone, crate::proofs::TableRows::row_changed))]
    /// Puts the tuple in place of the row's, and gives the old one.
    pub(crate) fn replace(&mut self, table: usize, row: RowId, tuple: Tuple) -> Tuple
        requires { IsSome (finite.get (rows_of_tables self.old.stores.items) (table, row)) }
        ensures old { finite.get (rows_of_tables self.old.stores.items) (table, row) ≡ Some (ids_of result) }
        ensures rows { rows_of_tables self.new.stores.items ≡ finite.insert (rows_of_tables self.old.stores.items) (table, row) (ids_of tuple) }
    {
        self.stores[table].replace(row, tuple)
    }

    // Puts empty stores until the table has one.
    fn reach(&mut self, table: usize) -> Result<(), AllocError>
        ensures reached { OnOk result (table < length self.new.stores.items) }
        ensures rows { rows_of_tables self.new.stores.items ≡ rows_of_tables self.old.stores.items }
    {
        let alloc = *self.stores.allocator();
        let missing = table.saturating_add(1).saturating_sub(self.stores.len());
        self.stores.reserve(missing)?;
        while self.stores.len() <= table {
            self.stores.push(RowStore::new(alloc))?;
        }
        Ok(())
    }
}

// Makes room for the row with this id, which lies below the next id then. Where there is no memory, the next id stays as
// it was. The greatest id of all has none above it.
fn ready_row(store: &mut RowStore, row: RowId) -> Result<(), AllocError>
    ensures below { OnOk result (row < store.new.next) }
    ensures ready { OnOk result (0 < store.new.spare) }
    ensures rows { store.new.rows ≡ store.old.rows }
{
    let next = store.next_id();
    let above = row.checked_add(1).ok_or(AllocError)?;
    store.set_next(next.max(above));
    let ready = store.ready_insert();
    if ready.is_err() {
        store.set_next(next);
    }
    ready
}
