//! The rows of one master table by the ids in some of its columns, kept in step with the rows.
ghost use Rattle.std.specs.Prelude.{◌≡◌, ◌+◌, ◌≤◌, ◌<◌, ◌==◌, ℕ, List, length, option_map, if◌then◌else◌, IfOk, OnOk, OnErr, IsTrue, ◌↔◌, false};
ghost use Rattle.std.specs.FinMap as finite;
ghost use Rattle.std.specs.Map.{lookup};
ghost use Rattle.std.specs.Option.{ForSome};
ghost use Rattle.std.specs.Str.{bytes_eq};
ghost use Rattle.row_store.specs.Tuple.{ids_of};
ghost use Rattle.master_index.specs.Between.{IsBetween, IsOver, Reaches, in_tables, with_one};
ghost use Rattle.master_index.specs.ColumnRows.{AreOrderly, is_under};
ghost use Rattle.master_index.specs.Tables.{rows_of_tables};

use crate::column_list::ColumnList;
use crate::column_rows::{ColumnRows, put_row, rows_with, take_row};
use crate::rising::RowIds;
use crate::tables::Tables;
use hash_keys::HashKeys;
use indexmap::IndexMap;
use probe_steps::Steps;
use row_store::{Key, RowId, Tuple, agree, write_key};
use std::alloc::{AllocError, Global};
use std::sync::ledger::Ledger;
use value_pool::ValueId;

pub(crate) struct ColumnIndex {
    pub(crate) list: ColumnList,
    rows: ColumnRows,
    // Room for one key, so that a row is taken away without memory.
    key: Key,
    ghost kept: { AreOrderly rows.entries },
    ghost room: { length list.columns ≤ key.capacity },
}

// By hand, so that whatever drops an index calls this, and isn't proved for each of its parts.
impl Drop for ColumnIndex {
    fn drop(self) {
        let ColumnIndex {
            list: _,
            rows: _,
            key: _,
        } = self;
    }
}

impl ColumnIndex {
    pub(crate) fn new(
        alloc: Global,
        keys: HashKeys,
        list: ColumnList,
    ) -> Result<ColumnIndex, AllocError>
        ensures list { IfOk result (λ index. index.list ≡ list) }
        ensures empty { IfOk result (λ index. (ids : List ℕ) (row : ℕ) → is_under ids row index.rows.entries ≡ false) }
    {
        let key = Key::with_capacity(alloc, list.columns.as_slice().len())?;
        Ok(ColumnIndex {
            list,
            rows: IndexMap::with_hasher(alloc, keys),
            key,
        })
    }

    /// Whether it is of this table and these columns.
    pub(crate) fn is_of(&self, master: usize, columns: &[usize]) -> bool
        ensures { IsTrue result ↔ (self.now.list ≡ record { master = master; columns = columns.now }) }
    {
        self.list.master == master && self.list.columns.as_slice() == columns
    }

    /// The rows with these ids in the columns, if there are any.
    pub(crate) fn rows(&self, ids: &[ValueId]) -> Option<&RowIds>
        ensures { option_map (λ rows. rows.now) result ≡ lookup (λ key. bytes_eq ids.now key.items) self.now.rows.entries }
    {
        rows_with(&self.rows, ids)
    }

    /// Puts the row under the key of the tuple, if it is of this table. The tables are as they were before.
    pub(crate) fn add<L: Ledger>(
        &mut self,
        tables: &Tables,
        master: usize,
        row: RowId,
        tuple: &Tuple,
        steps: &mut Steps<L>,
    ) -> Result<(), AllocError>
        requires wide { Reaches master (ids_of tuple.now) self.old.list }
        requires in_step { IsOver (in_tables tables.now.stores.items) self.old.list self.old.rows.entries }
        ensures list { self.new.list ≡ self.old.list }
        ensures ok { OnOk result (IsOver (with_one (in_tables tables.now.stores.items) master row (ids_of tuple.now)) self.new.list self.new.rows.entries) }
        ensures err { OnErr result (IsOver (in_tables tables.now.stores.items) self.new.list self.new.rows.entries) }
        ensures probes { steps.new ≤ steps.old + (if master == self.old.list.master then 1 else 0) }
    {
        if master != self.list.master {
            return Ok(());
        }
        let columns = self.list.columns.as_slice();
        let mut key = Key::with_capacity(*self.rows.allocator(), columns.len())?;
        write_key(&mut key, tuple, columns);
        put_row(&mut self.rows, key, tables, master, row, tuple, steps)
    }

    /// Takes the row away from the key of the tuple, if it is of this table, unless its tuple in the tables has
    /// that key.
    pub(crate) fn remove<L: Ledger>(
        &mut self,
        tables: &Tables,
        master: usize,
        row: RowId,
        tuple: &Tuple,
        steps: &mut Steps<L>,
    )
        requires wide { Reaches master (ids_of tuple.now) self.old.list }
        requires wide_left { ForSome (finite.get (rows_of_tables tables.now.stores.items) (master, row)) (λ ids. Reaches master ids self.old.list) }
        requires between { IsBetween (in_tables tables.now.stores.items) (with_one (in_tables tables.now.stores.items) master row (ids_of tuple.now)) self.old.list self.old.rows.entries }
        ensures list { self.new.list ≡ self.old.list }
        ensures in_step { IsOver (in_tables tables.now.stores.items) self.new.list self.new.rows.entries }
        ensures probes { steps.new ≤ steps.old + (if master == self.old.list.master then 1 else 0) }
    {
        if master != self.list.master {
            return;
        }
        let columns = self.list.columns.as_slice();
        if let Some(left) = tables.get(master, row) {
            if agree(left, tuple, columns) {
                return;
            }
        }
        write_key(&mut self.key, tuple, columns);
        take_row(&mut self.rows, self.key.as_slice(), row, steps);
    }
}
