//! The rows of all master tables, and the indexes of their columns.
ghost use Rattle.std.specs.Prelude.{◌≡◌, ◌+◌, ◌*◌, ◌≤◌, ◌↔◌, ℕ, None, Contains, IsSome, MatchOption, IfOk, OnOk, OnErr};
ghost use Rattle.std.specs.List.Sorted.{IsStrictlyIncreasing};
ghost use Rattle.std.specs.FinMap as finite;
ghost use Rattle.row_store.specs.Tuple.{ids_of, ids_behind};
ghost use Rattle.master_index.specs.InStep.{AreRowsWith};
ghost use Rattle.master_index.specs.Masters.{IsRowWith, IsWideFor, id_at, lists_of};

use crate::column_index::ColumnIndex;
use crate::column_list::ColumnList;
use crate::lists::{add_to_all, take_from_each};
use crate::rising::RowIds;
use crate::tables::Tables;
use hash_keys::HashKeys;
use probe_steps::Steps;
use row_store::{RowId, Tuple};
use std::alloc::{AllocError, Global};
use std::marker::Model;
use std::sync::ledger::Ledger;
use value_pool::ValueId;

/// Rows of master tables, looked up by their ids and by the values in the columns that were handed in.
///
/// The rows of a table take memory by the greatest row id that was added to it, and the tables by the greatest of their
/// numbers: both are dense, since whoever holds the tables gives them out one after the other. What was passed over takes
/// the place of a reference for a row, and of an empty store for a table.
pub struct MasterIndex {
    columns: Vec<ColumnIndex>,
    tables: Tables,
}

// By hand, so that whatever drops the rows calls this, and isn't proved for each of their parts.
impl Drop for MasterIndex {
    fn drop(self) {
        let MasterIndex {
            columns: _,
            tables: _,
        } = self;
    }
}

impl Model for MasterIndex {
    ghost use Rattle.std.specs.Prelude.{map};
    ghost use Rattle.master_index.specs.Masters.{Masters, masters_code};
    ghost use Rattle.master_index.specs.Tables.{rows_of_tables};

    ghost Value = { Masters };

    ghost coded = { masters_code };

    ghost use Rattle.master_index.specs.InStep.{IsMasterIndex};

    ghost view = { λ m. record { lists = map (λ index. index.list) m.columns.items; rows = rows_of_tables m.tables.stores.items } };

    ghost invariant = { λ m. IsMasterIndex m.columns.items (rows_of_tables m.tables.stores.items) };
}

impl MasterIndex {
    /// An index without rows, for these lists of columns. The values are looked up by a hash with these keys.
    pub fn new(
        alloc: Global,
        keys: HashKeys,
        lists: Vec<ColumnList>,
    ) -> Result<MasterIndex, AllocError>
        ensures lists { IfOk result (λ index. index.lists ≡ lists.items) }
        ensures empty { IfOk result (λ index. index.rows ≡ finite.empty) }
    {
        let mut columns = Vec::with_capacity(alloc, lists.len())?;
        for list in lists {
            columns.push(ColumnIndex::new(alloc, keys, list)?)?;
        }
        Ok(MasterIndex {
            columns,
            tables: Tables::new(alloc),
        })
    }

    /// The tuple of a row, if it is there.
    pub fn tuple(&self, master: usize, row: RowId) -> Option<&Tuple>
        ensures { ids_behind result ≡ finite.get self.now.rows (master, row) }
    {
        self.tables.get(master, row)
    }

    /// The rows with these ids in these columns, by rising ids. It takes no memory.
    pub fn matches(&self, master: usize, columns: &[usize], ids: &[ValueId]) -> &[RowId]
        requires { Contains self.now.lists (record { master = master; columns = columns.now }) }
        ensures rising { IsStrictlyIncreasing result.now }
        ensures exactly { (row : ℕ) → Contains result.now row ↔ IsRowWith self.now.rows master columns.now ids.now row }
    {
        match self.held(master, columns, ids) {
            Some(rows) => rows.as_slice(),
            None => &[],
        }
    }

    /// Of the rows with these ids in these columns, by rising ids, so many that they tell each id that these rows
    /// have in one more column: the first alone, where no two of them were ever seen to differ there. It takes no
    /// memory.
    pub fn telling_matches(
        &self,
        master: usize,
        columns: &[usize],
        ids: &[ValueId],
        told: usize,
    ) -> &[RowId]
        requires { Contains self.now.lists (record { master = master; columns = columns.now }) }
        ensures rising { IsStrictlyIncreasing result.now }
        ensures only { (row : ℕ) → Contains result.now row → IsRowWith self.now.rows master columns.now ids.now row }
        ensures each { (row : ℕ) → IsRowWith self.now.rows master columns.now ids.now row →
            (other : ℕ) × Contains result.now other × (id_at self.now.rows master other told ≡ id_at self.now.rows master row told) }
    {
        match self.held(master, columns, ids) {
            Some(rows) => rows.telling(told),
            None => &[],
        }
    }

    // What is kept of the rows with these ids in these columns, if there are any.
    fn held(&self, master: usize, columns: &[usize], ids: &[ValueId]) -> Option<&RowIds>
        requires { Contains self.now.lists (record { master = master; columns = columns.now }) }
        ensures { MatchOption result ((row : ℕ) → ¬ IsRowWith self.now.rows master columns.now ids.now row) (λ held. AreRowsWith self.now.rows master columns.now ids.now held.now) }
    {
        for index in &self.columns {
            if index.is_of(master, columns) {
                return index.rows(ids);
            }
        }
        None
    }

    /// Adds a row that isn't there. After a refusal the rows are as before. The first row of an id makes room for all ids
    /// below it in the table.
    pub fn add<L: Ledger>(
        &mut self,
        master: usize,
        row: RowId,
        tuple: &Tuple,
        steps: &mut Steps<L>,
    ) -> Result<(), AllocError>
        requires absent { finite.get self.old.rows (master, row) ≡ None }
        requires wide { IsWideFor self.old.lists master (ids_of tuple.now) }
        ensures ok { OnOk result (self.new.rows ≡ finite.insert self.old.rows (master, row) (ids_of tuple.now)) }
        ensures err { OnErr result (self.new.rows ≡ self.old.rows) }
        ensures lists { self.new.lists ≡ self.old.lists }
        ensures probes { OnOk result (steps.new ≤ steps.old + lists_of self.old.lists master) }
        ensures probes_twice { steps.new ≤ steps.old + 2 * lists_of self.old.lists master }
    {
        let shared = tuple.clone()?;
        self.tables.ready(master, row)?;
        let columns = self.columns.as_mut_slice();
        add_to_all(columns, &self.tables, master, row, tuple, steps)?;
        self.tables.put(master, row, shared);
        Ok(())
    }

    /// Takes a row away. It takes no memory.
    pub fn remove<L: Ledger>(&mut self, master: usize, row: RowId, steps: &mut Steps<L>)
        requires { IsSome (finite.get self.old.rows (master, row)) }
        ensures rows { self.new.rows ≡ finite.remove self.old.rows (master, row) }
        ensures lists { self.new.lists ≡ self.old.lists }
        ensures probes { steps.new ≤ steps.old + lists_of self.old.lists master }
    {
        let tuple = self.tables.take(master, row);
        let columns = self.columns.as_mut_slice();
        take_from_each(columns, &self.tables, master, row, &tuple, steps);
    }

    /// Puts the tuple in place of the row's. After a refusal the rows are as before.
    pub fn replace<L: Ledger>(
        &mut self,
        master: usize,
        row: RowId,
        tuple: &Tuple,
        steps: &mut Steps<L>,
    ) -> Result<(), AllocError>
        requires there { IsSome (finite.get self.old.rows (master, row)) }
        requires wide { IsWideFor self.old.lists master (ids_of tuple.now) }
        ensures ok { OnOk result (self.new.rows ≡ finite.insert self.old.rows (master, row) (ids_of tuple.now)) }
        ensures err { OnErr result (self.new.rows ≡ self.old.rows) }
        ensures lists { self.new.lists ≡ self.old.lists }
        ensures probes { steps.new ≤ steps.old + 2 * lists_of self.old.lists master }
    {
        let shared = tuple.clone()?;
        let columns = self.columns.as_mut_slice();
        add_to_all(columns, &self.tables, master, row, tuple, steps)?;
        let old = self.tables.replace(master, row, shared);
        take_from_each(columns, &self.tables, master, row, &old, steps);
        Ok(())
    }
}
