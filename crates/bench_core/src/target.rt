//! The table that an edit names, and the change that the edit is there.

ghost use Rattle.std.specs.Prelude.{Some, IfOk};
ghost use Rattle.text_lists.specs.Limits.{AreLimits};
ghost use Rattle.line_grammar.specs.Faults.{GivesUnlessMemory};
ghost use Rattle.value_pool.specs.Pool.{KeepsIds};
ghost use Rattle.bench_core.specs.State.{IsTableState};
ghost use Rattle.bench_core.specs.Edited.{after_delete, after_edit, after_fix, after_insert, after_set, refusal_of};
ghost use Rattle.bench_core.specs.Stored.{RowsHaveTexts, stored, table_state};
ghost use Rattle.bench_core.specs.Changes.{after_change, told_of};
ghost use Rattle.bench_core.specs.Bench.{IsPlanned};

use crate::checks::{check_row, check_text};
use crate::edit::EditFault;
use crate::tuples::{intern_all, with_text};
use edit_log::{Change, Edit};
use row_store::{RowId, RowStore};
use schema_core::{Limits, Table, Text, Texts};
use std::alloc::Global;
use value_pool::Pool;

/// A table with its number, how it is declared and stored, and what an edit is held against: the limits, and whether there
/// may be one row more.
#[derive(Drop)]
pub(crate) struct Target<'a> {
    pub alloc: Global,
    pub limits: &'a Limits,
    pub room: bool,
    pub number: usize,
    pub table: &'a Table,
    pub store: &'a RowStore,
}

impl<'a> Target<'a> {
    /// The change that the edit makes, or why it is refused. Only the pool is changed.
    pub(crate) fn change(&self, pool: &mut Pool, edit: &Edit) -> Result<Change, EditFault>
        requires limits { AreLimits self.now.limits.now }
        requires state { IsTableState self.now.limits.now.cell_bytes self.now.limits.now.last_id self.now.table.now (table_state pool.old (stored self.now.store.now)) }
        requires named { RowsHaveTexts pool.old self.now.store.now.rows }
        ensures edited { GivesUnlessMemory refusal_of (after_edit self.now.limits.now self.now.room self.now.table.now (table_state pool.old (stored self.now.store.now)) edit.now) (λ change. (table_state pool.new (after_change change (stored self.now.store.now)), told_of change)) result }
        ensures planned { IfOk result (IsPlanned pool.new self.now.number (stored self.now.store.now)) }
        ensures kept { KeepsIds pool.old pool.new }
    {
        match edit {
            Edit::Insert { table: _, values } => self.insert(pool, values),
            Edit::Set {
                table: _,
                row,
                attr,
                value,
            } => self.set(pool, *row, attr, value),
            Edit::Delete { table: _, row } => self.delete(pool, *row),
            Edit::Fix {
                table: _,
                row,
                values,
            } => self.fix(pool, *row, values),
        }
    }

    fn insert(&self, pool: &mut Pool, values: &Texts) -> Result<Change, EditFault>
        requires limits { AreLimits self.now.limits.now }
        requires state { IsTableState self.now.limits.now.cell_bytes self.now.limits.now.last_id self.now.table.now (table_state pool.old (stored self.now.store.now)) }
        requires named { RowsHaveTexts pool.old self.now.store.now.rows }
        ensures edited { GivesUnlessMemory refusal_of (after_insert self.now.limits.now self.now.room self.now.table.now (table_state pool.old (stored self.now.store.now)) values.now) (λ change. (table_state pool.new (after_change change (stored self.now.store.now)), told_of change)) result }
        ensures planned { IfOk result (IsPlanned pool.new self.now.number (stored self.now.store.now)) }
        ensures kept { KeepsIds pool.old pool.new }
    {
        check_row(self.limits, self.table, values.as_slice())?;
        if !self.room {
            return Err(EditFault::RowsFull);
        }
        let row = self.store.next_id();
        if row > self.limits.last_id {
            return Err(EditFault::IdsSpent);
        }
        let new = intern_all(self.alloc, pool, values.as_slice())?;
        Ok(Change {
            table: self.number,
            row,
            old: None,
            new: Some(new),
        })
    }

    fn set(
        &self,
        pool: &mut Pool,
        row: RowId,
        attr: &Text,
        value: &Text,
    ) -> Result<Change, EditFault>
        requires state { IsTableState self.now.limits.now.cell_bytes self.now.limits.now.last_id self.now.table.now (table_state pool.old (stored self.now.store.now)) }
        requires named { RowsHaveTexts pool.old self.now.store.now.rows }
        ensures edited { GivesUnlessMemory refusal_of (after_set self.now.limits.now self.now.table.now (table_state pool.old (stored self.now.store.now)) row attr.now value.now) (λ change. (table_state pool.new (after_change change (stored self.now.store.now)), told_of change)) result }
        ensures planned { IfOk result (IsPlanned pool.new self.now.number (stored self.now.store.now)) }
        ensures kept { KeepsIds pool.old pool.new }
    {
        let Some(old) = self.store.get(row) else {
            return Err(EditFault::UnknownRow);
        };
        let Some(column) = self.table.attr_named(attr.as_str()) else {
            return Err(EditFault::UnknownAttr);
        };
        check_text(self.limits, &self.table.attrs.as_slice()[column], value)?;
        let new = with_text(self.alloc, pool, old, column, value)?;
        Ok(Change {
            table: self.number,
            row,
            old: Some(old.clone()?),
            new: Some(new),
        })
    }

    fn delete(&self, pool: &Pool, row: RowId) -> Result<Change, EditFault>
        requires state { IsTableState self.now.limits.now.cell_bytes self.now.limits.now.last_id self.now.table.now (table_state pool.now (stored self.now.store.now)) }
        requires named { RowsHaveTexts pool.now self.now.store.now.rows }
        ensures edited { GivesUnlessMemory refusal_of (after_delete (table_state pool.now (stored self.now.store.now)) row) (λ change. (table_state pool.now (after_change change (stored self.now.store.now)), told_of change)) result }
        ensures planned { IfOk result (IsPlanned pool.now self.now.number (stored self.now.store.now)) }
    {
        let Some(old) = self.store.get(row) else {
            return Err(EditFault::UnknownRow);
        };
        Ok(Change {
            table: self.number,
            row,
            old: Some(old.clone()?),
            new: None,
        })
    }

    fn fix(&self, pool: &mut Pool, row: RowId, values: &Texts) -> Result<Change, EditFault>
        requires state { IsTableState self.now.limits.now.cell_bytes self.now.limits.now.last_id self.now.table.now (table_state pool.old (stored self.now.store.now)) }
        requires named { RowsHaveTexts pool.old self.now.store.now.rows }
        ensures edited { GivesUnlessMemory refusal_of (after_fix self.now.limits.now self.now.table.now (table_state pool.old (stored self.now.store.now)) row values.now) (λ change. (table_state pool.new (after_change change (stored self.now.store.now)), told_of change)) result }
        ensures planned { IfOk result (IsPlanned pool.new self.now.number (stored self.now.store.now)) }
        ensures kept { KeepsIds pool.old pool.new }
    {
        let Some(old) = self.store.get(row) else {
            return Err(EditFault::UnknownRow);
        };
        check_row(self.limits, self.table, values.as_slice())?;
        let new = intern_all(self.alloc, pool, values.as_slice())?;
        Ok(Change {
            table: self.number,
            row,
            old: Some(old.clone()?),
            new: Some(new),
        })
    }
}
