//! A row comes in, or goes, in the indexes of all lists of columns.
ghost use Rattle.std.specs.Prelude.{◌≡◌, ◌+◌, ◌*◌, ◌≤◌, map, All, OnOk, OnErr};
ghost use Rattle.std.specs.FinMap as finite;
ghost use Rattle.std.specs.Option.{ForSome};
ghost use Rattle.row_store.specs.Tuple.{ids_of};
ghost use Rattle.master_index.specs.Between.{in_tables, with_one};
ghost use Rattle.master_index.specs.InStep.{IndexIsBetween, IndexIsOver};
ghost use Rattle.master_index.specs.Masters.{IsWideFor, lists_of};
ghost use Rattle.master_index.specs.Tables.{rows_of_tables};

use crate::column_index::ColumnIndex;
use crate::tables::Tables;
use probe_steps::Steps;
use row_store::{RowId, Tuple};
use std::alloc::AllocError;
use std::sync::ledger::Ledger;

// Puts the row in one index after the other, as long as there is memory.
fn add_to_each<L: Ledger>(
    columns: &mut [ColumnIndex],
    tables: &Tables,
    master: usize,
    row: RowId,
    tuple: &Tuple,
    steps: &mut Steps<L>,
) -> Result<(), AllocError>
    requires wide { IsWideFor (map (λ index. index.list) columns.old) master (ids_of tuple.now) }
    requires in_step { All (IndexIsOver (in_tables tables.now.stores.items)) columns.old }
    ensures lists { map (λ index. index.list) columns.new ≡ map (λ index. index.list) columns.old }
    ensures ok { OnOk result (All (IndexIsOver (with_one (in_tables tables.now.stores.items) master row (ids_of tuple.now))) columns.new) }
    ensures err { OnErr result (All (IndexIsBetween (in_tables tables.now.stores.items) (with_one (in_tables tables.now.stores.items) master row (ids_of tuple.now))) columns.new) }
    ensures probes { steps.new ≤ steps.old + lists_of (map (λ index. index.list) columns.old) master }
{
    for index in columns.iter_mut() {
        index.add(tables, master, row, tuple, steps)?;
    }
    Ok(())
}

/// Takes the row away from the keys of the tuple that aren't those of its tuple in the tables.
pub(crate) fn take_from_each<L: Ledger>(
    columns: &mut [ColumnIndex],
    tables: &Tables,
    master: usize,
    row: RowId,
    tuple: &Tuple,
    steps: &mut Steps<L>,
)
    requires wide { IsWideFor (map (λ index. index.list) columns.old) master (ids_of tuple.now) }
    requires wide_left { ForSome (finite.get (rows_of_tables tables.now.stores.items) (master, row)) (IsWideFor (map (λ index. index.list) columns.old) master) }
    requires between { All (IndexIsBetween (in_tables tables.now.stores.items) (with_one (in_tables tables.now.stores.items) master row (ids_of tuple.now))) columns.old }
    ensures lists { map (λ index. index.list) columns.new ≡ map (λ index. index.list) columns.old }
    ensures in_step { All (IndexIsOver (in_tables tables.now.stores.items)) columns.new }
    ensures probes { steps.new ≤ steps.old + lists_of (map (λ index. index.list) columns.old) master }
{
    for index in columns.iter_mut() {
        index.remove(tables, master, row, tuple, steps);
    }
}

/// Puts the row under the keys of the tuple, beside what it has so far, or nowhere where memory was refused.
pub(crate) fn add_to_all<L: Ledger>(
    columns: &mut [ColumnIndex],
    tables: &Tables,
    master: usize,
    row: RowId,
    tuple: &Tuple,
    steps: &mut Steps<L>,
) -> Result<(), AllocError>
    requires wide { IsWideFor (map (λ index. index.list) columns.old) master (ids_of tuple.now) }
    requires wide_left { ForSome (finite.get (rows_of_tables tables.now.stores.items) (master, row)) (IsWideFor (map (λ index. index.list) columns.old) master) }
    requires in_step { All (IndexIsOver (in_tables tables.now.stores.items)) columns.old }
    ensures lists { map (λ index. index.list) columns.new ≡ map (λ index. index.list) columns.old }
    ensures ok { OnOk result (All (IndexIsOver (with_one (in_tables tables.now.stores.items) master row (ids_of tuple.now))) columns.new) }
    ensures err { OnErr result (All (IndexIsOver (in_tables tables.now.stores.items)) columns.new) }
    ensures probes { OnOk result (steps.new ≤ steps.old + lists_of (map (λ index. index.list) columns.old) master) }
    ensures probes_twice { steps.new ≤ steps.old + 2 * lists_of (map (λ index. index.list) columns.old) master }
{
    if add_to_each(columns, tables, master, row, tuple, steps).is_ok() {
        return Ok(());
    }
    take_from_each(columns, tables, master, row, tuple, steps);
    Err(AllocError)
}
