//! A whole table joins. One index after the other takes all of its rows, so that each of them is at work by itself: that is
//! quicker than all indexes row by row, since what one index looks at lies closer together than what ten do.

ghost use Rattle.std.specs.Prelude.{◌≡◌, ◌+◌, ◌-◌, ◌*◌, ◌≤◌, ℕ, None, IsTrue, OnOk, sum_by};
ghost use Rattle.std.specs.FinMap as finite;
ghost use Rattle.std.specs.List.{AllZip};
ghost use Rattle.std.specs.Option.{ForSome};
ghost use Rattle.row_store.specs.Tuple.{ids_behind};
ghost use Rattle.row_store.specs.Watch.{IsWide};
ghost use Rattle.row_store.specs.Watches.{HoldsOfRow, probes_of};
ghost use Rattle.master_index.specs.Masters.{IsWideFor, lists_of};
ghost use Rattle.bench_index.specs.Loading.{CanLoad, HasGained, HasLoaded, HasNoRows, LoadedAsMaster};

use crate::masters::follow_as_master;
use master_index::MasterIndex;
use probe_steps::Steps;
use row_store::{RowId, RowStore, Tuple, Watch};
use std::alloc::AllocError;
use std::sync::ledger::Ledger;

// Adds what a row gives, if there is one.
fn add_row<W: Watch, L: Ledger>(
    watch: &mut W,
    table: usize,
    row: RowId,
    new: Option<&Tuple>,
    steps: &mut Steps<L>,
) -> Result<(), AllocError>
    requires none { HoldsOfRow ⟦<W as Watch>⟧ table row None watch.old }
    requires wide { ForSome (ids_behind new) (IsWide (W.attributes (W.made watch.old) table)) }
    ensures ok { OnOk result (HasGained ⟦<W as Watch>⟧ table row (ids_behind new.entry) watch.old watch.new) }
    ensures probes { steps.new ≤ steps.old + W.cost (W.made watch.old) }
{
    match new {
        None => Ok(()),
        Some(new) => watch.add(table, row, None, new, steps),
    }
}

// Adds what the rows give, by rising ids.
fn add_each<W: Watch, L: Ledger>(
    watch: &mut W,
    table: usize,
    store: &RowStore,
    steps: &mut Steps<L>,
) -> Result<(), AllocError>
    requires none { HasNoRows ⟦<W as Watch>⟧ table watch.old }
    requires wide { (row : ℕ) → ForSome (finite.get store.now.rows row) (IsWide (W.attributes (W.made watch.old) table)) }
    requires first { finite.get store.now.rows 0 ≡ None }
    ensures ok { OnOk result (HasLoaded ⟦<W as Watch>⟧ table (finite.get store.now.rows) watch.old watch.new) }
    ensures probes { OnOk result (steps.new ≤ steps.old + (store.now.next - 1) * W.cost (W.made watch.old)) }
{
    for row in 1..store.next_id() {
        add_row(watch, table, row, store.get(row), steps)?;
    }
    Ok(())
}

// The same for a table whose rows may give nothing.
fn add_table<W: Watch, L: Ledger>(
    watch: &mut W,
    table: usize,
    store: &RowStore,
    steps: &mut Steps<L>,
) -> Result<(), AllocError>
    requires none { HasNoRows ⟦<W as Watch>⟧ table watch.old }
    requires wide { (row : ℕ) → ForSome (finite.get store.now.rows row) (IsWide (W.attributes (W.made watch.old) table)) }
    requires first { finite.get store.now.rows 0 ≡ None }
    ensures ok { OnOk result (HasLoaded ⟦<W as Watch>⟧ table (finite.get store.now.rows) watch.old watch.new) }
    ensures probes { OnOk result (steps.new ≤ steps.old + (store.now.next - 1) * probes_of ⟦<W as Watch>⟧ table watch.old) }
{
    if watch.needs(table) {
        add_each(watch, table, store, steps)
    } else {
        Ok(())
    }
}

// Adds what the rows of a table give, in one watch after the other.
fn add_table_to_all<W: Watch, L: Ledger>(
    watches: &mut [W],
    table: usize,
    store: &RowStore,
    steps: &mut Steps<L>,
) -> Result<(), AllocError>
    requires can { CanLoad ⟦<W as Watch>⟧ table (finite.get store.now.rows) watches.old }
    requires first { finite.get store.now.rows 0 ≡ None }
    ensures ok { OnOk result (AllZip (HasLoaded ⟦<W as Watch>⟧ table (finite.get store.now.rows)) watches.old watches.new) }
    ensures probes { OnOk result (steps.new ≤ steps.old + (store.now.next - 1) * sum_by (probes_of ⟦<W as Watch>⟧ table) watches.old) }
{
    for watch in watches.iter_mut() {
        add_table(watch, table, store, steps)?;
    }
    Ok(())
}

// The rows join those of master tables, if their table is one.
fn add_master_rows<L: Ledger>(
    masters: &mut MasterIndex,
    is_master: bool,
    table: usize,
    store: &RowStore,
    steps: &mut Steps<L>,
) -> Result<(), AllocError>
    requires none { IsTrue is_master → (row : ℕ) → finite.get masters.old.rows (table, row) ≡ None }
    requires wide { (row : ℕ) → ForSome (finite.get store.now.rows row) (IsWideFor masters.old.lists table) }
    requires first { finite.get store.now.rows 0 ≡ None }
    ensures ok { OnOk result (LoadedAsMaster is_master table (finite.get store.now.rows) masters.old masters.new) }
    ensures probes { OnOk result (steps.new ≤ steps.old + (store.now.next - 1) * (2 * lists_of masters.old.lists table)) }
{
    for row in 1..store.next_id() {
        follow_as_master(masters, is_master, table, row, None, store.get(row), steps)?;
    }
    Ok(())
}

/// The rows of a table of which there were none so far join all indexes and, where the table is one, the master tables.
pub(crate) fn load<G: Watch, C: Watch, L: Ledger>(
    groups: &mut [G],
    cinds: &mut [C],
    masters: &mut MasterIndex,
    is_master: bool,
    table: usize,
    store: &RowStore,
    steps: &mut Steps<L>,
) -> Result<(), AllocError>
    requires groups { CanLoad ⟦<G as Watch>⟧ table (finite.get store.now.rows) groups.old }
    requires cinds { CanLoad ⟦<C as Watch>⟧ table (finite.get store.now.rows) cinds.old }
    requires none { IsTrue is_master → (row : ℕ) → finite.get masters.old.rows (table, row) ≡ None }
    requires wide { (row : ℕ) → ForSome (finite.get store.now.rows row) (IsWideFor masters.old.lists table) }
    requires first { finite.get store.now.rows 0 ≡ None }
    ensures groups { OnOk result (AllZip (HasLoaded ⟦<G as Watch>⟧ table (finite.get store.now.rows)) groups.old groups.new) }
    ensures cinds { OnOk result (AllZip (HasLoaded ⟦<C as Watch>⟧ table (finite.get store.now.rows)) cinds.old cinds.new) }
    ensures masters { OnOk result (LoadedAsMaster is_master table (finite.get store.now.rows) masters.old masters.new) }
    ensures probes { OnOk result (steps.new ≤ steps.old + (store.now.next - 1) * (2 * (sum_by (probes_of ⟦<G as Watch>⟧ table) groups.old + sum_by (probes_of ⟦<C as Watch>⟧ table) cinds.old + lists_of masters.old.lists table))) }
{
    add_table_to_all(groups, table, store, steps)?;
    add_table_to_all(cinds, table, store, steps)?;
    add_master_rows(masters, is_master, table, store, steps)
}
