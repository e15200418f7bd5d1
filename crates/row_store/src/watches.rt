//! Many watches at once: all of them take an edit, or none does.
ghost use Rattle.std.specs.Prelude.{◌+◌, ◌*◌, ◌≤◌, All, OnOk, OnErr, sum_by, take, drop, length};
ghost use Rattle.std.specs.List.{AllZip};
ghost use Rattle.std.specs.Option.{ForSome};
ghost use Rattle.row_store.specs.Tuple.{ids_of, ids_behind};
ghost use Rattle.row_store.specs.Watch.{IsWide};
ghost use Rattle.row_store.specs.Watches.{HoldsOfRow, HoldsOfBoth, HasAdded, HasRemoved, HoldsTheSame, probes_of};

use crate::store::{RowId, Tuple};
use crate::watch::Watch;
use probe_steps::Steps;
use std::alloc::AllocError;
use std::sync::ledger::Ledger;

fn add_where_needed<W: Watch, L: Ledger>(
    watch: &mut W,
    table: usize,
    row: RowId,
    old: Option<&Tuple>,
    new: &Tuple,
    steps: &mut Steps<L>,
) -> Result<(), AllocError>
    requires present { HoldsOfRow ⟦<W as Watch>⟧ table row (ids_behind old) watch.old }
    requires wide_old { ForSome (ids_behind old) (IsWide (W.attributes (W.made watch.old) table)) }
    requires wide_new { IsWide (W.attributes (W.made watch.old) table) (ids_of new.now) }
    ensures ok { OnOk result (HasAdded ⟦<W as Watch>⟧ table row (ids_of new.now) watch.old watch.new) }
    ensures err { OnErr result (HoldsTheSame ⟦<W as Watch>⟧ watch.old watch.new) }
    ensures probes { steps.new ≤ steps.old + probes_of ⟦<W as Watch>⟧ table watch.old }
{
    if watch.needs(table) {
        watch.add(table, row, old, new, steps)
    } else {
        Ok(())
    }
}

fn remove_where_needed<W: Watch, L: Ledger>(
    watch: &mut W,
    table: usize,
    row: RowId,
    old: &Tuple,
    new: Option<&Tuple>,
    steps: &mut Steps<L>,
)
    requires present { HoldsOfBoth ⟦<W as Watch>⟧ table row (ids_of old.now) (ids_behind new) watch.old }
    requires wide_old { IsWide (W.attributes (W.made watch.old) table) (ids_of old.now) }
    requires wide_new { ForSome (ids_behind new) (IsWide (W.attributes (W.made watch.old) table)) }
    ensures removed { HasRemoved ⟦<W as Watch>⟧ table row (ids_of old.now) (ids_behind new.entry) watch.old watch.new }
    ensures probes { steps.new ≤ steps.old + probes_of ⟦<W as Watch>⟧ table watch.old }
{
    if watch.needs(table) {
        watch.remove(table, row, old, new, steps);
    }
}

/// Takes away what the row gave with the old tuple and doesn't give with the new one, in each watch.
pub fn remove_from_all<W: Watch, L: Ledger>(
    watches: &mut [W],
    table: usize,
    row: RowId,
    old: &Tuple,
    new: Option<&Tuple>,
    steps: &mut Steps<L>,
)
    requires present { All (HoldsOfBoth ⟦<W as Watch>⟧ table row (ids_of old.now) (ids_behind new)) watches.old }
    requires wide_old { All (λ watch. IsWide (W.attributes (W.made watch) table) (ids_of old.now)) watches.old }
    requires wide_new { ForSome (ids_behind new) (λ ids. All (λ watch. IsWide (W.attributes (W.made watch) table) ids) watches.old) }
    ensures removed { AllZip (HasRemoved ⟦<W as Watch>⟧ table row (ids_of old.now) (ids_behind new.entry)) watches.old watches.new }
    ensures probes { steps.new ≤ steps.old + sum_by (probes_of ⟦<W as Watch>⟧ table) watches.old }
{
    for watch in watches.iter_mut() {
        remove_where_needed(watch, table, row, old, new, steps);
    }
}

// Adds in one watch after the other, as long as there is memory. Gives how many took the entries.
fn add_until_refused<W: Watch, L: Ledger>(
    watches: &mut [W],
    table: usize,
    row: RowId,
    old: Option<&Tuple>,
    new: &Tuple,
    steps: &mut Steps<L>,
) -> usize
    requires present { All (HoldsOfRow ⟦<W as Watch>⟧ table row (ids_behind old)) watches.old }
    requires wide_old { ForSome (ids_behind old) (λ ids. All (λ watch. IsWide (W.attributes (W.made watch) table) ids) watches.old) }
    requires wide_new { All (λ watch. IsWide (W.attributes (W.made watch) table) (ids_of new.now)) watches.old }
    ensures within { result ≤ length watches.old }
    ensures added { AllZip (HasAdded ⟦<W as Watch>⟧ table row (ids_of new.now)) (take result watches.old) (take result watches.new) }
    ensures others { AllZip (HoldsTheSame ⟦<W as Watch>⟧) (drop result watches.old) (drop result watches.new) }
    ensures probes { steps.new ≤ steps.old + sum_by (probes_of ⟦<W as Watch>⟧ table) watches.old }
{
    for (place, watch) in watches.iter_mut().enumerate() {
        if add_where_needed(watch, table, row, old, new, steps).is_err() {
            return place;
        }
    }
    watches.len()
}

/// Adds what the row gives with the new tuple in each watch, or in none of them where memory was refused.
pub fn add_to_all<W: Watch, L: Ledger>(
    watches: &mut [W],
    table: usize,
    row: RowId,
    old: Option<&Tuple>,
    new: &Tuple,
    steps: &mut Steps<L>,
) -> Result<(), AllocError>
    requires present { All (HoldsOfRow ⟦<W as Watch>⟧ table row (ids_behind old)) watches.old }
    requires wide_old { ForSome (ids_behind old) (λ ids. All (λ watch. IsWide (W.attributes (W.made watch) table) ids) watches.old) }
    requires wide_new { All (λ watch. IsWide (W.attributes (W.made watch) table) (ids_of new.now)) watches.old }
    ensures ok { OnOk result (AllZip (HasAdded ⟦<W as Watch>⟧ table row (ids_of new.now)) watches.old watches.new) }
    ensures err { OnErr result (AllZip (HoldsTheSame ⟦<W as Watch>⟧) watches.old watches.new) }
    ensures probes { OnOk result (steps.new ≤ steps.old + sum_by (probes_of ⟦<W as Watch>⟧ table) watches.old) }
    ensures probes_twice { steps.new ≤ steps.old + 2 * sum_by (probes_of ⟦<W as Watch>⟧ table) watches.old }
{
    let added = add_until_refused(watches, table, row, old, new, steps);
    if added == watches.len() {
        return Ok(());
    }
    let (front, _) = watches.split_at_mut(added);
    remove_from_all(front, table, row, new, old, steps);
    Err(AllocError)
}
