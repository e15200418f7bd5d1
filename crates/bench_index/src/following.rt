//! Watches of two kinds to which a row gives more, all of them or none, and from which what it gave is taken away.

ghost use Rattle.std.specs.Prelude.{◌+◌, ◌*◌, ◌≤◌, Some, All, OnOk, OnErr, sum_by};
ghost use Rattle.std.specs.Option.{ForSome};
ghost use Rattle.row_store.specs.Tuple.{ids_of, ids_behind};
ghost use Rattle.row_store.specs.Watches.{HoldsOfBoth, probes_of};
ghost use Rattle.bench_index.specs.InStep.{AreTheSame, AreWide, CanFollow, HaveAdded, HaveRemoved};

use probe_steps::Steps;
use row_store::{RowId, Tuple, Watch, add_to_all, remove_from_all};
use std::alloc::AllocError;
use std::sync::ledger::Ledger;

/// Adds what the row gives with the new tuple.
pub(crate) fn gain<G: Watch, C: Watch, L: Ledger>(
    groups: &mut [G],
    cinds: &mut [C],
    table: usize,
    row: RowId,
    old: Option<&Tuple>,
    new: &Tuple,
    steps: &mut Steps<L>,
) -> Result<(), AllocError>
    requires groups { CanFollow ⟦<G as Watch>⟧ table row (ids_behind old) (Some (ids_of new.now)) groups.old }
    requires cinds { CanFollow ⟦<C as Watch>⟧ table row (ids_behind old) (Some (ids_of new.now)) cinds.old }
    ensures groups { OnOk result (HaveAdded ⟦<G as Watch>⟧ table row (ids_of new.now) groups.old groups.new) }
    ensures cinds { OnOk result (HaveAdded ⟦<C as Watch>⟧ table row (ids_of new.now) cinds.old cinds.new) }
    ensures refused { OnErr result (AreTheSame ⟦<G as Watch>⟧ groups.old groups.new × AreTheSame ⟦<C as Watch>⟧ cinds.old cinds.new) }
    ensures probes { OnOk result (steps.new ≤ steps.old + (sum_by (probes_of ⟦<G as Watch>⟧ table) groups.old + sum_by (probes_of ⟦<C as Watch>⟧ table) cinds.old)) }
    ensures probes_twice { steps.new ≤ steps.old + 2 * (sum_by (probes_of ⟦<G as Watch>⟧ table) groups.old + sum_by (probes_of ⟦<C as Watch>⟧ table) cinds.old) }
{
    add_to_all(groups, table, row, old, new, steps)?;
    if let Err(refused) = add_to_all(cinds, table, row, old, new, steps) {
        remove_from_all(groups, table, row, new, old, steps);
        return Err(refused);
    }
    Ok(())
}

/// Takes away what the row gave with the old tuple and doesn't give with the new one. It takes no memory.
pub(crate) fn lose<G: Watch, C: Watch, L: Ledger>(
    groups: &mut [G],
    cinds: &mut [C],
    table: usize,
    row: RowId,
    old: &Tuple,
    new: Option<&Tuple>,
    steps: &mut Steps<L>,
)
    requires groups { All (HoldsOfBoth ⟦<G as Watch>⟧ table row (ids_of old.now) (ids_behind new)) groups.old }
    requires cinds { All (HoldsOfBoth ⟦<C as Watch>⟧ table row (ids_of old.now) (ids_behind new)) cinds.old }
    requires wide_old { AreWide ⟦<G as Watch>⟧ table (ids_of old.now) groups.old × AreWide ⟦<C as Watch>⟧ table (ids_of old.now) cinds.old }
    requires wide_new { ForSome (ids_behind new) (λ ids. AreWide ⟦<G as Watch>⟧ table ids groups.old × AreWide ⟦<C as Watch>⟧ table ids cinds.old) }
    ensures groups { HaveRemoved ⟦<G as Watch>⟧ table row (ids_of old.now) (ids_behind new.entry) groups.old groups.new }
    ensures cinds { HaveRemoved ⟦<C as Watch>⟧ table row (ids_of old.now) (ids_behind new.entry) cinds.old cinds.new }
    ensures probes { steps.new ≤ steps.old + (sum_by (probes_of ⟦<G as Watch>⟧ table) groups.old + sum_by (probes_of ⟦<C as Watch>⟧ table) cinds.old) }
{
    remove_from_all(groups, table, row, old, new, steps);
    remove_from_all(cinds, table, row, old, new, steps);
}
