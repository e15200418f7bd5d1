//! The rows under all keys. Keys with an orphan for some row of the tableau are marked; each change of a key's rows looks at the
//! tableau again, and keeps the totals in step.
ghost use Rattle.std.specs.Prelude.{◌≡◌, ◌+◌, ◌<◌, ◌≤◌, ◌==◌, ℕ, List, Some, false, not, length, slice_get, IfOk, IfSome, IfNone, OnOk, OnErr};
ghost use Rattle.cfd_semantics.specs.declared.inclusion.InclusionRow.{InclusionRow};
ghost use Rattle.cind_index.specs.Entries.{is_entry};
ghost use Rattle.cind_index.specs.Totals.{AreTotals};
ghost use Rattle.cind_index.specs.KeysHeld.{held, AreMarkedRight, AreMarkedRightBut, HasKeyAt, HoldTheSame, HoldsMore, HoldsLess, KeepsKeys};

use crate::key_rows::KeyRows;
use crate::side::Side;
use crate::totals::{Change, Totals};
use cfd_semantics::InclusionRow;
use marked_map::MarkedMap;
use probe_steps::Steps;
use row_store::{Key, RowId};
use std::alloc::AllocError;
use std::sync::ledger::Ledger;
use value_pool::ValueId;

pub(crate) type Keys = MarkedMap<Key, KeyRows>;

/// Puts an entry in, in one probe. Gives the place of its key where the entry is new.
pub(crate) fn put_entry<L: Ledger>(
    keys: &mut Keys,
    totals: &mut Totals,
    tableau: &[InclusionRow<ValueId>],
    side: Side,
    key: Key,
    pattern: &[ValueId],
    row: RowId,
    steps: &mut Steps<L>,
) -> Result<Option<usize>, AllocError>
    requires marks { AreMarkedRight tableau.now keys.old }
    requires totals { AreTotals tableau.now keys.old totals.old }
    ensures marks { AreMarkedRight tableau.now keys.new }
    ensures totals { AreTotals tableau.now keys.new totals.new }
    ensures ok { OnOk result (HoldsMore side (is_entry key.items pattern.now row) keys.old keys.new) }
    ensures old { IfOk result (λ new. IfNone new (HoldTheSame keys.old keys.new)) }
    ensures new { IfOk result (λ new. IfSome new (λ place. HasKeyAt keys.new place key.items × (held keys.old side (record { key = key.items; pattern = pattern.now; row = row }) ≡ false))) }
    ensures err { OnErr result (HoldTheSame keys.old keys.new) }
    ensures places { OnErr result (KeepsKeys keys.old keys.new) }
    ensures probes { steps.new ≤ steps.old + 1 }
{
    let (place, new) = enter_entry(keys, totals, tableau, side, key, pattern, row, steps)?;
    let place = settle(keys, tableau, place);
    if new { Ok(Some(place)) } else { Ok(None) }
}

// Puts an entry in, and leaves the mark of its key as it is. Gives the key's place, and whether the entry is new.
fn enter_entry<L: Ledger>(
    keys: &mut Keys,
    totals: &mut Totals,
    tableau: &[InclusionRow<ValueId>],
    side: Side,
    key: Key,
    pattern: &[ValueId],
    row: RowId,
    steps: &mut Steps<L>,
) -> Result<(usize, bool), AllocError>
    requires { AreTotals tableau.now keys.old totals.old }
    ensures totals { AreTotals tableau.now keys.new totals.new }
    ensures ok { OnOk result (HoldsMore side (is_entry key.items pattern.now row) keys.old keys.new) }
    ensures key { IfOk result (λ entered. HasKeyAt keys.new entered.0 key.items) }
    ensures new { IfOk result (λ entered. held keys.old side (record { key = key.items; pattern = pattern.now; row = row }) ≡ not entered.1) }
    ensures others { IfOk result (λ entered. (tableau : List (InclusionRow ℕ)) → AreMarkedRight tableau keys.old → AreMarkedRightBut entered.0 tableau keys.new) }
    ensures err { OnErr result (HoldTheSame keys.old keys.new) }
    ensures places { OnErr result (KeepsKeys keys.old keys.new) }
    ensures marks { OnErr result ((tableau : List (InclusionRow ℕ)) → AreMarkedRight tableau keys.old → AreMarkedRight tableau keys.new) }
    ensures probes { steps.new ≤ steps.old + 1 }
{
    let alloc = *key.allocator();
    let fresh = KeyRows::with_row(alloc, side, pattern, row)?;
    let before = keys.len();
    let place = keys.enter(key, fresh, steps)?;
    if place == before {
        totals.change(Change::Comes, tableau, keys.value_at(place));
        return Ok((place, true));
    }
    totals.change(Change::Goes, tableau, keys.value_at(place));
    let added = keys.value_at_mut(place).put(alloc, side, pattern, row);
    totals.change(Change::Comes, tableau, keys.value_at(place));
    let new = added?;
    Ok((place, new))
}

/// Takes an entry away, in one probe.
pub(crate) fn take_entry<L: Ledger>(
    keys: &mut Keys,
    totals: &mut Totals,
    tableau: &[InclusionRow<ValueId>],
    side: Side,
    key: &Key,
    pattern: &[ValueId],
    row: RowId,
    steps: &mut Steps<L>,
)
    requires marks { AreMarkedRight tableau.now keys.old }
    requires totals { AreTotals tableau.now keys.old totals.old }
    ensures marks { AreMarkedRight tableau.now keys.new }
    ensures totals { AreTotals tableau.now keys.new totals.new }
    ensures left { HoldsLess side (is_entry key.now.items pattern.now row) keys.old keys.new }
    ensures probes { steps.new ≡ steps.old + 1 }
{
    if let Some(place) = keys.find(key, steps) {
        take_at(keys, totals, tableau, place, side, pattern, row);
    }
}

/// Takes an entry away from the key at a place, and the key too where it was its only one.
pub(crate) fn take_at(
    keys: &mut Keys,
    totals: &mut Totals,
    tableau: &[InclusionRow<ValueId>],
    place: usize,
    side: Side,
    pattern: &[ValueId],
    row: RowId,
)
    requires within { place < length keys.old.pairs }
    requires marks { AreMarkedRight tableau.now keys.old }
    requires totals { AreTotals tableau.now keys.old totals.old }
    ensures marks { AreMarkedRight tableau.now keys.new }
    ensures totals { AreTotals tableau.now keys.new totals.new }
    ensures left { (key : List ℕ) → HasKeyAt keys.old place key → HoldsLess side (is_entry key pattern.now row) keys.old keys.new }
{
    // The length is what says that no key stands twice.
    let _len = keys.len();
    totals.change(Change::Goes, tableau, keys.value_at(place));
    keys.value_at_mut(place).take(side, pattern, row);
    totals.change(Change::Comes, tableau, keys.value_at(place));
    if keys.value_at(place).is_empty() {
        keys.remove_at(place);
    } else {
        settle(keys, tableau, place);
    }
}

// Marks the key at a place exactly where it is dirty. Gives its new place.
fn settle(keys: &mut Keys, tableau: &[InclusionRow<ValueId>], place: usize) -> usize
    requires within { place < length keys.old.pairs }
    requires others { AreMarkedRightBut place tableau.now keys.old }
    ensures marks { AreMarkedRight tableau.now keys.new }
    ensures same { HoldTheSame keys.old keys.new }
    ensures pair { slice_get keys.new.pairs result ≡ slice_get keys.old.pairs place }
{
    // The length is what says that no key stands twice.
    let _len = keys.len();
    if keys.value_at(place).is_dirty(tableau) {
        keys.mark_at(place)
    } else {
        keys.unmark_at(place)
    }
}
