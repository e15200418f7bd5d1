//! The groups by their keys, with the dirty ones marked. While a lone row is turning from one A id to another, no mark is put or
//! taken, since it tells only once the row has one again.
ghost use Rattle.std.specs.Prelude.{◌≡◌, ◌+◌, ◌<◌, ◌≤◌, ℕ, List, length, OnOk, OnErr};
ghost use Rattle.std.specs.List.Sorted.{IsPermutation};
ghost use Rattle.group_index.specs.Totals.{AreTotals, HasExtentAt};
ghost use Rattle.group_index.specs.Groups.{AreMarked, AreMarkedBut, IsMarkedBy, HasKeyAt, IsEntered, IsLeft, HoldTheSame, IsPartnerIn};

use crate::group::Group;
use crate::index::IdRow;
use crate::key::matches_all;
use crate::leads::Leads;
use crate::spread::Spread;
use crate::tableau::Tableau;
use crate::totals::{Change, Extent, Totals};
use marked_map::MarkedMap;
use probe_steps::Steps;
use row_store::{Key, RowId};
use std::alloc::{AllocError, Global};
use std::sync::ledger::Ledger;
use value_pool::ValueId;

pub(crate) type Groups = MarkedMap<Key, Group>;

/// Puts a row into the group of its key, in one probe.
pub(crate) fn put_entry<L: Ledger>(
    groups: &mut Groups,
    totals: &mut Totals,
    rows: &Tableau,
    key: Key,
    a: ValueId,
    row: RowId,
    steps: &mut Steps<L>,
) -> Result<(), AllocError>
    requires marks { AreMarked rows.now groups.old }
    requires totals { AreTotals rows.now groups.old.pairs totals.old.counts }
    ensures marks { AreMarked rows.now groups.new }
    ensures totals { AreTotals rows.now groups.new.pairs totals.new.counts }
    ensures ok { OnOk result (IsEntered groups.old groups.new (record { x = key.items; a = a; row = row })) }
    ensures err { OnErr result (HoldTheSame groups.old groups.new) }
    ensures probes { steps.new ≡ steps.old + 1 }
{
    let alloc = *key.allocator();
    let before = groups.len();
    let place = groups.enter(key, Group::One(a, row), steps)?;
    if place == before {
        let change = Change {
            a,
            before: Extent::nothing(),
            after: extent_at(groups, place),
        };
        totals.follow(rows.as_slice(), groups.key_at(place).as_slice(), change);
        settle(groups, rows, place);
        return Ok(());
    }
    put_at(groups, totals, rows, place, alloc, a, row)
}

// Puts a row into the group at a place.
fn put_at(
    groups: &mut Groups,
    totals: &mut Totals,
    rows: &Tableau,
    place: usize,
    alloc: Global,
    a: ValueId,
    row: RowId,
) -> Result<(), AllocError>
    requires within { place < length groups.old.pairs }
    requires marks { AreMarked rows.now groups.old }
    requires totals { AreTotals rows.now groups.old.pairs totals.old.counts }
    ensures marks { AreMarked rows.now groups.new }
    ensures totals { AreTotals rows.now groups.new.pairs totals.new.counts }
    ensures ok { OnOk result ((x : List ℕ) → HasKeyAt groups.old place x → IsEntered groups.old groups.new (record { x = x; a = a; row = row })) }
    ensures err { OnErr result (HoldTheSame groups.old groups.new) }
{
    let before = extent_at(groups, place);
    let put = groups.value_at_mut(place).put(alloc, a, row);
    let after = extent_at(groups, place);
    totals.follow(
        rows.as_slice(),
        groups.key_at(place).as_slice(),
        Change { a, before, after },
    );
    settle_again(groups, rows, place, before, after);
    put
}

/// Takes a row away from the group of its key, in one probe and without memory.
pub(crate) fn take_entry<L: Ledger>(
    groups: &mut Groups,
    totals: &mut Totals,
    rows: &Tableau,
    key: &Key,
    a: ValueId,
    row: RowId,
    steps: &mut Steps<L>,
)
    requires marks { AreMarked rows.now groups.old }
    requires totals { AreTotals rows.now groups.old.pairs totals.old.counts }
    ensures marks { AreMarked rows.now groups.new }
    ensures totals { AreTotals rows.now groups.new.pairs totals.new.counts }
    ensures left { IsLeft groups.old groups.new (record { x = key.now.items; a = a; row = row }) }
    ensures probes { steps.new ≡ steps.old + 1 }
{
    if let Some(place) = groups.find(key, steps) {
        let before = extent_at(groups, place);
        // The number of marked groups is what says that there are so many.
        let _marked = groups.marked();
        if groups.value_at_mut(place).take(a, row) {
            groups.remove_at(place);
            let after = Extent::nothing();
            totals.follow(rows.as_slice(), key.as_slice(), Change { a, before, after });
        } else {
            let after = extent_at(groups, place);
            totals.follow(rows.as_slice(), key.as_slice(), Change { a, before, after });
            settle_again(groups, rows, place, before, after);
        }
    }
}

/// The least row with which an entry makes a pair violation of a tableau row, in one probe.
pub(crate) fn least_partner<L: Ledger>(
    groups: &Groups,
    row: &IdRow,
    key: &Key,
    a: ValueId,
    steps: &mut Steps<L>,
) -> Option<RowId>
    ensures partner { IsPartnerIn groups.now row.now key.now.items a result }
    ensures probes { steps.new ≤ steps.old + 1 }
{
    if !matches_all(row.x.as_slice(), key.as_slice()) {
        return None;
    }
    if !row.a.matches(&a) {
        return None;
    }
    let place = groups.find(key, steps)?;
    Leads::of(groups.value_at(place), &row.a).partner_of(a)
}

// What the totals go by of the group at the place.
fn extent_at(groups: &Groups, place: usize) -> Extent
    requires { place < length groups.now.pairs }
    ensures { HasExtentAt groups.now.pairs place result }
{
    Extent::of(groups.value_at(place))
}

// Marks the group at the place where it is dirty, and takes its mark off where it isn't.
fn settle(groups: &mut Groups, rows: &Tableau, place: usize)
    requires within { place < length groups.old.pairs }
    requires others { AreMarkedBut rows.now groups.old place }
    ensures marks { AreMarked rows.now groups.new }
    ensures same { HoldTheSame groups.old groups.new }
    ensures moved { IsPermutation groups.old.pairs groups.new.pairs }
{
    let spread = Spread::of(groups.value_at(place));
    if spread.is_dirty(rows, groups.key_at(place).as_slice()) {
        groups.mark_at(place);
    } else {
        groups.unmark_at(place);
    }
}

// The same for a group that was marked rightly as long as its A ids were spread like that: no tableau row is looked at where
// they still are, nor while a row is turning.
fn settle_again(groups: &mut Groups, rows: &Tableau, place: usize, before: Extent, after: Extent)
    requires within { place < length groups.old.pairs }
    requires others { AreMarkedBut rows.now groups.old place }
    requires mark { IsMarkedBy rows.now groups.old place before.spread }
    requires extent { HasExtentAt groups.old.pairs place after }
    ensures marks { AreMarked rows.now groups.new }
    ensures same { HoldTheSame groups.old groups.new }
    ensures moved { IsPermutation groups.old.pairs groups.new.pairs }
{
    if after.spread.is_both() {
        return;
    }
    if after.spread != before.spread {
        settle(groups, rows, place);
    }
}
