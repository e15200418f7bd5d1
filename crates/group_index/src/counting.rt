//! How many violations a tableau row has, group by group and without a list of them: for rows of which no total is kept.
//! Where the right cell is `_`, all rows of a group have partners or none has, so that a group is counted whole; where it is a
//! constant, only the rows with another A id are gone over; where it is a set, all rows are.
ghost use Rattle.std.specs.Prelude.{◌≡◌, ◌≢◌, ◌+◌, ◌<◌, ◌≤◌, ℕ, if◌then◌else◌, is_some, length, count_by, slice_get, AllPairs, IfOk};
ghost use Rattle.cfd_semantics.specs.declared.dependency.TableauRow.{TableauRow};
ghost use Rattle.cfd_semantics.specs.EntrySets.{HasOneARow};
ghost use Rattle.group_index.specs.Groups.{AreMarked, is_in};
ghost use Rattle.group_index.specs.Leads.{AreSoMany, CountsListed, CountsMatching, listed_by};
ghost use Rattle.group_index.specs.Pairs.{pairs_of, is_mixed};

use crate::group::Group;
use crate::groups::Groups;
use crate::index::{IdCell, IdRow};
use crate::key::matches_all;
use crate::leads::Leads;
use crate::spread::Spread;
use crate::violations::listed;
use cfd_semantics::Pattern;
use probe_steps::Steps;
use row_store::RowId;
use std::alloc::AllocError;
use std::collections::BTreeSet;
use std::sync::ledger::Ledger;
use value_pool::ValueId;

/// How many violations a tableau row has. Each marked group counts as a probe, and no other is looked at. A number beyond the
/// last of its type is told as want of memory.
pub(crate) fn count<L: Ledger>(
    groups: &Groups,
    rows: &[IdRow],
    k: usize,
    steps: &mut Steps<L>,
) -> Result<usize, AllocError>
    requires row { k < length rows.now }
    requires marks { AreMarked rows.now groups.now }
    requires settled { HasOneARow (λ e. e.row) (is_in groups.now.pairs) }
    ensures count { IfOk result (λ count. (t : TableauRow ℕ) → slice_get rows.now k ≡ Some t → AreSoMany t groups.now count) }
    ensures probes { steps.new ≤ steps.old + groups.now.marked }
{
    // The length is what says that the keys are distinct.
    let _len = groups.len();
    let row = &rows[k];
    let mut count: usize = 0;
    for place in 0..groups.marked() {
        let (x, group) = groups.marked_at(place, steps);
        count = sum_of(count, count_matching(row, x.as_slice(), group))?;
    }
    Ok(count)
}

// No memory has room for a list whose length can't be told.
fn sum_of(count: usize, more: usize) -> Result<usize, AllocError>
    ensures { IfOk result (λ sum. sum ≡ count + more) }
{
    count.checked_add(more).ok_or(AllocError)
}

fn count_matching(row: &IdRow, x: &[ValueId], group: &Group) -> usize
    ensures { CountsMatching row.now x.now (pairs_of group.now) result }
{
    if matches_all(row.x.as_slice(), x) {
        count_listed(&row.a, group)
    } else {
        0
    }
}

// How many rows of a group are listed: those whose A id doesn't match the cell, and those that have a partner.
fn count_listed(cell: &IdCell, group: &Group) -> usize
    ensures once { AllPairs (λ p q. p ≢ q) (pairs_of group.now) }
    ensures count { CountsListed cell.now (pairs_of group.now) result }
{
    // The length is what says that no pair stands twice.
    let _len = group.len();
    match cell {
        Pattern::Any => count_mixed(group),
        Pattern::Is(constant) => group.count_others(*constant),
        Pattern::In(_) | Pattern::NotIn(_) => count_each(cell, group),
    }
}

// All rows of a group with two A ids have a partner, and no row of a group with one has.
fn count_mixed(group: &Group) -> usize
    ensures { result ≡ (if is_mixed (pairs_of group.now) then length (pairs_of group.now) else 0) }
{
    if Spread::of(group).is_mixed() {
        group.len()
    } else {
        0
    }
}

// Looks at each row.
fn count_each(cell: &IdCell, group: &Group) -> usize
    ensures { CountsListed cell.now (pairs_of group.now) result }
{
    let leads = Leads::of(group, cell);
    match group {
        Group::One(a, row) => {
            if listed(cell, &leads, *a, *row).is_some() {
                1
            } else {
                0
            }
        }
        Group::Turning(turning) => count_each_among(cell, &leads, &turning.pairs()),
        Group::Few(few) => count_each_among(cell, &leads, few.as_slice()),
        Group::Many(pairs) => count_each_of(cell, &leads, pairs),
    }
}

fn count_each_among(cell: &IdCell, leads: &Leads, pairs: &[(ValueId, RowId)]) -> usize
    ensures { result ≡ count_by (λ p. is_some (listed_by cell.now leads.now.first leads.now.second p)) pairs.now }
{
    pairs
        .iter()
        .filter(|pair| listed(cell, leads, pair.0, pair.1).is_some())
        .count()
}

fn count_each_of(cell: &IdCell, leads: &Leads, pairs: &BTreeSet<(ValueId, RowId)>) -> usize
    ensures { result ≡ count_by (λ p. is_some (listed_by cell.now leads.now.first leads.now.second p)) pairs.now.keys }
{
    pairs
        .iter()
        .filter(|pair| listed(cell, leads, pair.0, pair.1).is_some())
        .count()
}
