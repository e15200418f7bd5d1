//! The violations of a tableau row, group by group.
ghost use Rattle.std.specs.Prelude.{◌≡◌, ◌+◌, ◌<◌, ◌≤◌, ◌++◌, ℕ, length, slice_get, filter_map, IfOk, OnOk};
ghost use Rattle.cfd_semantics.specs.declared.dependency.TableauRow.{TableauRow};
ghost use Rattle.cfd_semantics.specs.EntrySets.{HasOneARow};
ghost use Rattle.group_index.specs.Groups.{AreMarked, is_in};
ghost use Rattle.std.specs.Option.{option_to_list};
ghost use Rattle.group_index.specs.Leads.{AddsListed, AddsMatching, AreCollected, listed_by};
ghost use Rattle.group_index.specs.Pairs.{pairs_of};

use crate::group::Group;
use crate::groups::Groups;
use crate::index::{IdCell, IdRow};
use crate::key::matches_all;
use crate::leads::Leads;
use cfd_semantics::Violation;
use probe_steps::Steps;
use row_store::RowId;
use std::alloc::{AllocError, Global};
use std::collections::BTreeSet;
use std::sync::ledger::Ledger;
use value_pool::ValueId;

/// The violations of a tableau row, in any order. Each marked group counts as a probe, and no other is looked at.
pub(crate) fn collect<L: Ledger>(
    alloc: Global,
    groups: &Groups,
    rows: &[IdRow],
    k: usize,
    steps: &mut Steps<L>,
) -> Result<Vec<Violation>, AllocError>
    requires row { k < length rows.now }
    requires marks { AreMarked rows.now groups.now }
    requires settled { HasOneARow (λ e. e.row) (is_in groups.now.pairs) }
    ensures exactly { IfOk result (λ found. (t : TableauRow ℕ) → slice_get rows.now k ≡ Some t → AreCollected t groups.now found.items) }
    ensures probes { steps.new ≤ steps.old + groups.now.marked }
{
    // The length is what says that the keys are distinct.
    let _len = groups.len();
    let row = &rows[k];
    let mut found = Vec::new(alloc);
    for place in 0..groups.marked() {
        let (x, group) = groups.marked_at(place, steps);
        push_matching(&mut found, row, x.as_slice(), group)?;
    }
    Ok(found)
}

fn push_matching(
    found: &mut Vec<Violation>,
    row: &IdRow,
    x: &[ValueId],
    group: &Group,
) -> Result<(), AllocError>
    ensures { OnOk result (AddsMatching row.now x.now (pairs_of group.now) found.old.items found.new.items) }
{
    if matches_all(row.x.as_slice(), x) {
        push_violations(found, &row.a, group)
    } else {
        Ok(())
    }
}

// Adds what is listed of the rows of a group: a row by itself where its A id doesn't match the cell, and with its least
// partner where it has one.
fn push_violations(
    found: &mut Vec<Violation>,
    cell: &IdCell,
    group: &Group,
) -> Result<(), AllocError>
    ensures { OnOk result (AddsListed cell.now (pairs_of group.now) found.old.items found.new.items) }
{
    let leads = Leads::of(group, cell);
    match group {
        Group::One(a, row) => push_listed(found, cell, &leads, *a, *row),
        Group::Turning(turning) => push_among(found, cell, &leads, &turning.pairs()),
        Group::Few(few) => push_among(found, cell, &leads, few.as_slice()),
        Group::Many(pairs) => {
            // The length is what says that the pairs stand in order.
            let _len = pairs.len();
            push_all_listed(found, cell, &leads, pairs)
        }
    }
}

fn push_among(
    found: &mut Vec<Violation>,
    cell: &IdCell,
    leads: &Leads,
    pairs: &[(ValueId, RowId)],
) -> Result<(), AllocError>
    ensures { OnOk result (found.new.items ≡ found.old.items ++ filter_map (listed_by cell.now leads.now.first leads.now.second) pairs.now) }
{
    for pair in pairs {
        push_listed(found, cell, leads, pair.0, pair.1)?;
    }
    Ok(())
}

fn push_all_listed(
    found: &mut Vec<Violation>,
    cell: &IdCell,
    leads: &Leads,
    pairs: &BTreeSet<(ValueId, RowId)>,
) -> Result<(), AllocError>
    ensures { OnOk result (found.new.items ≡ found.old.items ++ filter_map (listed_by cell.now leads.now.first leads.now.second) pairs.now.keys) }
{
    for pair in pairs {
        push_listed(found, cell, leads, pair.0, pair.1)?;
    }
    Ok(())
}

fn push_listed(
    found: &mut Vec<Violation>,
    cell: &IdCell,
    leads: &Leads,
    a: ValueId,
    row: RowId,
) -> Result<(), AllocError>
    ensures { OnOk result (found.new.items ≡ found.old.items ++ option_to_list (listed_by cell.now leads.now.first leads.now.second (a, row))) }
{
    if let Some(violation) = listed(cell, leads, a, row) {
        found.push(violation)?;
    }
    Ok(())
}

/// What is listed of a row of a group.
pub(crate) fn listed(cell: &IdCell, leads: &Leads, a: ValueId, row: RowId) -> Option<Violation>
    ensures { result ≡ listed_by cell.now leads.now.first leads.now.second (a, row) }
{
    if !cell.matches(&a) {
        return Some(Violation { row, partner: None });
    }
    let partner = leads.partner_of(a)?;
    Some(Violation {
        row,
        partner: Some(partner),
    })
}
