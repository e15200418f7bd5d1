//! The lists of one index, tableau row by tableau row, and how long they are.

ghost use Rattle.std.specs.Prelude.{◌≡◌, ◌+◌, ◌*◌, ◌++◌, ◌≤◌, length, map, IfOk, OnOk};
ghost use Rattle.group_index.specs.Answers.{IsSettled};
ghost use Rattle.bench_index.specs.Lists.{OfOrphans, OfViolations};

use cfd_semantics::Violation;
use cind_index::CindIndex;
use group_index::GroupIndex;
use probe_steps::Steps;
use row_store::RowId;
use schema_core::List;
use std::alloc::{AllocError, Global};
use std::sync::ledger::Ledger;

/// All violations of a dependency, each with the number of its tableau row.
pub(crate) fn all_violations<L: Ledger>(
    alloc: Global,
    group: &GroupIndex,
    steps: &mut Steps<L>,
) -> Result<List<(usize, Violation)>, AllocError>
    requires { IsSettled group.now }
    ensures list { IfOk result (λ found. OfViolations group.now (λ all. found ≡ all)) }
    ensures probes { steps.new ≤ steps.old + length group.now.made.dependency.rows * group.now.dirty }
{
    let mut all = List::new(alloc);
    for k in 0..group.tableau_rows() {
        let found = group.violating(k, steps)?;
        push_violations(&mut all, k, found.as_slice())?;
    }
    Ok(all)
}

fn push_violations(
    all: &mut List<(usize, Violation)>,
    k: usize,
    found: &[Violation],
) -> Result<(), AllocError>
    ensures { OnOk result (all.new ≡ all.old ++ map (λ violation. (k, violation)) found.now) }
{
    for violation in found {
        all.push((k, *violation))?;
    }
    Ok(())
}

/// How many violations a dependency has, without the lists of its tableau rows.
pub(crate) fn count_violations<L: Ledger>(
    group: &GroupIndex,
    steps: &mut Steps<L>,
) -> Result<usize, AllocError>
    requires { IsSettled group.now }
    ensures count { IfOk result (λ count. OfViolations group.now (λ all. count ≡ length all)) }
    ensures probes { steps.new ≤ steps.old + length group.now.made.dependency.rows * group.now.dirty }
{
    let mut count = 0usize;
    for k in 0..group.tableau_rows() {
        let more = group.violation_count(k, steps)?;
        count = sum_of(count, more)?;
    }
    Ok(count)
}

// No memory has room for a list whose length can't be told.
fn sum_of(count: usize, more: usize) -> Result<usize, AllocError>
    ensures { IfOk result (λ sum. sum ≡ count + more) }
{
    count.checked_add(more).ok_or(AllocError)
}

/// All orphans of an inclusion, each with the number of its tableau row.
pub(crate) fn all_orphans<L: Ledger>(
    alloc: Global,
    index: &CindIndex,
    steps: &mut Steps<L>,
) -> Result<List<(usize, RowId)>, AllocError>
    ensures list { IfOk result (λ found. OfOrphans index.now (λ all. found ≡ all)) }
    ensures probes { steps.new ≤ steps.old + length index.now.rule.rows * index.now.keys.marked }
{
    let mut all = List::new(alloc);
    for k in 0..index.tableau_rows() {
        let found = index.orphans(k, steps)?;
        push_orphans(&mut all, k, found.as_slice())?;
    }
    Ok(all)
}

fn push_orphans(all: &mut List<(usize, RowId)>, k: usize, found: &[RowId]) -> Result<(), AllocError>
    ensures { OnOk result (all.new ≡ all.old ++ map (λ row. (k, row)) found.now) }
{
    for row in found {
        all.push((k, *row))?;
    }
    Ok(())
}

/// How many orphans an inclusion has, without the lists of its tableau rows.
pub(crate) fn count_orphans<L: Ledger>(
    index: &CindIndex,
    steps: &mut Steps<L>,
) -> Result<usize, AllocError>
    ensures count { IfOk result (λ count. OfOrphans index.now (λ all. count ≡ length all)) }
    ensures probes { steps.new ≤ steps.old + length index.now.rule.rows * index.now.keys.marked }
{
    let mut count = 0usize;
    for k in 0..index.tableau_rows() {
        let more = index.orphan_count(k, steps)?;
        count = sum_of(count, more)?;
    }
    Ok(count)
}
