//! All rules of a bench.

ghost use Rattle.std.specs.Prelude.{◌+◌, ◌<◌, ◌≤◌, IfOk, length, slice_get, sum_by};
ghost use Rattle.std.specs.List.{AllZip};
ghost use Rattle.std.specs.Option.{ForSome};
ghost use Rattle.rule_model.specs.Books.{book_cinds, book_deps};
ghost use Rattle.bench_core.specs.DirtyCounts.{cind_walk, cind_walk_at, dep_walk, dep_walk_at, list_probes};
ghost use Rattle.violation_groups.specs.Groups.{AreFindings, AreGroups, AreMissing, HaveAllLines};
ghost use Rattle.violation_groups.specs.Listed.{cind_listed, dep_listed};

use crate::dep_groups::groups_of;
use crate::groups::{Findings, Group, Missing};
use crate::listed::{listed_orphans, listed_rows};
use crate::missing_keys::missing_of;
use bench_core::Bench;
use probe_steps::Steps;
use std::alloc::{AllocError, Global};
use std::sync::ledger::Ledger;
use text_lists::List;

/// The violations of all rules, in groups. The list is asked for rule by rule; the values of a row are looked up once
/// for each line that it has.
pub fn findings<L: Ledger>(
    alloc: Global,
    bench: &Bench,
    steps: &mut Steps<L>,
) -> Result<Findings, AllocError>
    ensures found { IfOk result (AreFindings bench.now.rules bench.now.history.present) }
    ensures law { IfOk result (HaveAllLines bench.now.rules bench.now.history.present) }
    ensures probes { steps.new ≤ steps.old + list_probes bench.now.rules bench.now.history.present }
{
    // The rules are what says that each table that they name is there.
    let _deps = bench.rules().deps();
    let deps = all_groups(alloc, bench, steps)?;
    let cinds = all_missing(alloc, bench, steps)?;
    Ok(Findings { deps, cinds })
}

fn all_groups<L: Ledger>(
    alloc: Global,
    bench: &Bench,
    steps: &mut Steps<L>,
) -> Result<List<List<Group>>, AllocError>
    ensures groups { IfOk result (AllZip (λ dep groups. AreGroups (dep_listed bench.now.history.present dep) groups) (book_deps bench.now.rules)) }
    ensures probes { steps.new ≤ steps.old + sum_by (dep_walk bench.now.history.present) (book_deps bench.now.rules) }
{
    let mut all = List::new(alloc);
    for number in 0..bench.queries().dep_count() {
        let groups = groups_at(alloc, bench, number, steps)?;
        all.push(groups)?;
    }
    Ok(all)
}

/// The groups of a numbered dependency.
fn groups_at<L: Ledger>(
    alloc: Global,
    bench: &Bench,
    number: usize,
    steps: &mut Steps<L>,
) -> Result<List<Group>, AllocError>
    requires { number < length (book_deps bench.now.rules) }
    ensures groups { IfOk result (λ groups. ForSome (slice_get (book_deps bench.now.rules) number) (λ dep. AreGroups (dep_listed bench.now.history.present dep) groups)) }
    ensures probes { steps.new ≤ steps.old + dep_walk_at bench.now.rules bench.now.history.present number }
{
    let found = bench.queries().violations(number, steps)?;
    let dep = &bench.rules().deps().as_slice()[number];
    let rows = listed_rows(alloc, bench, dep, found.as_slice())?;
    groups_of(alloc, bench.pool(), rows)
}

fn all_missing<L: Ledger>(
    alloc: Global,
    bench: &Bench,
    steps: &mut Steps<L>,
) -> Result<List<List<Missing>>, AllocError>
    ensures missing { IfOk result (AllZip (λ cind missing. AreMissing (cind_listed bench.now.history.present cind) missing) (book_cinds bench.now.rules)) }
    ensures probes { steps.new ≤ steps.old + sum_by (cind_walk bench.now.history.present) (book_cinds bench.now.rules) }
{
    let mut all = List::new(alloc);
    for number in 0..bench.queries().cind_count() {
        let missing = missing_at(alloc, bench, number, steps)?;
        all.push(missing)?;
    }
    Ok(all)
}

/// The missing keys of a numbered inclusion.
fn missing_at<L: Ledger>(
    alloc: Global,
    bench: &Bench,
    number: usize,
    steps: &mut Steps<L>,
) -> Result<List<Missing>, AllocError>
    requires { number < length (book_cinds bench.now.rules) }
    ensures missing { IfOk result (λ missing. ForSome (slice_get (book_cinds bench.now.rules) number) (λ cind. AreMissing (cind_listed bench.now.history.present cind) missing)) }
    ensures probes { steps.new ≤ steps.old + cind_walk_at bench.now.rules bench.now.history.present number }
{
    let found = bench.queries().orphans(number, steps)?;
    let cind = &bench.rules().cinds().as_slice()[number];
    let rows = listed_orphans(alloc, bench, cind, found.as_slice())?;
    missing_of(alloc, bench.pool(), rows)
}
