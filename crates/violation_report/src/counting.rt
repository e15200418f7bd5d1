//! How long the list is.

ghost use Rattle.std.specs.Prelude.{◌≡◌, ◌↔◌, ◌+◌, ◌≤◌, IfOk, length};
ghost use Rattle.bench_core.specs.DirtyCounts.{cind_walk, dep_walk, list_probes};
ghost use Rattle.violation_report.specs.Listing.{IsSatisfied, listing};
ghost use Rattle.violation_report.specs.RuleNumbers.{IsRuleOf, lines_at, number_at};

use crate::rules::{Rule, rule_at, rule_count};
use bench_core::BenchQueries;
use probe_steps::Steps;
use std::alloc::AllocError;
use std::sync::ledger::Ledger;

/// The number of lines of the list, which isn't made: 0 exactly where all rules are satisfied. A number beyond the last of
/// its type is told as want of memory. It takes as many probes as the list at most, and none for a rule whose numbers are
/// kept.
pub fn count<L: Ledger>(bench: &BenchQueries<'_>, steps: &mut Steps<L>) -> Result<usize, AllocError>
    ensures count { IfOk result (λ lines. lines ≡ length (listing bench.now.rules bench.now.history.present)) }
    ensures law { IfOk result (λ lines. lines ≡ 0 ↔ IsSatisfied bench.now.rules bench.now.history.present) }
    ensures probes { steps.new ≤ steps.old + list_probes bench.now.rules bench.now.history.present }
{
    let mut count: usize = 0;
    for place in 0..rule_count(bench) {
        let more = count_of(bench, rule_at(bench, place), steps)?;
        count = sum_of(count, more)?;
    }
    Ok(count)
}

fn sum_of(one: usize, other: usize) -> Result<usize, AllocError>
    ensures { IfOk result (λ sum. sum ≡ one + other) }
{
    match one.checked_add(other) {
        Some(sum) => Ok(sum),
        None => Err(AllocError),
    }
}

fn count_of<L: Ledger>(
    bench: &BenchQueries<'_>,
    rule: Rule,
    steps: &mut Steps<L>,
) -> Result<usize, AllocError>
    requires { IsRuleOf bench.now.rules rule }
    ensures count { IfOk result (λ lines. lines ≡ length (lines_at bench.now.rules bench.now.history.present rule)) }
    ensures probes { steps.new ≤ steps.old + number_at (dep_walk bench.now.history.present) (cind_walk bench.now.history.present) bench.now.rules rule }
{
    match rule {
        Rule::Dep(number) => bench.violation_count(number, steps),
        Rule::Cind(number) => bench.orphan_count(number, steps),
    }
}
