//! The walk over all rules, which puts each violation to a taker as a line.

ghost use Rattle.std.specs.Prelude.{◌≡◌, ◌+◌, ◌≤◌, All, OnOk};
ghost use Rattle.bench_core.specs.DirtyCounts.{cind_walk, dep_walk, list_probes};
ghost use Rattle.violation_report.specs.Listing.{cind_lines_at, dep_line, dep_lines_at, listing};
ghost use Rattle.violation_report.specs.RuleNumbers.{IsRuleOf, lines_at, number_at};
ghost use Rattle.violation_report.specs.Taking.{Takes};
ghost use Rattle.violation_report.specs.Text.{IsLineOf};

use crate::line::Line;
use crate::rules::{Rule, rule_at, rule_count};
use crate::taker::Taker;
use bench_core::BenchQueries;
use cfd_semantics::Violation;
use probe_steps::Steps;
use row_store::RowId;
use rule_model::RuleBook;
use std::alloc::AllocError;
use std::sync::ledger::Ledger;

/// Puts the lines of the whole list, in its order.
pub(crate) fn walk<T: Taker, L: Ledger>(
    bench: &BenchQueries<'_>,
    taker: &mut T,
    steps: &mut Steps<L>,
) -> Result<(), AllocError>
    ensures lines { OnOk result (Takes (T.Took bench.now.rules) taker.old (listing bench.now.rules bench.now.history.present) taker.new) }
    ensures probes { steps.new ≤ steps.old + list_probes bench.now.rules bench.now.history.present }
{
    for place in 0..rule_count(bench) {
        walk_rule(bench, rule_at(bench, place), taker, steps)?;
    }
    Ok(())
}

fn walk_rule<T: Taker, L: Ledger>(
    bench: &BenchQueries<'_>,
    rule: Rule,
    taker: &mut T,
    steps: &mut Steps<L>,
) -> Result<(), AllocError>
    requires { IsRuleOf bench.now.rules rule }
    ensures lines { OnOk result (Takes (T.Took bench.now.rules) taker.old (lines_at bench.now.rules bench.now.history.present rule) taker.new) }
    ensures probes { steps.new ≤ steps.old + number_at (dep_walk bench.now.history.present) (cind_walk bench.now.history.present) bench.now.rules rule }
{
    match rule {
        Rule::Dep(number) => {
            let found = bench.violations(number, steps)?;
            put_violations(bench.rules(), number, found.as_slice(), taker)
        }
        Rule::Cind(number) => {
            let found = bench.orphans(number, steps)?;
            put_orphans(bench.rules(), number, found.as_slice(), taker)
        }
    }
}

/// Puts a line for each of these violations of a numbered dependency.
pub(crate) fn put_violations<T: Taker>(
    rules: &RuleBook,
    dep: usize,
    found: &[(usize, Violation)],
    taker: &mut T,
) -> Result<(), AllocError>
    requires { All (IsLineOf rules.now) (dep_lines_at dep found.now) }
    ensures { OnOk result (Takes (T.Took rules.now) taker.old (dep_lines_at dep found.now) taker.new) }
{
    for (k, violation) in found {
        taker.put(rules, dep_line(dep, *k, violation))?;
    }
    Ok(())
}

/// A violation of a numbered dependency and tableau row as a line.
fn dep_line(dep: usize, k: usize, violation: &Violation) -> Line
    ensures { result ≡ dep_line (dep, (k, violation.now)) }
{
    let row = violation.row;
    match violation.partner {
        None => Line::Single { dep, k, row },
        Some(partner) => Line::Pair {
            dep,
            k,
            row,
            partner,
        },
    }
}

/// Puts a line for each of these orphans of a numbered inclusion.
pub(crate) fn put_orphans<T: Taker>(
    rules: &RuleBook,
    cind: usize,
    found: &[(usize, RowId)],
    taker: &mut T,
) -> Result<(), AllocError>
    requires { All (IsLineOf rules.now) (cind_lines_at cind found.now) }
    ensures { OnOk result (Takes (T.Took rules.now) taker.old (cind_lines_at cind found.now) taker.new) }
{
    for (k, row) in found {
        let line = Line::Orphan {
            cind,
            k: *k,
            row: *row,
        };
        taker.put(rules, line)?;
    }
    Ok(())
}
