//! The lines of the list that a row has.

ghost use Rattle.std.specs.Prelude.{◌≡◌, ◌++◌, ◌+◌, ◌<◌, ◌≤◌, true, length, filter, All, IfOk, OnOk};
ghost use Rattle.line_grammar.specs.Faults.{IsUnlessMemory};
ghost use Rattle.violation_report.specs.Explained.{cind_is_of, dep_is_of, explain_tells, explained, explanation, has_row, is_about};
ghost use Rattle.violation_report.specs.Probes.{cind_rows_of, dep_rows_of, explain_probes, row_probes};
ghost use Rattle.violation_report.specs.RuleNumbers.{IsRuleOf, is_of, lines_at, number_at};
ghost use Rattle.violation_report.specs.Text.{IsLineOf};
ghost use Rattle.violation_report.specs.declared.explaining.ExplainFault.TheVariants as explain_fault;

use crate::line::Line;
use crate::rules::{Rule, rule_at, rule_count};
use crate::walking::{put_orphans, put_violations};
use bench_core::{Bench, BenchQueries};
use probe_steps::Steps;
use row_store::RowId;
use schema_core::List;
use std::alloc::{AllocError, Global};
use std::sync::ledger::Ledger;

/// Why a row isn't explained. The variants stand in the order in which they are tested.
#[derive(Clone, Copy, PartialEq, Eq, Drop)]
pub enum ExplainFault {
    /// There is no such table.
    UnknownTable,
    /// The table has no such row.
    UnknownRow,
    Memory,
}

impl From<AllocError> for ExplainFault {
    ghost use Rattle.std.specs.Prelude.{◌≡◌};

    ghost from_gives = { λ _ e. e ≡ explain_fault.Memory };

    fn from(_e: AllocError) -> ExplainFault {
        ExplainFault::Memory
    }
}

/// The lines of the list that a row of a table has, in the list's order. A line that only names the row as a
/// partner is not among them.
///
/// Cost: the list isn't made. Each rule is looked at, and for each tableau row of a rule of the table (of an inclusion
/// that has it on the left) an index is probed at most once, however many rows and violations there are.
pub fn explain<L: Ledger>(
    alloc: Global,
    bench: &Bench,
    table: &str,
    row: RowId,
    steps: &mut Steps<L>,
) -> Result<List<Line>, ExplainFault>
    ensures lines { IsUnlessMemory explain_tells (explanation bench.now.rules bench.now.history.present table.now row) result }
    ensures in_range { IfOk result (All (IsLineOf bench.now.rules)) }
    ensures probes { steps.new ≤ steps.old + explain_probes bench.now.rules table.now }
{
    let Some(number) = bench.rules().schema().table_named(table) else {
        return Err(ExplainFault::UnknownTable);
    };
    if !has_row(bench, number, row) {
        return Err(ExplainFault::UnknownRow);
    }
    Ok(lines_of(alloc, &bench.queries(), number, row, steps)?)
}

fn has_row(bench: &Bench, table: usize, row: RowId) -> bool
    requires { table < length bench.now.history.present }
    ensures { result ≡ has_row bench.now.history.present table row }
{
    bench.store(table).get(row).is_some()
}

/// The lines of a row that is there.
fn lines_of<L: Ledger>(
    alloc: Global,
    bench: &BenchQueries<'_>,
    table: usize,
    row: RowId,
    steps: &mut Steps<L>,
) -> Result<List<Line>, AllocError>
    requires { has_row bench.now.history.present table row ≡ true }
    ensures lines { IfOk result (λ lines. lines ≡ explained bench.now.rules bench.now.history.present table row) }
    ensures in_range { IfOk result (All (IsLineOf bench.now.rules)) }
    ensures probes { steps.new ≤ steps.old + row_probes bench.now.rules table }
{
    let mut lines = List::new(alloc);
    for place in 0..rule_count(bench) {
        explain_rule(bench, table, rule_at(bench, place), row, &mut lines, steps)?;
    }
    Ok(lines)
}

/// Appends the lines about the row that a rule has: none where it is of another table, as an inclusion is that has another one
/// on its left.
fn explain_rule<L: Ledger>(
    bench: &BenchQueries<'_>,
    table: usize,
    rule: Rule,
    row: RowId,
    lines: &mut List<Line>,
    steps: &mut Steps<L>,
) -> Result<(), AllocError>
    requires rule { IsRuleOf bench.now.rules rule }
    requires there { has_row bench.now.history.present table row ≡ true }
    ensures lines { OnOk result (lines.new ≡ lines.old ++ filter (is_about bench.now.rules table row) (lines_at bench.now.rules bench.now.history.present rule)) }
    ensures probes { steps.new ≤ steps.old + number_at (dep_rows_of table) (cind_rows_of table) bench.now.rules rule }
{
    if !is_of(bench, table, rule) {
        return Ok(());
    }
    match rule {
        Rule::Dep(number) => {
            let found = bench.violations_of_row(number, row, steps)?;
            put_violations(bench.rules(), number, found.as_slice(), lines)
        }
        Rule::Cind(number) => {
            let found = bench.orphans_of_row(number, row, steps)?;
            put_orphans(bench.rules(), number, found.as_slice(), lines)
        }
    }
}

fn is_of(bench: &BenchQueries<'_>, table: usize, rule: Rule) -> bool
    ensures { result ≡ is_of bench.now.rules table rule }
{
    match rule {
        Rule::Dep(number) => dep_is_of(bench, table, number),
        Rule::Cind(number) => cind_is_of(bench, table, number),
    }
}

fn dep_is_of(bench: &BenchQueries<'_>, table: usize, dep: usize) -> bool
    ensures { result ≡ dep_is_of bench.now.rules table dep }
{
    match bench.rules().deps().as_slice().get(dep) {
        Some(dep) => dep.table == table,
        None => false,
    }
}

fn cind_is_of(bench: &BenchQueries<'_>, table: usize, cind: usize) -> bool
    ensures { result ≡ cind_is_of bench.now.rules table cind }
{
    match bench.rules().cinds().as_slice().get(cind) {
        Some(cind) => cind.left == table,
        None => false,
    }
}
