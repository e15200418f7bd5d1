//! The list of a bench.

ghost use Rattle.std.specs.Prelude.{◌≡◌, ◌↔◌, ◌++◌, ◌+◌, ◌≤◌, [], length, All, IfOk, OnOk};
ghost use Rattle.std.specs.List.{flat_map};
ghost use Rattle.violation_report.specs.Listing.{IsSatisfied, listing};
ghost use Rattle.bench_core.specs.DirtyCounts.{list_probes};
ghost use Rattle.violation_report.specs.Text.{IsLineOf, line_text};

use crate::line::Line;
use crate::taker::Texts;
use crate::walking::walk;
use bench_core::BenchQueries;
use probe_steps::Steps;
use schema_core::List;
use std::alloc::{AllocError, Global};
use std::sync::ledger::Ledger;

/// The violations of all dependencies in the order of the rules, then the orphans of all inclusion dependencies; of
/// one rule, by tableau row; of one tableau row, by row. The indexes of the bench are asked, and no table is gone over:
/// for each tableau row of a rule there is a probe for each dirty group or key, and none for rows that violate nothing.
pub fn list<L: Ledger>(
    alloc: Global,
    bench: &BenchQueries<'_>,
    steps: &mut Steps<L>,
) -> Result<List<Line>, AllocError>
    ensures list { IfOk result (λ lines. lines ≡ listing bench.now.rules bench.now.history.present) }
    ensures law { IfOk result (λ lines. lines ≡ [] ↔ IsSatisfied bench.now.rules bench.now.history.present) }
    ensures in_range { IfOk result (All (IsLineOf bench.now.rules)) }
    ensures probes { steps.new ≤ steps.old + list_probes bench.now.rules bench.now.history.present }
{
    let mut lines = List::new(alloc);
    walk(bench, &mut lines, steps)?;
    Ok(lines)
}

/// Appends the texts of the list, which isn't made, and tells how many lines it has: 0 exactly where all rules are
/// satisfied. Of one rule the violations are in memory together, and never those of two. A number beyond the last of its
/// type is told as want of memory. It takes as many probes as the list.
pub fn push_list<L: Ledger>(
    bench: &BenchQueries<'_>,
    out: &mut Vec<u8>,
    steps: &mut Steps<L>,
) -> Result<usize, AllocError>
    ensures text { OnOk result (out.new.items ≡ out.old.items ++ flat_map (line_text bench.now.rules) (listing bench.now.rules bench.now.history.present)) }
    ensures count { IfOk result (λ lines. lines ≡ length (listing bench.now.rules bench.now.history.present)) }
    ensures law { IfOk result (λ lines. lines ≡ 0 ↔ IsSatisfied bench.now.rules bench.now.history.present) }
    ensures probes { steps.new ≤ steps.old + list_probes bench.now.rules bench.now.history.present }
{
    let mut texts = Texts { out, lines: 0 };
    walk(bench, &mut texts, steps)?;
    Ok(texts.lines)
}
