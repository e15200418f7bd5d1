//! The texts of replies, each appended to a buffer.

ghost use Rattle.std.specs.Prelude.{◌≡◌, ◌++◌, ◌+◌, ◌≤◌, OnOk};
ghost use Rattle.bench_core.specs.DirtyCounts.{list_probes};
ghost use Rattle.violation_report.specs.Probes.{explain_probes};
ghost use Rattle.session.specs.Replies.{count_text, explain_text, list_text};

use bench_core::Bench;
use edit_replies::push_refused;
use probe_steps::Steps;
use row_store::RowId;
use schema_core::Text;
use std::alloc::{AllocError, Global};
use std::sync::ledger::Ledger;
use violation_report::{ExplainFault, count, explain, push_counted, push_lines};

/// Tells the list of the bench.
pub fn push_list<L: Ledger>(
    out: &mut Vec<u8>,
    bench: &Bench,
    steps: &mut Steps<L>,
) -> Result<(), AllocError>
    ensures text { OnOk result (out.new.items ≡ out.old.items ++ list_text bench.now.rules bench.now.history.present) }
    ensures probes { steps.new ≤ steps.old + list_probes bench.now.rules bench.now.history.present }
{
    let lines = violation_report::push_list(&bench.queries(), out, steps)?;
    push_counted(out, b"listed", lines)
}

/// Tells how many lines the list has.
pub fn push_count<L: Ledger>(
    out: &mut Vec<u8>,
    bench: &Bench,
    steps: &mut Steps<L>,
) -> Result<(), AllocError>
    ensures text { OnOk result (out.new.items ≡ out.old.items ++ count_text bench.now.rules bench.now.history.present) }
    ensures probes { steps.new ≤ steps.old + list_probes bench.now.rules bench.now.history.present }
{
    push_counted(out, b"count", count(&bench.queries(), steps)?)
}

/// Tells the lines of a row.
pub fn push_explained<L: Ledger>(
    alloc: Global,
    out: &mut Vec<u8>,
    bench: &Bench,
    table: &Text,
    row: RowId,
    steps: &mut Steps<L>,
) -> Result<(), AllocError>
    ensures text { OnOk result (out.new.items ≡ out.old.items ++ explain_text bench.now.rules bench.now.history.present table.now row) }
    ensures probes { steps.new ≤ steps.old + explain_probes bench.now.rules table.now }
{
    match explain(alloc, bench, table.as_str(), row, steps) {
        Ok(lines) => push_lines(bench.rules(), b"explained", lines.as_slice(), out),
        Err(ExplainFault::UnknownTable) => push_refused(out, b"UnknownTable"),
        Err(ExplainFault::UnknownRow) => push_refused(out, b"UnknownRow"),
        Err(ExplainFault::Memory) => Err(AllocError),
    }
}
