//! A drawn project with its edits, and what is told of it.

ghost use Rattle.std.specs.Prelude.{◌≡◌, ◌++◌, [], ◌∷◌, Some, IfOk, OnOk, length};
ghost use Rattle.shelf_io.specs.Transcript.{Answers};
ghost use Rattle.bench_core.specs.State.{rows_at};
ghost use Rattle.generator.specs.Summary.{IsMade, IsSummary, IsThousand, at_text};

use bench_core::Bench;
use drawn_project::{Draws, Thousand, draw_bench, draw_thousands};
use probe_steps::Steps;
use schema_core::push_number;
use session::perform;
use std::alloc::{AllocError, Global};
use std::sync::ledger::Ledger;
use violation_report::count;

/// What is told of a generated project.
#[derive(Drop)]
pub struct Summary {
    /// A line after each thousand edits, and `done`.
    pub text: Vec<u8>,
    /// How many lines the list has at the end.
    pub lines: usize,
}

/// Draws a project off a number, with its 5,000 edits, makes them, and tells after each thousand how many rows the edited
/// table has and how many lines the list. It works under the standard limits, and fails for want of memory alone.
pub fn generate<L: Ledger>(
    alloc: Global,
    seed: u64,
    steps: &mut Steps<L>,
) -> Result<Summary, AllocError>
    ensures { IfOk result (λ summary. IsMade seed summary.text.items summary.lines) }
{
    let mut draws = Draws::new(seed);
    let mut bench = draw_bench(alloc, &mut draws, steps)?;
    let thousands = draw_thousands(alloc, &mut draws)?;
    sum_up(alloc, &mut bench, thousands.as_slice(), steps)
}

/// Makes the edits, and tells what they lead to.
fn sum_up<L: Ledger>(
    alloc: Global,
    bench: &mut Bench,
    thousands: &[Thousand],
    steps: &mut Steps<L>,
) -> Result<Summary, AllocError>
    ensures { IfOk result (λ summary. IsSummary bench.old.rules bench.old.limits bench.old.history thousands.now summary.text.items summary.lines) }
{
    let mut text = Vec::new(alloc);
    make_all(alloc, bench, thousands, &mut text, steps)?;
    text.extend_from_slice(b"done\n")?;
    let lines = count(&bench.queries(), steps)?;
    Ok(Summary { text, lines })
}

/// Makes the thousands one after the other, and tells of each.
fn make_all<L: Ledger>(
    alloc: Global,
    bench: &mut Bench,
    thousands: &[Thousand],
    text: &mut Vec<u8>,
    steps: &mut Steps<L>,
) -> Result<(), AllocError>
    ensures told { OnOk result (Answers (IsThousand bench.old.rules bench.old.limits) bench.old.history thousands.now bench.new.history (Some text.old.items) (Some text.new.items)) }
    ensures made_with { (bench.new.rules ≡ bench.old.rules) × (bench.new.limits ≡ bench.old.limits) }
{
    for thousand in thousands {
        make_thousand(alloc, bench, thousand, text, steps)?;
    }
    Ok(())
}

/// Makes a thousand edits, and tells how many rows and lines there are then.
fn make_thousand<L: Ledger>(
    alloc: Global,
    bench: &mut Bench,
    thousand: &Thousand,
    text: &mut Vec<u8>,
    steps: &mut Steps<L>,
) -> Result<(), AllocError>
    ensures told { OnOk result (Answers (IsThousand bench.old.rules bench.old.limits) bench.old.history (thousand.now ∷ []) bench.new.history (Some text.old.items) (Some text.new.items)) }
    ensures made_with { (bench.new.rules ≡ bench.old.rules) × (bench.new.limits ≡ bench.old.limits) }
{
    perform(alloc, bench, &thousand.commands, steps)?;
    let lines = count(&bench.queries(), steps)?;
    push_at(text, thousand.made, row_count(bench), lines)
}

/// How many rows the first table has. The generated schema has g there.
fn row_count(bench: &Bench) -> usize
    ensures { result ≡ length (rows_at bench.now.history.present 0) }
{
    if 0 < bench.table_count() {
        bench.store(0).len()
    } else {
        0
    }
}

fn push_at(out: &mut Vec<u8>, made: u64, rows: usize, lines: usize) -> Result<(), AllocError>
    ensures { OnOk result (out.new.items ≡ out.old.items ++ at_text made rows lines) }
{
    out.extend_from_slice(b"at ")?;
    push_number(out, made)?;
    out.extend_from_slice(b" rows ")?;
    push_number(out, rows as u64)?;
    out.extend_from_slice(b" lines ")?;
    push_number(out, lines as u64)?;
    out.extend_from_slice(b"\n")
}
