//! The form `generate N`: the summary of a project that is drawn off a number.
ghost use Rattle.std.specs.Prelude.{◌≡◌};
ghost use Rattle.cli_output.specs.Output.{Ends};
ghost use Rattle.project_forms.specs.GenerateForm.{generate_outputs, status_of};

use cli_output::{Status, end_with};
use generator::generate;
use probe_steps::Steps;
use shelf_io::Sink;
use std::alloc::{AllocError, Global};
use std::sync::ledger::Ledger;

/// Tells what the edits of the drawn project lead to. No file is fetched.
pub fn generate_project<O: Sink, L: Ledger>(
    alloc: Global,
    seed: u64,
    out: &mut O,
    steps: &mut Steps<L>,
) -> Status
    ensures { Ends (generate_outputs seed) result (O.told out.old) (O.told out.new) }
{
    match generate(alloc, seed, steps) {
        Ok(summary) => end_with(out, &summary.text, status_of(summary.lines)),
        Err(AllocError) => Status::Memory,
    }
}

fn status_of(lines: usize) -> Status
    ensures { result ≡ status_of lines }
{
    if lines == 0 {
        Status::Clean
    } else {
        Status::Findings
    }
}
