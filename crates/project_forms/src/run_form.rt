//! The form `run PROJECT`: answers the project's script.
ghost use Rattle.std.specs.Prelude.{◌≡◌};
ghost use Rattle.text_lists.specs.Limits.{AreLimits};
ghost use Rattle.violation_report.specs.Listing.{listing};
ghost use Rattle.cli_output.specs.Output.{Ends, IsWhole, Output, UsesDevices, Writes};
ghost use Rattle.project_files.specs.Project.{read_of};
ghost use Rattle.project_forms.specs.RunForm.{counted_from, counted_run_task, run_outputs, run_task};
ghost use Rattle.project_forms.specs.Transcripts.{found_status};

use bench_core::Bench;
use cli_output::{Status, end_by};
use probe_steps::Steps;
use project_files::{Caller, Project, fetch_project, release};
use schema_core::{Limits, Text};
use session::{ServeFault, serve};
use shelf_io::{Shelf, Sink};
use std::alloc::Global;
use std::sync::ledger::Ledger;
use violation_report::is_clean;

/// Answers the script of a project.
pub fn run_project<S: Shelf, O: Sink, L: Ledger>(
    alloc: Global,
    caller: Caller,
    project: &Text,
    shelf: &mut S,
    out: &mut O,
    limits: &Limits,
    steps: &mut Steps<L>,
) -> Status
    requires { AreLimits limits.now }
    ensures written { Writes (Output limits.now (run_task limits.now project.now) (S.told shelf.old).holding) result (O.told out.old).written (O.told out.new).written }
    ensures devices { UsesDevices limits.now (run_task limits.now project.now) result (S.told shelf.old) (S.told shelf.new) (O.told out.old) (O.told out.new) }

    // Where the script was answered, all of it took no more probes than the sum of what each command may.
    ensures probes { IsWhole result → Writes (Output limits.now (counted_run_task steps.old steps.new limits.now project.now) (S.told shelf.old).holding) result (O.told out.old).written (O.told out.new).written }
{
    let mut left = limits.all_bytes;
    match fetch_project(
        alloc,
        caller.keys(),
        shelf,
        project,
        limits,
        &mut left,
        steps,
    ) {
        Ok(mut project) => {
            let status = answer(alloc, &mut project, out, steps);
            release(caller, project.bench);
            status
        }
        Err(stop) => end_by(alloc, &stop, out),
    }
}

/// Answers the script, and tells whether its last state has a violation.
fn answer<O: Sink, L: Ledger>(
    alloc: Global,
    project: &mut Project,
    out: &mut O,
    steps: &mut Steps<L>,
) -> Status
    ensures ends { Ends (run_outputs (read_of project.old)) result (O.told out.old) (O.told out.new) }
    ensures probes { IsWhole result → Writes (counted_from steps.old steps.new (read_of project.old)) result (O.told out.old).written (O.told out.new).written }
{
    match serve(alloc, &mut project.bench, &project.commands, out, steps) {
        Ok(()) => status_of(&project.bench),
        Err(ServeFault::WriteFault) => Status::WriteFault,
        Err(ServeFault::Memory) => Status::Memory,
    }
}

// Nothing is counted or listed for it.
#[tactic(auto, using(crate::proofs::Reports::clean_told, crate::proofs::Reports::found_told))]
pub fn status_of(bench: &Bench) -> Status
    ensures { result ≡ found_status (listing bench.now.rules bench.now.history.present) }
{
    if is_clean(&bench.queries()) {
        Status::Clean
    } else {
        Status::Findings
    }
}
