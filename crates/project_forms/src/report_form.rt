//! The form `report PROJECT`: the list of the state that the project's script leads to, as JSON.
ghost use Rattle.std.specs.Prelude.{◌+◌, ◌*◌, ◌≤◌};
ghost use Rattle.text_lists.specs.Limits.{AreLimits};
ghost use Rattle.bench_core.specs.DirtyCounts.{list_probes};
ghost use Rattle.cli_output.specs.Output.{Ends, IsWhole, Output, UsesDevices, Writes};
ghost use Rattle.project_files.specs.Project.{read_of};
ghost use Rattle.project_forms.specs.ReportForm.{counted_from, counted_report_task, report_of, report_outputs, report_task};

use crate::run_form::status_of;
use bench_core::Bench;
use cli_output::{Status, end_by, end_with};
use probe_steps::Steps;
use project_files::{Caller, Project, fetch_project, release};
use schema_core::{Limits, Text};
use session::perform;
use shelf_io::{Shelf, Sink};
use std::alloc::{AllocError, Global};
use std::sync::ledger::Ledger;
use violation_report::json_report;

/// Tells what the script of a project leads to.
pub fn report_project<S: Shelf, O: Sink, L: Ledger>(
    alloc: Global,
    caller: Caller,
    project: &Text,
    shelf: &mut S,
    out: &mut O,
    limits: &Limits,
    steps: &mut Steps<L>,
) -> Status
    requires { AreLimits limits.now }
    ensures written { Writes (Output limits.now (report_task limits.now project.now) (S.told shelf.old).holding) result (O.told out.old).written (O.told out.new).written }
    ensures devices { UsesDevices limits.now (report_task limits.now project.now) result (S.told shelf.old) (S.told shelf.new) (O.told out.old) (O.told out.new) }

    // Where the report was written, the script took no more probes than the sum of what each command may, and the report no
    // more than two lists.
    ensures probes { IsWhole result → Writes (Output limits.now (counted_report_task steps.old steps.new limits.now project.now) (S.told shelf.old).holding) result (O.told out.old).written (O.told out.new).written }
{
    let mut left = limits.all_bytes;
    match fetch_project(
        alloc,
        caller.keys(),
        shelf,
        project,
        limits,
        &mut left,
        steps,
    ) {
        Ok(project) => report(alloc, caller, project, out, steps),
        Err(stop) => end_by(alloc, &stop, out),
    }
}

/// Answers the script with no one listening, and tells the list of its last state.
fn report<O: Sink, L: Ledger>(
    alloc: Global,
    caller: Caller,
    project: Project,
    out: &mut O,
    steps: &mut Steps<L>,
) -> Status
    ensures ends { Ends (report_outputs (read_of project)) result (O.told out.old) (O.told out.new) }
    ensures probes { IsWhole result → Writes (counted_from steps.old steps.new (read_of project)) result (O.told out.old).written (O.told out.new).written }
{
    let Project {
        mut bench,
        commands,
    } = project;
    match perform(alloc, &mut bench, &commands, steps) {
        Ok(()) => {
            let status = tell(alloc, &bench, out, steps);
            release(caller, bench);
            status
        }
        Err(AllocError) => Status::Memory,
    }
}

/// Tells the list of the bench.
fn tell<O: Sink, L: Ledger>(
    alloc: Global,
    bench: &Bench,
    out: &mut O,
    steps: &mut Steps<L>,
) -> Status
    ensures ends { Ends (report_of bench.now.rules bench.now.history.present) result (O.told out.old) (O.told out.new) }
    ensures probes { steps.new ≤ steps.old + 2 * list_probes bench.now.rules bench.now.history.present }
{
    match json_report(alloc, &bench.queries(), steps) {
        Ok(text) => end_with(out, &text, status_of(bench)),
        Err(AllocError) => Status::Memory,
    }
}
