//! What is told of a project.
ghost use Rattle.text_lists.specs.Limits.{AreLimits};
ghost use Rattle.cli_output.specs.Output.{Ends, Output, UsesDevices, Writes};
ghost use Rattle.project_files.specs.Project.{read_of};
ghost use Rattle.project_flaws.specs.Rows.{all_rows};
ghost use Rattle.project_flaws.specs.Told.{IsTold};
ghost use Rattle.view_check.specs.Seen.{seen_of};
ghost use Rattle.view_check.specs.CheckForm.{check_outputs, check_task, off_outputs, read_outputs};

use crate::fetching::{Off, Seen, fetch_seen};
use bench_core::Bench;
use cli_output::{Status, Stop, end_by, end_with};
use probe_steps::Steps;
use project_files::{Caller, Project, release};
use project_flaws::{Counts, told_on};
use schema_core::{Limits, Text};
use shelf_io::{Shelf, Sink};
use std::alloc::{AllocError, Global};
use std::sync::ledger::Ledger;
use view_refusal::off_text;

/// Tells what is off in a project before anything is asked: of each table how many rows were read, and what is odd in
/// them, and what of the rules can't work; or why a file of the project is refused, its script among them, and what stands
/// where the refusal points. The script isn't run. Values are looked up by a hash with the caller's keys, and the
/// bench is given up. Nothing reads the counter of index probes.
pub fn look_at_project<S: Shelf, O: Sink, L: Ledger>(
    alloc: Global,
    caller: Caller,
    project: &Text,
    shelf: &mut S,
    out: &mut O,
    limits: &Limits,
    steps: &mut Steps<L>,
) -> Status
    requires { AreLimits limits.now }
    ensures written { Writes (Output limits.now (check_task limits.now project.now) (S.told shelf.old).holding) result (O.told out.old).written (O.told out.new).written }
    ensures devices { UsesDevices limits.now (check_task limits.now project.now) result (S.told shelf.old) (S.told shelf.new) (O.told out.old) (O.told out.new) }
{
    let mut left = limits.all_bytes;
    match fetch_seen(
        alloc,
        caller.keys(),
        shelf,
        project,
        limits,
        &mut left,
        steps,
    ) {
        Ok(seen) => answer(alloc, caller, limits, seen, out),
        Err(stop) => end_by(alloc, &stop, out),
    }
}

fn answer<O: Sink>(
    alloc: Global,
    caller: Caller,
    limits: &Limits,
    seen: Seen,
    out: &mut O,
) -> Status
    ensures { Ends (check_outputs limits.now (seen_of seen)) result (O.told out.old) (O.told out.new) }
{
    match seen {
        Seen::Whole(project) => tell_whole(alloc, caller, project, out),
        Seen::Off(off) => tell_off(alloc, limits, &off, out),
    }
}

fn tell_off<O: Sink>(alloc: Global, limits: &Limits, off: &Off, out: &mut O) -> Status
    ensures { Ends (off_outputs limits.now off.now) result (O.told out.old) (O.told out.new) }
{
    match off_text(alloc, limits, &off.refusal, &off.anew) {
        Ok(text) => end_with(out, &text, Status::Refused),
        Err(AllocError) => end_by(alloc, &Stop::Memory, out),
    }
}

fn tell_whole<O: Sink>(alloc: Global, caller: Caller, project: Project, out: &mut O) -> Status
    ensures { Ends (read_outputs (read_of project)) result (O.told out.old) (O.told out.new) }
{
    let status = tell_bench(alloc, &project.bench, out);
    release(caller, project.bench);
    status
}

fn tell_bench<O: Sink>(alloc: Global, bench: &Bench, out: &mut O) -> Status
    ensures { Ends (IsTold Counts.Told bench.now.rules (all_rows bench.now.history.present)) result (O.told out.old) (O.told out.new) }
{
    match told_on(alloc, bench, Counts::Told) {
        Ok(told) => end_with(out, &told.text, told.status),
        Err(AllocError) => end_by(alloc, &Stop::Memory, out),
    }
}
