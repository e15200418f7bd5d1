//! The form `desk PROJECT EVENTS`: answers the events of several editors over a project's tables.
ghost use Rattle.std.specs.Prelude.{◌≡◌, ◌+◌, ◌≤◌, IfOk};
ghost use Rattle.text_lists.specs.Limits.{AreLimits};
ghost use Rattle.bench_core.specs.Indexed.{load_probes};
ghost use Rattle.desk_events.specs.EventFiles.{events_of};
ghost use Rattle.cli_output.specs.Fetching.{Fetches, Reads, about};
ghost use Rattle.cli_output.specs.Output.{Ends, IsWhole, Output, UsesDevices, Writes};
ghost use Rattle.cli_output.specs.RuleFiles.{spelled};
ghost use Rattle.project_forms.specs.DeskForm.{counted_desk_task, counted_transcripts, desk_outputs, desk_task, desk_transcripts, event_line, fetch_desk, fetch_events, flaw_of, opened, read_of};

use crate::run_form::status_of;
use bench_core::Bench;
use cli_output::{
    Cause, LineFlaw, Status, Stop, end_by, fetch_file, fetch_rules, fetch_schema, refused,
};
use desk::{Desk, DeskFault, Event, EventCause, EventFault, parse_events, serve_desk};
use hash_keys::HashKeys;
use probe_steps::Steps;
use project_files::{Caller, fetch_bench, release};
use schema_core::{Limits, List, Text};
use shelf_io::{Shelf, Sink};
use std::alloc::Global;
use std::sync::ledger::Ledger;

/// What was read: the rules and tables of a project, and the events over them.
#[derive(Drop)]
pub struct DeskFiles {
    pub bench: Bench,
    pub events: List<Event>,
}

/// Answers the events of a file over the tables of a project.
pub fn desk_project<S: Shelf, O: Sink, L: Ledger>(
    alloc: Global,
    caller: Caller,
    project: &Text,
    events: &Text,
    shelf: &mut S,
    out: &mut O,
    limits: &Limits,
    steps: &mut Steps<L>,
) -> Status
    requires { AreLimits limits.now }
    ensures written { Writes (Output limits.now (desk_task limits.now project.now events.now) (S.told shelf.old).holding) result (O.told out.old).written (O.told out.new).written }
    ensures devices { UsesDevices limits.now (desk_task limits.now project.now events.now) result (S.told shelf.old) (S.told shelf.new) (O.told out.old) (O.told out.new) }

    // Where the events were answered, all of it took no more probes than the sum of what each event may.
    ensures probes { IsWhole result → Writes (Output limits.now (counted_desk_task steps.old steps.new limits.now project.now events.now) (S.told shelf.old).holding) result (O.told out.old).written (O.told out.new).written }
{
    let mut left = limits.all_bytes;
    let keys = caller.keys();
    match fetch_desk(
        alloc, keys, shelf, project, events, limits, &mut left, steps,
    ) {
        Ok(files) => answer(alloc, caller, files, out, limits.last_id, steps),
        Err(stop) => end_by(alloc, &stop, out),
    }
}

/// The schema, the rules, the tables and the events, in this order.
#[tactic(auto, unfolding(crate::specs::DeskForm::fetch_desk))]
fn fetch_desk<S: Shelf, L: Ledger>(
    alloc: Global,
    keys: HashKeys,
    shelf: &mut S,
    name: &Text,
    events: &Text,
    limits: &Limits,
    left: &mut u64,
    steps: &mut Steps<L>,
) -> Result<DeskFiles, Stop>
    requires { AreLimits limits.now }
    ensures fetches { Fetches (fetch_desk limits.now name.now events.now) read_of 67 result (S.told shelf.old) (S.told shelf.new) left.old left.new }
    ensures probes { IfOk result (λ files. steps.new ≤ steps.old + load_probes files.bench.rules files.bench.history.present) }
{
    let schema = fetch_schema(alloc, shelf, name, limits, left)?;
    let rules = fetch_rules(alloc, shelf, schema, limits, left)?;
    let bench = fetch_bench(alloc, keys, shelf, rules, limits, left, steps)?;
    let events = fetch_events(alloc, shelf, events, limits, left)?;
    Ok(DeskFiles { bench, events })
}

fn fetch_events<S: Shelf>(
    alloc: Global,
    shelf: &mut S,
    name: &Text,
    limits: &Limits,
    left: &mut u64,
) -> Result<List<Event>, Stop>
    requires { AreLimits limits.now }
    ensures { Fetches (fetch_events limits.now name.now) (λ events. events) 1 result (S.told shelf.old) (S.told shelf.new) left.old left.new }
{
    let bytes = fetch_file(shelf, name, limits, left)?;
    events_of(alloc, name, &bytes, limits)
}

/// What the bytes of the file spell. A fault refuses the file.
fn events_of(alloc: Global, name: &Text, bytes: &[u8], limits: &Limits) -> Result<List<Event>, Stop>
    ensures { Reads (about name.now (spelled event_line (events_of limits.now bytes.now))) (λ events. events) result }
{
    match parse_events(alloc, bytes, limits) {
        Ok(events) => Ok(events),
        Err(EventFault::At { line, cause }) => {
            let cause = flaw_of(cause);
            refused(name, Cause::Line { line, cause })
        }
        Err(EventFault::Memory) => Err(Stop::Memory),
    }
}

fn flaw_of(cause: EventCause) -> LineFlaw
    ensures { result ≡ flaw_of cause }
{
    match cause {
        EventCause::NotUtf8 => LineFlaw::NotUtf8,
        EventCause::BadLine => LineFlaw::BadLine,
        EventCause::TooMany(limit) => LineFlaw::TooMany(limit),
    }
}

/// Answers the events at a desk that is opened for them, and gives up its bench.
fn answer<O: Sink, L: Ledger>(
    alloc: Global,
    caller: Caller,
    files: DeskFiles,
    out: &mut O,
    last: u64,
    steps: &mut Steps<L>,
) -> Status
    requires { last ≤ 999_999_999_999 }
    ensures ends { Ends (desk_outputs last (read_of files)) result (O.told out.old) (O.told out.new) }
    ensures probes { IsWhole result → Writes (counted_transcripts steps.old steps.new (opened last (read_of files).tables) (read_of files).events) result (O.told out.old).written (O.told out.new).written }
{
    let DeskFiles { bench, events } = files;
    let mut desk = Desk::open(alloc, bench, last);
    let status = answer_events(alloc, &mut desk, &events, out, steps);
    release(caller, desk.into_bench());
    status
}

/// Answers the events, and tells whether the last state has a violation.
fn answer_events<O: Sink, L: Ledger>(
    alloc: Global,
    desk: &mut Desk,
    events: &List<Event>,
    out: &mut O,
    steps: &mut Steps<L>,
) -> Status
    ensures ends { Ends (desk_transcripts desk.old events.now) result (O.told out.old) (O.told out.new) }
    ensures probes { IsWhole result → Writes (counted_transcripts steps.old steps.new desk.old events.now) result (O.told out.old).written (O.told out.new).written }
{
    match serve_desk(alloc, desk, events, out, steps) {
        Ok(()) => status_of(desk.bench()),
        Err(DeskFault::WriteFault) => Status::WriteFault,
        Err(DeskFault::Memory) => Status::Memory,
    }
}
