//! The top call.
ghost use Rattle.std.specs.Prelude.{◌≡◌, ◌≢◌, ◌<◌, ◌⊎◌, Some};
ghost use Rattle.text_lists.specs.Limits.{AreLimits, standard};
ghost use Rattle.cfd_cli.specs.Forms.{counted_form_task, counted_task_of, form_task, task_of};
ghost use Rattle.cli_output.specs.Output.{IsWhole, Output, UsesDevices, Writes};
ghost use Rattle.call_words.specs.Words.{HasForm, IsFit};

use call_words::{Form, form_of};
use cli_output::{Status, end_with};
use find_form::find_project;
use hash_keys::HashKeys;
use probe_steps::Steps;
use project_files::Caller;
use project_forms::{desk_project, generate_project, report_project, run_project};
use rule_forms::{check_project, consistent_project, cover_project, implies_project};
use schema_core::{Limits, Texts};
use shelf_io::{Shelf, Sink};
use std::alloc::{AllocError, Global};
use std::marker::Brand;
use std::sync::ledger::{Blank, Ledger};

const USAGE: &str =
    "usage: run PROJECT | report PROJECT | consistent PROJECT TABLE BUDGET | implies PROJECT DEP BUDGET | check PROJECT CERT | generate N | cover PROJECT TABLE BUDGET | find PROJECT TABLE WIDTH SUPPORT | desk PROJECT EVENTS\n";

/// Does what the words ask for, under the standard limits. The words are those after the program's name.
pub fn run<S: Shelf, O: Sink>(alloc: Global, words: &Texts, shelf: &mut S, out: &mut O) -> Status
    ensures written { Writes (Output standard (task_of standard words.now) (S.told shelf.old).holding) result (O.told out.old).written (O.told out.new).written }
    ensures usage { (HasForm words.now → ⊥) → (result ≡ Status.Usage) ⊎ (result ≡ Status.WriteFault) }
    ensures devices { UsesDevices standard (task_of standard words.now) result (S.told shelf.old) (S.told shelf.new) (O.told out.old) (O.told out.new) }
    ensures unread { (task_of standard words.now).most_fetches ≡ 0 → result ≢ Status.ReadFault }
{
    run_with(alloc, words, shelf, out, Limits::standard())
}

/// The same under other limits.
pub fn run_with<S: Shelf, O: Sink>(
    alloc: Global,
    words: &Texts,
    shelf: &mut S,
    out: &mut O,
    limits: Limits,
) -> Status
    requires { AreLimits limits }

    // What was appended is an output of what the words ask for, or a front of one, by how the call ended.
    ensures written { Writes (Output limits (task_of limits words.now) (S.told shelf.old).holding) result (O.told out.old).written (O.told out.new).written }

    // Words without a form are answered by the usage line.
    ensures usage { (HasForm words.now → ⊥) → (result ≡ Status.Usage) ⊎ (result ≡ Status.WriteFault) }

    // Nothing is fetched that isn't asked for, a file that isn't there is asked for only where it is refused as absent, and
    // a fault is told only where a device counted one.
    ensures devices { UsesDevices limits (task_of limits words.now) result (S.told shelf.old) (S.told shelf.new) (O.told out.old) (O.told out.new) }

    // Where nothing is to be fetched, as for `generate`, no failed fetch is told.
    ensures unread { (task_of limits words.now).most_fetches ≡ 0 → result ≢ Status.ReadFault }
{
    let caller = Caller::staying(HashKeys::fixed());
    run_in(alloc, caller, words, shelf, out, limits)
}

/// The same for a caller, whose keys are those of the hash by which the texts of tables are looked up. What is written
/// doesn't depend on them.
pub fn run_in<S: Shelf, O: Sink>(
    alloc: Global,
    caller: Caller,
    words: &Texts,
    shelf: &mut S,
    out: &mut O,
    limits: Limits,
) -> Status
    requires { AreLimits limits }
    ensures written { Writes (Output limits (task_of limits words.now) (S.told shelf.old).holding) result (O.told out.old).written (O.told out.new).written }
    ensures usage { (HasForm words.now → ⊥) → (result ≡ Status.Usage) ⊎ (result ≡ Status.WriteFault) }
    ensures devices { UsesDevices limits (task_of limits words.now) result (S.told shelf.old) (S.told shelf.new) (O.told out.old) (O.told out.new) }
    ensures unread { (task_of limits words.now).most_fetches ≡ 0 → result ≢ Status.ReadFault }
{
    run_opened::<S, O, Brand>(alloc, caller, words, shelf, out, &limits, Blank::new(1))
}

/// The same, with a counter that is opened for this call. It takes no bytes, and nothing reads it.
fn run_opened<S: Shelf, O: Sink, L: Ledger>(
    alloc: Global,
    caller: Caller,
    words: &Texts,
    shelf: &mut S,
    out: &mut O,
    limits: &Limits,
    blank: Blank,
) -> Status
    requires limits { AreLimits limits.now }
    requires name { blank.name ≡ L.name }
    requires parts { blank.parts ≡ L.parts }
    requires some { 0 < blank.parts }
    ensures written { Writes (Output limits.now (task_of limits.now words.now) (S.told shelf.old).holding) result (O.told out.old).written (O.told out.new).written }
    ensures usage { (HasForm words.now → ⊥) → (result ≡ Status.Usage) ⊎ (result ≡ Status.WriteFault) }
    ensures devices { UsesDevices limits.now (task_of limits.now words.now) result (S.told shelf.old) (S.told shelf.new) (O.told out.old) (O.told out.new) }
    ensures unread { (task_of limits.now words.now).most_fetches ≡ 0 → result ≢ Status.ReadFault }
{
    let mut steps = Steps::<L>::open(blank);
    run_counted(alloc, caller, words, shelf, out, limits, &mut steps)
}

/// The same, with the counter of index probes of the caller.
pub fn run_counted<S: Shelf, O: Sink, L: Ledger>(
    alloc: Global,
    caller: Caller,
    words: &Texts,
    shelf: &mut S,
    out: &mut O,
    limits: &Limits,
    steps: &mut Steps<L>,
) -> Status
    requires { AreLimits limits.now }
    ensures written { Writes (Output limits.now (task_of limits.now words.now) (S.told shelf.old).holding) result (O.told out.old).written (O.told out.new).written }
    ensures usage { (HasForm words.now → ⊥) → (result ≡ Status.Usage) ⊎ (result ≡ Status.WriteFault) }
    ensures devices { UsesDevices limits.now (task_of limits.now words.now) result (S.told shelf.old) (S.told shelf.new) (O.told out.old) (O.told out.new) }
    ensures unread { (task_of limits.now words.now).most_fetches ≡ 0 → result ≢ Status.ReadFault }

    // Where `run`, `report` or `desk` came to its end, the output goes with counts of probes: all rows that were loaded and
    // all commands or events took no more of them than the sum of what each may, and a report no more than two lists.
    ensures probes { IsWhole result → Writes (Output limits.now (counted_task_of steps.old steps.new limits.now words.now) (S.told shelf.old).holding) result (O.told out.old).written (O.told out.new).written }
{
    match form_of(alloc, words.as_slice()) {
        Ok(None) => end_with(out, USAGE.as_bytes(), Status::Usage),
        Ok(Some(form)) => answer(alloc, caller, &form, shelf, out, limits, steps),
        Err(AllocError) => Status::Memory,
    }
}

/// Does what a form asks for.
fn answer<S: Shelf, O: Sink, L: Ledger>(
    alloc: Global,
    caller: Caller,
    form: &Form,
    shelf: &mut S,
    out: &mut O,
    limits: &Limits,
    steps: &mut Steps<L>,
) -> Status
    requires limits { AreLimits limits.now }
    requires form { IsFit form.now }
    ensures written { Writes (Output limits.now (form_task limits.now (Some form.now)) (S.told shelf.old).holding) result (O.told out.old).written (O.told out.new).written }
    ensures devices { UsesDevices limits.now (form_task limits.now (Some form.now)) result (S.told shelf.old) (S.told shelf.new) (O.told out.old) (O.told out.new) }
    ensures unread { (form_task limits.now (Some form.now)).most_fetches ≡ 0 → result ≢ Status.ReadFault }
    ensures probes { IsWhole result → Writes (Output limits.now (counted_form_task steps.old steps.new limits.now (Some form.now)) (S.told shelf.old).holding) result (O.told out.old).written (O.told out.new).written }
{
    let keys = caller.keys();
    match form {
        Form::Run { project } => run_project(alloc, caller, project, shelf, out, limits, steps),
        Form::Report { project } => report_project(
            alloc, caller, project, shelf, out, limits, steps,
        ),
        Form::Consistent {
            project,
            table,
            budget,
        } => consistent_project(alloc, project, table, *budget, shelf, out, limits),
        Form::Implies {
            project,
            dep,
            budget,
        } => implies_project(alloc, project, dep, *budget, shelf, out, limits),
        Form::Cover {
            project,
            table,
            budget,
        } => cover_project(alloc, project, table, *budget, shelf, out, limits),
        Form::Check { project, cert } => check_project(alloc, project, cert, shelf, out, limits),
        Form::Find {
            project,
            table,
            width,
            support,
        } => find_project(
            alloc,
            keys,
            project,
            table,
            *width as usize,
            *support as usize,
            shelf,
            out,
            limits,
        ),
        Form::Desk { project, events } => {
            desk_project(alloc, caller, project, events, shelf, out, limits, steps)
        }
        Form::Generate { seed } => generate_project(alloc, *seed, out, steps),
    }
}
