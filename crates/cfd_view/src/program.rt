//! The top call.
ghost use Rattle.std.specs.Prelude.{◌≡◌, ◌<◌};
ghost use Rattle.text_lists.specs.Limits.{AreLimits, standard};
ghost use Rattle.cli_output.specs.Output.{Output, UsesDevices, Writes};
ghost use Rattle.cfd_view.specs.Asked.{asked_task, form_task, help_task, task_of};

use cli_output::{Status, end_with};
use hash_keys::HashKeys;
use probe_steps::Steps;
use project_files::Caller;
use schema_core::{Limits, Texts};
use shelf_io::{Shelf, Sink};
use std::alloc::{AllocError, Global};
use std::marker::Brand;
use std::sync::ledger::{Blank, Ledger};
use view_check::look_at_project;
use view_forms::{ListForm, RowForm};
use view_page::PageForm;
use view_project::show_project;
use view_schema::draft_schema;
use view_words::{Asked, Form, asked_of, help_text};

/// Does what the words ask for, under the standard limits. The words are those after the program's name. What is wrong
/// with words for which the status is `Usage` is told by `fault_text`, and no byte of it goes to the sink.
pub fn run<S: Shelf, O: Sink>(alloc: Global, words: &Texts, shelf: &mut S, out: &mut O) -> Status
    ensures written { Writes (Output standard (task_of standard words.now) (S.told shelf.old).holding) result (O.told out.old).written (O.told out.new).written }
    ensures devices { UsesDevices standard (task_of standard words.now) result (S.told shelf.old) (S.told shelf.new) (O.told out.old) (O.told out.new) }
{
    run_with(alloc, words, shelf, out, Limits::standard())
}

/// The same under other limits.
pub fn run_with<S: Shelf, O: Sink>(
    alloc: Global,
    words: &Texts,
    shelf: &mut S,
    out: &mut O,
    limits: Limits,
) -> Status
    requires { AreLimits limits }

    // What was appended is an output of what the words ask for, or a front of one, by how the call ended.
    ensures written { Writes (Output limits (task_of limits words.now) (S.told shelf.old).holding) result (O.told out.old).written (O.told out.new).written }

    // Nothing is fetched that isn't asked for, a file that isn't there is asked for only where it is refused as absent, and
    // a fault is told only where a device counted one.
    ensures devices { UsesDevices limits (task_of limits words.now) result (S.told shelf.old) (S.told shelf.new) (O.told out.old) (O.told out.new) }
{
    let caller = Caller::staying(HashKeys::fixed());
    run_in(alloc, caller, words, shelf, out, limits)
}

/// The same for a caller, whose keys are those of the hash by which the texts of tables are looked up. What is written
/// doesn't depend on them.
pub fn run_in<S: Shelf, O: Sink>(
    alloc: Global,
    caller: Caller,
    words: &Texts,
    shelf: &mut S,
    out: &mut O,
    limits: Limits,
) -> Status
    requires { AreLimits limits }
    ensures written { Writes (Output limits (task_of limits words.now) (S.told shelf.old).holding) result (O.told out.old).written (O.told out.new).written }
    ensures devices { UsesDevices limits (task_of limits words.now) result (S.told shelf.old) (S.told shelf.new) (O.told out.old) (O.told out.new) }
{
    run_opened::<S, O, Brand>(alloc, caller, words, shelf, out, &limits, Blank::new(1))
}

/// The same, with a counter of index probes that is opened for this call. It takes no bytes, and nothing reads it.
fn run_opened<S: Shelf, O: Sink, L: Ledger>(
    alloc: Global,
    caller: Caller,
    words: &Texts,
    shelf: &mut S,
    out: &mut O,
    limits: &Limits,
    blank: Blank,
) -> Status
    requires limits { AreLimits limits.now }
    requires name { blank.name ≡ L.name }
    requires parts { blank.parts ≡ L.parts }
    requires some { 0 < blank.parts }
    ensures written { Writes (Output limits.now (task_of limits.now words.now) (S.told shelf.old).holding) result (O.told out.old).written (O.told out.new).written }
    ensures devices { UsesDevices limits.now (task_of limits.now words.now) result (S.told shelf.old) (S.told shelf.new) (O.told out.old) (O.told out.new) }
{
    let mut steps = Steps::<L>::open(blank);
    run_counted(alloc, caller, words, shelf, out, limits, &mut steps)
}

/// The same, with a counter of the caller.
fn run_counted<S: Shelf, O: Sink, L: Ledger>(
    alloc: Global,
    caller: Caller,
    words: &Texts,
    shelf: &mut S,
    out: &mut O,
    limits: &Limits,
    steps: &mut Steps<L>,
) -> Status
    requires { AreLimits limits.now }
    ensures written { Writes (Output limits.now (task_of limits.now words.now) (S.told shelf.old).holding) result (O.told out.old).written (O.told out.new).written }
    ensures devices { UsesDevices limits.now (task_of limits.now words.now) result (S.told shelf.old) (S.told shelf.new) (O.told out.old) (O.told out.new) }
{
    match asked_of(alloc, words.as_slice()) {
        Ok(asked) => answer(alloc, caller, words, &asked, shelf, out, limits, steps),
        Err(AllocError) => Status::Memory,
    }
}

/// Does what was asked for by the words.
fn answer<S: Shelf, O: Sink, L: Ledger>(
    alloc: Global,
    caller: Caller,
    words: &Texts,
    asked: &Asked,
    shelf: &mut S,
    out: &mut O,
    limits: &Limits,
    steps: &mut Steps<L>,
) -> Status
    requires { AreLimits limits.now }
    ensures written { Writes (Output limits.now (asked_task limits.now asked.now) (S.told shelf.old).holding) result (O.told out.old).written (O.told out.new).written }
    ensures devices { UsesDevices limits.now (asked_task limits.now asked.now) result (S.told shelf.old) (S.told shelf.new) (O.told out.old) (O.told out.new) }
{
    match asked {
        Asked::Form(form) => answer_form(alloc, caller, form, shelf, out, limits, steps),
        Asked::Help => help(alloc, words, shelf, out, limits),
        Asked::Nothing => Status::Usage,
    }
}

fn answer_form<S: Shelf, O: Sink, L: Ledger>(
    alloc: Global,
    caller: Caller,
    form: &Form,
    shelf: &mut S,
    out: &mut O,
    limits: &Limits,
    steps: &mut Steps<L>,
) -> Status
    requires { AreLimits limits.now }
    ensures written { Writes (Output limits.now (form_task limits.now form.now) (S.told shelf.old).holding) result (O.told out.old).written (O.told out.new).written }
    ensures devices { UsesDevices limits.now (form_task limits.now form.now) result (S.told shelf.old) (S.told shelf.new) (O.told out.old) (O.told out.new) }
{
    match form {
        Form::List(options) => {
            show_project::<ListForm, S, O, L>(alloc, caller, options, shelf, out, limits, steps)
        }
        Form::Row(options) => {
            show_project::<RowForm, S, O, L>(alloc, caller, options, shelf, out, limits, steps)
        }
        Form::Check { project } => look_at_project(
            alloc, caller, project, shelf, out, limits, steps,
        ),
        Form::Schema { files } => draft_schema(
            alloc,
            caller.keys(),
            files.as_slice(),
            shelf,
            out,
            limits,
        ),
        Form::Page(options) => {
            show_project::<PageForm, S, O, L>(alloc, caller, options, shelf, out, limits, steps)
        }
    }
}

/// Writes the help that the words ask for, or the version.
fn help<S: Shelf, O: Sink>(
    alloc: Global,
    words: &Texts,
    shelf: &S,
    out: &mut O,
    limits: &Limits,
) -> Status
    ensures written { Writes (Output limits.now help_task (S.told shelf.now).holding) result (O.told out.old).written (O.told out.new).written }
    ensures devices { UsesDevices limits.now help_task result (S.told shelf.now) (S.told shelf.now) (O.told out.old) (O.told out.new) }
{
    match help_text(alloc, words.as_slice()) {
        Ok(text) => end_with(out, text.as_bytes(), Status::Clean),
        Err(AllocError) => Status::Memory,
    }
}
