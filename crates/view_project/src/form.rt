//! A form that shows something of a project.

ghost use Rattle.std.specs.Prelude.{◌≡◌, List, ℕ, IfOk};
ghost use Rattle.text_lists.specs.Limits.{AreLimits};
ghost use Rattle.cli_output.specs.Output.{Ends, IsWhole, Output, Outputs, UsesDevices, Writes};
ghost use Rattle.project_files.specs.Project.{ProjectRead, read_of};
ghost use Rattle.view_project.specs.ProjectTask.{project_task};

use crate::shown::Shown;
use cli_output::{Status, end_by, end_with};
use probe_steps::Steps;
use project_files::{Caller, Project, fetch_project};
use schema_core::{Limits, Text};
use shelf_io::{Shelf, Sink};
use std::alloc::{AllocError, Global};
use std::sync::ledger::Ledger;

/// A form by what its words ask for, and what it shows of a project.
pub trait ProjectForm {
    type Options: Drop;

    // The name of the schema file, and what may be written for the project.
    ghost name: { Self.Options → List ℕ };

    ghost outputs: { Self.Options → ProjectRead → Outputs };

    fn project(options: &Self::Options) -> &Text
        ensures { result.now ≡ name options.now };

    /// What is written for a project, whose bench is given up. Nothing reads the counter of index probes.
    fn show<L: Ledger>(
        alloc: Global,
        caller: Caller,
        options: &Self::Options,
        project: Project,
        steps: &mut Steps<L>,
    ) -> Result<Shown, AllocError>
        ensures shown { IfOk result (λ shown. outputs options.now (read_of project) shown.text.items shown.status) }
        ensures whole { IfOk result (λ shown. IsWhole shown.status) };
}

/// Fetches a project, and writes what the form shows of it. Its texts are looked up by a hash with the caller's keys.
pub fn show_project<F: ProjectForm, S: Shelf, O: Sink, L: Ledger>(
    alloc: Global,
    caller: Caller,
    options: &F::Options,
    shelf: &mut S,
    out: &mut O,
    limits: &Limits,
    steps: &mut Steps<L>,
) -> Status
    requires { AreLimits limits.now }
    ensures written { Writes (Output limits.now (project_task limits.now (F.name options.now) (F.outputs options.now)) (S.told shelf.old).holding) result (O.told out.old).written (O.told out.new).written }
    ensures devices { UsesDevices limits.now (project_task limits.now (F.name options.now) (F.outputs options.now)) result (S.told shelf.old) (S.told shelf.new) (O.told out.old) (O.told out.new) }
{
    show_named::<F, S, O, L>(
        alloc,
        caller,
        options,
        F::project(options),
        shelf,
        out,
        limits,
        steps,
    )
}

/// The same, with the name of the project.
fn show_named<F: ProjectForm, S: Shelf, O: Sink, L: Ledger>(
    alloc: Global,
    caller: Caller,
    options: &F::Options,
    name: &Text,
    shelf: &mut S,
    out: &mut O,
    limits: &Limits,
    steps: &mut Steps<L>,
) -> Status
    requires { AreLimits limits.now }
    ensures written { Writes (Output limits.now (project_task limits.now name.now (F.outputs options.now)) (S.told shelf.old).holding) result (O.told out.old).written (O.told out.new).written }
    ensures devices { UsesDevices limits.now (project_task limits.now name.now (F.outputs options.now)) result (S.told shelf.old) (S.told shelf.new) (O.told out.old) (O.told out.new) }
{
    let mut left = limits.all_bytes;
    match fetch_project(alloc, caller.keys(), shelf, name, limits, &mut left, steps) {
        Ok(project) => show_fetched::<F, O, L>(alloc, caller, options, project, out, steps),
        Err(stop) => end_by(alloc, &stop, out),
    }
}

fn show_fetched<F: ProjectForm, O: Sink, L: Ledger>(
    alloc: Global,
    caller: Caller,
    options: &F::Options,
    project: Project,
    out: &mut O,
    steps: &mut Steps<L>,
) -> Status
    ensures { Ends (F.outputs options.now (read_of project)) result (O.told out.old) (O.told out.new) }
{
    match F::show(alloc, caller, options, project, steps) {
        Ok(shown) => end_with(out, &shown.text, shown.status),
        Err(AllocError) => Status::Memory,
    }
}
