//! The form `list PROJECT`.

ghost use Rattle.std.specs.Prelude.{◌≡◌, ◌↔◌, IfOk};
ghost use Rattle.cli_output.specs.Output.{IsWhole};
ghost use Rattle.cli_output.specs.declared.status.Status.TheVariants as Status;
ghost use Rattle.project_files.specs.Project.{read_of};
ghost use Rattle.view_options.specs.declared.options.ListOptions.{ListOptions};
ghost use Rattle.view_forms.specs.ListForm.{AreWantedSatisfied, list_of, list_outputs, list_shown, list_told, told_unless};

use crate::told::{refused, status_of};
use probe_steps::Steps;
use project_files::{Caller, Project, release};
use schema_core::Text;
use std::alloc::{AllocError, Global};
use std::sync::ledger::Ledger;
use view_list::{list_body, list_refusal, list_text};
use view_options::ListOptions;
use view_project::{Looked, ProjectForm, Shown, look};
use violation_groups::findings;

/// Tells the violations of a project in groups: all of them, or those that are asked for.
pub struct ListForm;

impl ProjectForm for ListForm {
    type Options = ListOptions;

    ghost name = { λ options. options.project };

    ghost outputs = { list_outputs };

    fn project(options: &ListOptions) -> &Text {
        &options.project
    }

    fn show<L: Ledger>(
        alloc: Global,
        caller: Caller,
        options: &ListOptions,
        project: Project,
        steps: &mut Steps<L>,
    ) -> Result<Shown, AllocError> {
        list(alloc, caller, options, project, steps)
    }
}

fn list<L: Ledger>(
    alloc: Global,
    caller: Caller,
    options: &ListOptions,
    project: Project,
    steps: &mut Steps<L>,
) -> Result<Shown, AllocError>
    ensures shown { IfOk result (λ shown. list_outputs options.now (read_of project) shown.text.items shown.status) }
    ensures whole { IfOk result (λ shown. IsWhole shown.status) }
{
    let looked = look(alloc, project, options.loaded, steps)?;
    let shown = list_shown(alloc, &looked, options, steps)?;
    release(caller, looked.bench);
    Ok(shown)
}

fn list_shown<L: Ledger>(
    alloc: Global,
    looked: &Looked,
    options: &ListOptions,
    steps: &mut Steps<L>,
) -> Result<Shown, AllocError>
    ensures told { IfOk result (λ shown. list_of looked.now.bench.rules looked.now.counts looked.now.bench.history.present options.now shown.text.items shown.status) }
    ensures whole { IfOk result (λ shown. IsWhole shown.status) }
{
    let refusal = list_refusal(alloc, looked.bench.rules(), options)?;
    told_unless(alloc, refusal, looked, options, steps)
}

/// Tells the line that refuses what is asked for, where there is one, and looks for violations only where there is none.
fn told_unless<L: Ledger>(
    alloc: Global,
    refusal: Vec<u8>,
    looked: &Looked,
    options: &ListOptions,
    steps: &mut Steps<L>,
) -> Result<Shown, AllocError>
    ensures told { IfOk result (λ shown. told_unless refusal.items (list_told looked.now.bench.rules looked.now.counts looked.now.bench.history.present options.now) shown.text.items shown.status) }
    ensures whole { IfOk result (λ shown. IsWhole shown.status) }
{
    if !refusal.is_empty() {
        return Ok(refused(refusal));
    }
    list_told(alloc, looked, options, steps)
}

fn list_told<L: Ledger>(
    alloc: Global,
    looked: &Looked,
    options: &ListOptions,
    steps: &mut Steps<L>,
) -> Result<Shown, AllocError>
    ensures told { IfOk result (λ shown. list_shown looked.now.bench.rules looked.now.counts looked.now.bench.history.present options.now shown.text.items shown.status) }
    ensures law { IfOk result (λ shown. shown.status ≡ Status.Clean ↔ AreWantedSatisfied looked.now.bench.rules looked.now.bench.history.present options.now) }
    ensures whole { IfOk result (λ shown. IsWhole shown.status) }
{
    let rules = looked.bench.rules();
    let counts = looked.counts.as_slice();
    let found = findings(alloc, &looked.bench, steps)?;
    let body = list_body(alloc, rules, counts, options, &found)?;
    let text = list_text(alloc, &body)?;
    let status = status_of(&body);
    Ok(Shown { text, status })
}
