//! The form.
ghost use Rattle.std.specs.Prelude.{◌≡◌, ◌↔◌, IfOk};
ghost use Rattle.violation_report.specs.Listing.{IsSatisfied, listing};
ghost use Rattle.cli_output.specs.Output.{IsWhole};
ghost use Rattle.project_files.specs.Project.{read_of};
ghost use Rattle.view_options.specs.declared.options.PageOptions.{PageOptions};
ghost use Rattle.view_page.specs.PageForm.{IsPageOf, IsTextOn, first_shown, options_of, page_outputs, status_for};

use crate::found::checked;
use bench_core::Bench;
use cli_output::Status;
use page_text::{Options, RowCounts, page_text};
use probe_steps::Steps;
use project_files::{Caller, Project, release};
use std::alloc::{AllocError, Global};
use std::sync::ledger::Ledger;
use text_lists::{List, Text};
use view_options::PageOptions;
use view_project::{Looked, ProjectForm, Shown, counts_of, look};
use violation_groups::findings;
use violation_report::is_clean;

/// Shows what a project holds as a page: what was read, the violations of each rule, in groups, and what `check` finds.
/// The violations are those of the state that the script leaves, or of the tables as they were read.
pub struct PageForm;

impl ProjectForm for PageForm {
    type Options = PageOptions;

    ghost name = { λ options. options.project };

    ghost outputs = { page_outputs };

    fn project(options: &PageOptions) -> &Text {
        &options.project
    }

    fn show<L: Ledger>(
        alloc: Global,
        caller: Caller,
        options: &PageOptions,
        project: Project,
        steps: &mut Steps<L>,
    ) -> Result<Shown, AllocError> {
        page(alloc, caller, options, project, steps)
    }
}

fn page<L: Ledger>(
    alloc: Global,
    caller: Caller,
    options: &PageOptions,
    project: Project,
    steps: &mut Steps<L>,
) -> Result<Shown, AllocError>
    ensures shown { IfOk result (λ shown. page_outputs options.now (read_of project) shown.text.items shown.status) }
    ensures whole { IfOk result (λ shown. IsWhole shown.status) }
{
    let checked = checked(alloc, &project.bench)?;
    let looked = look(alloc, project, options.loaded, steps)?;
    let Looked { bench, counts } = looked;
    let shown = page_on(
        alloc,
        &options.project,
        options_of(options),
        counts,
        &bench,
        checked.as_slice(),
        steps,
    )?;
    release(caller, bench);
    Ok(shown)
}

fn page_on<L: Ledger>(
    alloc: Global,
    name: &Text,
    options: Options,
    read: List<u64>,
    bench: &Bench,
    checked: &[List<u8>],
    steps: &mut Steps<L>,
) -> Result<Shown, AllocError>
    ensures page { IfOk result (λ shown. IsPageOf name.now options read bench.now.rules bench.now.history.present checked.now shown.text.items shown.status) }
    ensures whole { IfOk result (λ shown. IsWhole shown.status) }
{
    let present = counts_of(alloc, bench)?;
    let rows = RowCounts { read, present };
    let text = text_on(alloc, name, options, &rows, bench, checked, steps)?;
    let status = status_on(bench);
    Ok(Shown { text, status })
}

fn options_of(options: &PageOptions) -> Options
    ensures { result ≡ options_of options.now }
{
    Options {
        first: first_shown(options.first),
        loaded: options.loaded,
    }
}

// No list has more than all.
fn first_shown(first: Option<u64>) -> usize
    ensures { result ≡ first_shown first }
{
    match first {
        Some(first) => first as usize,
        None => usize::MAX,
    }
}

fn text_on<L: Ledger>(
    alloc: Global,
    name: &Text,
    options: Options,
    rows: &RowCounts,
    bench: &Bench,
    checked: &[List<u8>],
    steps: &mut Steps<L>,
) -> Result<Vec<u8>, AllocError>
    ensures { IfOk result (λ text. IsTextOn name.now options rows.now bench.now.rules bench.now.history.present checked.now text.items) }
{
    let findings = findings(alloc, bench, steps)?;
    page_text(
        alloc,
        name,
        options,
        bench.rules(),
        rows,
        &findings,
        checked,
    )
}

fn status_on(bench: &Bench) -> Status
    ensures status { result ≡ status_for (listing bench.now.rules bench.now.history.present) }
    ensures law { result ≡ Status.Clean ↔ IsSatisfied bench.now.rules bench.now.history.present }
    ensures whole { IsWhole result }
{
    if is_clean(&bench.queries()) {
        Status::Clean
    } else {
        Status::Findings
    }
}
