//! The form `row PROJECT TABLE ROW`.

ghost use Rattle.std.specs.Prelude.{◌≡◌, ◌↔◌, ◌++◌, List, [], ℕ, IfOk, OnOk};
ghost use Rattle.schema_core.specs.Schemas.{table_place};
ghost use Rattle.bench_core.specs.Answers.{row_texts};
ghost use Rattle.cli_output.specs.Output.{IsWhole};
ghost use Rattle.cli_output.specs.declared.status.Status.TheVariants as Status;
ghost use Rattle.project_files.specs.Project.{read_of};
ghost use Rattle.violation_report.specs.Explained.{explained};
ghost use Rattle.view_options.specs.declared.options.RowOptions.{RowOptions};
ghost use Rattle.view_forms.specs.RowForm.{AreReplies, questions, row_in, row_of, row_outputs, row_shown};

use crate::told::{refused, status_of};
use bench_core::Bench;
use probe_steps::Steps;
use project_files::{Caller, Project, release};
use schema_core::{List, Text, Texts};
use session::{Command, serve};
use shelf_io::MemorySink;
use std::alloc::{AllocError, Global};
use std::sync::ledger::Ledger;
use view_list::{no_row, no_table, row_body, row_text};
use view_options::RowOptions;
use view_project::{Looked, ProjectForm, Shown, look};
use violation_groups::findings;

/// How many bytes the answer to a fix may have. It has fewer: at most 64 values are told twice, each of at most 65,535
/// bytes that may all have to be escaped.
const ANSWER_BYTES: usize = 20_000_000;

/// Tells a row of a project, and the groups of violations in which it stands; where somebody vouches for attributes, also
/// what a fix would be answered.
pub struct RowForm;

impl ProjectForm for RowForm {
    type Options = RowOptions;

    ghost name = { λ options. options.project };

    ghost outputs = { row_outputs };

    fn project(options: &RowOptions) -> &Text {
        &options.project
    }

    fn show<L: Ledger>(
        alloc: Global,
        caller: Caller,
        options: &RowOptions,
        project: Project,
        steps: &mut Steps<L>,
    ) -> Result<Shown, AllocError> {
        row(alloc, caller, options, project, steps)
    }
}

fn row<L: Ledger>(
    alloc: Global,
    caller: Caller,
    options: &RowOptions,
    project: Project,
    steps: &mut Steps<L>,
) -> Result<Shown, AllocError>
    ensures shown { IfOk result (λ shown. row_outputs options.now (read_of project) shown.text.items shown.status) }
    ensures whole { IfOk result (λ shown. IsWhole shown.status) }
{
    let looked = look(alloc, project, options.loaded, steps)?;
    let Looked { mut bench, counts } = looked;
    let shown = row_shown(alloc, &mut bench, counts.as_slice(), options, steps)?;
    release(caller, bench);
    Ok(shown)
}

fn row_shown<L: Ledger>(
    alloc: Global,
    bench: &mut Bench,
    counts: &[u64],
    options: &RowOptions,
    steps: &mut Steps<L>,
) -> Result<Shown, AllocError>
    ensures told { IfOk result (λ shown. row_of bench.old.rules bench.old.limits counts.now bench.old.history options.now shown.text.items shown.status) }
    ensures whole { IfOk result (λ shown. IsWhole shown.status) }
{
    match place_of(bench, options) {
        Some(table) => row_in(alloc, bench, counts, table, options, steps),
        None => Ok(refused(no_table(alloc, &options.table)?)),
    }
}

/// The table that is asked for, by its number.
fn place_of(bench: &Bench, options: &RowOptions) -> Option<usize>
    ensures { result ≡ table_place bench.now.rules.schema options.now.table }
{
    bench.rules().schema().table_named(options.table.as_str())
}

fn row_in<L: Ledger>(
    alloc: Global,
    bench: &mut Bench,
    counts: &[u64],
    table: usize,
    options: &RowOptions,
    steps: &mut Steps<L>,
) -> Result<Shown, AllocError>
    ensures told { IfOk result (λ shown. row_in bench.old.rules bench.old.limits counts.now bench.old.history options.now table (row_texts bench.old.history.present table options.now.row) shown.text.items shown.status) }
    ensures whole { IfOk result (λ shown. IsWhole shown.status) }
{
    let texts = bench.row_texts(alloc, table, options.row)?;
    row_with(alloc, bench, counts, table, &texts, options, steps)
}

fn row_with<L: Ledger>(
    alloc: Global,
    bench: &mut Bench,
    counts: &[u64],
    table: usize,
    texts: &Option<Texts>,
    options: &RowOptions,
    steps: &mut Steps<L>,
) -> Result<Shown, AllocError>
    ensures told { IfOk result (λ shown. row_in bench.old.rules bench.old.limits counts.now bench.old.history options.now table texts.now shown.text.items shown.status) }
    ensures whole { IfOk result (λ shown. IsWhole shown.status) }
{
    match texts {
        Some(texts) => row_there(alloc, bench, counts, table, texts, options, steps),
        None => Ok(refused(no_row(alloc, &options.table, options.row)?)),
    }
}

/// Tells a row that is there.
fn row_there<L: Ledger>(
    alloc: Global,
    bench: &mut Bench,
    counts: &[u64],
    table: usize,
    texts: &Texts,
    options: &RowOptions,
    steps: &mut Steps<L>,
) -> Result<Shown, AllocError>
    ensures told { IfOk result (λ shown. row_shown bench.old.rules bench.old.limits counts.now bench.old.history options.now table texts.now shown.text.items shown.status) }
    ensures law { IfOk result (λ shown. shown.status ≡ Status.Clean ↔ explained bench.old.rules bench.old.history.present table options.now.row ≡ []) }
    ensures whole { IfOk result (λ shown. IsWhole shown.status) }
{
    let found = findings(alloc, bench, steps)?;
    let body = row_body(alloc, bench.rules(), counts, table, options.row, &found)?;
    let schema = bench.rules().schema();
    let mut text = row_text(alloc, schema, counts, table, options.row, texts, &body)?;
    push_answers(alloc, &mut text, bench, options, steps)?;
    let status = status_of(&body);
    Ok(Shown { text, status })
}

/// Tells what a fix of the row would be answered, where somebody vouches for attributes.
fn push_answers<L: Ledger>(
    alloc: Global,
    out: &mut Vec<u8>,
    bench: &mut Bench,
    options: &RowOptions,
    steps: &mut Steps<L>,
) -> Result<(), AllocError>
    ensures { OnOk result ((replies : List ℕ) × AreReplies bench.old.rules bench.old.limits bench.old.history options.now replies × (out.new.items ≡ out.old.items ++ replies)) }
{
    if options.vouch.as_slice().is_empty() {
        return Ok(());
    }
    let sink = answers(alloc, bench, options, steps)?;
    out.extend_from_slice(sink.written())?;
    Ok(())
}

fn answers<L: Ledger>(
    alloc: Global,
    bench: &mut Bench,
    options: &RowOptions,
    steps: &mut Steps<L>,
) -> Result<MemorySink, AllocError>
    ensures { IfOk result (λ sink. AreReplies bench.old.rules bench.old.limits bench.old.history options.now sink.bytes) }
{
    let commands = questions(alloc, options)?;
    let mut sink = MemorySink::with_room(alloc, ANSWER_BYTES, Vec::new(alloc))?;
    match serve(alloc, bench, &commands, &mut sink, steps) {
        Ok(()) => Ok(sink),
        Err(_) => Err(AllocError),
    }
}

fn questions(alloc: Global, options: &RowOptions) -> Result<List<Command>, AllocError>
    ensures { IfOk result (λ commands. commands ≡ questions options.now) }
{
    let mut commands = List::new(alloc);
    if !options.vouch.as_slice().is_empty() {
        commands.push(fix_of(options)?)?;
    }
    Ok(commands)
}

fn fix_of(options: &RowOptions) -> Result<Command, AllocError>
    ensures { IfOk result (λ fix. fix ≡ Command.Fix options.now.table options.now.row options.now.vouch) }
{
    Ok(Command::Fix {
        table: options.table.clone()?,
        row: options.row,
        vouched: options.vouch.copied()?,
    })
}
