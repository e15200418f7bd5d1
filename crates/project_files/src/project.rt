//! A project's files, in the order in which they are fetched and read: schema, rules, tables, script. `left` is
//! everywhere how many bytes the files that are still to come may have together.
ghost use Rattle.std.specs.Prelude.{◌≡◌, ◌+◌, ◌≤◌, IfOk};
ghost use Rattle.text_lists.specs.Limits.{AreLimits};
ghost use Rattle.bench_core.specs.Indexed.{load_probes};
ghost use Rattle.script_lines.specs.Scripts.{script_of};
ghost use Rattle.cli_output.specs.Fetching.{Fetches, Reads, about};
ghost use Rattle.cli_output.specs.RuleFiles.{spelled};
ghost use Rattle.project_files.specs.Project.{fetch_bench, fetch_commands, fetch_project, flaw_of, read_of, script_line, tables_of};

use crate::tables::{fetch_pooled, load};
use bench_core::Bench;
use cli_output::{Cause, LineFlaw, Stop, fetch_file, fetch_rules, fetch_schema, refused};
use hash_keys::HashKeys;
use probe_steps::Steps;
use rule_model::RuleBook;
use schema_core::{Limits, List, Schema, Text};
use script_lines::{Command, ScriptCause, ScriptFault, parse_script};
use shelf_io::Shelf;
use std::alloc::Global;
use std::sync::ledger::Ledger;

/// A project that was read: its rules and tables, and the commands of its script.
#[derive(Drop)]
pub struct Project {
    pub bench: Bench,
    pub commands: List<Command>,
}

/// The whole project of the named schema file.
#[tactic(auto, unfolding(crate::specs::Project::fetch_project))]
pub fn fetch_project<S: Shelf, L: Ledger>(
    alloc: Global,
    keys: HashKeys,
    shelf: &mut S,
    name: &Text,
    limits: &Limits,
    left: &mut u64,
    steps: &mut Steps<L>,
) -> Result<Project, Stop>
    requires { AreLimits limits.now }
    ensures fetches { Fetches (fetch_project limits.now name.now) read_of 67 result (S.told shelf.old) (S.told shelf.new) left.old left.new }
    ensures probes { IfOk result (λ project. steps.new ≤ steps.old + load_probes project.bench.rules project.bench.history.present) }
{
    let schema = fetch_schema(alloc, shelf, name, limits, left)?;
    let rules = fetch_rules(alloc, shelf, schema, limits, left)?;
    let bench = fetch_bench(alloc, keys, shelf, rules, limits, left, steps)?;
    let commands = fetch_commands(alloc, shelf, bench.rules().schema(), limits, left)?;
    Ok(Project { bench, commands })
}

/// The tables of a project whose schema and rules were read, on a bench.
#[tactic(auto, unfolding(crate::specs::Project::fetch_bench))]
pub fn fetch_bench<S: Shelf, L: Ledger>(
    alloc: Global,
    keys: HashKeys,
    shelf: &mut S,
    rules: RuleBook,
    limits: &Limits,
    left: &mut u64,
    steps: &mut Steps<L>,
) -> Result<Bench, Stop>
    requires { AreLimits limits.now }
    ensures fetches { Fetches (fetch_bench limits.now rules) tables_of 64 result (S.told shelf.old) (S.told shelf.new) left.old left.new }
    ensures probes { IfOk result (λ bench. steps.new ≤ steps.old + load_probes bench.rules bench.history.present) }
{
    let schema = rules.schema();
    let tables = fetch_pooled(alloc, keys, shelf, schema.tables.as_slice(), limits, left)?;
    load(alloc, rules, tables, limits, steps)
}

fn fetch_commands<S: Shelf>(
    alloc: Global,
    shelf: &mut S,
    schema: &Schema,
    limits: &Limits,
    left: &mut u64,
) -> Result<List<Command>, Stop>
    requires { AreLimits limits.now }
    ensures { Fetches (fetch_commands limits.now schema.now) (λ commands. commands) 1 result (S.told shelf.old) (S.told shelf.new) left.old left.new }
{
    let Some(name) = &schema.script else {
        return Ok(List::new(alloc));
    };
    let bytes = fetch_file(shelf, name, limits, left)?;
    commands_of(alloc, name, &bytes, limits)
}

// What the bytes of a file spell. A fault refuses the file.

fn commands_of(
    alloc: Global,
    name: &Text,
    bytes: &[u8],
    limits: &Limits,
) -> Result<List<Command>, Stop>
    ensures { Reads (about name.now (spelled script_line (script_of limits.now bytes.now))) (λ commands. commands) result }
{
    match parse_script(alloc, bytes, limits) {
        Ok(commands) => Ok(commands),
        Err(ScriptFault::At { line, cause }) => {
            let cause = flaw_of(cause);
            refused(name, Cause::Line { line, cause })
        }
        Err(ScriptFault::Memory) => Err(Stop::Memory),
    }
}

fn flaw_of(cause: ScriptCause) -> LineFlaw
    ensures { result ≡ flaw_of cause }
{
    match cause {
        ScriptCause::NotUtf8 => LineFlaw::NotUtf8,
        ScriptCause::BadLine => LineFlaw::BadLine,
        ScriptCause::TooMany(limit) => LineFlaw::TooMany(limit),
    }
}
