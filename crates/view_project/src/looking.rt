//! The state that is looked at.

ghost use Rattle.std.specs.Prelude.{◌≡◌, ◌<◌, IfOk, Some, length, slice_get};
ghost use Rattle.project_files.specs.Project.{read_of};
ghost use Rattle.view_project.specs.Looking.{LooksAt, counts_of};

use bench_core::Bench;
use probe_steps::Steps;
use project_files::Project;
use schema_core::List;
use session::perform;
use std::alloc::{AllocError, Global};
use std::sync::ledger::Ledger;

/// A bench, and how many rows were read of each of its tables.
#[derive(Drop)]
pub struct Looked {
    pub bench: Bench,
    pub counts: List<u64>,
}

/// The bench to which the script leads, or that of the tables as they were read.
pub fn look<L: Ledger>(
    alloc: Global,
    project: Project,
    loaded: bool,
    steps: &mut Steps<L>,
) -> Result<Looked, AllocError>
    ensures made_with { IfOk result (λ looked. (looked.bench.rules ≡ project.bench.rules) × (looked.bench.limits ≡ project.bench.limits)) }
    ensures state { IfOk result (λ looked. LooksAt loaded (read_of project) looked.bench.history) }
    ensures counts { IfOk result (λ looked. looked.counts ≡ counts_of project.bench.history.present) }
{
    let counts = counts_of(alloc, &project.bench)?;
    let bench = bench_of(alloc, project, loaded, steps)?;
    Ok(Looked { bench, counts })
}

fn bench_of<L: Ledger>(
    alloc: Global,
    project: Project,
    loaded: bool,
    steps: &mut Steps<L>,
) -> Result<Bench, AllocError>
    ensures made_with { IfOk result (λ bench. (bench.rules ≡ project.bench.rules) × (bench.limits ≡ project.bench.limits)) }
    ensures state { IfOk result (λ bench. LooksAt loaded (read_of project) bench.history) }
{
    let Project {
        mut bench,
        commands,
    } = project;
    if !loaded {
        perform(alloc, &mut bench, &commands, steps)?;
    }
    Ok(bench)
}

/// How many rows each table has.
pub fn counts_of(alloc: Global, bench: &Bench) -> Result<List<u64>, AllocError>
    ensures { IfOk result (λ counts. counts ≡ counts_of bench.now.history.present) }
{
    let tables = bench.table_count();
    let mut counts = List::new(alloc);
    for table in 0..tables {
        counts.push(count_of(bench, table))?;
    }
    Ok(counts)
}

fn count_of(bench: &Bench, table: usize) -> u64
    requires { table < length bench.now.history.present }
    ensures { slice_get (counts_of bench.now.history.present) table ≡ Some result }
{
    bench.store(table).len() as u64
}
