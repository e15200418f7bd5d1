//! The generated project before its first edit.

ghost use Rattle.std.specs.Prelude.{◌≡◌, IfOk, OnOk};
ghost use Rattle.text_lists.specs.Limits.{standard};
ghost use Rattle.drawn_project.specs.Project.{AreRules, Begins, rows};

use crate::draws::Draws;
use crate::project::{draw_rows, master_rows, rules};
use bench_core::Bench;
use hash_keys::HashKeys;
use probe_steps::Steps;
use schema_core::{Limits, List};
use std::alloc::{AllocError, Global};
use std::sync::ledger::Ledger;

/// The tables with the rows that are drawn.
pub fn draw_bench<L: Ledger>(
    alloc: Global,
    draws: &mut Draws,
    steps: &mut Steps<L>,
) -> Result<Bench, AllocError>
    ensures rules { IfOk result (λ bench. AreRules bench.rules) }
    ensures limits { IfOk result (λ bench. bench.limits ≡ standard) }
    ensures begins { IfOk result (λ bench. Begins bench.rules (rows draws.old).0 bench.history) }
    ensures drawn { OnOk result (draws.new ≡ (rows draws.old).1) }
{
    let rules = rules(alloc)?;
    let mut tables = List::new(alloc);
    tables.push(draw_rows(alloc, draws)?)?;
    tables.push(master_rows(alloc, 4_500)?)?;
    match Bench::load(
        alloc,
        HashKeys::fixed(),
        rules,
        tables,
        Limits::standard(),
        steps,
    ) {
        Ok(bench) => Ok(bench),
        // The rows are far fewer than the limits take.
        Err(_) => Err(AllocError),
    }
}
