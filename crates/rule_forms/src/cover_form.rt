//! The form `cover PROJECT TABLE BUDGET`: which pieces of the rules of a table the others imply.
ghost use Rattle.std.specs.Prelude.{◌≡◌, ◌≤◌, not, IfOk, IsSome};
ghost use Rattle.std.specs.List.{list_any};
ghost use Rattle.text_lists.specs.Limits.{AreLimits};
ghost use Rattle.schema_core.specs.Schemas.{table_place};
ghost use Rattle.rule_cover.specs.Fates.{is_spent, stays};
ghost use Rattle.cli_output.specs.Output.{Ends, IsWhole, Output, UsesDevices, Writes};
ghost use Rattle.rule_forms.specs.CoverForm.{cover_outputs, cover_status, cover_task};

use crate::consistent_form::fetch_known;
use crate::told::Told;
use cli_output::{Status, end_by, end_with};
use rule_cover::{Fate, Piece, cover, cover_text};
use rule_model::RuleBook;
use schema_core::{Limits, Text};
use shelf_io::{Shelf, Sink};
use std::alloc::{AllocError, Global};

/// Tells what becomes of each piece of a table's rules, each by a search of at most that many leaves.
pub fn cover_project<S: Shelf, O: Sink>(
    alloc: Global,
    project: &Text,
    table: &Text,
    budget: u64,
    shelf: &mut S,
    out: &mut O,
    limits: &Limits,
) -> Status
    requires limits { AreLimits limits.now }
    requires some { 1 ≤ budget }
    requires within { budget ≤ 1000000 }
    ensures written { Writes (Output limits.now (cover_task limits.now project.now table.now budget) (S.told shelf.old).holding) result (O.told out.old).written (O.told out.new).written }
    ensures devices { UsesDevices limits.now (cover_task limits.now project.now table.now budget) result (S.told shelf.old) (S.told shelf.new) (O.told out.old) (O.told out.new) }
{
    let mut left = limits.all_bytes;
    match fetch_known(alloc, shelf, project, table, limits, &mut left) {
        Ok(rules) => answer(alloc, &rules, table, budget, out),
        Err(stop) => end_by(alloc, &stop, out),
    }
}

/// Writes the fates of the pieces of the table.
fn answer<O: Sink>(
    alloc: Global,
    rules: &RuleBook,
    table: &Text,
    budget: u64,
    out: &mut O,
) -> Status
    requires known { IsSome (table_place rules.now.schema table.now) }
    requires some { 1 ≤ budget }
    requires within { budget ≤ 1000000 }
    ensures { Ends (cover_outputs table.now budget rules.now) result (O.told out.old) (O.told out.new) }
{
    match told_of(alloc, rules, table, budget) {
        Ok(told) => end_with(out, &told.text, told.status),
        Err(AllocError) => Status::Memory,
    }
}

fn told_of(alloc: Global, rules: &RuleBook, table: &Text, budget: u64) -> Result<Told, AllocError>
    requires known { IsSome (table_place rules.now.schema table.now) }
    requires some { 1 ≤ budget }
    requires within { budget ≤ 1000000 }
    ensures output { IfOk result (λ told. cover_outputs table.now budget rules.now told.text.items told.status) }
    ensures whole { IfOk result (λ told. IsWhole told.status) }
{
    match cover(alloc, rules, table.as_str(), budget) {
        Ok(found) => {
            let text = cover_text(alloc, rules, &found)?;
            let status = status_of(found.fates.as_slice());
            Ok(Told { text, status })
        }
        Err(_) => Err(AllocError),
    }
}

fn status_of(fates: &[(Piece, Fate)]) -> Status
    ensures status { result ≡ cover_status fates.now }
    ensures whole { IsWhole result }
{
    if any_spent(fates) {
        Status::Spent
    } else if any_dropped(fates) {
        Status::Findings
    } else {
        Status::Clean
    }
}

fn any_spent(fates: &[(Piece, Fate)]) -> bool
    ensures { result ≡ list_any (λ fate. is_spent fate.1) fates.now }
{
    fates.iter().any(|fate| fate.1.is_spent())
}

fn any_dropped(fates: &[(Piece, Fate)]) -> bool
    ensures { result ≡ list_any (λ fate. not (stays fate.1)) fates.now }
{
    fates.iter().any(|fate| !fate.1.stays())
}
