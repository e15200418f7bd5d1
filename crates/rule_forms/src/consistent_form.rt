//! The form `consistent PROJECT TABLE BUDGET`: whether the dependencies of a table are consistent.
ghost use Rattle.std.specs.Prelude.{◌≡◌, ◌<◌, ◌≤◌, length, IfOk, IsSome};
ghost use Rattle.text_lists.specs.Limits.{AreLimits};
ghost use Rattle.schema_core.specs.Schemas.{table_place};
ghost use Rattle.rule_parser.specs.RuleText.{table_name};
ghost use Rattle.cli_output.specs.Fetching.{Fetches, Reads, about};
ghost use Rattle.cli_output.specs.Output.{Ends, IsWhole, Output, UsesDevices, Writes};
ghost use Rattle.rule_forms.specs.ConsistentForm.{consistency_status, consistent_outputs, consistent_task, fetch_known, if_known};

use crate::told::Told;
use cert_check::consistency_text;
use cfd_consistency::{Consistency, TableQuestion};
use cli_output::{Cause, Status, Stop, end_by, end_with, fetch_book, refused};
use rule_model::RuleBook;
use schema_core::{Limits, Text};
use shelf_io::{Shelf, Sink};
use std::alloc::{AllocError, Global};

/// Tells whether the dependencies of a table of a project are consistent, by a search of at most that many leaves.
pub fn consistent_project<S: Shelf, O: Sink>(
    alloc: Global,
    project: &Text,
    table: &Text,
    budget: u64,
    shelf: &mut S,
    out: &mut O,
    limits: &Limits,
) -> Status
    requires limits { AreLimits limits.now }
    requires some { 1 ≤ budget }
    requires within { budget ≤ 1000000 }
    ensures written { Writes (Output limits.now (consistent_task limits.now project.now table.now budget) (S.told shelf.old).holding) result (O.told out.old).written (O.told out.new).written }
    ensures devices { UsesDevices limits.now (consistent_task limits.now project.now table.now budget) result (S.told shelf.old) (S.told shelf.new) (O.told out.old) (O.told out.new) }
{
    let mut left = limits.all_bytes;
    match fetch_known(alloc, shelf, project, table, limits, &mut left) {
        Ok(rules) => answer(alloc, &rules, table, budget, out),
        Err(stop) => end_by(alloc, &stop, out),
    }
}

/// The rules of a project that has the table.
#[tactic(auto, unfolding(crate::specs::ConsistentForm::fetch_known))]
pub fn fetch_known<S: Shelf>(
    alloc: Global,
    shelf: &mut S,
    project: &Text,
    table: &Text,
    limits: &Limits,
    left: &mut u64,
) -> Result<RuleBook, Stop>
    requires { AreLimits limits.now }
    ensures rules { Fetches (fetch_known limits.now project.now table.now) (λ rules. rules) 2 result (S.told shelf.old) (S.told shelf.new) left.old left.new }
    ensures known { IfOk result (λ rules. IsSome (table_place rules.schema table.now)) }
{
    let rules = fetch_book(alloc, shelf, project, limits, left)?;
    if_known(rules, table)
}

fn if_known(rules: RuleBook, table: &Text) -> Result<RuleBook, Stop>
    ensures rules { Reads (about table.now (if_known rules (table_place rules.schema table.now))) (λ rules. rules) result }
    ensures known { IfOk result (λ rules. IsSome (table_place rules.schema table.now)) }
{
    match rules.schema().table_named(table.as_str()) {
        Some(_) => Ok(rules),
        None => refused(table, Cause::UnknownTable),
    }
}

/// Writes a certificate of whether the dependencies of the table are consistent.
fn answer<O: Sink>(
    alloc: Global,
    rules: &RuleBook,
    table: &Text,
    budget: u64,
    out: &mut O,
) -> Status
    requires known { IsSome (table_place rules.now.schema table.now) }
    requires some { 1 ≤ budget }
    requires within { budget ≤ 1000000 }
    ensures { Ends (consistent_outputs table.now budget rules.now) result (O.told out.old) (O.told out.new) }
{
    match told_of(alloc, rules, table, budget) {
        Ok(told) => end_with(out, &told.text, told.status),
        Err(AllocError) => Status::Memory,
    }
}

fn told_of(alloc: Global, rules: &RuleBook, table: &Text, budget: u64) -> Result<Told, AllocError>
    requires known { IsSome (table_place rules.now.schema table.now) }
    requires some { 1 ≤ budget }
    requires within { budget ≤ 1000000 }
    ensures output { IfOk result (λ told. consistent_outputs table.now budget rules.now told.text.items told.status) }
    ensures whole { IfOk result (λ told. IsWhole told.status) }
{
    let Some(number) = rules.schema().table_named(table.as_str()) else {
        unreachable!();
    };
    told_about(alloc, rules, number, budget)
}

/// The same of a table by its number. The question is made once, for whoever decides it and whoever writes the answer.
fn told_about(
    alloc: Global,
    rules: &RuleBook,
    table: usize,
    budget: u64,
) -> Result<Told, AllocError>
    requires there { table < length rules.now.schema.tables }
    requires some { 1 ≤ budget }
    requires within { budget ≤ 1000000 }
    ensures output { IfOk result (λ told. consistent_outputs (table_name rules.now.schema table) budget rules.now told.text.items told.status) }
    ensures whole { IfOk result (λ told. IsWhole told.status) }
{
    let asked = TableQuestion::new(alloc, rules, table)?;
    let answer = asked.decide(alloc, budget)?;
    let text = consistency_text(alloc, &asked, &answer)?;
    let status = consistency_status(&answer);
    Ok(Told { text, status })
}

fn consistency_status(answer: &Consistency) -> Status
    ensures status { result ≡ consistency_status answer.now }
    ensures whole { IsWhole result }
{
    match answer {
        Consistency::Witness(_) => Status::Clean,
        Consistency::Never(_) => Status::Findings,
        Consistency::Spent(_) => Status::Spent,
    }
}
