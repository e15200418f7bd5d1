//! The form `implies PROJECT DEP BUDGET`: whether the rules of a project imply a dependency.
ghost use Rattle.std.specs.Prelude.{◌≡◌, ◌≤◌, length, IfOk};
ghost use Rattle.text_lists.specs.Limits.{AreLimits};
ghost use Rattle.rule_model.specs.Rules.{IsValidDep};
ghost use Rattle.rule_parser.specs.RuleFiles.{reads_dep};
ghost use Rattle.cli_output.specs.Fetching.{Fetches, Reads, about};
ghost use Rattle.cli_output.specs.Output.{Ends, IsWhole, Output, UsesDevices, Writes};
ghost use Rattle.cli_output.specs.RuleFiles.{spelled};
ghost use Rattle.rule_forms.specs.ImpliesForm.{fetch_asked, implication_status, implies_outputs, implies_task};

use crate::told::Told;
use cert_check::implication_text;
use cfd_implication::{DepQuestion, Implication};
use cli_output::{Cause, Status, Stop, end_by, end_with, fetch_book, refused};
use rule_model::{Dep, RuleBook};
use rule_parser::{ParseFault, parse_dep};
use schema_core::{Limits, Text};
use shelf_io::{Shelf, Sink};
use std::alloc::{AllocError, Global};

/// The rules of a project, and a dependency over their schema.
#[derive(Drop)]
pub struct Asked {
    pub rules: RuleBook,
    pub dep: Dep,
}

/// Tells whether the rules of a project imply the dependency that a word spells, by a search of at most that many leaves.
pub fn implies_project<S: Shelf, O: Sink>(
    alloc: Global,
    project: &Text,
    word: &Text,
    budget: u64,
    shelf: &mut S,
    out: &mut O,
    limits: &Limits,
) -> Status
    requires limits { AreLimits limits.now }
    requires some { 1 ≤ budget }
    requires within { budget ≤ 1000000 }
    ensures written { Writes (Output limits.now (implies_task limits.now project.now word.now budget) (S.told shelf.old).holding) result (O.told out.old).written (O.told out.new).written }
    ensures devices { UsesDevices limits.now (implies_task limits.now project.now word.now budget) result (S.told shelf.old) (S.told shelf.new) (O.told out.old) (O.told out.new) }
{
    let mut left = limits.all_bytes;
    match fetch_asked(alloc, shelf, project, word, limits, &mut left) {
        Ok(asked) => answer(alloc, &asked, budget, out),
        Err(stop) => end_by(alloc, &stop, out),
    }
}

/// The rules of a project, and then the dependency.
#[tactic(auto, unfolding(crate::specs::ImpliesForm::fetch_asked))]
fn fetch_asked<S: Shelf>(
    alloc: Global,
    shelf: &mut S,
    project: &Text,
    word: &Text,
    limits: &Limits,
    left: &mut u64,
) -> Result<Asked, Stop>
    requires { AreLimits limits.now }
    ensures asked { Fetches (fetch_asked limits.now project.now word.now) (λ asked. asked) 2 result (S.told shelf.old) (S.told shelf.new) left.old left.new }
    ensures valid { IfOk result (λ asked. IsValidDep asked.rules.schema asked.dep) }
    ensures row { IfOk result (λ asked. length asked.dep.rule.rows ≡ 1) }
{
    let rules = fetch_book(alloc, shelf, project, limits, left)?;
    let dep = dep_of(alloc, &rules, word)?;
    Ok(Asked { rules, dep })
}

fn dep_of(alloc: Global, rules: &RuleBook, word: &Text) -> Result<Dep, Stop>
    ensures dep { Reads (about word.now (spelled Cause.Rules (reads_dep rules.now.schema word.now))) (λ dep. dep) result }
    ensures valid { IfOk result (IsValidDep rules.now.schema) }
    ensures row { IfOk result (λ dep. length dep.rule.rows ≡ 1) }
{
    match parse_dep(alloc, rules, word.as_str()) {
        Ok(dep) => Ok(dep),
        Err(ParseFault::At { line, cause }) => refused(word, Cause::Rules { line, cause }),
        Err(ParseFault::Memory) => Err(Stop::Memory),
    }
}

/// Writes a certificate of whether the rules imply the dependency.
fn answer<O: Sink>(alloc: Global, asked: &Asked, budget: u64, out: &mut O) -> Status
    requires valid { IsValidDep asked.now.rules.schema asked.now.dep }
    requires row { length asked.now.dep.rule.rows ≡ 1 }
    requires some { 1 ≤ budget }
    requires within { budget ≤ 1000000 }
    ensures { Ends (implies_outputs budget asked.now) result (O.told out.old) (O.told out.new) }
{
    match told_of(alloc, asked, budget) {
        Ok(told) => end_with(out, &told.text, told.status),
        Err(AllocError) => Status::Memory,
    }
}

fn told_of(alloc: Global, asked: &Asked, budget: u64) -> Result<Told, AllocError>
    requires valid { IsValidDep asked.now.rules.schema asked.now.dep }
    requires row { length asked.now.dep.rule.rows ≡ 1 }
    requires some { 1 ≤ budget }
    requires within { budget ≤ 1000000 }
    ensures output { IfOk result (λ told. implies_outputs budget asked.now told.text.items told.status) }
    ensures whole { IfOk result (λ told. IsWhole told.status) }
{
    let question = DepQuestion::of_book(alloc, &asked.rules, &asked.dep)?;
    let answer = question.decide(alloc, budget)?;
    let text = implication_text(alloc, &question, &answer)?;
    let status = implication_status(&answer);
    Ok(Told { text, status })
}

fn implication_status(answer: &Implication) -> Status
    ensures status { result ≡ implication_status answer.now }
    ensures whole { IsWhole result }
{
    match answer {
        Implication::Counter(_, _) => Status::Findings,
        Implication::Implied(_) => Status::Clean,
        Implication::Spent(_) => Status::Spent,
    }
}
