//! The answer to a fix.

ghost use Rattle.std.specs.Prelude.{◌≡◌, ◌++◌, ◌+◌, ◌<◌, ◌≤◌, ℕ, List, [], Err, Ok, Some, length, IfOk, OnErr, OnOk};
ghost use Rattle.schema_core.specs.Schemas.{table_place};
ghost use Rattle.bench_core.specs.Answers.{IsRowAt};
ghost use Rattle.bench_core.specs.History.{History, history_edited};
ghost use Rattle.bench_core.specs.Indexed.{table_probes};
ghost use Rattle.bench_core.specs.Stored.{HaveTexts};
ghost use Rattle.bench_core.specs.declared.edit.Applied.TheVariants as applied;
ghost use Rattle.fix_engine.specs.Questions.{texts_of};
ghost use Rattle.rule_runs.specs.Marks.{marked};
ghost use Rattle.edit_replies.specs.Fixing.{asked, conflict_text, covered, fixed_text, name_at, value_at};
ghost use Rattle.edit_replies.specs.EditReplies.{IsFixReply};
ghost use Rattle.edit_replies.specs.Telling.{CanBeTold, IsToldFix, IsToldRun, texts_to_write, verdict_text};

use crate::edit_text::{push_edit_refused, push_refused};
use crate::fix_text::{push_conflict_line, push_fixed, push_run};
use bench_core::{Bench, RowAt};
use edit_log::Edit;
use fix_engine::{FixFault, Verdict, fix};
use probe_steps::Steps;
use row_store::RowId;
use rule_model::RuleBook;
use rule_runs::{Marks, Run};
use schema_core::{List, Table, Text, Texts};
use std::alloc::{AllocError, Global};
use std::sync::ledger::Ledger;
use value_pool::{Pool, ValueId};

/// Corrects a row where its fix is unique, and tells what changes; or tells two runs that disagree; or why neither can be
/// asked. After a refusal nothing is changed.
pub fn answer_fix<L: Ledger>(
    alloc: Global,
    bench: &mut Bench,
    table: &Text,
    row: RowId,
    vouched: &Texts,
    reply: &mut Vec<u8>,
    steps: &mut Steps<L>,
) -> Result<(), AllocError>
    requires { reply.old.items ≡ [] }
    ensures ok { OnOk result (IsFixReply bench.old.rules bench.old.history (asked bench.old.rules bench.old.history.present table.now row vouched.now) reply.new.items bench.new.history) }
    ensures memory { OnErr result (bench.new.history ≡ bench.old.history) }
    ensures made_with { (bench.new.rules ≡ bench.old.rules) × (bench.new.limits ≡ bench.old.limits) }
    ensures probes { steps.new ≤ steps.old + table_probes bench.old.rules table.now }
{
    match tell_fix(alloc, bench, table, row, vouched, reply)? {
        Some(values) => write_fix(bench, table, row, values, steps),
        None => Ok(()),
    }
}

/// Tells the answer. Gives the texts that the row is to get, where it is corrected.
fn tell_fix(
    alloc: Global,
    bench: &Bench,
    table: &Text,
    row: RowId,
    vouched: &Texts,
    reply: &mut Vec<u8>,
) -> Result<Option<Texts>, AllocError>
    requires { reply.old.items ≡ [] }
    ensures { IfOk result (IsToldFix bench.now.rules bench.now.limits bench.now.history (asked bench.now.rules bench.now.history.present table.now row vouched.now) reply.new.items) }
{
    match bench.find_row(table, row) {
        Ok(at) => tell_verdict(alloc, bench, &at, vouched, reply),
        Err(fault) => {
            push_edit_refused(reply, &fault)?;
            Ok(None)
        }
    }
}

/// Tells the verdict on a row.
fn tell_verdict(
    alloc: Global,
    bench: &Bench,
    at: &RowAt<'_>,
    vouched: &Texts,
    reply: &mut Vec<u8>,
) -> Result<Option<Texts>, AllocError>
    requires reply { reply.old.items ≡ [] }
    requires there { IsRowAt bench.now.rules bench.now.texts bench.now.history.present at.now }
    ensures { IfOk result (λ values. (name : List ℕ) → table_place bench.now.rules.schema name ≡ Some at.now.table → IsToldFix bench.now.rules bench.now.limits bench.now.history (asked bench.now.rules bench.now.history.present name at.now.row vouched.now) reply.new.items values) }
{
    let (rules, pool) = (bench.rules(), bench.pool());
    let told = FixedRow {
        rules,
        pool,
        table: &rules.schema().tables.as_slice()[at.table],
        row: at.row,
    };
    match fix(
        alloc,
        rules,
        pool,
        bench.masters(),
        at.table,
        at.tuple,
        vouched,
    ) {
        Ok(verdict) => told.push_verdict(alloc, reply, at.tuple.as_slice(), &verdict),
        Err(FixFault::UnknownAttr) => {
            push_refused(reply, b"UnknownAttr")?;
            Ok(None)
        }
        Err(FixFault::Memory) => Err(AllocError),
    }
}

/// Writes the fix of a row, which is no other edit than one of the whole row.
fn write_fix<L: Ledger>(
    bench: &mut Bench,
    table: &Text,
    row: RowId,
    values: Texts,
    steps: &mut Steps<L>,
) -> Result<(), AllocError>
    requires { (after : History) × (history_edited bench.old.rules bench.old.limits bench.old.history (Edit.Fix table.now row values) ≡ Ok (after, applied.Changed)) }
    ensures ok { OnOk result (history_edited bench.old.rules bench.old.limits bench.old.history (Edit.Fix table.now row values) ≡ Ok (bench.new.history, applied.Changed)) }
    ensures memory { OnErr result (bench.new.history ≡ bench.old.history) }
    ensures made_with { (bench.new.rules ≡ bench.old.rules) × (bench.new.limits ≡ bench.old.limits) }
    ensures probes { steps.new ≤ steps.old + table_probes bench.old.rules table.now }
{
    let edit = Edit::Fix {
        table: table.clone()?,
        row,
        values,
    };
    match bench.apply(&edit, steps) {
        Ok(_) => Ok(()),
        // The row is there and the values are a row of its table, so nothing but memory can be missing.
        Err(_) => Err(AllocError),
    }
}

/// How many of the attributes are marked.
fn count_of(marks: Marks, width: usize) -> usize
    requires { width ≤ 64 }
    ensures { result ≡ covered width (marked marks) }
{
    (0..width).filter(|attr| marks.has(*attr)).count()
}

fn name_of_attr(table: &Table, attr: usize) -> &Text
    requires { attr < length table.now.attrs }
    ensures { result.now ≡ name_at table.now attr }
{
    &table.attrs.as_slice()[attr].name
}

/// A row of a table that is fixed, with the rules and the texts by which that is told.
#[derive(Clone, Copy)]
struct FixedRow<'a> {
    rules: &'a RuleBook,
    pool: &'a Pool,
    table: &'a Table,
    row: RowId,
}

impl FixedRow<'_> {
    /// The texts of value ids.
    fn texts(&self, alloc: Global, ids: &[ValueId]) -> Result<Texts, AllocError>
        requires { HaveTexts self.now.pool.now ids.now }
        ensures { IfOk result (λ texts. texts ≡ texts_of self.now.pool.now ids.now) }
    {
        let mut texts = List::new(alloc);
        for id in ids {
            texts.push(Text::new(alloc, self.pool.text(*id))?)?;
        }
        Ok(texts)
    }

    /// Tells a verdict on the row, which has these value ids. Gives the texts that it is to get, where the fix is unique.
    fn push_verdict(
        &self,
        alloc: Global,
        reply: &mut Vec<u8>,
        old: &[ValueId],
        verdict: &Verdict,
    ) -> Result<Option<Texts>, AllocError>
        requires few { length self.now.table.now.attrs ≤ 64 }
        requires old { (length old.now ≡ length self.now.table.now.attrs) × HaveTexts self.now.pool.now old.now }
        requires told { CanBeTold self.now.rules.now self.now.pool.now self.now.table.now verdict.now }
        ensures text { OnOk result (reply.new.items ≡ reply.old.items ++ verdict_text self.now.rules.now self.now.pool.now self.now.table.now self.now.row old.now verdict.now) }
        ensures values { IfOk result (λ values. values ≡ texts_to_write self.now.pool.now verdict.now) }
    {
        match verdict {
            Verdict::Unique { tuple, covered, .. } => Ok(Some(self.push_unique(
                alloc,
                reply,
                old,
                tuple.as_slice(),
                *covered,
            )?)),
            Verdict::Conflict {
                first,
                second,
                attr,
            } => {
                self.push_conflict(reply, first, second, *attr)?;
                Ok(None)
            }
        }
    }

    /// The text that a tuple has at an attribute.
    fn value_at(&self, ids: &[ValueId], attr: usize) -> &str
        requires attr { attr < length ids.now }
        requires named { HaveTexts self.now.pool.now ids.now }
        ensures { result.now ≡ value_at (texts_of self.now.pool.now ids.now) attr }
    {
        self.pool.text(ids[attr])
    }

    /// Tells that the row gets a new tuple, and gives its texts.
    fn push_unique(
        &self,
        alloc: Global,
        reply: &mut Vec<u8>,
        old: &[ValueId],
        new: &[ValueId],
        marks: Marks,
    ) -> Result<Texts, AllocError>
        requires few { length self.now.table.now.attrs ≤ 64 }
        requires old { (length old.now ≡ length self.now.table.now.attrs) × HaveTexts self.now.pool.now old.now }
        requires new { (length new.now ≡ length self.now.table.now.attrs) × HaveTexts self.now.pool.now new.now }
        ensures text { OnOk result (reply.new.items ≡ reply.old.items ++ fixed_text self.now.table.now self.now.row (texts_of self.now.pool.now old.now) (texts_of self.now.pool.now new.now) (covered (length self.now.table.now.attrs) (marked marks))) }
        ensures values { IfOk result (λ values. values ≡ texts_of self.now.pool.now new.now) }
    {
        let before = self.texts(alloc, old)?;
        let after = self.texts(alloc, new)?;
        let count = count_of(marks, self.table.attrs.as_slice().len());
        let (from, to) = (before.as_slice(), after.as_slice());
        push_fixed(reply, self.table, self.row, from, to, count)?;
        Ok(after)
    }

    /// Tells that two runs end in different values of an attribute.
    fn push_conflict(
        &self,
        reply: &mut Vec<u8>,
        first: &Run,
        second: &Run,
        attr: usize,
    ) -> Result<(), AllocError>
        requires attr { attr < length self.now.table.now.attrs }
        requires first { IsToldRun self.now.rules.now self.now.pool.now self.now.table.now first.now }
        requires second { IsToldRun self.now.rules.now self.now.pool.now self.now.table.now second.now }
        ensures { OnOk result (reply.new.items ≡ reply.old.items ++ conflict_text self.now.rules.now self.now.table.now self.now.row attr (texts_of self.now.pool.now first.now.tuple) (texts_of self.now.pool.now second.now.tuple) first.now.moves second.now.moves) }
    {
        let one = self.value_at(first.tuple.as_slice(), attr);
        let other = self.value_at(second.tuple.as_slice(), attr);
        let name = name_of_attr(self.table, attr);
        push_conflict_line(reply, self.table, self.row, name, one, other)?;
        push_run(reply, self.rules, b"first", first.moves.as_slice())?;
        push_run(reply, self.rules, b"second", second.moves.as_slice())
    }
}
