//! A desk and its answers.

ghost use Rattle.std.specs.Prelude.{◌≡◌, ◌+◌, ◌≤◌, [], IfOk, OnErr};
ghost use Rattle.bench_core.specs.Bench.{IsHistory};
ghost use Rattle.bench_core.specs.Edited.{row_named};
ghost use Rattle.bench_core.specs.Indexed.{edit_probes};
ghost use Rattle.desk_entries.specs.Entries.{entry_at, last_live};
ghost use Rattle.desk_entries.specs.Kept.{MayTake};
ghost use Rattle.desk_state.specs.Desk.{AreTold, IsDeskAnswer, act_answer, edit_answer, edit_seen, look_answer, take_last_back};
ghost use Rattle.desk_state.specs.LeftTexts.{AreAsLeft, IsReached};
ghost use Rattle.desk_state.specs.Probes.{IsWithin, back_probes};

use crate::making::{new_entry, opposite, row_of_edit};
use crate::reply::Reply;
use bench_core::{Bench, EditFault, texts_of};
use desk_entries::{Entries, NewEntry};
use desk_events::{Act, Event};
use edit_log::Edit;
use probe_steps::Steps;
use row_store::RowId;
use schema_core::Text;
use std::alloc::{AllocError, Global};
use std::marker::Model;
use std::sync::ledger::Ledger;
use violation_report::list;

/// A bench on which several editors work, with an entry for each edit that was accepted since it was opened. Clauses see
/// the rules, limits and history of the bench, the entries, and the most entries that there may be.
#[derive(Drop)]
pub struct Desk {
    alloc: Global,
    bench: Bench,
    entries: Entries,
    last: u64,
}

impl Model for Desk {
    ghost use Rattle.std.specs.Prelude.{◌≤◌};
    ghost use Rattle.desk_state.specs.Desk.{DeskModel};

    ghost Value = { DeskModel };

    ghost view = { λ d. record { rules = d.bench.rules; limits = d.bench.limits; last = d.last; history = d.bench.history; entries = d.entries.entries } };

    ghost invariant = { λ d. d.last ≤ 999_999_999_999 };
}

impl Desk {
    /// A desk with no entry yet, that accepts at most `last` edits. It takes no memory.
    pub fn open(alloc: Global, bench: Bench, last: u64) -> Desk
        requires { last ≤ 999_999_999_999 }
        ensures bench { (result.rules ≡ bench.rules) × (result.limits ≡ bench.limits) × (result.history ≡ bench.history) }
        ensures last { result.last ≡ last }
        ensures no_entries { result.entries ≡ [] }
        ensures reached { IsReached result }
    {
        let _valid = bench.rules();
        let keys = bench.pool().hash_keys();
        Desk {
            alloc,
            bench,
            entries: Entries::with_hasher(alloc, keys),
            last,
        }
    }

    /// Answers an event. After want of memory the desk is as before.
    pub fn answer<L: Ledger>(
        &mut self,
        event: &Event,
        steps: &mut Steps<L>,
    ) -> Result<Reply, AllocError>
        ensures ok { IfOk result (λ reply. IsDeskAnswer self.old event.now reply self.new) }
        ensures memory { OnErr result (self.new ≡ self.old) }
        ensures made_with { (self.new.rules ≡ self.old.rules) × (self.new.limits ≡ self.old.limits) × (self.new.last ≡ self.old.last) }
        ensures valid { IsHistory self.new.rules self.new.limits self.new.history }
        ensures probes { IsWithin self.old event.now.editor event.now.act steps.old steps.new }

        // A refusal tells what is wrong with the edit, and the lines are those of rules that are there.
        ensures told { IfOk result (AreTold self.new.rules) }

        // A row that is there has the texts that the last live entry on it left, or else those that it came with.
        ensures reached { IsReached self.old → IsReached self.new }
        ensures as_left { IsReached self.old → AreAsLeft self.new }
    {
        let reply = self.reply(&event.editor, &event.act, steps);
        let _valid = self.bench.rules();
        reply
    }

    /// Answers an act of an editor.
    fn reply<L: Ledger>(
        &mut self,
        editor: &Text,
        act: &Act,
        steps: &mut Steps<L>,
    ) -> Result<Reply, AllocError>
        ensures ok { IfOk result (λ reply. act_answer self.old editor.now act.now ≡ (reply, self.new)) }
        ensures memory { OnErr result (self.new ≡ self.old) }
        ensures made_with { (self.new.rules ≡ self.old.rules) × (self.new.limits ≡ self.old.limits) × (self.new.last ≡ self.old.last) }
        ensures probes { IsWithin self.old editor.now act.now steps.old steps.new }
        ensures told { IfOk result (AreTold self.new.rules) }
    {
        match act {
            Act::Insert { table, values } => {
                let edit = Edit::Insert {
                    table: table.clone()?,
                    values: values.copied()?,
                };
                self.edit(editor, None, &edit, steps)
            }
            Act::Set {
                table,
                row,
                seen,
                attr,
                value,
            } => {
                let edit = Edit::Set {
                    table: table.clone()?,
                    row: *row,
                    attr: attr.clone()?,
                    value: value.clone()?,
                };
                self.edit_seen(editor, table, *row, *seen, &edit, steps)
            }
            Act::Delete { table, row, seen } => {
                let edit = Edit::Delete {
                    table: table.clone()?,
                    row: *row,
                };
                self.edit_seen(editor, table, *row, *seen, &edit, steps)
            }
            Act::TakeBack => self.take_back(editor, steps),
            Act::Look { table, row } => self.look(table, *row),
            Act::List => Ok(Reply::Lines(list(self.alloc, &self.bench.queries(), steps)?)),
        }
    }

    /// Makes an edit as the next entry, unless all numbers are spent. All that may want memory comes before the edit.
    fn edit<L: Ledger>(
        &mut self,
        editor: &Text,
        takes: Option<usize>,
        edit: &Edit,
        steps: &mut Steps<L>,
    ) -> Result<Reply, AllocError>
        requires may { MayTake self.old.entries editor.now takes }
        ensures ok { IfOk result (λ reply. edit_answer self.old editor.now takes edit.now ≡ (reply, self.new)) }
        ensures memory { OnErr result (self.new ≡ self.old) }
        ensures made_with { (self.new.rules ≡ self.old.rules) × (self.new.limits ≡ self.old.limits) × (self.new.last ≡ self.old.last) }
        ensures probes { steps.new ≤ steps.old + edit_probes self.old.rules edit.now }
        ensures told { IfOk result (AreTold self.new.rules) }
    {
        let count = self.entries.len() as u64;
        if count >= self.last {
            return Ok(Reply::EditsSpent);
        }
        let entry = new_entry(self.alloc, &self.bench, editor, takes, edit)?;
        let editor = editor.clone()?;
        self.entries.ready()?;
        match self.bench.apply(edit, steps) {
            Ok(applied) => {
                let row = row_of_edit(edit, applied);
                let table = entry.table;
                self.entries.push(NewEntry { row, ..entry }, editor);
                Ok(Reply::Done {
                    table,
                    row,
                    version: count + 1,
                })
            }
            Err(EditFault::Memory) => Err(AllocError),
            Err(fault) => Ok(Reply::Refused(fault)),
        }
    }

    /// Makes an edit of a row that was seen in a version, which must be its present one.
    fn edit_seen<L: Ledger>(
        &mut self,
        editor: &Text,
        table: &Text,
        row: RowId,
        seen: u64,
        edit: &Edit,
        steps: &mut Steps<L>,
    ) -> Result<Reply, AllocError>
        ensures ok { IfOk result (λ reply. edit_seen self.old editor.now row seen edit.now (row_named self.old.rules self.old.history.present table.now row) ≡ (reply, self.new)) }
        ensures memory { OnErr result (self.new ≡ self.old) }
        ensures made_with { (self.new.rules ≡ self.old.rules) × (self.new.limits ≡ self.old.limits) × (self.new.last ≡ self.old.last) }
        ensures probes { steps.new ≤ steps.old + edit_probes self.old.rules edit.now }
        ensures told { IfOk result (AreTold self.new.rules) }
    {
        let number = match self.bench.find_row(table, row) {
            Ok(at) => at.table,
            Err(fault) => return Ok(Reply::Refused(fault)),
        };
        let version = self.entries.version(number, row) as u64;
        if seen != version {
            return Ok(Reply::Stale { version });
        }
        self.edit(editor, None, edit, steps)
    }

    /// Takes back the editor's last entry that still stands.
    fn take_back<L: Ledger>(
        &mut self,
        editor: &Text,
        steps: &mut Steps<L>,
    ) -> Result<Reply, AllocError>
        ensures ok { IfOk result (λ reply. take_last_back self.old editor.now ≡ (reply, self.new)) }
        ensures memory { OnErr result (self.new ≡ self.old) }
        ensures made_with { (self.new.rules ≡ self.old.rules) × (self.new.limits ≡ self.old.limits) × (self.new.last ≡ self.old.last) }
        ensures probes { steps.new ≤ steps.old + back_probes self.old.rules (entry_at self.old.entries (last_live self.old.entries editor.now)) }
        ensures told { IfOk result (AreTold self.new.rules) }
    {
        let number = self.entries.last_live(editor);
        let Some(kept) = self.entries.entry(number) else {
            return Ok(Reply::NothingToTakeBack);
        };
        if self.entries.is_overtaken(number, kept) {
            let version = self.entries.version(kept.entry.table, kept.entry.row) as u64;
            return Ok(Reply::Overtaken { version });
        }
        let edit = opposite(self.alloc, self.bench.rules(), &kept.entry)?;
        self.edit(editor, Some(number), &edit, steps)
    }

    /// The row with its version.
    fn look(&self, table: &Text, row: RowId) -> Result<Reply, AllocError>
        ensures ok { IfOk result (λ reply. look_answer self.now row (row_named self.now.rules self.now.history.present table.now row) ≡ (reply, self.now)) }
        ensures told { IfOk result (AreTold self.now.rules) }
    {
        match self.bench.find_row(table, row) {
            Ok(at) => Ok(Reply::Row {
                table: at.table,
                version: self.entries.version(at.table, row) as u64,
                values: texts_of(self.alloc, self.bench.pool(), at.tuple)?,
            }),
            Err(fault) => Ok(Reply::Refused(fault)),
        }
    }

    pub fn bench(&self) -> &Bench
        ensures bench { (result.now.rules ≡ self.now.rules) × (result.now.limits ≡ self.now.limits) × (result.now.history ≡ self.now.history) }
        ensures valid { IsHistory self.now.rules self.now.limits self.now.history }
    {
        let _valid = self.bench.rules();
        &self.bench
    }

    /// The bench as it stands, without the entries.
    pub fn into_bench(self) -> Bench
        ensures { (result.rules ≡ self.rules) × (result.limits ≡ self.limits) × (result.history ≡ self.history) }
    {
        self.bench
    }
}
