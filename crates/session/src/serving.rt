//! The answers of a script.

ghost use Rattle.std.specs.Prelude.{◌≡◌, ◌≤◌, ◌+◌, ℕ, List, [], ◌∷◌, Option, Err, OnOk, OnErr};
ghost use Rattle.shelf_io.specs.Rising.{Rose};
ghost use Rattle.shelf_io.specs.Transcript.{Answers, AnswersFront};
ghost use Rattle.bench_core.specs.History.{first_undone, history_edited, last_past};
ghost use Rattle.bench_core.specs.Indexed.{AreOfTheChange, edit_probes};
ghost use Rattle.session.specs.Leading.{LeadsTo, LeadsWithin};
ghost use Rattle.session.specs.Probes.{IsCountedReply, IsWithin};
ghost use Rattle.edit_replies.specs.EditReplies.{IsEditReply};
ghost use Rattle.session.specs.Replies.{IsRedoReply, IsReply, IsUndoReply};
ghost use Rattle.session.specs.declared.serving.ServeFault.TheVariants as serve_fault;

use crate::export::push_exported;
use crate::reply::{push_count, push_explained, push_list};
use bench_core::{Bench, EditFault, RedoFault, UndoFault};
use edit_log::Edit;
use edit_replies::{answer_fix, push_done, push_edit_refused, push_refused};
use probe_steps::Steps;
use schema_core::List;
use script_lines::Command;
use shelf_io::{PutFailed, Sink, SteadySink, write_out};
use std::alloc::{AllocError, Global};
use std::sync::ledger::Ledger;
use thiserror::Error;

/// Why the answers end before the last command.
#[derive(Debug, Drop, Error, PartialEq, Eq)]
pub enum ServeFault {
    #[error("a reply could not be written")]
    WriteFault,
    #[error("out of memory")]
    Memory,
}

impl From<AllocError> for ServeFault {
    ghost from_gives = { λ _ e. e ≡ serve_fault.Memory };

    fn from(_e: AllocError) -> ServeFault {
        ServeFault::Memory
    }
}

/// Answers the commands in order. As the code stands, each reply goes to the sink whole, as one piece, before the next
/// command is begun; no clause says so.
pub fn serve<O: Sink, L: Ledger>(
    alloc: Global,
    bench: &mut Bench,
    commands: &List<Command>,
    out: &mut O,
    steps: &mut Steps<L>,
) -> Result<(), ServeFault>
    ensures ok { OnOk result (Answers (IsReply bench.old.rules bench.old.limits) bench.old.history commands.now bench.new.history (O.told out.old).written (O.told out.new).written) }

    // All of them took no more probes than the sum of what each may, in the history in which it is answered.
    ensures probes { OnOk result (Answers (IsCountedReply bench.old.rules bench.old.limits) (bench.old.history, steps.old) commands.now (bench.new.history, steps.new) (O.told out.old).written (O.told out.new).written) }

    // After a fault some of the commands were answered, the last reply perhaps not to its end or not at all.
    ensures fault { OnErr result (AnswersFront (IsReply bench.old.rules bench.old.limits) bench.old.history commands.now bench.new.history (O.told out.old).written (O.told out.new).written) }
    ensures made_with { (bench.new.rules ≡ bench.old.rules) × (bench.new.limits ≡ bench.old.limits) }
    ensures write_fault { result ≡ Err ServeFault.WriteFault → Rose (O.told out.old).faults (O.told out.new).faults }
    ensures faults { (O.told out.old).faults ≤ (O.told out.new).faults }
{
    let mut reply = Vec::new(alloc);
    for command in commands.as_slice() {
        answer_one(alloc, bench, command, &mut reply, out, steps)?;
    }
    Ok(())
}

/// Answers the commands with no one listening.
pub fn perform<L: Ledger>(
    alloc: Global,
    bench: &mut Bench,
    commands: &List<Command>,
    steps: &mut Steps<L>,
) -> Result<(), AllocError>
    ensures leads { OnOk result (LeadsTo bench.old.rules bench.old.limits bench.old.history commands.now bench.new.history) }
    ensures probes { OnOk result (LeadsWithin bench.old.rules bench.old.limits (bench.old.history, steps.old) commands.now (bench.new.history, steps.new)) }
    ensures made_with { (bench.new.rules ≡ bench.old.rules) × (bench.new.limits ≡ bench.old.limits) }
{
    match serve(alloc, bench, commands, &mut SteadySink::new(), steps) {
        Ok(()) => Ok(()),
        // That sink takes everything, so nothing but memory can be missing.
        Err(_) => Err(AllocError),
    }
}

/// Answers one command.
fn answer_one<O: Sink, L: Ledger>(
    alloc: Global,
    bench: &mut Bench,
    command: &Command,
    reply: &mut Vec<u8>,
    out: &mut O,
    steps: &mut Steps<L>,
) -> Result<(), ServeFault>
    ensures ok { OnOk result (Answers (IsReply bench.old.rules bench.old.limits) bench.old.history (command.now ∷ []) bench.new.history (O.told out.old).written (O.told out.new).written) }
    ensures fault { OnErr result (AnswersFront (IsReply bench.old.rules bench.old.limits) bench.old.history (command.now ∷ []) bench.new.history (O.told out.old).written (O.told out.new).written) }
    ensures made_with { (bench.new.rules ≡ bench.old.rules) × (bench.new.limits ≡ bench.old.limits) }
    ensures probes { IsWithin bench.old.rules bench.old.history command.now steps.old steps.new }
    ensures write_fault { result ≡ Err ServeFault.WriteFault → Rose (O.told out.old).faults (O.told out.new).faults }
    ensures faults { (O.told out.old).faults ≤ (O.told out.new).faults }
{
    reply.clear();
    answer(alloc, bench, command, reply, steps)?;
    match write_out(out, reply.as_slice()) {
        Ok(()) => Ok(()),
        Err(PutFailed) => Err(ServeFault::WriteFault),
    }
}

/// Makes the reply of one command, on an empty buffer.
fn answer<L: Ledger>(
    alloc: Global,
    bench: &mut Bench,
    command: &Command,
    reply: &mut Vec<u8>,
    steps: &mut Steps<L>,
) -> Result<(), AllocError>
    requires { reply.old.items ≡ [] }
    ensures ok { OnOk result (IsReply bench.old.rules bench.old.limits bench.old.history command.now reply.new.items bench.new.history) }

    // The bench is as before the command or as after it, and the sink wasn't touched.
    ensures memory { OnErr result ((written : Option (List ℕ)) → AnswersFront (IsReply bench.old.rules bench.old.limits) bench.old.history (command.now ∷ []) bench.new.history written written) }
    ensures made_with { (bench.new.rules ≡ bench.old.rules) × (bench.new.limits ≡ bench.old.limits) }
    ensures probes { IsWithin bench.old.rules bench.old.history command.now steps.old steps.new }
{
    match command {
        Command::Edit(edit) => answer_edit(bench, edit, reply, steps),
        Command::Fix {
            table,
            row,
            vouched,
        } => answer_fix(alloc, bench, table, *row, vouched, reply, steps),
        Command::Undo => answer_undo(bench, reply, steps),
        Command::Redo => answer_redo(bench, reply, steps),
        Command::List => push_list(reply, bench, steps),
        Command::Count => push_count(reply, bench, steps),
        Command::Explain { table, row } => push_explained(alloc, reply, bench, table, *row, steps),
        Command::Export { table } => push_exported(alloc, reply, bench, table),
    }
}

fn answer_edit<L: Ledger>(
    bench: &mut Bench,
    edit: &Edit,
    reply: &mut Vec<u8>,
    steps: &mut Steps<L>,
) -> Result<(), AllocError>
    requires { reply.old.items ≡ [] }
    ensures ok { OnOk result (IsEditReply bench.old.history edit.now (history_edited bench.old.rules bench.old.limits bench.old.history edit.now) reply.new.items bench.new.history) }
    ensures memory { OnErr result ((written : Option (List ℕ)) → AnswersFront (IsReply bench.old.rules bench.old.limits) bench.old.history (Command.Edit edit.now ∷ []) bench.new.history written written) }
    ensures made_with { (bench.new.rules ≡ bench.old.rules) × (bench.new.limits ≡ bench.old.limits) }
    ensures probes { steps.new ≤ steps.old + edit_probes bench.old.rules edit.now }
{
    match bench.apply(edit, steps) {
        Ok(applied) => push_done(reply, edit, applied),
        Err(EditFault::Memory) => Err(AllocError),
        Err(fault) => push_edit_refused(reply, &fault),
    }
}

fn answer_undo<L: Ledger>(
    bench: &mut Bench,
    reply: &mut Vec<u8>,
    steps: &mut Steps<L>,
) -> Result<(), AllocError>
    requires { reply.old.items ≡ [] }
    ensures ok { OnOk result (IsUndoReply bench.old.history reply.new.items bench.new.history) }
    ensures memory { OnErr result ((written : Option (List ℕ)) → AnswersFront (IsReply bench.old.rules bench.old.limits) bench.old.history (Command.Undo ∷ []) bench.new.history written written) }
    ensures made_with { (bench.new.rules ≡ bench.old.rules) × (bench.new.limits ≡ bench.old.limits) }
    ensures probes { AreOfTheChange bench.old.rules bench.old.history.present (last_past bench.old.history) steps.old steps.new }
{
    match bench.undo(steps) {
        Ok(()) => reply.extend_from_slice(b"undone\n"),
        Err(UndoFault::NothingToUndo) => push_refused(reply, b"NothingToUndo"),
        Err(UndoFault::Memory) => Err(AllocError),
    }
}

fn answer_redo<L: Ledger>(
    bench: &mut Bench,
    reply: &mut Vec<u8>,
    steps: &mut Steps<L>,
) -> Result<(), AllocError>
    requires { reply.old.items ≡ [] }
    ensures ok { OnOk result (IsRedoReply bench.old.history reply.new.items bench.new.history) }
    ensures memory { OnErr result ((written : Option (List ℕ)) → AnswersFront (IsReply bench.old.rules bench.old.limits) bench.old.history (Command.Redo ∷ []) bench.new.history written written) }
    ensures made_with { (bench.new.rules ≡ bench.old.rules) × (bench.new.limits ≡ bench.old.limits) }
    ensures probes { AreOfTheChange bench.old.rules bench.old.history.present (first_undone bench.old.history) steps.old steps.new }
{
    match bench.redo(steps) {
        Ok(()) => reply.extend_from_slice(b"redone\n"),
        Err(RedoFault::NothingToRedo) => push_refused(reply, b"NothingToRedo"),
        Err(RedoFault::Memory) => Err(AllocError),
    }
}
