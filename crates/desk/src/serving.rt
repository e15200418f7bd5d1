//! The answers to a list of events.

ghost use Rattle.std.specs.Prelude.{◌≡◌, ◌≤◌, ℕ, List, [], ◌∷◌, Option, Err, OnOk, OnErr};
ghost use Rattle.shelf_io.specs.Rising.{Rose};
ghost use Rattle.shelf_io.specs.Transcript.{Answers, AnswersFront};
ghost use Rattle.desk.specs.DeskReplies.{IsCountedReply, IsReply};
ghost use Rattle.desk.specs.OneHistory.{AreOneHistory};
ghost use Rattle.desk.specs.declared.serving.DeskFault.TheVariants as desk_fault;
ghost use Rattle.desk_state.specs.LeftTexts.{AreAsLeft, IsReached};
ghost use Rattle.desk_state.specs.Probes.{IsWithin};

use crate::reply::push_reply;
use desk_events::Event;
use desk_state::Desk;
use probe_steps::Steps;
use shelf_io::{PutFailed, Sink, write_out};
use std::alloc::{AllocError, Global};
use std::sync::ledger::Ledger;
use text_lists::List;
use thiserror::Error;

/// Why the answers end before the last event.
#[derive(Debug, Drop, Error, PartialEq, Eq)]
pub enum DeskFault {
    #[error("a reply could not be written")]
    WriteFault,
    #[error("out of memory")]
    Memory,
}

impl From<AllocError> for DeskFault {
    ghost from_gives = { λ _ e. e ≡ desk_fault.Memory };

    fn from(_e: AllocError) -> DeskFault {
        DeskFault::Memory
    }
}

/// Answers the events in order. As the code stands, each reply goes to the sink whole, as one piece, before the next event
/// is begun; no clause says so.
pub fn serve_desk<O: Sink, L: Ledger>(
    alloc: Global,
    desk: &mut Desk,
    events: &List<Event>,
    out: &mut O,
    steps: &mut Steps<L>,
) -> Result<(), DeskFault>
    ensures ok { OnOk result (Answers IsReply desk.old events.now desk.new (O.told out.old).written (O.told out.new).written) }

    // All of them took no more probes than the sum of what each may, at the desk at which it is answered.
    ensures probes { OnOk result (Answers IsCountedReply (desk.old, steps.old) events.now (desk.new, steps.new) (O.told out.old).written (O.told out.new).written) }

    // After a fault some of the events were answered, the last reply perhaps not to its end or not at all.
    ensures fault { OnErr result (AnswersFront IsReply desk.old events.now desk.new (O.told out.old).written (O.told out.new).written) }

    // Whoever made them and wherever the answers end: the accepted edits are those of one history.
    ensures one_history { AreOneHistory desk.old desk.new }
    ensures made_with { (desk.new.rules ≡ desk.old.rules) × (desk.new.limits ≡ desk.old.limits) × (desk.new.last ≡ desk.old.last) }

    // The rows of a desk that began without an entry are as the last live entries on them left them.
    ensures reached { IsReached desk.old → IsReached desk.new }
    ensures as_left { IsReached desk.old → AreAsLeft desk.new }
    ensures write_fault { result ≡ Err DeskFault.WriteFault → Rose (O.told out.old).faults (O.told out.new).faults }
    ensures faults { (O.told out.old).faults ≤ (O.told out.new).faults }
{
    let mut reply = Vec::new(alloc);
    for event in events.as_slice() {
        answer_one(desk, event, &mut reply, out, steps)?;
    }
    Ok(())
}

/// Answers one event.
fn answer_one<O: Sink, L: Ledger>(
    desk: &mut Desk,
    event: &Event,
    reply: &mut Vec<u8>,
    out: &mut O,
    steps: &mut Steps<L>,
) -> Result<(), DeskFault>
    ensures ok { OnOk result (Answers IsReply desk.old (event.now ∷ []) desk.new (O.told out.old).written (O.told out.new).written) }
    ensures fault { OnErr result (AnswersFront IsReply desk.old (event.now ∷ []) desk.new (O.told out.old).written (O.told out.new).written) }
    ensures one_history { AreOneHistory desk.old desk.new }
    ensures made_with { (desk.new.rules ≡ desk.old.rules) × (desk.new.limits ≡ desk.old.limits) × (desk.new.last ≡ desk.old.last) }
    ensures reached { IsReached desk.old → IsReached desk.new }
    ensures probes { IsWithin desk.old event.now.editor event.now.act steps.old steps.new }
    ensures write_fault { result ≡ Err DeskFault.WriteFault → Rose (O.told out.old).faults (O.told out.new).faults }
    ensures faults { (O.told out.old).faults ≤ (O.told out.new).faults }
{
    reply.clear();
    answer(desk, event, reply, steps)?;
    match write_out(out, reply.as_slice()) {
        Ok(()) => Ok(()),
        Err(PutFailed) => Err(DeskFault::WriteFault),
    }
}

/// Makes the reply to one event, on an empty buffer.
fn answer<L: Ledger>(
    desk: &mut Desk,
    event: &Event,
    reply: &mut Vec<u8>,
    steps: &mut Steps<L>,
) -> Result<(), AllocError>
    requires { reply.old.items ≡ [] }
    ensures ok { OnOk result (IsReply desk.old event.now reply.new.items desk.new) }

    // The desk is as before the event or as after it, and the sink wasn't touched.
    ensures memory { OnErr result ((written : Option (List ℕ)) → AnswersFront IsReply desk.old (event.now ∷ []) desk.new written written) }
    ensures one_history { AreOneHistory desk.old desk.new }
    ensures made_with { (desk.new.rules ≡ desk.old.rules) × (desk.new.limits ≡ desk.old.limits) × (desk.new.last ≡ desk.old.last) }
    ensures reached { IsReached desk.old → IsReached desk.new }
    ensures probes { IsWithin desk.old event.now.editor event.now.act steps.old steps.new }
{
    let told = desk.answer(event, steps)?;
    push_reply(reply, desk.bench().rules(), &event.act, &told)
}
