//! How a call ends that writes one text, or whose files weren't read to the end.
ghost use Rattle.std.specs.Prelude.{◌≡◌, ◌⊎◌};
ghost use Rattle.cli_output.specs.Output.{Ends, EndsBy, IsWhole, Only};

use crate::fetching::Stop;
use crate::refusal::{Refusal, refusal_line};
use crate::status::Status;
use shelf_io::{PutFailed, Sink, write_out};
use std::alloc::Global;

/// Writes a text that goes with a status.
pub fn end_with<O: Sink>(out: &mut O, text: &[u8], status: Status) -> Status
    requires { IsWhole status }
    ensures ends { Ends (Only text.now status) result (O.told out.old) (O.told out.new) }
    ensures either { (result ≡ status) ⊎ (result ≡ Status.WriteFault) }
{
    match write_out(out, text) {
        Ok(()) => status,
        Err(PutFailed) => Status::WriteFault,
    }
}

/// Ends a call whose files weren't read to the end.
pub fn end_by<O: Sink>(alloc: Global, stop: &Stop, out: &mut O) -> Status
    ensures { EndsBy stop.now result (O.told out.old) (O.told out.new) }
{
    match stop {
        Stop::Refused(refusal) => tell_refusal(alloc, refusal, out),
        Stop::ReadFault => Status::ReadFault,
        Stop::Memory => Status::Memory,
    }
}

fn tell_refusal<O: Sink>(alloc: Global, refusal: &Refusal, out: &mut O) -> Status
    ensures { EndsBy (Stop.Refused refusal.now) result (O.told out.old) (O.told out.new) }
{
    match refusal_line(alloc, refusal) {
        Ok(line) => end_with(out, &line, Status::Refused),
        Err(_) => Status::Memory,
    }
}
