//! Standard output.
ghost use Rattle.std.specs.Prelude.{◌≡◌, ◌<◌, ◌≤◌, ℕ, List, [], length, take, Option, None, is_ok, if◌then◌else◌, IsOk, IfOk, OnErr};
ghost use Rattle.shelf_io.specs.Rising.{Rose, raised};
ghost use Rattle.shelf_io.specs.Sink.{SinkTold, TakesPart, appended};

use crate::counts::next_count;
use crate::{PutFailed, Sink};
use std::marker::Model;

/// Standard output. It tells no content, and counts each failure.
#[derive(Drop)]
pub struct StdSink<R: Print> {
    rt: R,
    faults: u64,
}

impl<R: Print> Model for StdSink<R> {
    ghost use Rattle.std.specs.Prelude.{ℕ};

    ghost Value = { ℕ };

    ghost view = { λ sink. sink.faults };
}

impl<R: Print> StdSink<R> {
    pub fn new(rt: R) -> Self
        ensures { result ≡ 0 }
    {
        StdSink { rt, faults: 0 }
    }
}

impl<R: Print> Sink for StdSink<R> {
    ghost told = { λ sink. record { written = None; faults = sink } };

    // One write of the system, so that a failure has written nothing. A write that takes nothing is one.
    fn put(&mut self, bytes: &[u8]) -> Result<usize, PutFailed>
        ensures part { IfOk result (λ taken. TakesPart taken bytes.now) }
        ensures empty { bytes.now ≡ [] → IsOk result }
        ensures faults { self.new ≡ (if is_ok result then self.old else raised self.old) }
    {
        if bytes.is_empty() {
            return Ok(0);
        }
        match self.rt.write_some(bytes) {
            Ok(taken) if taken > 0 => Ok(taken),
            _ => {
                self.faults = next_count(self.faults);
                Err(PutFailed)
            }
        }
    }
}
