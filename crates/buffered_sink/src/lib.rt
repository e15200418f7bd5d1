//! A sink that holds small pieces back, so that many short replies are few writes of the system.
#![tactic(auto)]

ghost use Rattle.std.specs.Prelude.{◌≡◌, ◌≤◌, ◌++◌, [], OnOk, OnErr, drop, if◌then◌else◌};
ghost use Rattle.shelf_io.specs.Rising.{Rose};
ghost use Rattle.buffered_sink.specs.Held.{told_with};

use shelf_io::{PutFailed, Sink};
use std::alloc::Global;

// How many bytes are held back at most.
const MOST: usize = 65536;

/// A sink before another one. What was put is told as written, though the sink within may not have it yet: whoever is done
/// flushes.
#[derive(Drop)]
pub struct BufferedSink<O: Sink> {
    within: O,
    held: Vec<u8>,

    // How many of the held bytes the sink within has, where it failed to take all of them.
    done: usize,
}

impl<O: Sink> BufferedSink<O> {
    /// It takes no memory yet.
    pub fn new(alloc: Global, within: O) -> Self
        ensures within { result.within ≡ within }
        ensures held { told_with (O.told result.within) (drop result.done result.held.items) ≡ told_with (O.told within) [] }
    {
        BufferedSink {
            within,
            held: Vec::new(alloc),
            done: 0,
        }
    }

    /// Has the sink within take all that is held back. After a failure it may have some of it, and a later call goes on
    /// from there.
    pub fn flush(&mut self) -> Result<(), PutFailed>
        ensures told { (told_with (O.told self.new.within) (drop self.new.done self.new.held.items)).written ≡ (told_with (O.told self.old.within) (drop self.old.done self.old.held.items)).written }
        ensures all { OnOk result (drop self.new.done self.new.held.items ≡ []) }
        ensures failed { OnErr result (Rose (O.told self.old.within).faults (O.told self.new.within).faults) }
        ensures faults { (O.told self.old.within).faults ≤ (O.told self.new.within).faults }
    {
        while self.done < self.held.len() {
            self.done += self.within.put(&self.held[self.done..])?;
        }
        self.held.clear();
        self.done = 0;
        Ok(())
    }

    /// Holds a piece back, where there is room for it, and says whether it did.
    fn hold(&mut self, bytes: &[u8]) -> bool
        ensures held { drop self.new.done self.new.held.items ≡ (if result then drop self.old.done self.old.held.items ++ bytes.now else drop self.old.done self.old.held.items) }
        ensures within { self.new.within ≡ self.old.within }
    {
        let room = MOST.saturating_sub(self.held.len());
        if self.done > 0 || bytes.len() > room {
            return false;
        }
        self.held.extend_from_slice(bytes).is_ok()
    }
}

impl<O: Sink> Sink for BufferedSink<O> {
    ghost told = { λ sink. told_with (O.told sink.within) (drop sink.done sink.held.items) };

    // A piece for which there is no room goes to the sink within, behind all that is held back.
    fn put(&mut self, bytes: &[u8]) -> Result<usize, PutFailed> {
        if bytes.is_empty() || self.hold(bytes) {
            return Ok(bytes.len());
        }
        self.flush()?;
        self.within.put(bytes)
    }
}
