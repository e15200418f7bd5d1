//! Bytes into memory.
ghost use Rattle.std.specs.Prelude.{◌≡◌, ◌↔◌, ◌-◌, ◌<◌, ◌≤◌, ℕ, List, [], ◌∷◌, length, take, min, Option, Some, IsOk, IsErr, IfOk, OnErr};
ghost use Rattle.shelf_io.specs.MemorySink.{IsRefusing, count_that_fits, after_put, after_failure};
ghost use Rattle.shelf_io.specs.Rising.{Rose};
ghost use Rattle.shelf_io.specs.Sink.{SinkTold, TakesPart, appended};

use crate::counts::next_count;
use crate::{PutFailed, Sink};
use std::alloc::{AllocError, Global};
use std::marker::Model;

/// Bytes into memory, of which there is a fixed room. The puts with given numbers, counted from 1, fail, unless
/// their piece is empty.
#[derive(Drop)]
pub struct MemorySink {
    bytes: Vec<u8>,
    room: usize,
    failing: Vec<u64>,
    calls: u64,
    pub(crate) faults: u64,
}

impl Model for MemorySink {
    ghost use Rattle.std.specs.Prelude.{◌≤◌, vec_len, vec_capacity};
    ghost use Rattle.shelf_io.specs.MemorySink.{SinkState};

    ghost Value = { SinkState };

    ghost view = { λ sink. record {
      bytes = sink.bytes.items;
      room = sink.room;
      failing = sink.failing.items;
      calls = sink.calls;
      faults = sink.faults;
    } };

    ghost invariant = { λ sink. (vec_len sink.bytes ≤ sink.room) × (sink.room ≤ vec_capacity sink.bytes) };
}

impl MemorySink {
    /// It takes all of its memory here.
    pub fn with_room(alloc: Global, bytes: usize, failing: Vec<u64>) -> Result<Self, AllocError>
        ensures { IfOk result (λ sink. sink ≡ record { bytes = []; room = bytes; failing = failing.items; calls = 0; faults = 0 }) }
    {
        Ok(MemorySink {
            bytes: Vec::with_capacity(alloc, bytes)?,
            room: bytes,
            failing,
            calls: 0,
            faults: 0,
        })
    }

    /// What was written.
    pub fn written(&self) -> &[u8]
        ensures { result.now ≡ self.now.bytes }
    {
        &self.bytes
    }
}

impl Sink for MemorySink {
    ghost told = { λ sink. record { written = Some sink.bytes; faults = sink.faults } };

    fn put(&mut self, bytes: &[u8]) -> Result<usize, PutFailed>
        ensures part { IfOk result (λ taken. TakesPart taken bytes.now) }
        ensures count { IfOk result (λ taken. taken ≡ count_that_fits self.old bytes.now) }
        ensures fails { IsErr result ↔ (0 < length bytes.now) × IsRefusing self.old }
        ensures empty { bytes.now ≡ [] → IsOk result }
        ensures taken { IfOk result (λ taken. self.new ≡ after_put self.old bytes.now taken) }
        ensures failure { OnErr result (self.new ≡ after_failure self.old) }
    {
        self.calls = next_count(self.calls);
        let left = self.room - self.bytes.len();
        let refuses = left == 0 || self.failing.contains(&self.calls);
        if refuses && !bytes.is_empty() {
            self.faults = next_count(self.faults);
            return Err(PutFailed);
        }
        let taken = bytes.len().min(left);
        self.bytes.extend_from_slice(&bytes[..taken]).unwrap();
        Ok(taken)
    }
}
