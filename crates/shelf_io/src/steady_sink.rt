//! Bytes that are dropped.
ghost use Rattle.std.specs.Prelude.{◌≡◌, ◌+◌, ◌-◌, ◌^◌, ◌≤◌, ℕ, List, [], length, take, min, Option, None, Ok, IsOk, IfOk, OnErr};
ghost use Rattle.shelf_io.specs.Rising.{Rose};
ghost use Rattle.shelf_io.specs.Sink.{SinkTold, TakesPart, appended};

use crate::{PutFailed, Sink};
use std::marker::Model;

/// Drops what it takes, and tells of it the number of bytes alone. It never fails: the count of faults is the
/// constant 0.
#[derive(Drop)]
pub struct SteadySink {
    taken: u64,
}

impl Model for SteadySink {
    ghost use Rattle.std.specs.Prelude.{ℕ};

    ghost Value = { ℕ };

    ghost view = { λ sink. sink.taken };
}

impl SteadySink {
    pub fn new() -> Self
        ensures { result ≡ 0 }
    {
        SteadySink { taken: 0 }
    }

    /// How many bytes it took. The last value of `u64` stands still.
    pub fn taken(&self) -> u64
        ensures { result ≡ self.now }
    {
        self.taken
    }
}

impl Sink for SteadySink {
    ghost told = { λ _. record { written = None; faults = 0 } };

    fn put(&mut self, bytes: &[u8]) -> Result<usize, PutFailed>
        ensures all { result ≡ Ok (length bytes.now) }
        ensures taken { self.new ≡ min (self.old + length bytes.now) (2 ^ 64 - 1) }
    {
        self.taken = self.taken.saturating_add(bytes.len() as u64);
        Ok(bytes.len())
    }
}
