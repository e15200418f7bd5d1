//! Counts that never fall.
ghost use Rattle.std.specs.Prelude.{◌≡◌};
ghost use Rattle.shelf_io.specs.Rising.{raised};

use crate::FetchFault;

/// How many fetches were made, and how many of them failed or found no file.
#[derive(Clone, Copy, PartialEq, Eq)]
pub struct FetchCounts {
    pub calls: u64,
    pub faults: u64,
    pub absences: u64,
}

impl FetchCounts {
    ghost use Rattle.shelf_io.specs.Counts.{no_counts, counts_after};

    pub fn new() -> Self
        ensures { result ≡ no_counts }
    {
        FetchCounts {
            calls: 0,
            faults: 0,
            absences: 0,
        }
    }

    /// Counts a fetch by what it answered.
    pub fn add(&mut self, answer: &Result<Vec<u8>, FetchFault>)
        ensures { self.new ≡ counts_after answer.now self.old }
    {
        self.calls = next_count(self.calls);
        match answer {
            Err(FetchFault::Failed) => self.faults = next_count(self.faults),
            Err(FetchFault::Absent) => self.absences = next_count(self.absences),
            Ok(_) | Err(FetchFault::Memory) => {}
        }
    }
}

/// The next number. The last value of `u64` stands still.
pub fn next_count(count: u64) -> u64
    ensures { result ≡ raised count }
{
    count.saturating_add(1)
}
