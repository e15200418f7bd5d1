//! Files in memory.
ghost use Rattle.std.specs.Prelude.{◌≡◌, ◌+◌, ◌≤◌, ℕ, length, Option, None, Some, Err, IsSome, IfOk, IfSome, OnOk, OnErr, IsErrOf};
ghost use Rattle.std.specs.FinMap as map;
ghost use Rattle.shelf_io.specs.Counts.{no_counts, counts_after};
ghost use Rattle.shelf_io.specs.Files.{file_at, front_at, with_file};
ghost use Rattle.shelf_io.specs.Held.{IsAnswer};
ghost use Rattle.shelf_io.specs.MemoryShelf.{IsFailing};
ghost use Rattle.shelf_io.specs.Rising.{Rose};
ghost use Rattle.shelf_io.specs.Shelf.{ShelfTold};

use crate::counts::{FetchCounts, next_count};
use crate::files::HeldFiles;
use crate::{FetchFault, Shelf};
use std::alloc::{AllocError, Global};
use std::marker::Model;

/// Files in memory. The fetches with given numbers, counted from 1, fail.
#[derive(Drop)]
pub struct MemoryShelf {
    files: HeldFiles,
    failing: Vec<u64>,
    counts: FetchCounts,
}

impl Model for MemoryShelf {
    ghost use Rattle.shelf_io.specs.MemoryShelf.{ShelfState, coded_shelf};

    ghost Value = { ShelfState };

    ghost coded = { coded_shelf };

    ghost view = { λ shelf. record {
      files = shelf.files;
      failing = shelf.failing.items;
      counts = shelf.counts;
    } };
}

impl MemoryShelf {
    pub fn new(alloc: Global, failing: Vec<u64>) -> Self
        ensures { result ≡ record { files = map.empty; failing = failing.items; counts = no_counts } }
    {
        MemoryShelf {
            files: HeldFiles::new(alloc),
            failing,
            counts: FetchCounts::new(),
        }
    }

    /// Adds a file. One of that name that is held already stays as it is.
    pub fn hold(&mut self, name: &str, bytes: &[u8]) -> Result<(), AllocError>
        ensures ok { OnOk result (self.new ≡ record self.old { files = with_file self.old.files name.now bytes.now }) }
        ensures err { OnErr result (self.new ≡ self.old) }
    {
        self.files.hold(name, bytes)
    }
}

impl Shelf for MemoryShelf {
    ghost told = { λ shelf. record {
      holding = Some shelf.files;
      calls = shelf.counts.calls;
      faults = shelf.counts.faults;
      absences = shelf.counts.absences;
    } };

    fn fetch(&mut self, name: &str, most: usize) -> Result<Vec<u8>, FetchFault>
        ensures listed { IsFailing self.old → result ≡ Err FetchFault.Failed }
        ensures unlisted { ¬ IsFailing self.old → IsAnswer self.old.files name.now most result }
        ensures counts { self.new ≡ record self.old { counts = counts_after result self.old.counts } }
    {
        let listed = self.failing.contains(&next_count(self.counts.calls));
        let answer = if listed {
            Err(FetchFault::Failed)
        } else {
            self.files.fetch(name, most)
        };
        self.counts.add(&answer);
        answer
    }
}
