//! Files in memory that can always be read.
ghost use Rattle.std.specs.Prelude.{◌≡◌, ◌+◌, ◌≤◌, ℕ, length, Option, None, Some, IsSome, IfOk, IfSome, OnOk, OnErr, IsErrOf};
ghost use Rattle.std.specs.FinMap as map;
ghost use Rattle.shelf_io.specs.Counts.{no_counts, counts_after};
ghost use Rattle.shelf_io.specs.Files.{file_at, front_at, with_file};
ghost use Rattle.shelf_io.specs.Held.{IsAnswer};
ghost use Rattle.shelf_io.specs.Rising.{Rose};
ghost use Rattle.shelf_io.specs.Shelf.{ShelfTold};

use crate::counts::FetchCounts;
use crate::files::HeldFiles;
use crate::{FetchFault, Shelf};
use std::alloc::{AllocError, Global};
use std::marker::Model;

/// Files in memory that can always be read: no fetch fails, and the count of faults is the constant 0.
#[derive(Drop)]
pub struct SteadyShelf {
    files: HeldFiles,
    counts: FetchCounts,
}

impl Model for SteadyShelf {
    ghost use Rattle.shelf_io.specs.SteadyShelf.{SteadyState, coded_steady};

    ghost Value = { SteadyState };

    ghost coded = { coded_steady };

    ghost view = { λ shelf. record {
      files = shelf.files;
      counts = shelf.counts;
    } };
}

impl SteadyShelf {
    pub fn new(alloc: Global) -> Self
        ensures { result ≡ record { files = map.empty; counts = no_counts } }
    {
        SteadyShelf {
            files: HeldFiles::new(alloc),
            counts: FetchCounts::new(),
        }
    }

    /// Adds a file. One of that name that is held already stays as it is.
    pub fn hold(&mut self, name: &str, bytes: &[u8]) -> Result<(), AllocError>
        ensures ok { OnOk result (self.new ≡ record self.old { files = with_file self.old.files name.now bytes.now }) }
        ensures err { OnErr result (self.new ≡ self.old) }
    {
        self.files.hold(name, bytes)
    }
}

impl Shelf for SteadyShelf {
    ghost told = { λ shelf. record {
      holding = Some shelf.files;
      calls = shelf.counts.calls;
      faults = 0;
      absences = shelf.counts.absences;
    } };

    fn fetch(&mut self, name: &str, most: usize) -> Result<Vec<u8>, FetchFault>
        ensures answer { IsAnswer self.old.files name.now most result }
        ensures counts { self.new ≡ record self.old { counts = counts_after result self.old.counts } }
    {
        let answer = self.files.fetch(name, most);
        self.counts.add(&answer);
        answer
    }
}
