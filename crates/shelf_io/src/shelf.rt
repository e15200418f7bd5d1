//! Where files come from.
ghost use Rattle.std.specs.Prelude.{◌≡◌, ◌+◌, ◌≤◌, ℕ, List, length, Option, None, Some, IsSome, IfOk, IfSome, IsErrOf};
ghost use Rattle.shelf_io.specs.declared.shelf.FetchFault.TheVariants.{Memory};
ghost use Rattle.shelf_io.specs.Rising.{Rose};
ghost use Rattle.shelf_io.specs.Files.{file_at, front_at};
ghost use Rattle.shelf_io.specs.Shelf.{ShelfTold};

use std::alloc::AllocError;
use thiserror::Error;

/// Why a fetch gave nothing.
#[derive(Clone, Copy, Debug, PartialEq, Eq, Drop, Error)]
pub enum FetchFault {
    #[error("there is no such file")]
    Absent,
    #[error("the file could not be read")]
    Failed,
    #[error("out of memory")]
    Memory,
}

impl From<AllocError> for FetchFault {
    ghost from_gives = { λ _ fault. fault ≡ Memory };

    fn from(_: AllocError) -> FetchFault {
        FetchFault::Memory
    }
}

/// A device that hands out files by their names.
pub trait Shelf {
    /// What it holds, where it tells that, and its counts of fetches, failures and absences.
    ghost told: { Self → ShelfTold };

    /// The bytes of the named file, or the first `most` of them where it is longer.
    fn fetch(&mut self, name: &str, most: usize) -> Result<Vec<u8>, FetchFault>
        // Where the shelf tells what it holds, these are the held bytes.
        ensures bytes { IfOk result (λ bytes. IfSome (told self.old).holding
            (λ files. front_at files name.now most ≡ Some bytes.items)) }
        ensures length { IfOk result (λ bytes. length bytes.items ≤ most) }

        // Each failure and each absence is counted, and no absence of a file that is held.
        ensures failed { IsErrOf result FetchFault.Failed → Rose (told self.old).faults (told self.new).faults }
        ensures absent { IsErrOf result FetchFault.Absent → Rose (told self.old).absences (told self.new).absences }
        ensures not_held { IsErrOf result FetchFault.Absent
            → IfSome (told self.old).holding (λ files. file_at files name.now ≡ None) }
        ensures held { IfSome (told self.old).holding (λ files. IsSome (file_at files name.now)
            → (told self.new).absences ≡ (told self.old).absences) }

        // No count falls, the calls rise by at most one, and what is held stays.
        ensures faults { (told self.old).faults ≤ (told self.new).faults }
        ensures absences { (told self.old).absences ≤ (told self.new).absences }
        ensures calls { (told self.old).calls ≤ (told self.new).calls }
        ensures one_call { (told self.new).calls ≤ (told self.old).calls + 1 }
        ensures holding { (told self.new).holding ≡ (told self.old).holding };
}
