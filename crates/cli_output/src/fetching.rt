//! Files off the shelf, within the limits on their bytes.
ghost use Rattle.std.specs.Prelude.{◌≡◌, Err};
ghost use Rattle.text_lists.specs.Limits.{AreLimits};
ghost use Rattle.cli_output.specs.Fetching.{Fetches, Reads, file};

use crate::refusal::{Cause, Refusal};
use schema_core::{Limits, Text};
use shelf_io::{FetchFault, Shelf};
use std::alloc::{AllocError, AllocFailed};

/// Why files aren't read to the end.
#[derive(Drop)]
pub enum Stop {
    Refused(Refusal),
    ReadFault,
    Memory,
}

impl From<AllocError> for Stop {
    ghost use Rattle.std.specs.Prelude.{◌≡◌};
    ghost use Rattle.cli_output.specs.declared.fetching.Stop.TheVariants.{Memory};

    ghost from_gives = { λ _ stop. stop ≡ Memory };

    fn from(_: AllocError) -> Stop {
        Stop::Memory
    }
}

impl<T: Drop> From<AllocFailed<T>> for Stop {
    ghost use Rattle.std.specs.Prelude.{◌≡◌};
    ghost use Rattle.cli_output.specs.declared.fetching.Stop.TheVariants.{Memory};

    ghost from_gives = { λ _ stop. stop ≡ Memory };

    fn from(_: AllocFailed<T>) -> Stop {
        Stop::Memory
    }
}

/// Refuses a file or a word.
pub fn refused<T>(what: &Text, cause: Cause) -> Result<T, Stop>
    ensures { Reads (Err (record { what = what.now; cause = cause })) (λ x. x) result }
{
    match what.clone() {
        Ok(what) => Err(Stop::Refused(Refusal { what, cause })),
        Err(_) => {
            drop(cause);
            Err(Stop::Memory)
        }
    }
}

/// The bytes of a file. `left` is how many bytes the files that are still to come may have together.
#[tactic(auto, unfolding(crate::specs::Fetching::file))]
pub fn fetch_file<S: Shelf>(
    shelf: &mut S,
    name: &Text,
    limits: &Limits,
    left: &mut u64,
) -> Result<Vec<u8>, Stop>
    requires { AreLimits limits.now }
    ensures { Fetches (file limits.now name.now) (λ bytes. bytes.items) 1 result (S.told shelf.old) (S.told shelf.new) left.old left.new }
{
    let room = limits.file_bytes.min(*left);
    match shelf.fetch(name.as_str(), room as usize + 1) {
        Ok(bytes) if bytes.len() as u64 > room => refused(name, Cause::TooLarge),
        Ok(bytes) => {
            *left -= bytes.len() as u64;
            Ok(bytes)
        }
        Err(FetchFault::Absent) => refused(name, Cause::Absent),
        Err(FetchFault::Failed) => Err(Stop::ReadFault),
        Err(FetchFault::Memory) => Err(Stop::Memory),
    }
}
