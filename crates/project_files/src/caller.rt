//! What a call is told of who makes it.

use bench_core::Bench;
use hash_keys::HashKeys;
use std::mem::forget;

/// The keys with which a call hashes, and whether its program exits with it. To take a bench of many rows apart is work
/// for nothing then, so it is left to the system.
#[derive(Clone, Copy)]
pub struct Caller {
    keys: HashKeys,
    exits: bool,
}

impl Caller {
    /// One that stays, and wants its memory back after the call.
    pub fn staying(keys: HashKeys) -> Caller {
        Caller { keys, exits: false }
    }

    /// One that exits right after the call.
    pub fn exiting(keys: HashKeys) -> Caller {
        Caller { keys, exits: true }
    }

    /// The keys with which a call of it hashes.
    pub fn keys(&self) -> HashKeys {
        self.keys
    }
}

/// Gives the memory of a bench that is used no more back, or leaves that to the system where the caller exits. No method of
/// `Caller`, so that a signature with a caller doesn't bring in the bench.
pub fn release(caller: Caller, bench: Bench) {
    if caller.exits {
        forget(bench);
    }
}
