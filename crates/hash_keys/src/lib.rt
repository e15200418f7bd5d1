//! The keys of the hash by which all maps look up what was written by others. Whoever writes a table, but doesn't know
//! the keys, can't make its texts collide.
#![tactic(auto)]

use std::hash::{BuildHasher, DefaultHasher, Hasher};
use std::random::RandomSource;

/// The keys of a hash: sixteen bytes, of which it keeps the hasher that was fed them. Each value is hashed from there on,
/// by SipHash-1-3.
///
/// No contract speaks of the keys, since no answer depends on them.
#[derive(Clone, Copy)]
pub struct HashKeys {
    start: DefaultHasher,
}

impl HashKeys {
    /// The keys that these bytes are.
    pub fn new(bytes: [u8; 16]) -> HashKeys {
        let mut start = DefaultHasher::new();
        start.write(&bytes);
        HashKeys { start }
    }

    /// The keys that are the same in every run.
    pub fn fixed() -> HashKeys {
        HashKeys::new([0; 16])
    }

    /// Keys that are drawn, or the fixed ones where none can be drawn.
    pub fn drawn<R: RandomSource>(source: &R) -> HashKeys {
        let mut bytes = [0; 16];
        match source.fill_bytes(&mut bytes) {
            Ok(()) => HashKeys::new(bytes),
            Err(_) => HashKeys::fixed(),
        }
    }
}

impl BuildHasher for HashKeys {
    type Hasher = DefaultHasher;

    ghost build_hasher = { λ keys. keys.start };

    fn build_hasher(&self) -> DefaultHasher {
        self.start
    }
}
