//! The keys of the rows: the value ids that a tuple has in some columns.
ghost use Rattle.std.proofs.Common.{ap};
ghost use Rattle.std.specs.Str.{bytes_eq};
ghost use Rattle.std.specs.Cmp.Lexicographic.{bytes_decides, nat_list_eq_equiv};
ghost use Rattle.std.specs.Hash as fed;

use indexmap::Equivalent;
use row_store::Key;
use std::hash::Hash;
use value_pool::ValueId;

/// Ids by which a key is looked up. To make a key of them may take memory, and this takes none.
#[derive(Clone, Copy, PartialEq, Eq, Hash)]
pub(crate) struct Ids<'a>(pub(crate) &'a [ValueId]);

impl<'a> Equivalent<Key> for Ids<'a> {
    ghost equivalent = { λ q k. bytes_eq q.0.now k.items };

    ghost respects_hash = { λ q k h. ap (fed.slice ⟦<ValueId as Hash>⟧.hash_input) ((bytes_decides q.0.now k.items).0 h) };

    ghost respects_eq = { λ q x y. nat_list_eq_equiv.congr q.0.now x.items y.items };

    fn equivalent(&self, key: &Key) -> bool {
        self.0 == key.as_slice()
    }
}
