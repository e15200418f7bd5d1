//! A few pairs in a plain list. With so few of them, going over all takes no longer than a search in an ordered set, and the
//! list takes a fraction of the memory.
ghost use Rattle.std.specs.Prelude.{◌≡◌, ◌≢◌, false, [], ◌∷◌, AllPairs, IfOk, IfSome, OnOk, OnErr};
ghost use Rattle.group_index.specs.Pairs.{has_pair, IsPut, IsTaken, HaveTheSame};

use row_store::RowId;
use std::alloc::{AllocError, Global};
use std::collections::BTreeSet;
use std::marker::Model;
use value_pool::ValueId;

/// How many pairs are still few.
pub(crate) const MOST: usize = 8;

// How many pairs the first list has room for. A change of a row puts one pair more for a moment, so a list that is full
// would grow then.
const FIRST_ROOM: usize = 4;

/// The pairs in any order, and none of them twice.
#[derive(Drop)]
pub(crate) struct Few {
    pairs: Vec<(ValueId, RowId)>,
}

impl Model for Few {
    ghost use Rattle.std.specs.Prelude.{◌≢◌, ℕ, List, AllPairs};

    ghost Value = { List (ℕ × ℕ) };

    ghost view = { λ few. few.pairs.items };

    ghost invariant = { λ few. AllPairs (λ p q. p ≢ q) few.pairs.items };
}

impl Few {
    /// One pair.
    pub(crate) fn of(alloc: Global, a: ValueId, row: RowId) -> Result<Few, AllocError>
        ensures { IfOk result (λ few. few ≡ (a, row) ∷ []) }
    {
        let mut pairs = Vec::with_capacity(alloc, FIRST_ROOM)?;
        pairs.push((a, row))?;
        Ok(Few { pairs })
    }

    /// Puts a pair, where it isn't there yet.
    pub(crate) fn put(&mut self, a: ValueId, row: RowId) -> Result<(), AllocError>
        ensures ok { OnOk result (IsPut self.old self.new (a, row)) }
        ensures err { OnErr result (HaveTheSame self.old self.new) }
        ensures absent { OnErr result (has_pair self.old (a, row) ≡ false) }
    {
        if !self.has(a, row) {
            self.pairs.push((a, row))?;
        }
        Ok(())
    }

    /// Takes a pair away, and tells whether it was there.
    pub(crate) fn take(&mut self, a: ValueId, row: RowId) -> bool
        ensures there { result ≡ has_pair self.old (a, row) }
        ensures taken { IsTaken self.old self.new (a, row) }
    {
        let there = self.has(a, row);
        self.pairs.retain(|pair| pair.0 != a || pair.1 != row);
        there
    }

    /// Whether the pair is there.
    pub(crate) fn has(&self, a: ValueId, row: RowId) -> bool
        ensures { result ≡ has_pair self.now (a, row) }
    {
        self.pairs.contains(&(a, row))
    }

    /// The pairs.
    pub(crate) fn as_slice(&self) -> &[(ValueId, RowId)]
        ensures same { result.now ≡ self.now }
        ensures once { AllPairs (λ p q. p ≢ q) result.now }
    {
        self.pairs.as_slice()
    }

    /// The pair that stands there by itself.
    pub(crate) fn lone(&self) -> Option<(ValueId, RowId)>
        ensures { IfSome result (λ pair. self.now ≡ pair ∷ []) }
    {
        if self.pairs.len() != 1 {
            return None;
        }
        self.pairs.first().copied()
    }

    /// These pairs and one more, as an ordered set.
    pub(crate) fn grown(
        &self,
        alloc: Global,
        a: ValueId,
        row: RowId,
    ) -> Result<BTreeSet<(ValueId, RowId)>, AllocError>
        ensures { IfOk result (λ pairs. IsPut self.now pairs.keys (a, row)) }
    {
        let mut pairs = BTreeSet::new(alloc);
        pairs.insert((a, row))?;
        pairs.extend(self.pairs.iter())?;
        Ok(pairs)
    }
}
