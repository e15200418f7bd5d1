//! A lone row on its way from one A id to another. It has both for a moment, and takes no memory for that.
ghost use Rattle.std.specs.Prelude.{◌≡◌, ◌≢◌, false, [], ◌∷◌, AllPairs, IfOk, MatchOption};
ghost use Rattle.group_index.specs.Turn.{both_of};
ghost use Rattle.group_index.specs.Pairs.{has_pair, IsPut, IsTaken};

use crate::few::Few;
use row_store::RowId;
use std::alloc::{AllocError, Global};
use std::marker::Model;
use value_pool::ValueId;

/// The row with two A ids that differ.
#[derive(Drop)]
pub(crate) struct Turning {
    one: ValueId,
    other: ValueId,
    row: RowId,
}

impl Model for Turning {
    ghost use Rattle.std.specs.Prelude.{◌≢◌};
    ghost use Rattle.group_index.specs.Turn.{Turn};

    ghost Value = { Turn };

    ghost view = { λ t. record { one = t.one; other = t.other; row = t.row } };

    ghost invariant = { λ t. t.one ≢ t.other };
}

impl Turning {
    /// A row that has these two.
    pub(crate) fn of(one: ValueId, other: ValueId, row: RowId) -> Turning
        requires { one ≢ other }
        ensures { result ≡ record { one = one; other = other; row = row } }
    {
        Turning { one, other, row }
    }

    /// The two pairs.
    pub(crate) fn pairs(&self) -> [(ValueId, RowId); 2]
        ensures same { result ≡ both_of self.now }
        ensures differ { self.now.one ≢ self.now.other }
        ensures once { AllPairs (λ p q. p ≢ q) result }
    {
        [(self.one, self.row), (self.other, self.row)]
    }

    /// Whether the pair is one of the two.
    pub(crate) fn has(&self, a: ValueId, row: RowId) -> bool
        ensures { result ≡ has_pair (both_of self.now) (a, row) }
    {
        row == self.row && (a == self.one || a == self.other)
    }

    /// The pair that is left once the other one is taken away.
    pub(crate) fn without(&self, a: ValueId, row: RowId) -> Option<(ValueId, RowId)>
        ensures { MatchOption result (has_pair (both_of self.now) (a, row) ≡ false) (λ left. IsTaken (both_of self.now) (left ∷ []) (a, row)) }
    {
        if row != self.row {
            return None;
        }
        if a == self.one {
            Some((self.other, row))
        } else if a == self.other {
            Some((self.one, row))
        } else {
            None
        }
    }

    /// The two pairs and a third one.
    pub(crate) fn grown(&self, alloc: Global, a: ValueId, row: RowId) -> Result<Few, AllocError>
        ensures { IfOk result (λ few. IsPut (both_of self.now) few (a, row)) }
    {
        let mut few = Few::of(alloc, self.one, self.row)?;
        few.put(self.other, self.row)?;
        few.put(a, row)?;
        Ok(few)
    }
}
