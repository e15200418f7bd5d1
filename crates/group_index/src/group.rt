//! One group: the A ids of its rows. A lone row takes no memory beyond the group's key, not even while it changes its A id, and
//! a few rows are a plain list; more are an ordered set, in which a row is put, found and taken in logarithmic time.
ghost use Rattle.std.specs.Prelude.{◌≡◌, ◌≢◌, ◌^◌, ◌<◌, ◌≤◌, ◌++◌, [], ◌∷◌, false, List, not, nat_eq, nat_lt, length, count_by, AllPairs, IfOk, IfSome, OnOk, OnErr, IsTrue};
ghost use Rattle.std.specs.Bool.{OnFalse};
ghost use Rattle.group_index.specs.Pairs.{Pair, pairs_of, has_pair, IsPut, IsTaken, IsAlone, HaveTheSame, IsNextHead};

use crate::few::{Few, MOST};
use crate::turning::Turning;
use row_store::RowId;
use std::alloc::{AllocError, Global};
use std::collections::BTreeSet;
use std::ops::Bound;
use value_pool::ValueId;

/// The rows of a group with their A ids.
pub(crate) enum Group {
    One(ValueId, RowId),
    Turning(Turning),
    Few(Few),
    Many(BTreeSet<(ValueId, RowId)>),
}

// By hand, so that whatever drops a group calls this, and isn't proved for each kind of group.
impl Drop for Group {
    fn drop(self) {
        match self {
            Group::One(_, _) | Group::Turning(_) | Group::Few(_) | Group::Many(_) => {}
        }
    }
}

impl Group {
    /// Puts a row with its A id, where it isn't there yet.
    pub(crate) fn put(&mut self, alloc: Global, a: ValueId, row: RowId) -> Result<(), AllocError>
        ensures ok { OnOk result (IsPut (pairs_of self.old) (pairs_of self.new) (a, row)) }
        ensures err { OnErr result (HaveTheSame (pairs_of self.old) (pairs_of self.new)) }

        // Only a new row can fail.
        ensures absent { OnErr result (has_pair (pairs_of self.old) (a, row) ≡ false) }
    {
        match self {
            Group::Many(pairs) => {
                pairs.insert((a, row))?;
            }
            Group::Few(few) => {
                if few.as_slice().len() < MOST || few.has(a, row) {
                    few.put(a, row)?;
                } else {
                    let pairs = few.grown(alloc, a, row)?;
                    *self = Group::Many(pairs);
                }
            }
            Group::Turning(turning) => {
                if !turning.has(a, row) {
                    let few = turning.grown(alloc, a, row)?;
                    *self = Group::Few(few);
                }
            }
            Group::One(own, only) => {
                if (*own, *only) != (a, row) {
                    *self = Group::of_two(alloc, *own, *only, a, row)?;
                }
            }
        }
        Ok(())
    }

    // Two pairs that differ. A row that stands in both is turning.
    fn of_two(
        alloc: Global,
        own: ValueId,
        only: RowId,
        a: ValueId,
        row: RowId,
    ) -> Result<Group, AllocError>
        requires { only ≡ row → own ≢ a }
        ensures { IfOk result (λ group. IsPut ((own, only) ∷ []) (pairs_of group) (a, row)) }
    {
        if only == row {
            return Ok(Group::Turning(Turning::of(own, a, row)));
        }
        let mut few = Few::of(alloc, own, only)?;
        few.put(a, row)?;
        Ok(Group::Few(few))
    }

    /// Takes a row with its A id away, and tells whether nothing else was there. A group of one row keeps it then, for
    /// the group itself is to go.
    pub(crate) fn take(&mut self, a: ValueId, row: RowId) -> bool
        ensures last { IsTrue result → IsAlone (pairs_of self.old) (a, row) }
        ensures left { OnFalse result (IsTaken (pairs_of self.old) (pairs_of self.new) (a, row)) }
    {
        match self {
            Group::One(own, only) => (*own, *only) == (a, row),
            Group::Turning(turning) => {
                if let Some((own, only)) = turning.without(a, row) {
                    *self = Group::One(own, only);
                }
                false
            }
            Group::Few(few) => {
                let taken = few.take(a, row);
                let Some((own, only)) = few.lone() else {
                    return taken && few.as_slice().is_empty();
                };
                *self = Group::One(own, only);
                false
            }
            Group::Many(pairs) => {
                let taken = pairs.remove(&(a, row));
                let Some((own, only)) = lone(pairs) else {
                    return taken && pairs.is_empty();
                };
                *self = Group::One(own, only);
                false
            }
        }
    }

    /// How many rows there are.
    pub(crate) fn len(&self) -> usize
        ensures len { result ≡ length (pairs_of self.now) }
        ensures once { AllPairs (λ p q. p ≢ q) (pairs_of self.now) }
    {
        match self {
            Group::One(_, _) => 1,
            Group::Turning(turning) => turning.pairs().len(),
            Group::Few(few) => few.as_slice().len(),
            Group::Many(pairs) => pairs.len(),
        }
    }

    /// How many rows have another A id than this one. The rows that have it aren't gone over.
    pub(crate) fn count_others(&self, a: ValueId) -> usize
        ensures { result ≡ count_by (λ p. not (nat_eq a p.0)) (pairs_of self.now) }
    {
        match self {
            Group::One(own, _) => { if a == *own { 0 } else { 1 } }
            Group::Turning(turning) => count_others_among(&turning.pairs(), a),
            Group::Few(few) => count_others_among(few.as_slice(), a),
            Group::Many(pairs) => count_before(pairs, a) + count_behind(pairs, a),
        }
    }

    /// The first row with the next A id after that one, or with the first of all.
    pub(crate) fn next_head(&self, after: Option<ValueId>) -> Option<(ValueId, RowId)>
        ensures { IsNextHead (pairs_of self.now) after result }
    {
        match self {
            Group::One(own, only) => { after.is_none_or(|low| low < *own).then_some((*own, *only)) }
            Group::Turning(turning) => head_among(&turning.pairs(), after),
            Group::Few(few) => head_among(few.as_slice(), after),
            Group::Many(pairs) => head_after(pairs, after),
        }
    }
}

fn head_after(
    pairs: &BTreeSet<(ValueId, RowId)>,
    after: Option<ValueId>,
) -> Option<(ValueId, RowId)>
    ensures { IsNextHead pairs.now.keys after result }
{
    let Some(low) = after else {
        return pairs.first().copied();
    };
    // No row is above the last id, so this leaves out all rows with that A id.
    let from = Bound::Excluded((low, RowId::MAX));
    let (a, row) = pairs.range((from, Bound::Unbounded)).next().copied()?;
    Some(within_ids(a, row))
}

fn head_among(pairs: &[(ValueId, RowId)], after: Option<ValueId>) -> Option<(ValueId, RowId)>
    ensures { IsNextHead pairs.now after result }
{
    let mut head = None;
    for pair in pairs {
        head = nearer(head, after, *pair);
    }
    head
}

// The first one of the pairs after the id, with one more of them.
fn nearer(
    head: Option<(ValueId, RowId)>,
    after: Option<ValueId>,
    pair: (ValueId, RowId),
) -> Option<(ValueId, RowId)>
    ensures { (pairs : List Pair) → IsNextHead pairs after head → IsNextHead (pairs ++ pair ∷ []) after result }
{
    if after.is_some_and(|low| pair.0 <= low) {
        return head;
    }
    match head {
        Some(least) if least < pair => head,
        _ => Some(pair),
    }
}

fn count_others_among(pairs: &[(ValueId, RowId)], a: ValueId) -> usize
    ensures { result ≡ count_by (λ p. not (nat_eq a p.0)) pairs.now }
{
    pairs.iter().filter(|pair| pair.0 != a).count()
}

// How many pairs have a lower A id.
fn count_before(pairs: &BTreeSet<(ValueId, RowId)>, a: ValueId) -> usize
    ensures count { result ≡ count_by (λ p. nat_lt p.0 a) pairs.now.keys }
    ensures small { result < 2 ^ 63 }
{
    let before = (Bound::Unbounded, Bound::Excluded((a, 0)));
    pairs.range(before).count()
}

// How many pairs have a higher A id. None with this one lies in the range, for no row is above the last id.
fn count_behind(pairs: &BTreeSet<(ValueId, RowId)>, a: ValueId) -> usize
    ensures count { result ≡ count_by (λ p. nat_lt a p.0) pairs.now.keys }
    ensures small { result < 2 ^ 63 }
{
    let behind = (Bound::Excluded((a, RowId::MAX)), Bound::Unbounded);
    pairs.range(behind).filter(|pair| pair.0 != a).count()
}

// The pair itself. That its row is no number above the last id is known of what is passed by value.
fn within_ids(a: ValueId, row: RowId) -> (ValueId, RowId)
    ensures same { result ≡ (a, row) }
    ensures within { row ≤ u64.MAX }
{
    (a, row)
}

// The pair that stands there by itself.
fn lone(pairs: &BTreeSet<(ValueId, RowId)>) -> Option<(ValueId, RowId)>
    ensures { IfSome result (λ pair. pairs.now.keys ≡ pair ∷ []) }
{
    if pairs.len() != 1 {
        return None;
    }
    pairs.first().copied()
}
