//! How the A ids of a group spread: all that it takes, beside the key, to tell whether the group is dirty.
ghost use Rattle.std.specs.Prelude.{◌≡◌, false, List};
ghost use Rattle.group_index.specs.Pairs.{Pair, pairs_of, IsSpread, is_mixed, is_dirty, is_turning, is_both};

use crate::group::Group;
use crate::tableau::Tableau;
use row_store::RowId;
use std::collections::BTreeSet;
use value_pool::ValueId;

/// No A id at all, one that all rows have, both of a row that is turning, or several.
#[derive(Clone, Copy, PartialEq, Eq)]
pub(crate) enum Spread {
    Nothing,
    Alike(ValueId),
    Both,
    Mixed,
}

impl Spread {
    /// The spread of a group. Where it has many rows, its least and its greatest A id tell it.
    pub(crate) fn of(group: &Group) -> Spread
        ensures spread { IsSpread (pairs_of group.now) result }
        ensures turning { is_both result ≡ is_turning group.now }
    {
        match group {
            Group::One(a, _) => Spread::Alike(*a),
            Group::Turning(turning) => {
                // The pairs are what says that the two A ids differ.
                let _pairs = turning.pairs();
                Spread::Both
            }
            Group::Few(few) => spread_among(few.as_slice()),
            Group::Many(pairs) => spread_of(pairs),
        }
    }

    /// Whether there are several.
    pub(crate) fn is_mixed(self) -> bool
        ensures { (pairs : List Pair) → IsSpread pairs self → result ≡ is_mixed pairs }
    {
        match self {
            Spread::Nothing => false,
            Spread::Alike(_) => false,
            Spread::Both => true,
            Spread::Mixed => true,
        }
    }

    /// Whether a row is turning from one to another.
    pub(crate) fn is_both(self) -> bool
        ensures { result ≡ is_both self }
    {
        matches!(self, Spread::Both)
    }

    /// Whether a row of a group with this key and such A ids violates some tableau row: it matches it on X, and has an A id
    /// that doesn't match, or two A ids, of which one doesn't match or both differ.
    pub(crate) fn is_dirty(self, rows: &Tableau, x: &[ValueId]) -> bool
        ensures { (pairs : List Pair) → IsSpread pairs self → result ≡ is_dirty rows.now x.now pairs }
    {
        match self {
            Spread::Nothing => false,
            Spread::Alike(a) => rows.has_offended(x, Some(a)),
            Spread::Both => rows.has_offended(x, None),
            Spread::Mixed => rows.has_offended(x, None),
        }
    }
}

fn spread_of(pairs: &BTreeSet<(ValueId, RowId)>) -> Spread
    ensures spread { IsSpread pairs.now.keys result }
    ensures steady { is_both result ≡ false }
{
    let Some((least, _)) = pairs.first() else {
        return Spread::Nothing;
    };
    let Some((greatest, _)) = pairs.last() else {
        return Spread::Nothing;
    };
    if *least == *greatest {
        Spread::Alike(*least)
    } else {
        Spread::Mixed
    }
}

fn spread_among(pairs: &[(ValueId, RowId)]) -> Spread
    ensures spread { IsSpread pairs.now result }
    ensures steady { is_both result ≡ false }
{
    let Some((first, _)) = pairs.first() else {
        return Spread::Nothing;
    };
    let own = *first;
    if pairs.iter().any(|pair| pair.0 != own) {
        Spread::Mixed
    } else {
        Spread::Alike(own)
    }
}
