//! How many violations each tableau row has, kept as rows come into the groups and go.
//!
//! A row that comes or goes changes the numbers by what the size of its group and the spread of the A ids there tell, so the
//! other rows of the group aren't gone over. That is so where the right cell is `_` or a constant; for a set nothing is kept.
ghost use Rattle.std.specs.Prelude.{◌≡◌, ◌+◌, List, [], IfSome};
ghost use Rattle.cfd_semantics.specs.declared.pattern.Pattern.TheVariants.{Any};
ghost use Rattle.group_index.specs.Pairs.{Pair, pairs_of, is_turning, is_both};
ghost use Rattle.group_index.specs.Totals.{AreChanged, AreChangedOrGone, AreTotals, Follows, IsChange, IsExtent, IsKeptFor, listed_among};

use crate::group::Group;
use crate::index::{IdCell, IdRow};
use crate::key::matches_all;
use crate::spread::Spread;
use crate::tableau::FEW;
use cfd_semantics::Pattern;
use std::alloc::Global;
use value_pool::ValueId;

/// How many rows a group has, and how their A ids spread.
#[derive(Clone, Copy)]
pub(crate) struct Extent {
    rows: usize,
    pub(crate) spread: Spread,
}

impl Extent {
    /// That of a group which isn't there.
    pub(crate) fn nothing() -> Extent
        ensures { IsExtent [] result }
    {
        Extent {
            rows: 0,
            spread: Spread::Nothing,
        }
    }

    /// That of a group.
    pub(crate) fn of(group: &Group) -> Extent
        ensures extent { IsExtent (pairs_of group.now) result }
        ensures turning { is_both result.spread ≡ is_turning group.now }
    {
        Extent {
            rows: group.len(),
            spread: Spread::of(group),
        }
    }

    // How many rows of the group are listed where the cell is `_`: all or none.
    fn listed_for_any(self) -> usize
        ensures { (pairs : List Pair) → IsExtent pairs self → result ≡ listed_among Any pairs }
    {
        if self.spread.is_mixed() { self.rows } else { 0 }
    }
}

/// What a row with this A id makes of its group as it comes or goes.
#[derive(Clone, Copy)]
pub(crate) struct Change {
    pub(crate) a: ValueId,
    pub(crate) before: Extent,
    pub(crate) after: Extent,
}

impl Change {
    // The number of a tableau row once a group with this key changed.
    fn count_after(self, row: &IdRow, x: &[ValueId], count: usize) -> Option<usize>
        ensures { IfSome result (Follows row.now x.now self count) }
    {
        if !matches_all(row.x.as_slice(), x) {
            return Some(count);
        }
        let (before, after) = self.parts(&row.a);
        count.checked_add(after)?.checked_sub(before)
    }

    // Two numbers, before the change and after it, that are as far apart as how many rows of the group are listed. Where the
    // cell is a constant, a row that has it is never listed, and others always are: so the numbers of all rows tell, unless
    // the row that comes or goes has it, which changes nothing.
    fn parts(self, cell: &IdCell) -> (usize, usize)
        ensures { (old new : List Pair) → IsChange self old new → listed_among cell.now new + result.0 ≡ listed_among cell.now old + result.1 }
    {
        match cell {
            Pattern::Any => (self.before.listed_for_any(), self.after.listed_for_any()),
            Pattern::Is(constant) if self.a != *constant => (self.before.rows, self.after.rows),
            Pattern::Is(_) | Pattern::In(_) | Pattern::NotIn(_) => (0, 0),
        }
    }
}

/// How many violations each tableau row has. None where the tableau has many rows, so that a change costs a look at a few at
/// most; where there was no memory for the numbers; and once one went beyond its type.
#[derive(Drop)]
pub(crate) struct Totals {
    counts: Option<Vec<usize>>,
}

impl Totals {
    /// Those of no groups.
    pub(crate) fn new(alloc: Global, rows: &[IdRow]) -> Totals
        ensures { AreTotals rows.now [] result.counts }
    {
        if rows.len() >= FEW {
            return Totals { counts: None };
        }
        Totals {
            counts: vec![in alloc; 0; rows.len()].ok(),
        }
    }

    /// How many violations the tableau row with this number has, where that is kept.
    pub(crate) fn of_row(&self, row: &IdRow, k: usize) -> Option<usize>
        ensures { IfSome result (IsKeptFor self.now.counts row.now k) }
    {
        if row.a.is_set() {
            return None;
        }
        self.counts.as_ref()?.get(k).copied()
    }

    /// Follows a change of the group with this key.
    pub(crate) fn follow(&mut self, rows: &[IdRow], x: &[ValueId], change: Change)
        ensures { AreChangedOrGone rows.now x.now change self.old.counts self.new.counts }
    {
        if let Some(counts) = self.counts.take() {
            self.counts = changed(counts, rows, x, change);
        }
    }
}

fn changed(
    mut counts: Vec<usize>,
    rows: &[IdRow],
    x: &[ValueId],
    change: Change,
) -> Option<Vec<usize>>
    ensures { IfSome result (λ new. AreChanged rows.now x.now change counts.items new.items) }
{
    for k in 0..rows.len() {
        let count = counts.get(k).copied()?;
        counts[k] = change.count_after(&rows[k], x, count)?;
    }
    Some(counts)
}
