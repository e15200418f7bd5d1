//! The partners of the rows of a group. Among the A ids that match a cell, one has the least row of all: that row is the
//! least partner of every row with another A id, and the rows of that A id share the least row of the others. So two rows
//! tell the partners of all, and no row is compared with another.
ghost use Rattle.std.specs.Prelude.{◌≡◌, cond, nat_eq};
ghost use Rattle.cfd_semantics.specs.Pattern.{matches};
ghost use Rattle.group_index.specs.Pairs.{pairs_of};
ghost use Rattle.group_index.specs.Leads.{AreLeads, IsAmong, first_with, second_with, partner_by};

use crate::group::Group;
use crate::index::IdCell;
use row_store::RowId;
use value_pool::ValueId;

/// The matching A id with the least row of all, with that row, and the least row of the other matching A ids.
#[derive(Clone, Copy)]
pub(crate) struct Leads {
    pub(crate) first: Option<(ValueId, RowId)>,
    pub(crate) second: Option<RowId>,
}

impl Leads {
    /// Looks at the least row of each A id of the group.
    pub(crate) fn of(group: &Group, cell: &IdCell) -> Leads
        ensures { AreLeads cell.now (IsAmong (pairs_of group.now)) result.first result.second }
    {
        let mut leads = Leads {
            first: None,
            second: None,
        };
        let mut head = group.next_head(None);
        while let Some((a, row)) = head {
            leads = leads.with_head(cell, a, row);
            head = group.next_head(Some(a));
        }
        leads
    }

    // With one more A id and its least row, where it matches.
    fn with_head(self, cell: &IdCell, a: ValueId, row: RowId) -> Leads
        ensures first { result.first ≡ cond (matches nat_eq cell.now a) (first_with self.first a row) self.first }
        ensures second { result.second ≡ cond (matches nat_eq cell.now a) (second_with self.first self.second row) self.second }
    {
        if cell.matches(&a) {
            self.with(a, row)
        } else {
            self
        }
    }

    fn with(self, a: ValueId, row: RowId) -> Leads
        ensures first { result.first ≡ first_with self.first a row }
        ensures second { result.second ≡ second_with self.first self.second row }
    {
        match self.first {
            None => Leads {
                first: Some((a, row)),
                second: None,
            },
            Some((_, least)) if row < least => Leads {
                first: Some((a, row)),
                second: Some(least),
            },
            Some(_) => Leads {
                first: self.first,
                second: Some(self.second.map_or(row, |other| other.min(row))),
            },
        }
    }

    /// The least row with another A id than this one.
    pub(crate) fn partner_of(&self, a: ValueId) -> Option<RowId>
        ensures { result ≡ partner_by self.now.first self.now.second a }
    {
        match self.first {
            Some((own, _)) if own == a => self.second,
            Some((_, least)) => Some(least),
            None => None,
        }
    }
}
