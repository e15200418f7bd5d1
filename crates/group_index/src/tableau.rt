//! The rows of a tableau, found by the constants that they ask for.
ghost use Rattle.std.specs.Prelude.{◌≡◌, ◌&&◌, ◌<◌, Some, slice_get, All, Contains, IfOk, OnOk};
ghost use Rattle.std.specs.List.{list_any};
ghost use Rattle.group_index.specs.Tableaux.{FindsRow, FindsRows, IsFoundBy, IsKept, allows, is_asked, members_of, offends, offends_at};

use crate::index::{IdCell, IdRow};
use crate::key::matches_all;
use cfd_semantics::Pattern;
use std::alloc::{AllocError, Global};
use std::collections::BTreeSet;
use std::marker::Model;
use std::ops::Bound;
use text_lists::List;
use value_pool::ValueId;

/// A tableau of fewer rows is gone over as it is.
pub(crate) const FEW: usize = 9;

/// The rows of a tableau.
#[derive(Drop)]
pub(crate) struct Tableau {
    rows: List<IdRow>,
    // None where all rows are gone over.
    finder: Option<Finder>,
}

impl Model for Tableau {
    ghost use Rattle.std.specs.Prelude.{List, ℕ};
    ghost use Rattle.cfd_semantics.specs.declared.dependency.TableauRow.{TableauRow};
    ghost use Rattle.group_index.specs.Tableaux.{FindsAll};

    ghost Value = { List (TableauRow ℕ) };

    ghost view = { λ t. t.rows };

    ghost invariant = { λ t. FindsAll t.rows t.finder };
}

impl Tableau {
    /// Where there is no memory to find rows by what they ask for, all are gone over.
    pub(crate) fn new(alloc: Global, rows: Vec<IdRow>) -> Tableau
        ensures { result ≡ rows.items }
    {
        let finder = finder_of(alloc, rows.as_slice()).ok();
        Tableau {
            rows: List::from(rows),
            finder,
        }
    }

    pub(crate) fn as_slice(&self) -> &[IdRow]
        ensures { result.now ≡ self.now }
    {
        self.rows.as_slice()
    }

    /// Whether the key matches some row; where an A id is given, some row that asks for another one.
    pub(crate) fn has_offended(&self, x: &[ValueId], a: Option<ValueId>) -> bool
        ensures { result ≡ list_any (offends x.now a) self.now }
    {
        let rows = self.rows.as_slice();
        match &self.finder {
            Some(finder) => finder.has_offended(rows, x, a),
            None => some_offended(rows, x, a),
        }
    }
}

/// Tableau rows by their cells at one place of X: those with a constant or a set there by its members, and the numbers of all
/// others.
#[derive(Drop)]
pub(crate) struct Finder {
    place: usize,
    asked: BTreeSet<(ValueId, usize)>,
    others: Vec<usize>,
}

impl Finder {
    fn has_offended(&self, rows: &[IdRow], x: &[ValueId], a: Option<ValueId>) -> bool
        requires { FindsRows self.now rows.now }
        ensures { result ≡ list_any (offends x.now a) rows.now }
    {
        match x.get(self.place) {
            Some(id) => self.has_offended_by(*id, rows, x, a),
            None => some_offended(rows, x, a),
        }
    }

    // The same where the key has that id at the place.
    fn has_offended_by(
        &self,
        id: ValueId,
        rows: &[IdRow],
        x: &[ValueId],
        a: Option<ValueId>,
    ) -> bool
        requires all { FindsRows self.now rows.now }
        requires at { slice_get x.now self.now.place ≡ Some id }
        ensures { result ≡ list_any (offends x.now a) rows.now }
    {
        some_numbered(&self.others, rows, x, a) || some_asking(&self.asked, id, rows, x, a)
    }

    /// Adds a row, where it wasn't yet.
    fn put(&mut self, k: usize, row: &IdRow) -> Result<(), AllocError>
        ensures row { OnOk result (FindsRow self.new k row.now) }
        ensures kept { OnOk result (IsKept self.old self.new) }
    {
        match row.x.as_slice().get(self.place) {
            Some(cell) => self.put_by(k, cell),
            None => self.put_other(k),
        }
    }

    fn put_by(&mut self, k: usize, cell: &IdCell) -> Result<(), AllocError>
        ensures row { OnOk result (IsFoundBy self.new k (members_of cell.now)) }
        ensures kept { OnOk result (IsKept self.old self.new) }
    {
        match cell {
            Pattern::Is(constant) => self.put_member(k, *constant),
            Pattern::In(members) => self.put_members(k, members.as_slice()),
            Pattern::Any | Pattern::NotIn(_) => self.put_other(k),
        }
    }

    fn put_other(&mut self, k: usize) -> Result<(), AllocError>
        ensures row { OnOk result (Contains self.new.others.items k) }
        ensures kept { OnOk result (IsKept self.old self.new) }
    {
        self.others.push(k)?;
        Ok(())
    }

    fn put_member(&mut self, k: usize, member: ValueId) -> Result<(), AllocError>
        ensures row { OnOk result (Contains self.new.asked.keys (member, k)) }
        ensures kept { OnOk result (IsKept self.old self.new) }
    {
        self.asked.insert((member, k))?;
        Ok(())
    }

    fn put_members(&mut self, k: usize, members: &[ValueId]) -> Result<(), AllocError>
        ensures row { OnOk result (All (λ member. Contains self.new.asked.keys (member, k)) members.now) }
        ensures kept { OnOk result (IsKept self.old self.new) }
    {
        for place in 0..members.len() {
            self.put_member(k, members[place])?;
        }
        Ok(())
    }
}

fn finder_of(alloc: Global, rows: &[IdRow]) -> Result<Finder, AllocError>
    ensures { IfOk result (λ finder. FindsRows finder rows.now) }
{
    if rows.len() < FEW {
        return Err(AllocError);
    }
    let mut finder = Finder {
        place: best_place(rows),
        asked: BTreeSet::new(alloc),
        others: Vec::new(alloc),
    };
    for k in 0..rows.len() {
        finder.put(k, &rows[k])?;
    }
    Ok(finder)
}

// The place at which the most rows have a constant or a set.
fn best_place(rows: &[IdRow]) -> usize {
    let width = rows.first().map_or(0, |row| row.x.as_slice().len());
    let mut best = 0;
    let mut most = 0;
    for place in 0..width {
        let count = count_at(rows, place);
        if most < count {
            best = place;
            most = count;
        }
    }
    best
}

fn count_at(rows: &[IdRow], place: usize) -> usize {
    rows.iter()
        .filter(|row| matches!(
            row.x.as_slice().get(place),
            Some(Pattern::Is(_) | Pattern::In(_))
        ))
        .count()
}

// ---- rows that a key offends

fn some_offended(rows: &[IdRow], x: &[ValueId], a: Option<ValueId>) -> bool
    ensures { result ≡ list_any (offends x.now a) rows.now }
{
    rows.iter().any(|row| offends(row, x, a))
}

fn some_numbered(numbers: &[usize], rows: &[IdRow], x: &[ValueId], a: Option<ValueId>) -> bool
    ensures { result ≡ list_any (offends_at rows.now x.now a) numbers.now }
{
    numbers.iter().any(|k| offends_at(rows, *k, x, a))
}

fn some_asking(
    asked: &BTreeSet<(ValueId, usize)>,
    id: ValueId,
    rows: &[IdRow],
    x: &[ValueId],
    a: Option<ValueId>,
) -> bool
    ensures { result ≡ list_any (λ p. is_asked id p && offends_at rows.now x.now a p.1) asked.now.keys }
{
    let range = (Bound::Included((id, 0)), Bound::Included((id, usize::MAX)));
    asked.range(range).any(|p| offends_at(rows, p.1, x, a))
}

fn offends_at(rows: &[IdRow], k: usize, x: &[ValueId], a: Option<ValueId>) -> bool
    ensures { result ≡ offends_at rows.now x.now a k }
{
    match rows.get(k) {
        Some(row) => offends(row, x, a),
        None => false,
    }
}

fn offends(row: &IdRow, x: &[ValueId], a: Option<ValueId>) -> bool
    ensures { result ≡ offends x.now a row.now }
{
    matches_all(row.x.as_slice(), x) && !allows(&row.a, a)
}

fn allows(cell: &IdCell, a: Option<ValueId>) -> bool
    ensures { result ≡ allows cell.now a }
{
    match a {
        Some(a) => cell.matches(&a),
        None => false,
    }
}
