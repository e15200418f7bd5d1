//! What a change of a row does to one side of an index.
ghost use Rattle.std.specs.Prelude.{◌≡◌, ◌+◌, ◌≤◌, ◌&&◌, ◌||◌, ◌++◌, ℕ, false, true, cond, IfNone, IfOk, IfSome, OnOk, OnErr};
ghost use Rattle.std.specs.Option.{ForSome};
ghost use Rattle.std.specs.Str.{bytes_eq};
ghost use Rattle.row_store.specs.Tuple.{ids_at, ids_behind, ids_of};
ghost use Rattle.row_store.specs.Watch.{IsWide, entries_of};
ghost use Rattle.cfd_semantics.specs.Orphan.{SideEntry};
ghost use Rattle.cind_index.specs.Entries.{key_on, pattern_on, table_on, gives_on, attributes_on};
ghost use Rattle.cind_index.specs.RowsHeld.{across};
ghost use Rattle.cind_index.specs.KeysHeld.{held, HaveRoom, HoldTheSame, HoldsMore, HoldsLess, KeepsKeys};
ghost use Rattle.cind_index.specs.Index.{made_of, given, HoldsOfRowOn, StandsAt, KeepsMade};
ghost use Rattle.cind_index.specs.declared.side.Side.TheVariants.{Left, Right};

use crate::index::CindIndex;
use crate::keys::{put_entry, take_at, take_entry};
use crate::side::Side;
use cfd_semantics::Inclusion;
use probe_steps::Steps;
use row_store::{Key, RowId, Tuple, agree, make_room, write_key};
use std::alloc::AllocError;
use std::sync::ledger::Ledger;
use value_pool::ValueId;

// The key attributes of a side.
fn key_on(rule: &Inclusion<ValueId>, side: Side) -> &[usize]
    ensures { result.now ≡ key_on rule.now side }
{
    match side {
        Side::Left => rule.x.as_slice(),
        Side::Right => rule.y.as_slice(),
    }
}

// The pattern attributes of a side.
fn pattern_on(rule: &Inclusion<ValueId>, side: Side) -> &[usize]
    ensures { result.now ≡ pattern_on rule.now side }
{
    match side {
        Side::Left => rule.xp.as_slice(),
        Side::Right => rule.yp.as_slice(),
    }
}

// Whether two tuples give one entry.
fn agree_on(rule: &Inclusion<ValueId>, side: Side, one: &Tuple, other: &Tuple) -> bool
    requires wide_one { IsWide (key_on rule.now side ++ pattern_on rule.now side) (ids_of one.now) }
    requires wide_other { IsWide (key_on rule.now side ++ pattern_on rule.now side) (ids_of other.now) }
    ensures { result ≡ (bytes_eq (ids_at (ids_of one.now) (key_on rule.now side)) (ids_at (ids_of other.now) (key_on rule.now side))
        && bytes_eq (ids_at (ids_of one.now) (pattern_on rule.now side)) (ids_at (ids_of other.now) (pattern_on rule.now side))) }
{
    agree(one, other, key_on(rule, side)) && agree(one, other, pattern_on(rule, side))
}

// Writes the key and the pattern values that a tuple has on a side into lists that have the room.
fn write_entry(
    key: &mut Key,
    pattern: &mut Key,
    rule: &Inclusion<ValueId>,
    side: Side,
    tuple: &Tuple,
)
    requires room { HaveRoom rule.now key.old pattern.old }
    requires wide { IsWide (key_on rule.now side ++ pattern_on rule.now side) (ids_of tuple.now) }
    ensures key { key.new.items ≡ ids_at (ids_of tuple.now) (key_on rule.now side) }
    ensures pattern { pattern.new.items ≡ ids_at (ids_of tuple.now) (pattern_on rule.now side) }
    ensures room { HaveRoom rule.now key.new pattern.new }
{
    write_key(key, tuple, key_on(rule, side));
    write_key(pattern, tuple, pattern_on(rule, side));
}

impl CindIndex {
    fn table_on(&self, side: Side) -> usize
        ensures { result ≡ table_on (made_of self.now) side }
    {
        match side {
            Side::Left => self.left,
            Side::Right => self.right,
        }
    }

    /// Makes the lists long enough for a key and pattern values of either side.
    pub(crate) fn make_room(&mut self) -> Result<(), AllocError>
        ensures made { made_of self.new ≡ made_of self.old }
        ensures keys { self.new.keys ≡ self.old.keys }
        ensures room { OnOk result (HaveRoom self.new.rule self.new.key self.new.pattern) }
    {
        let rule = &self.rule;
        let key = rule.x.as_slice().len().max(rule.y.as_slice().len());
        let pattern = rule.xp.as_slice().len().max(rule.yp.as_slice().len());
        make_room(&mut self.key, key)?;
        make_room(&mut self.pattern, pattern)
    }

    // Whether rows of the table give entries on this side, and the two tuples different ones.
    fn differs_on(&self, side: Side, table: usize, one: Option<&Tuple>, other: &Tuple) -> bool
        requires wide_one { ForSome (ids_behind one) (IsWide (attributes_on (made_of self.now) table side)) }
        requires wide_other { IsWide (attributes_on (made_of self.now) table side) (ids_of other.now) }
        ensures same { result ≡ false → (row : ℕ) (e : SideEntry ℕ) → table ≡ table_on (made_of self.now) side →
            entries_of (gives_on self.now.rule side row) (ids_behind one.entry) e ≡ gives_on self.now.rule side row (ids_of other.now) e }
        ensures differ { result ≡ true → (row : ℕ) (e : SideEntry ℕ) →
            (entries_of (gives_on self.now.rule side row) (ids_behind one.entry) e && gives_on self.now.rule side row (ids_of other.now) e) ≡ false }
        ensures here { result ≡ true → table ≡ table_on (made_of self.now) side }
    {
        if table != self.table_on(side) {
            return false;
        }
        match one {
            Some(tuple) => !agree_on(&self.rule, side, tuple, other),
            None => true,
        }
    }

    /// Adds what a row gives for one side with its new tuple. Gives the place of its key where the entry is new.
    pub(crate) fn add_on<L: Ledger>(
        &mut self,
        side: Side,
        table: usize,
        row: RowId,
        old: Option<&Tuple>,
        new: &Tuple,
        steps: &mut Steps<L>,
    ) -> Result<Option<usize>, AllocError>
        requires room { HaveRoom self.old.rule self.old.key self.old.pattern }
        requires present { HoldsOfRowOn side table row (ids_behind old) self.old }
        requires wide_old { ForSome (ids_behind old) (IsWide (attributes_on (made_of self.old) table side)) }
        requires wide_new { IsWide (attributes_on (made_of self.old) table side) (ids_of new.now) }
        ensures made { KeepsMade self.old self.new }
        ensures ok { OnOk result (HoldsMore side (given (made_of self.old) side table row (ids_of new.now)) self.old.keys self.new.keys) }
        ensures new { IfOk result (λ new_at. IfSome new_at (λ place. (table ≡ table_on (made_of self.old) side) × StandsAt self.new side (ids_of new.now) place
            × ((e : SideEntry ℕ) → gives_on self.old.rule side row (ids_of new.now) e ≡ true → held self.old.keys side e ≡ false))) }
        ensures old { IfOk result (λ new_at. IfNone new_at (HoldTheSame self.old.keys self.new.keys)) }
        ensures err { OnErr result (HoldTheSame self.old.keys self.new.keys) }
        ensures places { OnErr result (KeepsKeys self.old.keys self.new.keys) }
        ensures probes { steps.new ≤ steps.old + 1 }
    {
        if !self.differs_on(side, table, old, new) {
            return Ok(None);
        }
        write_entry(&mut self.key, &mut self.pattern, &self.rule, side, new);
        let key = Key::from_slice(*self.key.allocator(), self.key.as_slice())?;
        let tableau = self.rule.rows.as_slice();
        let pattern = self.pattern.as_slice();
        put_entry(
            &mut self.keys,
            &mut self.totals,
            tableau,
            side,
            key,
            pattern,
            row,
            steps,
        )
    }

    /// Takes back what was added on the left, by the place of its key.
    pub(crate) fn take_back(&mut self, place: usize, row: RowId, tuple: &Tuple)
        requires room { HaveRoom self.old.rule self.old.key self.old.pattern }
        requires at { StandsAt self.old Left (ids_of tuple.now) place }
        requires wide { IsWide (self.old.rule.x ++ self.old.rule.xp) (ids_of tuple.now) }
        ensures made { KeepsMade self.old self.new }
        ensures left { HoldsLess Left (gives_on self.old.rule Left row (ids_of tuple.now)) self.old.keys self.new.keys }
    {
        write_key(&mut self.pattern, tuple, self.rule.xp.as_slice());
        let tableau = self.rule.rows.as_slice();
        let pattern = self.pattern.as_slice();
        take_at(
            &mut self.keys,
            &mut self.totals,
            tableau,
            place,
            Side::Left,
            pattern,
            row,
        );
    }

    /// Takes away what a row gave for one side with its old tuple and doesn't give with the new one.
    pub(crate) fn remove_on<L: Ledger>(
        &mut self,
        side: Side,
        table: usize,
        row: RowId,
        old: &Tuple,
        new: Option<&Tuple>,
        steps: &mut Steps<L>,
    )
        requires room { HaveRoom self.old.rule self.old.key self.old.pattern }
        requires present { (e : SideEntry ℕ) → table ≡ table_on (made_of self.old) side → row ≡ e.row →
            held self.old.keys side e ≡ (gives_on self.old.rule side row (ids_of old.now) e || entries_of (gives_on self.old.rule side row) (ids_behind new) e) }
        requires wide_old { IsWide (attributes_on (made_of self.old) table side) (ids_of old.now) }
        requires wide_new { ForSome (ids_behind new) (IsWide (attributes_on (made_of self.old) table side)) }
        ensures made { KeepsMade self.old self.new }
        ensures left { (e : SideEntry ℕ) → held self.new.keys side e ≡ cond (given (made_of self.old) side table row (ids_of old.now) e)
            (entries_of (given (made_of self.old) side table row) (ids_behind new.entry) e) (held self.old.keys side e) }
        ensures beside { (e : SideEntry ℕ) → held self.new.keys (across side) e ≡ held self.old.keys (across side) e }
        ensures probes { steps.new ≤ steps.old + 1 }
    {
        if !self.differs_on(side, table, new, old) {
            return;
        }
        write_entry(&mut self.key, &mut self.pattern, &self.rule, side, old);
        let tableau = self.rule.rows.as_slice();
        let pattern = self.pattern.as_slice();
        take_entry(
            &mut self.keys,
            &mut self.totals,
            tableau,
            side,
            &self.key,
            pattern,
            row,
            steps,
        );
    }
}
