//! A change of one row: made to the store of its table, and taken back. The indexes and the log follow it either way.

ghost use Rattle.std.specs.Prelude.{◌≡◌, ◌+◌, ◌^◌, ◌<◌, ◌≤◌, ◌||◌, None, Some, false, IsTrue, OnErr, OnOk, is_some, option_copied};
ghost use Rattle.row_store.specs.Tuple.{ids_if};
ghost use Rattle.bench_index.specs.AllIndexes.{AllFollow, AreAsBefore, most_probes};
ghost use Rattle.bench_core.specs.Indexed.{CanFollow};
ghost use Rattle.bench_core.specs.Stored.{stored};
ghost use Rattle.bench_core.specs.Changes.{CanMake, HasMade, after_change, before_change};
ghost use Rattle.bench_core.specs.Turns.{CanTurn, HasRoomFor, Moves, next_change, tuple_after, tuple_before, turned};

use bench_index::AllIndexes;
use edit_log::{Change, Log};
use probe_steps::Steps;
use row_store::{RowStore, Tuple};
use rule_model::RuleBook;
use std::alloc::AllocError;
use std::sync::ledger::Ledger;

/// Which way a change is gone over.
#[derive(Clone, Copy)]
pub enum Direction {
    /// It is taken back.
    Back,
    /// It is made, for the first time or again.
    Forward,
}

/// The change that comes next in that direction.
pub(crate) fn next_change(log: &Log, direction: Direction) -> Option<&Change>
    ensures { option_copied result ≡ next_change direction log.now }
{
    match direction {
        Direction::Back => log.last(),
        Direction::Forward => log.next(),
    }
}

/// Moves the next change in that direction to the other side.
pub(crate) fn move_log(log: &mut Log, direction: Direction)
    ensures { Moves direction (next_change direction log.old) log.old log.new }
{
    match direction {
        Direction::Back => {
            log.back();
        }
        Direction::Forward => {
            log.forward();
        }
    }
}

/// The tuple that the row of a change has before it is gone over in that direction.
pub(crate) fn tuple_before(change: &Change, direction: Direction) -> &Option<Tuple>
    ensures { result.now ≡ tuple_before direction change.now }
{
    match direction {
        Direction::Back => &change.new,
        Direction::Forward => &change.old,
    }
}

/// The tuple that it has then.
pub(crate) fn tuple_after(change: &Change, direction: Direction) -> &Option<Tuple>
    ensures { result.now ≡ tuple_after direction change.now }
{
    match direction {
        Direction::Back => &change.old,
        Direction::Forward => &change.new,
    }
}

/// Turns the table of a change into what it is then. `tuple` is what the row then has.
pub(crate) fn turn(
    store: &mut RowStore,
    change: &Change,
    direction: Direction,
    tuple: Option<Tuple>,
)
    requires room { HasRoomFor direction change.now store.old }
    requires id_left { change.now.row + 1 < 2 ^ 64 }
    requires there { IsTrue (is_some change.now.old || is_some change.now.new) }
    requires can { CanTurn direction change.now (stored store.old) }
    requires same { ids_if tuple ≡ ids_if (tuple_after direction change.now) }
    ensures { stored store.new ≡ turned direction change.now (stored store.old) }
{
    match direction {
        Direction::Back => take_back(store, change, tuple),
        Direction::Forward => make(store, change, tuple),
    }
}

/// Makes the change. `new` is its new tuple.
fn make(store: &mut RowStore, change: &Change, new: Option<Tuple>)
    requires room { is_some change.now.old ≡ false → 0 < store.old.spare }
    requires id_left { change.now.row + 1 < 2 ^ 64 }
    requires there { IsTrue (is_some change.now.old || is_some change.now.new) }
    requires can { CanMake change.now (stored store.old) }
    requires same { ids_if new ≡ ids_if change.now.new }
    ensures { stored store.new ≡ after_change change.now (stored store.old) }
{
    match new {
        None => {
            store.take(change.row);
        }
        Some(tuple) => put_new(store, change, tuple),
    }
}

fn put_new(store: &mut RowStore, change: &Change, tuple: Tuple)
    requires room { is_some change.now.old ≡ false → 0 < store.old.spare }
    requires id_left { change.now.row + 1 < 2 ^ 64 }
    requires can { CanMake change.now (stored store.old) }
    requires same { ids_if change.now.new ≡ ids_if (Some tuple) }
    ensures { stored store.new ≡ after_change change.now (stored store.old) }
{
    if change.old.is_some() {
        store.replace(change.row, tuple);
    } else {
        store.put(tuple);
    }
}

/// Takes the change back. `old` is its old tuple.
fn take_back(store: &mut RowStore, change: &Change, old: Option<Tuple>)
    requires room { is_some change.now.new ≡ false → 0 < store.old.spare }
    requires there { IsTrue (is_some change.now.old || is_some change.now.new) }
    requires made { HasMade change.now (stored store.old) }
    requires same { ids_if old ≡ ids_if change.now.old }
    ensures { stored store.new ≡ before_change change.now (stored store.old) }
{
    match old {
        None => take_newest(store, change),
        Some(tuple) => put_old(store, change, tuple),
    }
}

/// Takes a row away that was inserted. Its id is the next one again.
fn take_newest(store: &mut RowStore, change: &Change)
    requires there { IsTrue (is_some change.now.old || is_some change.now.new) }
    requires made { HasMade change.now (stored store.old) }
    requires inserted { ids_if change.now.old ≡ None }
    ensures { stored store.new ≡ before_change change.now (stored store.old) }
{
    let newest = store.next_id() - 1;
    store.take(newest);
    store.set_next(newest);
}

fn put_old(store: &mut RowStore, change: &Change, tuple: Tuple)
    requires room { is_some change.now.new ≡ false → 0 < store.old.spare }
    requires made { HasMade change.now (stored store.old) }
    requires same { ids_if change.now.old ≡ ids_if (Some tuple) }
    ensures { stored store.new ≡ before_change change.now (stored store.old) }
{
    if change.new.is_some() {
        store.replace(change.row, tuple);
    } else {
        store.put_back(change.row, tuple);
    }
}

/// The indexes follow the row of the change, or all stay as they are where memory is refused.
pub(crate) fn follow_change<L: Ledger>(
    index: &mut AllIndexes,
    rules: &RuleBook,
    change: &Change,
    direction: Direction,
    steps: &mut Steps<L>,
) -> Result<(), AllocError>
    requires { CanFollow rules.now change.now.table change.now.row (ids_if (tuple_before direction change.now)) (ids_if (tuple_after direction change.now)) index.old }
    ensures followed { OnOk result (AllFollow rules.now change.now.table change.now.row (ids_if (tuple_before direction change.now)) (ids_if (tuple_after direction change.now)) index.old index.new) }
    ensures refused { OnErr result (AreAsBefore index.old index.new) }
    ensures probes { steps.new ≤ steps.old + most_probes rules.now change.now.table }
{
    let before = tuple_before(change, direction).as_ref();
    let after = tuple_after(change, direction).as_ref();
    index.follow(rules, change.table, change.row, before, after, steps)
}
