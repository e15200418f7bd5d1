//! The rows by the value ids in some columns: a hashed map from keys to row ids, in which no key stands
//! without rows.
ghost use Rattle.std.specs.Prelude.{◌≡◌, ◌+◌, ◌<◌, ◌≤◌, Some, None, ℕ, List, length, slice_get, false, option_map, OnOk, OnErr};
ghost use Rattle.std.specs.FinMap as finite;
ghost use Rattle.std.specs.Map.{lookup};
ghost use Rattle.std.specs.Str.{bytes_eq};
ghost use Rattle.indexmap.specs.IndexMap.{get, IsUnique};
ghost use Rattle.row_store.specs.Tuple.{ids_of};
ghost use Rattle.master_index.specs.ColumnRows.{AreOrderly, HasKeyAt, HoldAlike, IsComparedIn, IsPutUnder, IsTakenFrom, NotesAlike, NotesStay};
ghost use Rattle.master_index.specs.ColumnSets.{has_column};
ghost use Rattle.master_index.specs.Tables.{rows_of_tables};

use crate::column_set::{ColumnSet, differences};
use crate::key::Ids;
use crate::rising::RowIds;
use crate::tables::Tables;
use hash_keys::HashKeys;
use indexmap::IndexMap;
use marked_map::find_or_push;
use probe_steps::Steps;
use row_store::{Key, RowId, Tuple};
use std::alloc::AllocError;
use std::sync::ledger::Ledger;
use value_pool::ValueId;

pub(crate) type ColumnRows = IndexMap<Key, RowIds, HashKeys>;

/// The rows under a key, if there are any.
pub(crate) fn rows_with<'a>(map: &'a ColumnRows, ids: &[ValueId]) -> Option<&'a RowIds>
    ensures { option_map (λ rows. rows.now) result ≡ lookup (λ key. bytes_eq ids.now key.items) map.now.entries }
{
    map.get(Ids(ids))
}

// The columns in which the tuple differs from that of the first of the rows.
fn apart_from_first(tables: &Tables, master: usize, rows: &[RowId], tuple: &Tuple) -> ColumnSet
    ensures { (first : ℕ) (held : List ℕ) → slice_get rows.now 0 ≡ Some first → finite.get (rows_of_tables tables.now.stores.items) (master, first) ≡ Some held →
        (column : ℕ) → column < 64 → has_column result column ≡ false → slice_get held column ≡ slice_get (ids_of tuple.now) column }
{
    let Some(first) = rows.first() else {
        return ColumnSet::none();
    };
    match tables.get(master, *first) {
        Some(held) => differences(held.as_slice(), tuple.as_slice()),
        None => ColumnSet::none(),
    }
}

/// Puts the row under a key, in one probe, and notes there in which columns it differs from the first row,
/// whose tuple is that of the tables.
pub(crate) fn put_row<L: Ledger>(
    map: &mut ColumnRows,
    key: Key,
    tables: &Tables,
    master: usize,
    row: RowId,
    tuple: &Tuple,
    steps: &mut Steps<L>,
) -> Result<(), AllocError>
    requires { AreOrderly map.old.entries }
    ensures kept { AreOrderly map.new.entries }
    ensures ok { OnOk result (IsPutUnder map.old.entries map.new.entries key.items row) }
    ensures err { OnErr result (HoldAlike map.old.entries map.new.entries) }
    ensures noted { NotesStay map.old.entries map.new.entries }
    ensures compared { OnOk result (IsComparedIn (rows_of_tables tables.now.stores.items) master map.old.entries map.new.entries key.items row (ids_of tuple.now)) }
    ensures probes { steps.new ≤ steps.old + 1 }
{
    let alloc = *map.allocator();
    let place = find_or_push(map, key, RowIds::One(row), steps)?;
    let apart = apart_from_first(tables, master, map[place].as_slice(), tuple);
    map[place].put(alloc, row, apart)
}

/// Takes the row away from a key, in one probe and without memory.
pub(crate) fn take_row<L: Ledger>(
    map: &mut ColumnRows,
    key: &[ValueId],
    row: RowId,
    steps: &mut Steps<L>,
)
    requires { AreOrderly map.old.entries }
    ensures kept { AreOrderly map.new.entries }
    ensures left { IsTakenFrom map.old.entries map.new.entries key.now row }
    ensures noted { NotesAlike map.old.entries map.new.entries }
    ensures probes { steps.new ≡ steps.old + 1 }
{
    steps.tick();
    if let Some(place) = map.get_index_of(Ids(key)) {
        take_at(map, place, row);
    }
}

// Takes the row away from the key at a place, and the key too where it was its only row.
fn take_at(map: &mut ColumnRows, place: usize, row: RowId)
    requires within { place < length map.old.entries }
    requires kept { AreOrderly map.old.entries }
    requires unique { IsUnique ⟦<Key as PartialEq>⟧.eq map.old }
    ensures kept { AreOrderly map.new.entries }
    ensures left { (key : List ℕ) → HasKeyAt map.old.entries place key → IsTakenFrom map.old.entries map.new.entries key row }
    ensures noted { NotesAlike map.old.entries map.new.entries }
{
    if map[place].as_slice() == [row].as_slice() {
        map.swap_remove_index(place);
    } else {
        map[place].take(row);
    }
}
