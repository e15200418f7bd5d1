//! The entries of a desk, kept so that the last ones of an editor and of a row are found at once.

ghost use Rattle.std.specs.Prelude.{◌≡◌, ℕ, suc, ◌+◌, ◌-◌, ◌<◌, ◌≤◌, ◌^◌, ◌&&◌, not, if◌then◌else◌, List, vec_len, vec_capacity, ◌++◌, ◌∷◌, [], slice_get, length, OnOk, option_map, option_copied};
ghost use Rattle.std.specs.Str.{bytes_eq};
ghost use Rattle.indexmap.specs.IndexMap.{spare};
ghost use Rattle.desk_entries.specs.Entries.{entry_at, is_deletion, is_overtaken, last_live, version_of};
ghost use Rattle.desk_entries.specs.Kept.{HasRoom, MayTake, RowKey, entry_kept, entry_new, kept_new, live_top, row_tops, same_row, tops_noted};

use hash_keys::HashKeys;
use indexmap::IndexMap;
use std::alloc::{AllocError, Global};
use std::marker::Model;
use text_lists::{Text, Texts};

/// An edit that was accepted: whose it is, of which row, the row's texts before it, which are none where it inserted the
/// row, whether it deleted the row, and the number of the entry that it takes back, if it does.
#[derive(Drop)]
pub struct NewEntry {
    pub editor: Text,
    pub table: usize,
    pub row: u64,
    pub before: Option<Texts>,
    pub deletes: bool,
    pub takes: Option<usize>,
}

/// An entry as it is kept.
#[derive(Drop)]
pub struct Kept {
    pub entry: NewEntry,
    // Where this entry is live, the live one of the same editor before it.
    live_below: usize,
    // Where it is live or a deletion, the one on the same row before it that is.
    firm_below: usize,
}

/// The last numbers on a row.
#[derive(Clone, Copy)]
pub struct RowTops {
    version: usize,
    // The last that is live or a deletion.
    firm: usize,
}

/// The entries, the first of which has the number 1.
#[derive(Drop)]
pub struct Entries {
    list: Vec<Kept>,
    live: IndexMap<Text, usize, HashKeys>,
    rows: IndexMap<(usize, u64), RowTops, HashKeys>,
}

impl Model for Entries {
    ghost use Rattle.std.specs.Prelude.{vec_len, vec_capacity, ◌-◌};
    ghost use Rattle.indexmap.specs.IndexMap.{spare};
    ghost use Rattle.desk_entries.specs.Kept.{EntriesModel, IsKept, entries_kept};

    ghost Value = { EntriesModel };

    ghost view = { λ e. record { entries = entries_kept e.list.items; list_room = vec_capacity e.list - vec_len e.list; live_room = spare e.live; row_room = spare e.rows } };

    ghost invariant = { λ e. IsKept e.list.items e.live e.rows };
}

impl Entries {
    /// No entries, which are to be found by a hash with these keys. It takes no memory.
    pub fn with_hasher(alloc: Global, keys: HashKeys) -> Entries
        ensures { result.entries ≡ [] }
    {
        Entries {
            list: Vec::new(alloc),
            live: IndexMap::with_hasher(alloc, keys),
            rows: IndexMap::with_hasher(alloc, keys),
        }
    }

    /// How many entries there are, which is the number of the last one.
    pub fn len(&self) -> usize
        ensures { result ≡ length self.now.entries }
    {
        self.list.len()
    }

    /// The entry of that number.
    pub fn entry(&self, number: usize) -> Option<&Kept>
        ensures { option_map entry_kept (option_copied result) ≡ entry_at self.now.entries number }
    {
        if number == 0 {
            return None;
        }
        kept_at(self.list.as_slice(), number - 1)
    }

    /// The version of a row: the number of the last entry on it, or 0.
    pub fn version(&self, table: usize, row: u64) -> usize
        ensures { result ≡ version_of self.now.entries table row }
    {
        tops_at(&self.rows, (table, row)).version
    }

    /// The number of the editor's last live entry, or 0.
    pub fn last_live(&self, editor: &Text) -> usize
        ensures { result ≡ last_live self.now.entries editor.now }
    {
        live_at(&self.live, editor)
    }

    /// Whether a later entry on the entry's row is live or a deletion.
    pub fn is_overtaken(&self, number: usize, entry: &Kept) -> bool
        ensures { result ≡ is_overtaken self.now.entries number (entry_kept entry.now) }
    {
        number < tops_at(&self.rows, (entry.entry.table, entry.entry.row)).firm
    }

    /// Makes room for another entry.
    pub fn ready(&mut self) -> Result<(), AllocError>
        ensures ready { OnOk result (HasRoom self.new) }
        ensures entries { self.new.entries ≡ self.old.entries }
    {
        self.list.reserve(1)?;
        self.live.reserve(1)?;
        self.rows.reserve(2)
    }

    /// Appends an entry, for which there is room. `editor` is its editor. An entry that it takes back isn't live any more.
    pub fn push(&mut self, entry: NewEntry, editor: Text)
        requires room { HasRoom self.old }
        requires editor { editor ≡ entry.editor }
        requires may { MayTake self.old.entries entry.editor entry.takes }
        requires small { length self.old.entries < 2 ^ 63 }
        ensures { self.new.entries ≡ self.old.entries ++ entry_new entry ∷ [] }
    {
        let number = self.list.as_slice().len() + 1;
        let live_below = live_at(&self.live, &editor);
        match entry.takes {
            Some(taken) => {
                let taken = &self.list.as_slice()[taken - 1];
                retire_row(taken, &mut self.rows);
                put_live(&mut self.live, editor, taken.live_below);
            }
            None => put_live(&mut self.live, editor, number),
        }
        note(&mut self.list, &mut self.rows, entry, live_below);
    }
}

fn kept_at(list: &[Kept], place: usize) -> Option<&Kept>
    ensures { option_copied result ≡ slice_get list.now place }
{
    list.get(place)
}

/// The last live number of an editor, 0 where there is none.
fn live_at(live: &IndexMap<Text, usize, HashKeys>, editor: &Text) -> usize
    ensures { result ≡ live_top live.now editor.now }
{
    match live.get(editor) {
        Some(number) => *number,
        None => 0,
    }
}

/// The last numbers on a row, each 0 where there is none.
fn tops_at(rows: &IndexMap<(usize, u64), RowTops, HashKeys>, row: (usize, u64)) -> RowTops
    ensures { result ≡ row_tops rows.now row }
{
    match rows.get(&row) {
        Some(tops) => *tops,
        None => RowTops {
            version: 0,
            firm: 0,
        },
    }
}

/// Puts the last live number of an editor.
fn put_live(live: &mut IndexMap<Text, usize, HashKeys>, editor: Text, number: usize)
    requires { 0 < spare live.old }
    ensures { (other : List ℕ) → live_top live.new other ≡ (if bytes_eq editor other then number else live_top live.old other) }
{
    let _ = live.insert(editor, number);
}

/// Puts the last numbers on a row.
fn put_row(rows: &mut IndexMap<(usize, u64), RowTops, HashKeys>, row: (usize, u64), tops: RowTops)
    requires { 0 < spare rows.old }
    ensures tops { (other : RowKey) → row_tops rows.new other ≡ (if same_row row other then tops else row_tops rows.old other) }
    ensures room { spare rows.old ≤ spare rows.new + 1 }
{
    let _ = rows.insert(row, tops);
}

/// The entry isn't live any more: unless it is a deletion, the one below it on its row is the last.
fn retire_row(taken: &Kept, rows: &mut IndexMap<(usize, u64), RowTops, HashKeys>)
    requires { 1 < spare rows.old }
    ensures tops { (other : RowKey) → row_tops rows.new other ≡ (if not (is_deletion (entry_kept taken.now)) && same_row (taken.now.entry.table, taken.now.entry.row) other then record { version = (row_tops rows.old other).version; firm = taken.now.firm_below } else row_tops rows.old other) }
    ensures room { 0 < spare rows.new }
{
    if !taken.entry.deletes {
        let row = (taken.entry.table, taken.entry.row);
        let version = tops_at(rows, row).version;
        put_row(
            rows,
            row,
            RowTops {
                version,
                firm: taken.firm_below,
            },
        );
    }
}

/// Appends an entry to the list, with what is below it, and puts it at the top of its row.
fn note(
    list: &mut Vec<Kept>,
    rows: &mut IndexMap<(usize, u64), RowTops, HashKeys>,
    entry: NewEntry,
    live_below: usize,
)
    requires list { 0 < vec_capacity list.old - vec_len list.old }
    requires rows { 0 < spare rows.old }
    requires small { vec_len list.old < 2 ^ 63 }
    ensures list { list.new.items ≡ list.old.items ++ kept_new entry live_below (row_tops rows.old (entry.table, entry.row)).firm ∷ [] }
    ensures rows { (other : RowKey) → row_tops rows.new other ≡ (if same_row (entry.table, entry.row) other then tops_noted entry (suc (length list.old.items)) (row_tops rows.old other) else row_tops rows.old other) }
{
    let number = list.len() + 1;
    let row = (entry.table, entry.row);
    let tops = tops_at(rows, row);
    let is_firm = entry.deletes || entry.takes.is_none();
    put_row(
        rows,
        row,
        RowTops {
            version: number,
            firm: if is_firm { number } else { tops.firm },
        },
    );
    list.push_reserved(Kept {
        entry,
        live_below,
        firm_below: tops.firm,
    });
}
