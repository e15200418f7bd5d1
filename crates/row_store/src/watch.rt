//! What is kept in step with the rows of tables, as an index is.
ghost use Rattle.std.specs.Prelude.{◌≡◌, ◌+◌, ◌≤◌, ◌||◌, ℕ, Bool, true, false, List, OnOk, OnErr};
ghost use Rattle.std.specs.Option.{ForSome};
ghost use Rattle.row_store.specs.Tuple.{ids_of, ids_behind};
ghost use Rattle.row_store.specs.Watch.{entries_of, AddsEntries, RemovesEntries, IsWide};

use crate::store::{RowId, Tuple};
use probe_steps::Steps;
use std::alloc::AllocError;
use std::sync::ledger::Ledger;

/// Keeps a set of entries in step with rows. Whoever changes a row first calls `add`, then changes the
/// row, and then calls `remove`, which can't fail; where `add` failed for a later watch, `remove` with
/// the tuples the other way round takes the entries back.
pub trait Watch {
    // What it holds, and what it was made with.
    ghost Entry: { Type 0 };

    ghost Made: { Type 0 };

    ghost made: { Self → Made };

    // Whether it holds the entry.
    ghost holds: { Self → Entry → Bool };

    // Whether a row gives the entry: the table, the id and the value ids of the row.
    ghost gives: { Made → ℕ → ℕ → List ℕ → Entry → Bool };

    // The table and the id of the row that an entry names.
    ghost table_of: { Made → Entry → ℕ };

    ghost row_of: { Made → Entry → ℕ };

    // Whether rows of the table give entries.
    ghost needed: { Made → ℕ → Bool };

    // The numbers of the table's attributes that are read.
    ghost attributes: { Made → ℕ → List ℕ };

    // The most probes of a call.
    ghost cost: { Made → ℕ };

    /// Whether rows of the table give entries at all.
    fn needs(&self, table: usize) -> bool
        ensures { result ≡ needed (made self.now) table };

    /// Adds what the row gives with the new tuple. So far it has what it gives with the old one.
    fn add<L: Ledger>(
        &mut self,
        table: usize,
        row: RowId,
        old: Option<&Tuple>,
        new: &Tuple,
        steps: &mut Steps<L>,
    ) -> Result<(), AllocError>
        requires present { (entry : Entry) → table_of (made self.old) entry ≡ table → row_of (made self.old) entry ≡ row →
            holds self.old entry ≡ entries_of (gives (made self.old) table row) (ids_behind old) entry }
        requires wide_old { ForSome (ids_behind old) (IsWide (attributes (made self.old) table)) }
        requires wide_new { IsWide (attributes (made self.old) table) (ids_of new.now) }
        ensures made { made self.new ≡ made self.old }
        ensures ok { OnOk result (AddsEntries (holds self.old) (holds self.new) (gives (made self.old) table row (ids_of new.now))) }
        ensures err { OnErr result ((entry : Entry) → holds self.new entry ≡ holds self.old entry) }
        ensures probes { steps.new ≤ steps.old + cost (made self.old) };

    /// Takes away what the row gave with the old tuple and doesn't give with the new one.
    fn remove<L: Ledger>(
        &mut self,
        table: usize,
        row: RowId,
        old: &Tuple,
        new: Option<&Tuple>,
        steps: &mut Steps<L>,
    )
        requires present { (entry : Entry) → table_of (made self.old) entry ≡ table → row_of (made self.old) entry ≡ row →
            holds self.old entry ≡ (gives (made self.old) table row (ids_of old.now) entry || entries_of (gives (made self.old) table row) (ids_behind new) entry) }
        requires wide_old { IsWide (attributes (made self.old) table) (ids_of old.now) }
        requires wide_new { ForSome (ids_behind new) (IsWide (attributes (made self.old) table)) }
        ensures made { made self.new ≡ made self.old }
        ensures left { RemovesEntries (holds self.old) (holds self.new) (gives (made self.old) table row (ids_of old.now)) (entries_of (gives (made self.old) table row) (ids_behind new.entry)) }
        ensures probes { steps.new ≤ steps.old + cost (made self.old) };

    // A row gives only entries that name it, so no two rows give one entry.
    ghost names_row: { (how : Made) (table row : ℕ) (ids : List ℕ) (entry : Entry) → gives how table row ids entry ≡ true →
        (table_of how entry ≡ table) × (row_of how entry ≡ row) };

    // Rows of a table that isn't needed give no entries.
    ghost unneeded: { (how : Made) (table row : ℕ) (ids : List ℕ) (entry : Entry) → needed how table ≡ false → gives how table row ids entry ≡ false };
}
