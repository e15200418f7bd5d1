//! Slots by id in one growing vector. A slot is empty where its row was taken, or where its id was
//! passed over.
ghost use Rattle.std.specs.Prelude.{◌≡◌, ◌+◌, ◌-◌, ◌<◌, ◌≤◌, ◌^◌, Some, None, IsSome, OnOk, vec_capacity};
ghost use Rattle.std.specs.FinMap as map;
ghost use Rattle.row_store.specs.Tuple.{ids_of, ids_behind};
ghost use Rattle.row_store.specs.Slots.{rows_in};

use crate::rows::Rows;
use std::alloc::{AllocError, Global};
use std::marker::Model;
use std::rc::RcSlice;
use value_pool::ValueId;

pub type RowId = u64;

/// One value id an attribute, in the order of the table's attributes.
pub type Tuple = RcSlice<ValueId>;

/// Rows by id. The next id lies above the ids of all rows, and only `put` and `set_next` move it, so
/// the id of a row that was taken isn't given again by itself.
#[derive(Drop)]
pub struct RowStore {
    // The row with an id stands at that place; place 0 stays empty unless someone uses the id 0.
    slots: Vec<Option<Tuple>>,
    count: usize,
    next: RowId,
}

impl Model for RowStore {
    ghost use Rattle.std.specs.Prelude.{◌≡◌, ◌-◌, vec_capacity};
    ghost use Rattle.std.specs.FinMap as map;
    ghost use Rattle.row_store.specs.Store.{Store, AllBelow, store_code};
    ghost use Rattle.row_store.specs.Slots.{rows_in};

    ghost Value = { Store };

    ghost coded = { store_code };

    ghost view = { λ s. record { rows = rows_in s.slots.items; next = s.next; spare = vec_capacity s.slots - s.next } };

    ghost invariant = { λ s. (s.count ≡ map.len (rows_in s.slots.items)) × AllBelow (rows_in s.slots.items) s.next };
}

impl RowStore {
    ghost use Rattle.row_store.specs.Rows.{rows_left};
    ghost use Rattle.row_store.specs.Store.{AllBelow};

    #[tactic(auto, using(crate::proofs::SlotRows::slot_rows))]
    pub fn new(alloc: Global) -> Self
        ensures empty { result.rows ≡ map.empty }
        ensures first { result.next ≡ 1 }
    {
        Self {
            slots: Vec::new(alloc),
            count: 0,
            next: 1,
        }
    }

    /// How many rows there are.
    pub fn len(&self) -> usize
        ensures { result ≡ map.len self.now.rows }
    {
        self.count
    }

    pub fn next_id(&self) -> RowId
        ensures value { result ≡ self.now.next }
        ensures above { AllBelow self.now.rows result }
    {
        self.next
    }

    pub fn get(&self, id: RowId) -> Option<&Tuple>
        ensures { ids_behind result ≡ map.get self.now.rows id }
    {
        tuple_at(&self.slots, id as usize)
    }

    /// The rows by rising ids. The walk looks at each id below the next one.
    pub fn rows(&self) -> Rows<'_>
        ensures { rows_left result ≡ map.entries self.now.rows }
    {
        Rows::over(&self.slots)
    }

    /// Makes room for one more row.
    pub fn ready_insert(&mut self) -> Result<(), AllocError>
        ensures ready { OnOk result (0 < self.new.spare) }
        ensures rows { self.new.rows ≡ self.old.rows }
        ensures next { self.new.next ≡ self.old.next }
        ensures room { self.old.spare ≤ self.new.spare }
    {
        // Ids that were passed over need their empty slots too.
        let passed = (self.next as usize).saturating_sub(self.slots.len());
        self.slots.reserve(passed.saturating_add(1))
    }

    #[tactic(auto, using(crate::proofs::RowsKept::rows_kept))]
    /// Adds the tuple at the next id, and gives that id.
    pub fn put(&mut self, tuple: Tuple) -> RowId
        requires room { 0 < self.old.spare }
        requires id_left { self.old.next + 1 < 2 ^ 64 }
        ensures id { result ≡ self.old.next }
        ensures rows { self.new.rows ≡ map.insert self.old.rows result (ids_of tuple) }
        ensures next { self.new.next ≡ self.old.next + 1 }
        ensures spare { self.new.spare + 1 ≡ self.old.spare }
    {
        let id = self.next;
        fill_slot(&mut self.slots, self.next as usize, tuple);
        self.count += 1;
        self.next = id + 1;
        id
    }

    #[tactic(auto, using(crate::proofs::RowsKept::rows_kept))]
    /// Puts a row at an id that was given before and that no row has now.
    pub fn put_back(&mut self, id: RowId, tuple: Tuple)
        requires room { 0 < self.old.spare }
        requires given { id < self.old.next }
        requires absent { map.get self.old.rows id ≡ None }
        ensures rows { self.new.rows ≡ map.insert self.old.rows id (ids_of tuple) }
        ensures next { self.new.next ≡ self.old.next }
        ensures spare { self.new.spare ≡ self.old.spare }
    {
        fill_slot(&mut self.slots, id as usize, tuple);
        self.count += 1;
    }

    #[tactic(auto, using(crate::proofs::RowsKept::rows_kept))]
    /// Puts the tuple in place of the row's, and gives the old one.
    pub fn replace(&mut self, id: RowId, tuple: Tuple) -> Tuple
        requires { IsSome (map.get self.old.rows id) }
        ensures old { map.get self.old.rows id ≡ Some (ids_of result) }
        ensures rows { self.new.rows ≡ map.insert self.old.rows id (ids_of tuple) }
        ensures next { self.new.next ≡ self.old.next }
        ensures spare { self.new.spare ≡ self.old.spare }
    {
        swap_slot(&mut self.slots, id as usize, tuple)
    }

    #[tactic(auto, using(crate::proofs::RowsKept::rows_kept))]
    /// Takes the row away, and gives its tuple.
    pub fn take(&mut self, id: RowId) -> Tuple
        requires { IsSome (map.get self.old.rows id) }
        ensures old { map.get self.old.rows id ≡ Some (ids_of result) }
        ensures rows { self.new.rows ≡ map.remove self.old.rows id }
        ensures next { self.new.next ≡ self.old.next }
        ensures spare { self.new.spare ≡ self.old.spare }
    {
        let tuple = empty_slot(&mut self.slots, id as usize);
        self.count -= 1;
        tuple
    }

    /// Sets the next id, up or down.
    pub fn set_next(&mut self, id: RowId)
        requires { AllBelow self.old.rows id }
        ensures next { self.new.next ≡ id }
        ensures rows { self.new.rows ≡ self.old.rows }
        ensures spare { id ≤ self.old.next → self.old.spare ≤ self.new.spare }
    {
        self.next = id;
    }
}

// The tuple of a slot.
#[tactic(auto, using(crate::proofs::SlotRows::slot_rows))]
fn tuple_at(slots: &[Option<Tuple>], place: usize) -> Option<&Tuple>
    ensures { ids_behind result ≡ map.get (rows_in slots.now) place }
{
    slots.get(place)?.as_ref()
}

// Fills an empty slot, after putting empty slots before it where there are too few.
#[tactic(auto, using(crate::proofs::SlotRows::slot_rows))]
fn fill_slot(slots: &mut Vec<Option<Tuple>>, place: usize, tuple: Tuple)
    requires room { place < vec_capacity slots.old }
    requires empty { map.get (rows_in slots.old.items) place ≡ None }
    ensures rows { rows_in slots.new.items ≡ map.insert (rows_in slots.old.items) place (ids_of tuple) }
    ensures capacity { vec_capacity slots.new ≡ vec_capacity slots.old }
    ensures few { map.len (rows_in slots.new.items) < 2 ^ 64 }
{
    if place < slots.len() {
        slots[place] = Some(tuple);
        return;
    }
    while slots.len() < place {
        slots.push_reserved(None);
    }
    slots.push_reserved(Some(tuple));
}

// Puts another tuple into a slot that has one.
#[tactic(auto, using(crate::proofs::SlotRows::slot_rows))]
fn swap_slot(slots: &mut Vec<Option<Tuple>>, place: usize, tuple: Tuple) -> Tuple
    requires { IsSome (map.get (rows_in slots.old.items) place) }
    ensures old { map.get (rows_in slots.old.items) place ≡ Some (ids_of result) }
    ensures rows { rows_in slots.new.items ≡ map.insert (rows_in slots.old.items) place (ids_of tuple) }
    ensures capacity { vec_capacity slots.new ≡ vec_capacity slots.old }
{
    slots[place].replace(tuple).unwrap()
}

// Takes the tuple out of a slot that has one.
#[tactic(auto, using(crate::proofs::SlotRows::slot_rows))]
fn empty_slot(slots: &mut Vec<Option<Tuple>>, place: usize) -> Tuple
    requires { IsSome (map.get (rows_in slots.old.items) place) }
    ensures old { map.get (rows_in slots.old.items) place ≡ Some (ids_of result) }
    ensures rows { rows_in slots.new.items ≡ map.remove (rows_in slots.old.items) place }
    ensures capacity { vec_capacity slots.new ≡ vec_capacity slots.old }
{
    slots[place].take().unwrap()
}
