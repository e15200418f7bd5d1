//! Pairs of rows that agree. Where they are few, they alone tell what attributes determine, and no other row is looked at.
ghost use Rattle.std.specs.Prelude.{◌≡◌, ◌<◌, ℕ, true, length, All, IfOk, OnOk};
ghost use Rattle.dep_search.specs.Classes.{AreNexts};
ghost use Rattle.dep_search.specs.Pairs.{AreKept, ArePairs, HasBehind, IsBelow, IsLed, is_apart, same_of};
ghost use Rattle.dep_search.specs.Settled.{IsTable};

use crate::classes::Classes;
use crate::grouped::grouped_by;
use crate::table::Table;
use std::alloc::{AllocError, Global};
use std::slice;
use text_lists::List;

/// Two rows.
#[derive(Clone, Copy)]
pub struct Pair {
    pub one: usize,
    pub other: usize,
}

/// Pairs of rows that agree on an attribute: all of them, or some.
#[derive(Drop)]
pub struct Pairs {
    pub attr: usize,
    pub list: List<Pair>,
    pub whole: bool,
}

/// The pairs of rows that agree on an attribute, or the first so many of them.
pub fn pairs_at(alloc: Global, table: &Table, attr: usize, most: usize) -> Result<Pairs, AllocError>
    requires table { IsTable table.now }
    requires attr { attr < length table.now.columns.now }
    ensures { IfOk result (ArePairs table.now) }
{
    let grouped = grouped_by(alloc, table, slice::from_ref(&attr))?;
    let mut list = List::new(alloc);
    let whole = push_all_pairs(&grouped.classes, &mut list, most)?;
    Ok(Pairs { attr, list, whole })
}

// Puts all pairs of rows that one leader leads, while there are not more than so many. Whether these are all.
fn push_all_pairs(
    classes: &Classes,
    pairs: &mut List<Pair>,
    most: usize,
) -> Result<bool, AllocError>
    requires classes { AreNexts classes.now.leaders classes.now.nexts }
    requires pairs { All (IsLed classes.now.leaders) pairs.old }
    ensures pairs { OnOk result (All (IsLed classes.now.leaders) pairs.new) }
    ensures all { IfOk result (λ all. all ≡ true → (r : ℕ) → r < length classes.now.leaders → HasBehind classes.now.leaders pairs.new r) }
{
    for r in 0..classes.leaders.as_slice().len() {
        if !push_pairs(classes, pairs, r, most)? {
            return Ok(false);
        }
    }
    Ok(true)
}

// The same for the pairs of one row with those behind it.
fn push_pairs(
    classes: &Classes,
    pairs: &mut List<Pair>,
    r: usize,
    most: usize,
) -> Result<bool, AllocError>
    requires classes { AreNexts classes.now.leaders classes.now.nexts }
    requires r { r < length classes.now.leaders }
    requires pairs { All (IsLed classes.now.leaders) pairs.old }
    ensures pairs { OnOk result (All (IsLed classes.now.leaders) pairs.new) }
    ensures kept { OnOk result (AreKept pairs.old pairs.new) }
    ensures all { IfOk result (λ all. all ≡ true → HasBehind classes.now.leaders pairs.new r) }
{
    let nexts = classes.nexts.as_slice();
    let mut s = nexts[r];
    while s < nexts.len() {
        if pairs.as_slice().len() >= most {
            return Ok(false);
        }
        pairs.push(Pair { one: r, other: s })?;
        s = nexts[s];
    }
    Ok(true)
}

/// The pairs that have one id.
#[tactic(auto, using(std::proofs::lemmas::List::take_all))]
pub fn same_pairs(alloc: Global, pairs: &[Pair], ids: &[usize]) -> Result<List<Pair>, AllocError>
    requires { All (IsBelow (length ids.now)) pairs.now }
    ensures { IfOk result (λ list. list ≡ same_of ids.now pairs.now) }
{
    let mut list = List::new(alloc);
    for pair in pairs {
        if ids[pair.one] == ids[pair.other] {
            list.push(*pair)?;
        }
    }
    Ok(list)
}

/// Whether one of the pairs has two ids.
#[tactic(auto, using(std::proofs::lemmas::List::Folds::list_any_at, std::proofs::lemmas::List::Folds::list_any_more, std::proofs::lemmas::List::take_all))]
pub fn is_apart(pairs: &[Pair], ids: &[usize]) -> bool
    requires { All (IsBelow (length ids.now)) pairs.now }
    ensures { result ≡ is_apart ids.now pairs.now }
{
    for pair in pairs {
        if ids[pair.one] != ids[pair.other] {
            return true;
        }
    }
    false
}
