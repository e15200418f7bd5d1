//! Rows that agree, as classes that are gone through row by row.
ghost use Rattle.std.specs.Prelude.{◌≡◌, ◌<◌, ◌+◌, ◌≢◌, ℕ, length, IfOk, IfSome, slice_index};
ghost use Rattle.dep_search.specs.Leaders.{AreFirstPairs, AreWithin, IsFirstPair};
ghost use Rattle.dep_search.specs.Classes.{AreClasses, AreMarks, AreNexts, AreSeenBelow, AreSlots, IsMarked, are_alike, is_alike};

use std::alloc::{AllocError, Global};
use text_lists::List;

/// The leader of each row, and the next row that it leads, or how many rows there are.
pub struct Classes {
    pub leaders: List<usize>,
    pub nexts: List<usize>,
}

// By hand, so that whatever drops classes calls this, and isn't proved for each of their parts.
impl Drop for Classes {
    fn drop(self) {
        let Classes {
            leaders: _,
            nexts: _,
        } = self;
    }
}

/// For each row the next one with its leader. The rows are gone through from the last.
pub fn nexts(alloc: Global, leaders: &[usize]) -> Result<List<usize>, AllocError>
    requires { AreWithin leaders.now }
    ensures { IfOk result (AreNexts leaders.now) }
{
    let rows = leaders.len();
    let mut nexts = vec![in alloc; rows; rows]?;
    let mut fronts = vec![in alloc; rows; rows]?;
    for i in 0..rows {
        let r = rows - 1 - i;
        let first = leaders[r];
        nexts[r] = fronts[first];
        fronts[first] = r;
    }
    Ok(List::from(nexts))
}

/// Whether all rows that a leader leads have its id. It ends at the first one that hasn't.
pub fn is_alike(classes: &Classes, ids: &[usize], first: usize) -> bool
    requires classes { AreClasses classes.now.leaders classes.now.nexts }
    requires long { length ids.now ≡ length classes.now.leaders }
    requires first { first < length ids.now }
    requires leads { slice_index classes.now.leaders first ≡ first }
    ensures { result ≡ is_alike classes.now.leaders ids.now first }
{
    let nexts = classes.nexts.as_slice();
    let id = ids[first];
    let mut r = first;
    while r < ids.len() {
        if ids[r] != id {
            return false;
        }
        r = nexts[r];
    }
    true
}

/// Whether each row has the id of its leader. It ends at the first one that hasn't.
#[tactic(auto, using(crate::proofs::Counted::every_more))]
pub fn are_alike(leaders: &[usize], ids: &[usize]) -> bool
    requires long { length ids.now ≡ length leaders.now }
    requires within { AreWithin leaders.now }
    ensures { result ≡ are_alike leaders.now ids.now }
{
    for r in 0..ids.len() {
        if ids[r] != ids[leaders[r]] {
            return false;
        }
    }
    true
}

/// Marks all rows that a leader leads.
pub fn mark(classes: &Classes, flags: &mut [bool], first: usize)
    requires classes { AreClasses classes.now.leaders classes.now.nexts }
    requires long { length flags.old ≡ length classes.now.leaders }
    requires first { first < length flags.old }
    requires leads { slice_index classes.now.leaders first ≡ first }
    ensures { IsMarked classes.now.leaders first flags.old flags.new }
{
    let nexts = classes.nexts.as_slice();
    let mut r = first;
    while r < flags.len() {
        flags[r] = true;
        r = nexts[r];
    }
}

// ---- the classes of one attribute more

/// For each row the first one with its leader and its id: in one pass over the rows, where the pairs of leaders and ids are
/// few, else class by class.
pub fn first_pairs(
    alloc: Global,
    ids: &[usize],
    classes: &Classes,
) -> Result<List<usize>, AllocError>
    requires classes { AreClasses classes.now.leaders classes.now.nexts }
    requires long { length ids.now ≡ length classes.now.leaders }
    requires within { AreWithin ids.now }
    ensures { IfOk result (AreFirstPairs ids.now classes.now.leaders) }
{
    match first_in_slots(alloc, ids, classes.leaders.as_slice())? {
        Some(firsts) => Ok(firsts),
        None => first_in_classes(alloc, ids, classes),
    }
}

// Each pair of a leader and an id has a slot, at which the first row with it is marked. There is nothing where the slots are
// more than the rows, or where two pairs have one.
fn first_in_slots(
    alloc: Global,
    ids: &[usize],
    leaders: &[usize],
) -> Result<Option<List<usize>>, AllocError>
    requires long { length ids.now ≡ length leaders.now }
    requires within { AreWithin leaders.now }
    requires ids { AreWithin ids.now }
    ensures { IfOk result (λ found. IfSome found (AreFirstPairs ids.now leaders.now)) }
{
    match bases(alloc, ids, leaders)? {
        Some(bases) => first_in_each_slot(alloc, ids, leaders, bases.as_slice()),
        None => Ok(None),
    }
}

fn first_in_each_slot(
    alloc: Global,
    ids: &[usize],
    leaders: &[usize],
    bases: &[usize],
) -> Result<Option<List<usize>>, AllocError>
    requires long { length ids.now ≡ length leaders.now }
    requires within { AreWithin leaders.now }
    requires ids { AreWithin ids.now }
    requires bases { length bases.now ≡ length leaders.now }
    ensures { IfOk result (λ found. IfSome found (AreFirstPairs ids.now leaders.now)) }
{
    let mut marks = vec![in alloc; ids.len(); ids.len()]?;
    let mut firsts = vec![in alloc; 0; ids.len()]?;
    for r in 0..ids.len() {
        let Some(first) = first_in_slot(ids, leaders, bases, &mut marks, r) else {
            return Ok(None);
        };
        firsts[r] = first;
    }
    Ok(Some(List::from(firsts)))
}

// At each leader, the first of its slots: it has as many as there are ids. There is nothing where they are too many.
fn bases(alloc: Global, ids: &[usize], leaders: &[usize]) -> Result<Option<List<usize>>, AllocError>
    ensures { IfOk result (λ found. IfSome found (λ bases. length bases ≡ length leaders.now)) }
{
    let width = bound(ids);
    let mut bases = vec![in alloc; 0; leaders.len()]?;
    let mut next: usize = 0;
    for r in 0..leaders.len() {
        if leaders[r] == r {
            bases[r] = next;
            next = next.saturating_add(width);
            if next > leaders.len() {
                return Ok(None);
            }
        }
    }
    Ok(Some(List::from(bases)))
}

// One more than the greatest.
fn bound(ids: &[usize]) -> usize {
    let mut bound: usize = 0;
    for id in ids {
        if *id >= bound {
            bound = id.saturating_add(1);
        }
    }
    bound
}

// The first row with the pair of this one, if the slot is of this pair alone.
#[tactic(auto, using(crate::proofs::Slots::slot_new))]
fn first_in_slot(
    ids: &[usize],
    leaders: &[usize],
    bases: &[usize],
    marks: &mut Vec<usize>,
    r: usize,
) -> Option<usize>
    requires long { length ids.now ≡ length leaders.now }
    requires within { AreWithin leaders.now }
    requires ids { AreWithin ids.now }
    requires bases { length bases.now ≡ length leaders.now }
    requires marks { AreSlots ids.now leaders.now bases.now marks.old.items r }
    requires r { r < length ids.now }
    ensures first { IfSome result (IsFirstPair ids.now leaders.now r) }
    ensures marks { IfSome result (λ _. AreSlots ids.now leaders.now bases.now marks.new.items (r + 1)) }
{
    let base = bases[leaders[r]];
    if base >= ids.len() {
        return None;
    }
    let slot = base + ids[r];
    if slot >= ids.len() {
        return None;
    }
    let mark = marks[slot];
    if mark >= ids.len() {
        marks[slot] = r;
        return Some(r);
    }
    if leaders[mark] == leaders[r] && ids[mark] == ids[r] {
        return Some(mark);
    }
    None
}

// The classes are gone through one after the other, and each id is told apart by the row at which it was last new.
fn first_in_classes(
    alloc: Global,
    ids: &[usize],
    classes: &Classes,
) -> Result<List<usize>, AllocError>
    requires classes { AreClasses classes.now.leaders classes.now.nexts }
    requires long { length ids.now ≡ length classes.now.leaders }
    requires within { AreWithin ids.now }
    ensures { IfOk result (AreFirstPairs ids.now classes.now.leaders) }
{
    let mut marks = vec![in alloc; ids.len(); ids.len()]?;
    let mut firsts = vec![in alloc; 0; ids.len()]?;
    for first in 0..ids.len() {
        split(classes, ids, &mut marks, &mut firsts, first);
    }
    Ok(List::from(firsts))
}

// The first row with each row's id, for all rows that this one leads: none, where it is no leader.
fn split(
    classes: &Classes,
    ids: &[usize],
    marks: &mut Vec<usize>,
    firsts: &mut Vec<usize>,
    first: usize,
)
    requires classes { AreClasses classes.now.leaders classes.now.nexts }
    requires long { length ids.now ≡ length classes.now.leaders }
    requires within { AreWithin ids.now }
    requires marks { AreMarks classes.now.leaders ids.now marks.old.items }
    requires firsts { length firsts.old.items ≡ length ids.now }
    requires first { first < length ids.now }
    ensures marks { AreMarks classes.now.leaders ids.now marks.new.items }
    ensures long { length firsts.new.items ≡ length firsts.old.items }
    ensures here { (r : ℕ) → r < length ids.now → slice_index classes.now.leaders r ≡ first → IsFirstPair ids.now classes.now.leaders r (slice_index firsts.new.items r) }
    ensures others { (r : ℕ) → r < length ids.now → slice_index classes.now.leaders r ≢ first → slice_index firsts.new.items r ≡ slice_index firsts.old.items r }
{
    let leaders = classes.leaders.as_slice();
    let nexts = classes.nexts.as_slice();
    if leaders[first] != first {
        return;
    }
    let mut r = first;
    while r < ids.len() {
        firsts[r] = last_new(leaders, ids, marks, first, r);
        r = nexts[r];
    }
}

// The row at which the id of a row was last new under its leader, which is this one where it wasn't yet.
fn last_new(
    leaders: &[usize],
    ids: &[usize],
    marks: &mut Vec<usize>,
    first: usize,
    r: usize,
) -> usize
    requires long { length ids.now ≡ length leaders.now }
    requires within { AreWithin ids.now }
    requires marks { AreMarks leaders.now ids.now marks.old.items }
    requires r { r < length ids.now }
    requires leads { slice_index leaders.now r ≡ first }
    requires seen { AreSeenBelow leaders.now ids.now marks.old.items (slice_index leaders.now r) r }
    ensures first { IsFirstPair ids.now leaders.now r result }
    ensures marks { AreMarks leaders.now ids.now marks.new.items }
    ensures seen { AreSeenBelow leaders.now ids.now marks.new.items (slice_index leaders.now r) (r + 1) }
{
    let mark = marks[ids[r]];
    if mark < ids.len() && leaders[mark] == first {
        return mark;
    }
    marks[ids[r]] = r;
    r
}
