//! Which rows settle an attribute, by the classes of rows that agree.
ghost use Rattle.std.specs.Prelude.{◌≡◌, ◌⊎◌, ℕ, ◌<◌, false, All, length, IfOk, slice_index, slice_index_or, nat_eq};
ghost use Rattle.dep_search.specs.Counting.{tally};
ghost use Rattle.dep_search.specs.Leaders.{AreWithin};
ghost use Rattle.dep_search.specs.Classes.{AreClasses};
ghost use Rattle.dep_search.specs.Settled.{AreFlags, IsLeader, IsToldBy, large, says};

use crate::classes::{Classes, are_alike, is_alike, mark};
use std::alloc::{AllocError, Global};
use text_lists::List;

/// Which rows settle an attribute: all of them, or those that are flagged. There are no flags where no row has one.
#[derive(Drop)]
pub struct Settled {
    pub all: bool,
    pub flags: List<bool>,
}

impl Settled {
    pub fn says(&self, r: usize) -> bool
        ensures { result ≡ says self.now r }
    {
        if self.all {
            return true;
        }
        match self.flags.as_slice().get(r) {
            None => false,
            Some(flag) => *flag,
        }
    }
}

/// Of the rows that some leaders lead, those that settle the attribute with these ids.
pub fn settled_by(
    alloc: Global,
    classes: &Classes,
    leads: &[usize],
    ids: &[usize],
) -> Result<Settled, AllocError>
    requires classes { AreClasses classes.now.leaders classes.now.nexts }
    requires long { length ids.now ≡ length classes.now.leaders }
    requires leads { All (IsLeader classes.now.leaders) leads.now }
    ensures { IfOk result (IsToldBy classes.now.leaders leads.now ids.now) }
{
    if are_alike(classes.leaders.as_slice(), ids) {
        return Ok(Settled {
            all: true,
            flags: List::new(alloc),
        });
    }
    let flags = flags(alloc, classes, leads, ids)?;
    Ok(Settled { all: false, flags })
}

fn flags(
    alloc: Global,
    classes: &Classes,
    leads: &[usize],
    ids: &[usize],
) -> Result<List<bool>, AllocError>
    requires classes { AreClasses classes.now.leaders classes.now.nexts }
    requires long { length ids.now ≡ length classes.now.leaders }
    requires leads { All (IsLeader classes.now.leaders) leads.now }
    ensures { IfOk result (AreFlags classes.now.leaders leads.now ids.now) }
{
    let mut flags = Vec::new(alloc);
    for k in 0..leads.len() {
        let first = leads[k];
        if is_alike(classes, ids, first) {
            flags = with_room(alloc, flags, ids.len())?;
            mark(classes, flags.as_mut_slice(), first);
        }
    }
    Ok(List::from(flags))
}

// A flag for each row, none of them set, where there were none.
fn with_room(alloc: Global, flags: Vec<bool>, rows: usize) -> Result<Vec<bool>, AllocError>
    requires { (length flags.items ≡ 0) ⊎ (length flags.items ≡ rows) }
    ensures long { IfOk result (λ room. length room.items ≡ rows) }
    ensures same { IfOk result (λ room. (r : ℕ) → slice_index_or room.items r false ≡ slice_index_or flags.items r false) }
{
    if flags.is_empty() {
        return Ok(vec![in alloc; false; rows]?);
    }
    Ok(flags)
}

/// For each leader, how many places it leads.
#[tactic(auto, using(crate::proofs::Counted::tally_more, crate::proofs::Counted::tally_le))]
pub fn sizes(alloc: Global, leaders: &[usize]) -> Result<List<usize>, AllocError>
    requires { AreWithin leaders.now }
    ensures long { IfOk result (λ sizes. length sizes ≡ length leaders.now) }
    ensures each { IfOk result (λ sizes. (first : ℕ) → first < length leaders.now →
        slice_index sizes first ≡ tally (λ r. nat_eq first (slice_index leaders.now r)) (length leaders.now)) }
{
    let mut sizes = vec![in alloc; 0; leaders.len()]?;
    for r in 0..leaders.len() {
        let first = leaders[r];
        let size = sizes[first];
        sizes[first] = size + 1;
    }
    Ok(List::from(sizes))
}

/// The leaders of so many places.
#[tactic(auto, using(crate::proofs::Counted::gathered_more))]
pub fn large(
    alloc: Global,
    leaders: &[usize],
    sizes: &[usize],
    support: usize,
) -> Result<List<usize>, AllocError>
    requires { length sizes.now ≡ length leaders.now }
    ensures { IfOk result (λ list. list ≡ large leaders.now sizes.now support) }
{
    let mut list = List::new(alloc);
    for r in 0..leaders.len() {
        if leaders[r] == r && support <= sizes[r] {
            list.push(r)?;
        }
    }
    Ok(list)
}
