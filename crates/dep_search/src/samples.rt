//! What pairs of rows tell of two attributes.
ghost use Rattle.std.specs.Prelude.{◌≡◌, ◌<◌, [], ◌∷◌, ℕ, List, length, All, IfOk, true, false, slice_index_or};
ghost use Rattle.dep_search.specs.Found.{determines};
ghost use Rattle.dep_search.specs.Pairs.{ArePairs, IsPair, IsSample};
ghost use Rattle.dep_search.specs.Settled.{IsTable};

use crate::pairs::{Pair, Pairs, is_apart, same_pairs};
use crate::table::Table;
use std::alloc::{AllocError, Global};
use text_lists::List;

/// Of two attributes so many pairs are kept. Two that have more are no near key.
const MOST_KEPT: usize = 1000;

/// Pairs of rows that agree on two attributes: all of them, or some; and for each attribute whether it is known that the two
/// don't determine it.
#[derive(Drop)]
pub struct Sample {
    pub one: usize,
    pub other: usize,
    pub list: List<Pair>,
    pub whole: bool,
    pub apart: List<bool>,
}

/// What the pairs of two attributes tell of them. Those of one attribute are taken that are whole, if there are such.
pub fn sample_of(
    alloc: Global,
    table: &Table,
    one: &Pairs,
    other: &Pairs,
) -> Result<Sample, AllocError>
    requires table { IsTable table.now }
    requires one { ArePairs table.now one.now }
    requires other { ArePairs table.now other.now }
    ensures { IfOk result (IsSample table.now) }
{
    if !one.whole && other.whole {
        return Ok(turned(table, sample_by(alloc, table, other, one.attr)?));
    }
    sample_by(alloc, table, one, other.attr)
}

// The same of the attributes in the other order.
fn turned(table: &Table, sample: Sample) -> Sample
    requires { IsSample table.now sample }
    ensures { IsSample table.now result }
{
    Sample {
        one: sample.other,
        other: sample.one,
        list: sample.list,
        whole: sample.whole,
        apart: sample.apart,
    }
}

fn sample_by(alloc: Global, table: &Table, from: &Pairs, by: usize) -> Result<Sample, AllocError>
    requires table { IsTable table.now }
    requires from { ArePairs table.now from.now }
    requires by { by < length table.now.columns.now }
    ensures { IfOk result (IsSample table.now) }
{
    let list = same_pairs(alloc, from.list.as_slice(), table.columns[by].as_slice())?;
    let apart = all_apart(alloc, table, from.attr, by, list.as_slice())?;
    let whole = is_whole(from, list.as_slice());
    Ok(Sample {
        one: from.attr,
        other: by,
        list: if_whole(alloc, list, whole),
        whole,
        apart,
    })
}

// Whether all pairs are there that agree on both, and they are few enough to be kept.
fn is_whole(from: &Pairs, list: &[Pair]) -> bool
    ensures { result ≡ true → from.now.whole ≡ true }
{
    if list.len() > MOST_KEPT {
        return false;
    }
    from.whole
}

// The list, or none where it isn't whole.
fn if_whole(alloc: Global, list: List<Pair>, whole: bool) -> List<Pair>
    ensures whole { whole ≡ true → result ≡ list }
    ensures others { whole ≡ false → result ≡ [] }
{
    if whole { list } else { List::new(alloc) }
}

// For each attribute, whether pairs of rows tell that two others don't determine it.
fn all_apart(
    alloc: Global,
    table: &Table,
    one: usize,
    other: usize,
    pairs: &[Pair],
) -> Result<List<bool>, AllocError>
    requires table { IsTable table.now }
    requires pairs { All (IsPair table.now.rows.now (one ∷ other ∷ [])) pairs.now }
    ensures { IfOk result (λ apart. (a : ℕ) → slice_index_or apart a false ≡ true → determines table.now.rows.now (one ∷ other ∷ []) a ≡ false) }
{
    let mut apart = List::new(alloc);
    for a in 0..table.columns.len() {
        apart.push(is_apart_at(table, one, other, pairs, a))?;
    }
    Ok(apart)
}

fn is_apart_at(table: &Table, one: usize, other: usize, pairs: &[Pair], a: usize) -> bool
    requires table { IsTable table.now }
    requires pairs { All (IsPair table.now.rows.now (one ∷ other ∷ [])) pairs.now }
    requires a { a < length table.now.columns.now }
    ensures { result ≡ true → determines table.now.rows.now (one ∷ other ∷ []) a ≡ false }
{
    is_apart(pairs, table.columns[a].as_slice())
}
