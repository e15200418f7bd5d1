//! What is told before the search: that too many are found, where attributes that are nearly keys determine most others in
//! threes. Pairs of rows that agree on two attributes are few there, and tell it in a small part of the time.
ghost use Rattle.std.specs.Prelude.{◌≡◌, ◌≤◌, ◌<◌, ◌+◌, [], ◌∷◌, ℕ, List, length, All, IfNone, IfOk, IfSome, OnOk, true, false, nat_eq, slice_index_or};
ghost use Rattle.std.specs.List.{list_any};
ghost use Rattle.dep_search.specs.Found.{all_found, found_at, found_on, is_plain};
ghost use Rattle.dep_search.specs.Pairs.{ArePairs, AreParts, HasAll, IsBelow, IsSample, IsSampleOf};
ghost use Rattle.dep_search.specs.Settled.{IsTable};

use crate::pairs::{Pair, Pairs, is_apart, pairs_at, same_pairs};
use crate::samples::{Sample, sample_of};
use crate::table::Table;
use std::alloc::{AllocError, Global};
use text_lists::List;

/// So many pairs of rows are looked at in all.
const MOST_PAIRS: usize = 4_000_000;

/// Whether it is told ahead that more than so many are found. It is asked only where plain ones alone could be so many.
pub fn are_surely_more(
    alloc: Global,
    table: &Table,
    sides: &[List<usize>],
    most: usize,
) -> Result<bool, AllocError>
    requires table { IsTable table.now }
    requires sides { All (λ (side : List ℕ). All (λ attr. attr < length table.now.columns.now) side) sides.now }
    ensures { IfOk result (λ more. more ≡ true → most < length (all_found table.now.rows.now table.now.support (length table.now.columns.now) sides.now)) }
{
    if !has_threes(sides) || sides.len().saturating_mul(table.columns.len()) <= most {
        return Ok(false);
    }
    let pairs = all_pairs(alloc, table)?;
    if !has_near_key(pairs.as_slice()) {
        return Ok(false);
    }
    let samples = all_samples(alloc, table, pairs.as_slice())?;
    are_more(alloc, table, samples.as_slice(), sides, most)
}

// Whether the last left side has three attributes.
fn has_threes(sides: &[List<usize>]) -> bool {
    match sides.last() {
        None => false,
        Some(side) => side.as_slice().len() == 3,
    }
}

// Whether few rows agree on an attribute that is no key.
fn has_near_key(pairs: &[Pairs]) -> bool {
    pairs
        .iter()
        .any(|pairs| pairs.whole && !pairs.list.as_slice().is_empty())
}

// ---- samples

fn all_pairs(alloc: Global, table: &Table) -> Result<List<Pairs>, AllocError>
    requires { IsTable table.now }
    ensures { IfOk result (All (ArePairs table.now)) }
{
    let most = MOST_PAIRS / table.columns.len().max(1);
    let mut pairs = List::new(alloc);
    for attr in 0..table.columns.len() {
        pairs.push(pairs_at(alloc, table, attr, most)?)?;
    }
    Ok(pairs)
}

// Of each attribute with each behind it. Each has a place of its own for each other one, so that it is found there.
fn all_samples(alloc: Global, table: &Table, pairs: &[Pairs]) -> Result<List<Sample>, AllocError>
    requires table { IsTable table.now }
    requires pairs { All (ArePairs table.now) pairs.now }
    ensures { IfOk result (All (IsSample table.now)) }
{
    let mut samples = List::new(alloc);
    for one in 0..pairs.len() {
        push_samples(alloc, table, &mut samples, pairs, one)?;
    }
    Ok(samples)
}

fn push_samples(
    alloc: Global,
    table: &Table,
    samples: &mut List<Sample>,
    pairs: &[Pairs],
    one: usize,
) -> Result<(), AllocError>
    requires table { IsTable table.now }
    requires pairs { All (ArePairs table.now) pairs.now }
    requires one { one < length pairs.now }
    requires samples { All (IsSample table.now) samples.old }
    ensures { OnOk result (All (IsSample table.now) samples.new) }
{
    for other in 0..pairs.len() {
        let sample = sample_behind(alloc, table, pairs, one, other)?;
        samples.push(sample)?;
    }
    Ok(())
}

// What is known of two attributes: nothing, where the other one isn't behind.
fn sample_behind(
    alloc: Global,
    table: &Table,
    pairs: &[Pairs],
    one: usize,
    other: usize,
) -> Result<Sample, AllocError>
    requires table { IsTable table.now }
    requires pairs { All (ArePairs table.now) pairs.now }
    requires one { one < length pairs.now }
    requires other { other < length pairs.now }
    ensures { IfOk result (IsSample table.now) }
{
    if other <= one {
        return Ok(unknown(alloc, table));
    }
    sample_of(alloc, table, &pairs[one], &pairs[other])
}

fn unknown(alloc: Global, table: &Table) -> Sample
    ensures { IsSample table.now result }
{
    Sample {
        one: 0,
        other: 0,
        list: List::new(alloc),
        whole: false,
        apart: List::new(alloc),
    }
}

// ---- left sides of three attributes

/// The samples of what is left of a left side of three attributes where one is taken away: the last, the middle, the first.
#[derive(Clone, Copy)]
pub struct Parts<'a> {
    pub front: &'a Sample,
    pub ends: &'a Sample,
    pub back: &'a Sample,
}

// The sample of two attributes, if it stands at its place.
fn sample_at<'a>(
    samples: &'a [Sample],
    attrs: usize,
    one: usize,
    other: usize,
) -> Option<&'a Sample>
    ensures { IfSome result (λ sample. IsSampleOf samples.now one other sample.now) }
{
    match samples.get(one.saturating_mul(attrs).saturating_add(other)) {
        None => None,
        Some(sample) => {
            if sample.one != one || sample.other != other {
                return None;
            }
            Some(sample)
        }
    }
}

fn parts_of<'a>(table: &Table, samples: &'a [Sample], x: &[usize]) -> Option<Parts<'a>>
    requires { All (IsSample table.now) samples.now }
    ensures { IfSome result (AreParts table.now x.now) }
{
    if x.len() != 3 {
        return None;
    }
    let attrs = table.columns.len();
    let front = sample_at(samples, attrs, x[0], x[1])?;
    let ends = sample_at(samples, attrs, x[0], x[2])?;
    let back = sample_at(samples, attrs, x[1], x[2])?;
    Some(Parts { front, ends, back })
}

// The pairs of rows that agree on three attributes, of which two have all their pairs.
fn rest_by(
    alloc: Global,
    table: &Table,
    sample: &Sample,
    attr: usize,
) -> Result<List<Pair>, AllocError>
    requires table { IsTable table.now }
    requires sample { IsSample table.now sample.now }
    requires whole { sample.now.whole ≡ true }
    requires attr { attr < length table.now.columns.now }
    ensures below { IfOk result (All (IsBelow (length table.now.rows.now))) }
    ensures all { IfOk result (HasAll table.now.rows.now (sample.now.one ∷ sample.now.other ∷ attr ∷ [])) }
{
    same_pairs(
        alloc,
        sample.list.as_slice(),
        table.columns[attr].as_slice(),
    )
}

// The pairs of rows that agree on a left side, where two of its attributes have all their pairs.
fn rest_of(
    alloc: Global,
    table: &Table,
    x: &[usize],
    parts: &Parts,
) -> Result<Option<List<Pair>>, AllocError>
    requires table { IsTable table.now }
    requires x { All (λ attr. attr < length table.now.columns.now) x.now }
    requires parts { AreParts table.now x.now parts.now }
    ensures below { IfOk result (λ found. IfSome found (All (IsBelow (length table.now.rows.now)))) }
    ensures all { IfOk result (λ found. IfSome found (HasAll table.now.rows.now x.now)) }
{
    if parts.front.whole {
        return Ok(Some(rest_by(alloc, table, parts.front, parts.back.other)?));
    }
    if parts.ends.whole {
        return Ok(Some(rest_by(alloc, table, parts.ends, parts.front.other)?));
    }
    if parts.back.whole {
        return Ok(Some(rest_by(alloc, table, parts.back, parts.front.one)?));
    }
    Ok(None)
}

fn is_known(apart: &[bool], a: usize) -> bool
    ensures { result ≡ slice_index_or apart.now a false }
{
    match apart.get(a) {
        None => false,
        Some(known) => *known,
    }
}

// Whether it is known that no two attributes of three determine an attribute.
fn are_apart(parts: &Parts, a: usize) -> bool
    ensures front { result ≡ true → slice_index_or parts.now.front.now.apart a false ≡ true }
    ensures ends { result ≡ true → slice_index_or parts.now.ends.now.apart a false ≡ true }
    ensures back { result ≡ true → slice_index_or parts.now.back.now.apart a false ≡ true }
{
    if !is_known(parts.front.apart.as_slice(), a) {
        return false;
    }
    if !is_known(parts.ends.apart.as_slice(), a) {
        return false;
    }
    is_known(parts.back.apart.as_slice(), a)
}

// Whether it is told by pairs of rows that a left side determines an attribute outside it, and no part of it does.
fn is_surely_plain(table: &Table, x: &[usize], parts: &Parts, rest: &[Pair], a: usize) -> bool
    requires table { IsTable table.now }
    requires parts { AreParts table.now x.now parts.now }
    requires below { All (IsBelow (length table.now.rows.now)) rest.now }
    requires all { HasAll table.now.rows.now x.now rest.now }
    requires a { a < length table.now.columns.now }
    ensures outside { result ≡ true → list_any (nat_eq a) x.now ≡ false }
    ensures plain { result ≡ true → is_plain table.now.rows.now x.now a ≡ true }
{
    if x.contains(&a) {
        return false;
    }
    if !are_apart(parts, a) {
        return false;
    }
    !is_apart(rest, table.columns[a].as_slice())
}

// ---- how many are found at least

// Of so many places, those that are left behind the plain one of an attribute, if it is surely found.
fn left_at(
    table: &Table,
    x: &[usize],
    parts: &Parts,
    rest: &[Pair],
    a: usize,
    room: usize,
) -> Option<usize>
    requires table { IsTable table.now }
    requires parts { AreParts table.now x.now parts.now }
    requires below { All (IsBelow (length table.now.rows.now)) rest.now }
    requires all { HasAll table.now.rows.now x.now rest.now }
    requires a { a < length table.now.columns.now }
    ensures some { IfSome result (λ left. (number : ℕ) → room ≤ left + length (found_at table.now.rows.now table.now.support number x.now a)) }
    ensures none { IfNone result ((number : ℕ) → room < length (found_at table.now.rows.now table.now.support number x.now a)) }
{
    if !is_surely_plain(table, x, parts, rest, a) {
        return Some(room);
    }
    if room == 0 {
        return None;
    }
    Some(room - 1)
}

// The same for all attributes. There is nothing where more are found than there are places.
#[tactic(auto, unfolding(crate::specs::Found::found_on))]
fn left_on(table: &Table, x: &[usize], parts: &Parts, rest: &[Pair], room: usize) -> Option<usize>
    requires table { IsTable table.now }
    requires parts { AreParts table.now x.now parts.now }
    requires below { All (IsBelow (length table.now.rows.now)) rest.now }
    requires all { HasAll table.now.rows.now x.now rest.now }
    ensures some { IfSome result (λ left. (number : ℕ) → room ≤ left + length (found_on table.now.rows.now table.now.support (length table.now.columns.now) number x.now)) }
    ensures none { IfNone result ((number : ℕ) → room < length (found_on table.now.rows.now table.now.support (length table.now.columns.now) number x.now)) }
{
    let mut left = room;
    for a in 0..table.columns.len() {
        match left_at(table, x, parts, rest, a, left) {
            None => return None,
            Some(less) => left = less,
        }
    }
    Some(left)
}

// The same for any left side: all places are left where its pairs of rows aren't known.
fn left_of(
    alloc: Global,
    table: &Table,
    samples: &[Sample],
    x: &[usize],
    room: usize,
) -> Result<Option<usize>, AllocError>
    requires table { IsTable table.now }
    requires samples { All (IsSample table.now) samples.now }
    requires x { All (λ attr. attr < length table.now.columns.now) x.now }
    ensures some { IfOk result (λ found. IfSome found (λ left. (number : ℕ) → room ≤ left + length (found_on table.now.rows.now table.now.support (length table.now.columns.now) number x.now))) }
    ensures none { IfOk result (λ found. IfNone found ((number : ℕ) → room < length (found_on table.now.rows.now table.now.support (length table.now.columns.now) number x.now))) }
{
    let Some(parts) = parts_of(table, samples, x) else {
        return Ok(Some(room));
    };
    let Some(rest) = rest_of(alloc, table, x, &parts)? else {
        return Ok(Some(room));
    };
    Ok(left_on(table, x, &parts, rest.as_slice(), room))
}

// Whether more are found than there are places.
#[tactic(auto, unfolding(crate::specs::Found::all_found))]
fn are_more(
    alloc: Global,
    table: &Table,
    samples: &[Sample],
    sides: &[List<usize>],
    most: usize,
) -> Result<bool, AllocError>
    requires table { IsTable table.now }
    requires samples { All (IsSample table.now) samples.now }
    requires sides { All (λ (side : List ℕ). All (λ attr. attr < length table.now.columns.now) side) sides.now }
    ensures { IfOk result (λ more. more ≡ true → most < length (all_found table.now.rows.now table.now.support (length table.now.columns.now) sides.now)) }
{
    let mut room = most;
    for number in 0..sides.len() {
        match left_of(alloc, table, samples, sides[number].as_slice(), room)? {
            None => return Ok(true),
            Some(left) => room = left,
        }
    }
    Ok(false)
}
