//! What is found for a left side.
ghost use Rattle.std.specs.Prelude.{◌≡◌, ◌≤◌, ◌<◌, ◌++◌, [], ℕ, List, length, All, IfErr, IfOk, OnOk, true, nat_le, slice_index_or};
ghost use Rattle.std.specs.List.{list_all};
ghost use Rattle.dep_search.specs.Rows.{Row, row_at};
ghost use Rattle.dep_search.specs.Found.{all_found, constant_at, constants_at, found_at, found_on, has_support, is_constant, is_first, is_plain, is_short, plain_at, proper_parts};
ghost use Rattle.dep_search.specs.Keys.{IsCandidate};
ghost use Rattle.dep_search.specs.Settled.{AreFacts, IsGrouped, IsSettled, IsTable};
ghost use Rattle.dep_search.specs.Sides.{IsPast, IsSide};
ghost use Rattle.dep_search.specs.declared.candidate.Candidate.{Candidate};
ghost use Rattle.dep_search.specs.declared.finder.FindFault.TheVariants.{TooMany};

use crate::ahead::are_surely_more;
use crate::candidate::Candidate;
use crate::columns::columns;
use crate::facts::{Facts, closed_facts, is_any_all, is_any_said, is_closed, places, settled_at};
use crate::grouped::{Grouped, grouped_by, leads, with_attr};
use crate::parts::proper_parts;
use crate::settled::Settled;
use crate::table::Table;
use hash_keys::HashKeys;
use std::alloc::{AllocError, Global};
use std::slice;
use text_lists::{List, Texts};

/// The most bytes of a constant.
const LONGEST_CONSTANT: usize = 1024;

/// Of how many left sides the facts are kept before they are asked for. More would take much memory where a table has many
/// attributes.
const MOST_KEPT: usize = 256;

#[tactic(auto, using(std::proofs::lemmas::List::Folds::list_all_at, std::proofs::lemmas::List::Folds::list_all_more, std::proofs::lemmas::List::take_all))]
fn is_short(row: &Texts, attrs: &[usize]) -> bool
    requires { All (λ attr. attr < length row.now) attrs.now }
    ensures { result ≡ list_all (λ attr. nat_le (length (slice_index_or row.now attr [])) 1024) attrs.now }
{
    for attr in attrs {
        if row.as_slice()[*attr].as_str().len() > LONGEST_CONSTANT {
            return false;
        }
    }
    true
}

#[tactic(auto, unfolding(crate::specs::Found::is_short), using(std::proofs::lemmas::List::get_or_read))]
fn is_short_at(rows: &[Texts], r: usize, attrs: &[usize]) -> bool
    requires row { r < length rows.now }
    requires attrs { All (λ attr. attr < length (row_at rows.now r)) attrs.now }
    ensures { result ≡ is_short rows.now attrs.now r }
{
    is_short(&rows[r], attrs)
}

// ---- candidates of a left side X and an attribute A

/// A left side: its number, the rows by it, the first rows of its classes with support, and where its parts' facts stand.
#[derive(Clone, Copy)]
pub struct Side<'a> {
    pub number: usize,
    pub grouped: &'a Grouped,
    pub leads: &'a [usize],
    pub places: &'a [usize],
}

#[tactic(auto, unfolding(crate::specs::Found::plain_at))]
fn push_plain(
    found: &mut List<Candidate>,
    side: &Side,
    a: usize,
    settled: &Settled,
) -> Result<(), AllocError>
    ensures { (rows : List Row) → is_plain rows side.now.grouped.now.x a ≡ settled.now.all
        → OnOk result (found.new ≡ found.old ++ plain_at rows side.now.number side.now.grouped.now.x a) }
{
    if settled.all {
        found.push(Candidate {
            a,
            side: side.number,
            row: None,
        })?;
    }
    Ok(())
}

// Whether the first row of a class with support has the constants of a dependency that is found.
fn is_constant(
    table: &Table,
    store: &[Facts],
    side: &Side,
    a: usize,
    settled: &Settled,
    r: usize,
) -> bool
    requires side { IsSide table.now store.now side.now }
    requires a { a < length table.now.columns.now }
    requires settled { IsSettled table.now.rows.now table.now.support side.now.grouped.now.x a settled.now }
    requires row { r < length table.now.rows.now }
    requires first { is_first table.now.rows.now side.now.grouped.now.x r ≡ true }
    requires support { has_support table.now.rows.now table.now.support side.now.grouped.now.x r ≡ true }
    ensures { result ≡ is_constant table.now.rows.now table.now.support side.now.grouped.now.x a r }
{
    if !settled.says(r) {
        return false;
    }
    if is_any_said(store, side.places, a, r) {
        return false;
    }
    if !is_short_at(table.rows, r, slice::from_ref(&a)) {
        return false;
    }
    is_short_at(table.rows, r, side.grouped.x.as_slice())
}

#[tactic(auto, unfolding(crate::specs::Found::constant_at))]
fn push_constant(
    found: &mut List<Candidate>,
    table: &Table,
    store: &[Facts],
    side: &Side,
    a: usize,
    settled: &Settled,
    r: usize,
) -> Result<(), AllocError>
    requires side { IsSide table.now store.now side.now }
    requires a { a < length table.now.columns.now }
    requires settled { IsSettled table.now.rows.now table.now.support side.now.grouped.now.x a settled.now }
    requires row { r < length table.now.rows.now }
    requires first { is_first table.now.rows.now side.now.grouped.now.x r ≡ true }
    requires support { has_support table.now.rows.now table.now.support side.now.grouped.now.x r ≡ true }
    ensures { OnOk result (found.new ≡ found.old ++ constant_at table.now.rows.now table.now.support side.now.number side.now.grouped.now.x a r) }
{
    if is_constant(table, store, side, a, settled, r) {
        found.push(Candidate {
            a,
            side: side.number,
            row: Some(r),
        })?;
    }
    Ok(())
}

#[tactic(auto, using(crate::proofs::Known::constants_at_leads, std::proofs::lemmas::List::take_all))]
fn push_constants(
    found: &mut List<Candidate>,
    table: &Table,
    store: &[Facts],
    side: &Side,
    a: usize,
    settled: &Settled,
) -> Result<(), AllocError>
    requires side { IsSide table.now store.now side.now }
    requires a { a < length table.now.columns.now }
    requires settled { IsSettled table.now.rows.now table.now.support side.now.grouped.now.x a settled.now }
    ensures { OnOk result (found.new ≡ found.old ++ constants_at table.now.rows.now table.now.support side.now.number side.now.grouped.now.x a) }
{
    for r in side.leads {
        push_constant(found, table, store, side, a, settled, *r)?;
    }
    Ok(())
}

#[tactic(auto, unfolding(crate::specs::Found::found_at))]
fn push_found_at(
    found: &mut List<Candidate>,
    table: &Table,
    store: &[Facts],
    side: &Side,
    a: usize,
    settled: &Settled,
) -> Result<(), AllocError>
    requires side { IsSide table.now store.now side.now }
    requires a { a < length table.now.columns.now }
    requires settled { IsSettled table.now.rows.now table.now.support side.now.grouped.now.x a settled.now }
    ensures { OnOk result (found.new ≡ found.old ++ found_at table.now.rows.now table.now.support side.now.number side.now.grouped.now.x a) }
{
    if side.grouped.x.as_slice().contains(&a) {
        return Ok(());
    }
    if is_any_all(store, side.places, a) {
        return Ok(());
    }
    push_plain(found, side, a, settled)?;
    push_constants(found, table, store, side, a, settled)
}

/// Why nothing is given: more were found than asked for, or memory ran out.
#[derive(Clone, Copy, PartialEq, Eq)]
pub enum FindFault {
    TooMany,
    Memory,
}

impl From<AllocError> for FindFault {
    ghost use Rattle.std.specs.Prelude.{◌≡◌};
    ghost use Rattle.dep_search.specs.declared.finder.FindFault.TheVariants.{Memory};

    ghost from_gives = { λ _ fault. fault ≡ Memory };

    fn from(_: AllocError) -> FindFault {
        FindFault::Memory
    }
}

// What is found of a left side, for each attribute. One more than the limit ends it.
#[tactic(auto, unfolding(crate::specs::Found::found_on))]
fn push_found_on(
    found: &mut List<Candidate>,
    table: &Table,
    store: &[Facts],
    side: &Side,
    facts: &Facts,
    most: usize,
) -> Result<(), FindFault>
    requires side { IsSide table.now store.now side.now }
    requires x { facts.now.x ≡ side.now.grouped.now.x }
    requires facts { AreFacts table.now.rows.now (length table.now.columns.now) table.now.support facts.now }
    requires few { length found.old ≤ most }
    ensures ok { OnOk result (found.new ≡ found.old ++ found_on table.now.rows.now table.now.support (length table.now.columns.now) side.now.number side.now.grouped.now.x) }
    ensures few { OnOk result (length found.new ≤ most) }
    ensures many { IfErr result (λ fault. fault ≡ TooMany → most < length (found.old ++ found_on table.now.rows.now table.now.support (length table.now.columns.now) side.now.number side.now.grouped.now.x)) }
{
    let known = facts.settled.as_slice();
    for a in 0..table.columns.len() {
        push_found_at(found, table, store, side, a, &known[a])?;
        if found.as_slice().len() > most {
            return Err(FindFault::TooMany);
        }
    }
    Ok(())
}

// The facts of a left side. What a part determines isn't asked again.
fn facts_on(alloc: Global, table: &Table, store: &[Facts], side: &Side) -> Result<Facts, AllocError>
    requires { IsSide table.now store.now side.now }
    ensures x { IfOk result (λ facts. facts.x ≡ side.now.grouped.now.x) }
    ensures facts { IfOk result (AreFacts table.now.rows.now (length table.now.columns.now) table.now.support) }
{
    let mut settled = List::new(alloc);
    for a in 0..table.columns.len() {
        settled.push(settled_on(alloc, table, store, side, a)?)?;
    }
    Ok(Facts {
        x: List::from(Vec::from_slice(alloc, side.grouped.x.as_slice())?),
        settled,
    })
}

fn settled_on(
    alloc: Global,
    table: &Table,
    store: &[Facts],
    side: &Side,
    a: usize,
) -> Result<Settled, AllocError>
    requires side { IsSide table.now store.now side.now }
    requires a { a < length table.now.columns.now }
    ensures { IfOk result (IsSettled table.now.rows.now table.now.support side.now.grouped.now.x a) }
{
    if is_any_all(store, side.places, a) {
        return Ok(Settled {
            all: true,
            flags: List::new(alloc),
        });
    }
    settled_at(alloc, table, side.grouped, side.leads, a)
}

// The rows by a left side. They come from those by all but its last attribute, which are kept for the next left side.
fn grouped_next(
    alloc: Global,
    table: &Table,
    front: &mut Grouped,
    x: &[usize],
) -> Result<Grouped, AllocError>
    requires table { IsTable table.now }
    requires x { All (λ attr. attr < length table.now.columns.now) x.now }
    requires front { IsGrouped table.now.rows.now front.old }
    ensures x { IfOk result (λ grouped. grouped.x ≡ x.now) }
    ensures rows { IfOk result (IsGrouped table.now.rows.now) }
    ensures front { IsGrouped table.now.rows.now front.new }
{
    match x.split_last() {
        None => grouped_by(alloc, table, x),
        Some((last, before)) => {
            if front.x.as_slice() != before {
                *front = grouped_by(alloc, table, before)?;
            }
            with_attr(alloc, table, front, *last)
        }
    }
}

/// What was gone through: the rows by the front of the last left side, and the facts of parts, which have fewer attributes
/// than the widest left side.
#[derive(Drop)]
pub struct Past {
    pub front: Grouped,
    pub store: List<Facts>,
    pub width: usize,
}

// Keeps the facts of a left side that may be a part of later ones, while there is room.
fn keep(table: &Table, past: &mut Past, facts: Facts) -> Result<(), AllocError>
    requires past { IsPast table.now past.old }
    requires facts { AreFacts table.now.rows.now (length table.now.columns.now) table.now.support facts }
    ensures { OnOk result (IsPast table.now past.new) }
{
    if facts.x.as_slice().len() < past.width && past.store.as_slice().len() < MOST_KEPT {
        past.store.push(facts)?;
    }
    Ok(())
}

// What is found of a left side on which something may be found.
fn push_open(
    alloc: Global,
    found: &mut List<Candidate>,
    table: &Table,
    past: &mut Past,
    number: usize,
    x: &[usize],
    parts: &[List<usize>],
    most: usize,
) -> Result<(), FindFault>
    requires table { IsTable table.now }
    requires past { IsPast table.now past.old }
    requires x { All (λ attr. attr < length table.now.columns.now) x.now }
    requires parts { parts.now ≡ proper_parts x.now }
    requires few { length found.old ≤ most }
    ensures past { OnOk result (IsPast table.now past.new) }
    ensures ok { OnOk result (found.new ≡ found.old ++ found_on table.now.rows.now table.now.support (length table.now.columns.now) number x.now) }
    ensures few { OnOk result (length found.new ≤ most) }
    ensures many { IfErr result (λ fault. fault ≡ TooMany → most < length (found.old ++ found_on table.now.rows.now table.now.support (length table.now.columns.now) number x.now)) }
{
    let places = places(alloc, table, &mut past.store, parts)?;
    let grouped = grouped_next(alloc, table, &mut past.front, x)?;
    let leads = leads(alloc, table, &grouped)?;
    let side = Side {
        number,
        grouped: &grouped,
        leads: leads.as_slice(),
        places: places.as_slice(),
    };
    push_told(alloc, found, table, past, &side, most)
}

// What is found of a left side by its facts, which are kept.
fn push_told(
    alloc: Global,
    found: &mut List<Candidate>,
    table: &Table,
    past: &mut Past,
    side: &Side,
    most: usize,
) -> Result<(), FindFault>
    requires past { IsPast table.now past.old }
    requires side { IsSide table.now past.old.store side.now }
    requires few { length found.old ≤ most }
    ensures past { OnOk result (IsPast table.now past.new) }
    ensures ok { OnOk result (found.new ≡ found.old ++ found_on table.now.rows.now table.now.support (length table.now.columns.now) side.now.number side.now.grouped.now.x) }
    ensures few { OnOk result (length found.new ≤ most) }
    ensures many { IfErr result (λ fault. fault ≡ TooMany → most < length (found.old ++ found_on table.now.rows.now table.now.support (length table.now.columns.now) side.now.number side.now.grouped.now.x)) }
{
    let facts = facts_on(alloc, table, past.store.as_slice(), side)?;
    push_found_on(found, table, past.store.as_slice(), side, &facts, most)?;
    Ok(keep(table, past, facts)?)
}

// What is found of a left side. None of it is asked of the rows where its parts determine all.
#[tactic(auto, using(crate::proofs::Closed::nothing_on, crate::proofs::Known::append_none))]
fn push_side(
    alloc: Global,
    found: &mut List<Candidate>,
    table: &Table,
    past: &mut Past,
    number: usize,
    x: &[usize],
    most: usize,
) -> Result<(), FindFault>
    requires table { IsTable table.now }
    requires past { IsPast table.now past.old }
    requires x { All (λ attr. attr < length table.now.columns.now) x.now }
    requires few { length found.old ≤ most }
    ensures past { OnOk result (IsPast table.now past.new) }
    ensures ok { OnOk result (found.new ≡ found.old ++ found_on table.now.rows.now table.now.support (length table.now.columns.now) number x.now) }
    ensures few { OnOk result (length found.new ≤ most) }
    ensures many { IfErr result (λ fault. fault ≡ TooMany → most < length (found.old ++ found_on table.now.rows.now table.now.support (length table.now.columns.now) number x.now)) }
{
    let parts = proper_parts(alloc, x)?;
    if is_closed(table, past.store.as_slice(), x, parts.as_slice()) {
        let facts = closed_facts(alloc, table, x)?;
        return Ok(keep(table, past, facts)?);
    }
    push_open(alloc, found, table, past, number, x, parts.as_slice(), most)
}

// How many attributes the last left side has.
fn width(sides: &[List<usize>]) -> usize {
    match sides.last() {
        None => 0,
        Some(side) => side.as_slice().len(),
    }
}

// What is found of one left side after the other, if it is not too much.
#[tactic(auto, unfolding(crate::specs::Found::all_found))]
fn found_by_sides(
    alloc: Global,
    table: &Table,
    past: &mut Past,
    sides: &[List<usize>],
    most: usize,
) -> Result<List<Candidate>, FindFault>
    requires table { IsTable table.now }
    requires past { IsPast table.now past.old }
    requires sides { All (λ (side : List ℕ). All (λ attr. attr < length table.now.columns.now) side) sides.now }
    ensures ok { IfOk result (λ found. found ≡ all_found table.now.rows.now table.now.support (length table.now.columns.now) sides.now) }
    ensures few { IfOk result (λ found. length found ≤ most) }
    ensures many { IfErr result (λ fault. fault ≡ TooMany → most < length (all_found table.now.rows.now table.now.support (length table.now.columns.now) sides.now)) }
{
    let mut found = List::new(alloc);
    for number in 0..sides.len() {
        push_side(
            alloc,
            &mut found,
            table,
            past,
            number,
            sides[number].as_slice(),
            most,
        )?;
    }
    Ok(found)
}

/// All that are found, if they are not too many.
pub fn all_found(
    alloc: Global,
    keys: HashKeys,
    rows: &[Texts],
    attrs: usize,
    support: usize,
    sides: &[List<usize>],
    most: usize,
) -> Result<List<Candidate>, FindFault>
    requires rows { All (λ (row : Row). length row ≡ attrs) rows.now }
    requires sides { All (λ (side : List ℕ). All (λ attr. attr < attrs) side) sides.now }
    ensures ok { IfOk result (λ found. found ≡ all_found rows.now support attrs sides.now) }
    ensures candidates { IfOk result (All (IsCandidate rows.now sides.now)) }
    ensures attrs { IfOk result (All (λ (c : Candidate). c.a < attrs)) }
    ensures few { IfOk result (λ found. length found ≤ most) }
    ensures many { IfErr result (λ fault. fault ≡ TooMany → most < length (all_found rows.now support attrs sides.now)) }
{
    let columns = columns(alloc, keys, rows, attrs)?;
    let table = Table {
        rows,
        columns: columns.as_slice(),
        support,
    };
    if are_surely_more(alloc, &table, sides, most)? {
        return Err(FindFault::TooMany);
    }
    let mut past = Past {
        front: grouped_by(alloc, &table, &[])?,
        store: List::new(alloc),
        width: width(sides),
    };
    let found = found_by_sides(alloc, &table, &mut past, sides, most)?;
    Ok(found)
}
