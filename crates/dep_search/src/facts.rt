//! What is known of left sides that were gone through, so that it is asked of no part of another one twice.
ghost use Rattle.std.specs.Prelude.{◌≡◌, ℕ, ◌<◌, true, List, length, slice_index_or, All, IfOk, IfSome, OnOk};
ghost use Rattle.std.specs.List.{list_any};
ghost use Rattle.dep_search.specs.Found.{determines, proper_parts};
ghost use Rattle.dep_search.specs.Settled.{AreFacts, IsClosed, IsGrouped, IsSettled, IsTable, KeepsFacts, StandAt, StandsAt, is_given, known_at, leads_of, says_all, says_of};
ghost use Rattle.dep_search.specs.declared.settled.Settled.{Settled};

use crate::grouped::{Grouped, grouped_by, leads};
use crate::settled::{Settled, settled_by};
use crate::table::Table;
use std::alloc::{AllocError, Global};
use text_lists::List;

/// The attributes of a left side, and for each attribute which rows settle it.
#[derive(Drop)]
pub struct Facts {
    pub x: List<usize>,
    pub settled: List<Settled>,
}

/// Whether a left side determines an attribute, and which rows settle it.
pub fn settled_at(
    alloc: Global,
    table: &Table,
    grouped: &Grouped,
    leads: &[usize],
    a: usize,
) -> Result<Settled, AllocError>
    requires table { IsTable table.now }
    requires grouped { IsGrouped table.now.rows.now grouped.now }
    requires leads { leads.now ≡ leads_of table.now.rows.now table.now.support grouped.now.x }
    requires a { a < length table.now.columns.now }
    ensures { IfOk result (IsSettled table.now.rows.now table.now.support grouped.now.x a) }
{
    settled_by(alloc, &grouped.classes, leads, table.columns[a].as_slice())
}

fn facts_of(alloc: Global, table: &Table, x: &[usize]) -> Result<Facts, AllocError>
    requires table { IsTable table.now }
    requires x { All (λ attr. attr < length table.now.columns.now) x.now }
    ensures x { IfOk result (λ facts. facts.x ≡ x.now) }
    ensures facts { IfOk result (AreFacts table.now.rows.now (length table.now.columns.now) table.now.support) }
{
    let grouped = grouped_by(alloc, table, x)?;
    let leads = leads(alloc, table, &grouped)?;
    let settled = all_settled(alloc, table, &grouped, leads.as_slice())?;
    Ok(Facts {
        x: grouped.x,
        settled,
    })
}

// For each attribute, which rows settle it.
fn all_settled(
    alloc: Global,
    table: &Table,
    grouped: &Grouped,
    leads: &[usize],
) -> Result<List<Settled>, AllocError>
    requires table { IsTable table.now }
    requires grouped { IsGrouped table.now.rows.now grouped.now }
    requires leads { leads.now ≡ leads_of table.now.rows.now table.now.support grouped.now.x }
    ensures many { IfOk result (λ all. length all ≡ length table.now.columns.now) }
    ensures each { IfOk result (λ all. (a : ℕ) (d : Settled) → a < length table.now.columns.now
        → IsSettled table.now.rows.now table.now.support grouped.now.x a (slice_index_or all a d)) }
{
    let mut settled = List::new(alloc);
    for a in 0..table.columns.len() {
        settled.push(settled_at(alloc, table, grouped, leads, a)?)?;
    }
    Ok(settled)
}

/// Where the facts of some left sides stand. They are found out where they aren't there yet.
#[tactic(auto, using(std::proofs::lemmas::List::take_all))]
pub fn places(
    alloc: Global,
    table: &Table,
    store: &mut List<Facts>,
    parts: &[List<usize>],
) -> Result<List<usize>, AllocError>
    requires table { IsTable table.now }
    requires parts { All (λ (part : List ℕ). All (λ attr. attr < length table.now.columns.now) part) parts.now }
    requires store { All (AreFacts table.now.rows.now (length table.now.columns.now) table.now.support) store.old }
    ensures places { IfOk result (λ places. StandAt store.new places parts.now) }
    ensures store { OnOk result (All (AreFacts table.now.rows.now (length table.now.columns.now) table.now.support) store.new) }
{
    let mut places = List::new(alloc);
    for part in parts {
        let place = place(alloc, table, store, part.as_slice())?;
        places.push(place)?;
    }
    Ok(places)
}

#[tactic(auto, using(crate::proofs::Known::pushed_stands, crate::proofs::Known::pushed_keeps))]
fn place(
    alloc: Global,
    table: &Table,
    store: &mut List<Facts>,
    x: &[usize],
) -> Result<usize, AllocError>
    requires table { IsTable table.now }
    requires x { All (λ attr. attr < length table.now.columns.now) x.now }
    requires store { All (AreFacts table.now.rows.now (length table.now.columns.now) table.now.support) store.old }
    ensures place { IfOk result (λ place. StandsAt store.new place x.now) }
    ensures store { OnOk result (All (AreFacts table.now.rows.now (length table.now.columns.now) table.now.support) store.new) }
    ensures kept { OnOk result (KeepsFacts store.old store.new) }
{
    if let Some(place) = position(store.as_slice(), x) {
        return Ok(place);
    }
    let facts = facts_of(alloc, table, x)?;
    let place = store.as_slice().len();
    store.push(facts)?;
    Ok(place)
}

fn position(store: &[Facts], x: &[usize]) -> Option<usize>
    ensures { IfSome result (λ place. StandsAt store.now place x.now) }
{
    for place in 0..store.len() {
        if is_same(store[place].x.as_slice(), x) {
            return Some(place);
        }
    }
    None
}

fn is_same(one: &[usize], other: &[usize]) -> bool
    ensures { result ≡ true → one.now ≡ other.now }
{
    one == other
}

fn is_all_at(store: &[Facts], a: usize, place: usize) -> bool
    ensures { result ≡ says_all (known_at store.now a place) }
{
    match store.get(place) {
        None => false,
        Some(facts) => match facts.settled.as_slice().get(a) {
            None => false,
            Some(settled) => settled.all,
        },
    }
}

fn is_said_at(store: &[Facts], a: usize, r: usize, place: usize) -> bool
    ensures { result ≡ says_of (known_at store.now a place) r }
{
    match store.get(place) {
        None => false,
        Some(facts) => match facts.settled.as_slice().get(a) {
            None => false,
            Some(settled) => settled.says(r),
        },
    }
}

/// Whether one of these left sides determines the attribute.
pub fn is_any_all(store: &[Facts], places: &[usize], a: usize) -> bool
    ensures { result ≡ list_any (λ place. says_all (known_at store.now a place)) places.now }
{
    places.iter().any(|place| is_all_at(store, a, *place))
}

/// Whether one of these left sides settles the attribute for the row.
pub fn is_any_said(store: &[Facts], places: &[usize], a: usize, r: usize) -> bool
    ensures { result ≡ list_any (λ place. says_of (known_at store.now a place) r) places.now }
{
    places.iter().any(|place| is_said_at(store, a, r, *place))
}

// ---- left sides on which nothing is found

/// Whether it is known of each attribute that X has it or that a part of X determines it. No rows are looked at.
#[tactic(auto, using(crate::proofs::Closed::closed_more))]
pub fn is_closed(table: &Table, store: &[Facts], x: &[usize], parts: &[List<usize>]) -> bool
    requires store { All (AreFacts table.now.rows.now (length table.now.columns.now) table.now.support) store.now }
    requires parts { parts.now ≡ proper_parts x.now }
    ensures { result ≡ true → IsClosed table.now.rows.now (length table.now.columns.now) x.now }
{
    for a in 0..table.columns.len() {
        if !is_given(table, store, x, parts, a) {
            return false;
        }
    }
    true
}

fn is_given(table: &Table, store: &[Facts], x: &[usize], parts: &[List<usize>], a: usize) -> bool
    requires store { All (AreFacts table.now.rows.now (length table.now.columns.now) table.now.support) store.now }
    requires parts { parts.now ≡ proper_parts x.now }
    requires a { a < length table.now.columns.now }
    ensures { result ≡ true → is_given table.now.rows.now x.now a ≡ true }
{
    if x.contains(&a) {
        return true;
    }
    is_determined(table, store, parts, a)
}

// Whether it is known that one of some left sides determines the attribute.
fn is_determined(table: &Table, store: &[Facts], parts: &[List<usize>], a: usize) -> bool
    requires store { All (AreFacts table.now.rows.now (length table.now.columns.now) table.now.support) store.now }
    requires a { a < length table.now.columns.now }
    ensures { result ≡ true → list_any (λ part. determines table.now.rows.now part a) parts.now ≡ true }
{
    for k in 0..parts.len() {
        if is_known(table, store, parts[k].as_slice(), a) {
            return true;
        }
    }
    false
}

fn is_known(table: &Table, store: &[Facts], part: &[usize], a: usize) -> bool
    requires store { All (AreFacts table.now.rows.now (length table.now.columns.now) table.now.support) store.now }
    requires a { a < length table.now.columns.now }
    ensures { result ≡ true → determines table.now.rows.now part.now a ≡ true }
{
    match position(store, part) {
        None => false,
        Some(place) => is_known_at(table, store, part, a, place),
    }
}

fn is_known_at(table: &Table, store: &[Facts], part: &[usize], a: usize, place: usize) -> bool
    requires store { All (AreFacts table.now.rows.now (length table.now.columns.now) table.now.support) store.now }
    requires a { a < length table.now.columns.now }
    requires place { StandsAt store.now place part.now }
    ensures { result ≡ true → determines table.now.rows.now part.now a ≡ true }
{
    is_all_at(store, a, place)
}

/// The facts of such a left side: it determines each attribute.
pub fn closed_facts(alloc: Global, table: &Table, x: &[usize]) -> Result<Facts, AllocError>
    requires { IsClosed table.now.rows.now (length table.now.columns.now) x.now }
    ensures { IfOk result (AreFacts table.now.rows.now (length table.now.columns.now) table.now.support) }
{
    let mut settled = List::new(alloc);
    for a in 0..table.columns.len() {
        settled.push(settled_all(alloc, table, x, a))?;
    }
    Ok(Facts {
        x: List::from(Vec::from_slice(alloc, x)?),
        settled,
    })
}

// All rows settle it.
fn settled_all(alloc: Global, table: &Table, x: &[usize], a: usize) -> Settled
    requires closed { IsClosed table.now.rows.now (length table.now.columns.now) x.now }
    requires a { a < length table.now.columns.now }
    ensures { IsSettled table.now.rows.now table.now.support x.now a result }
{
    Settled {
        all: true,
        flags: List::new(alloc),
    }
}
