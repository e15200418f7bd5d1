//! The violations of a dependency X -> A, found by comparing every row with every row.

ghost use Rattle.std.specs.Prelude.{◌≡◌, ◌↔◌, ◌++◌, ◌&&◌, [], map, min, not, false, option_copied, IfOk, OnOk};
ghost use Rattle.std.specs.Option.{option_map_or, option_and_then};
ghost use Rattle.cfd_semantics.specs.Pattern.{matches};
ghost use Rattle.cfd_semantics.specs.Tuple.{tuples_of};
ghost use Rattle.cfd_semantics.specs.Violation.{entry_of, entries, is_single, is_pair, least_partner, violation_of, violating, violations};
ghost use Rattle.cfd_semantics.specs.Satisfaction.{Satisfies};
ghost use Rattle.cfd_semantics.specs.Renaming.{AreViolationsByNumbers};

use crate::dependency::{Dependency, TableauRow};
use crate::pattern::Pattern;
use crate::tuple::{Row, matches_at, same_at, value_at};
use std::alloc::{AllocError, Global};
use text_lists::List;

/// A violation of a tableau row: the row, and its least partner where the two are a pair.
#[derive(Clone, Copy, PartialEq, Eq)]
pub struct Violation {
    pub row: u64,
    pub partner: Option<u64>,
}

/// The violations of a dependency: those of its tableau rows, one tableau row after the other, each with its number.
pub fn violations<V: Eq>(
    alloc: Global,
    dependency: &Dependency<V>,
    rows: &[Row<V>],
) -> Result<List<(usize, Violation)>, AllocError>
    ensures list { IfOk result
        (λ found. found ≡ violations V.eq dependency.now (entries dependency.now rows.now)) }
    ensures law { IfOk result (λ found. found ≡ [] ↔ Satisfies V.eq dependency.now (tuples_of rows.now)) }
    ensures by_numbers { IfOk result (AreViolationsByNumbers V.eq dependency.now rows.now) }
{
    let tableau = dependency.rows.as_slice();
    let mut all = List::new(alloc);
    for (number, tableau_row) in tableau.iter().enumerate() {
        let found = violating(alloc, dependency, tableau_row, rows)?;
        push_numbered(&mut all, number, found.as_slice())?;
    }
    Ok(all)
}

fn push_numbered(
    all: &mut List<(usize, Violation)>,
    number: usize,
    found: &[Violation],
) -> Result<(), AllocError>
    ensures { OnOk result (all.new ≡ all.old ++ map (λ violation. (number, violation)) found.now) }
{
    for violation in found {
        all.push((number, *violation))?;
    }
    Ok(())
}

/// The violations of one tableau row, in the order of the rows: a row with its least partner, or by itself where its A
/// value doesn't match.
pub fn violating<V: PartialEq>(
    alloc: Global,
    dependency: &Dependency<V>,
    tableau_row: &TableauRow<V>,
    rows: &[Row<V>],
) -> Result<List<Violation>, AllocError>
    ensures { IfOk result
        (λ found. found ≡ violating V.eq tableau_row.now (entries dependency.now rows.now)) }
{
    let mut found = List::new(alloc);
    for row in rows {
        if let Some(violation) = violation_of(dependency, tableau_row, rows, row) {
            found.push(violation)?;
        }
    }
    Ok(found)
}

fn violation_of<V: PartialEq>(
    dependency: &Dependency<V>,
    tableau_row: &TableauRow<V>,
    rows: &[Row<V>],
    row: &Row<V>,
) -> Option<Violation>
    ensures { result ≡ option_and_then
        (violation_of V.eq tableau_row.now (entries dependency.now rows.now))
        (entry_of dependency.now row.now) }
{
    if is_single(dependency, tableau_row, row) {
        return Some(Violation {
            row: row.0,
            partner: None,
        });
    }
    let partner = least_partner(dependency, tableau_row, rows, row)?;
    Some(Violation {
        row: row.0,
        partner: Some(partner),
    })
}

fn is_single<V: PartialEq>(
    dependency: &Dependency<V>,
    tableau_row: &TableauRow<V>,
    row: &Row<V>,
) -> bool
    ensures { result ≡ option_map_or (is_single V.eq tableau_row.now) (entry_of dependency.now row.now) false }
{
    let tuple = row.1.as_slice();
    match value_at(tuple, dependency.a) {
        Some(value) => {
            matches_at(tableau_row.x.as_slice(), dependency.x.as_slice(), tuple)
                && !tableau_row.a.matches(value)
        }
        None => false,
    }
}

fn is_pair<V: PartialEq>(
    dependency: &Dependency<V>,
    tableau_row: &TableauRow<V>,
    row: &Row<V>,
    other: &Row<V>,
) -> bool
    ensures { result ≡ option_map_or
        (λ e. option_map_or (is_pair V.eq tableau_row.now e) (entry_of dependency.now other.now) false)
        (entry_of dependency.now row.now) false }
{
    let x = dependency.x.as_slice();
    let cells = tableau_row.x.as_slice();
    let tuple = row.1.as_slice();
    let beside = other.1.as_slice();
    same_at(x, tuple, x, beside)
        && matches_at(cells, x, tuple)
        && matches_at(cells, x, beside)
        && differ(
            &tableau_row.a,
            value_at(tuple, dependency.a),
            value_at(beside, dependency.a),
        )
}

// Whether both values are there and match the cell, and they differ.
fn differ<V: PartialEq>(cell: &Pattern<V>, value: Option<&V>, other: Option<&V>) -> bool
    ensures { result ≡ option_map_or
        (λ v. option_map_or (λ w. matches V.eq cell.now v && matches V.eq cell.now w && not (V.eq v w)) (option_copied other.entry) false)
        (option_copied value.entry) false }
{
    match value {
        Some(value) => match other {
            Some(other) => cell.matches(value) && cell.matches(other) && value != other,
            None => false,
        },
        None => false,
    }
}

// Every row is looked at, so the least partner is found whatever the order of the rows.
fn least_partner<V: PartialEq>(
    dependency: &Dependency<V>,
    tableau_row: &TableauRow<V>,
    rows: &[Row<V>],
    row: &Row<V>,
) -> Option<u64>
    ensures { result ≡ option_and_then
        (least_partner V.eq tableau_row.now (entries dependency.now rows.now))
        (entry_of dependency.now row.now) }
{
    let mut least = None;
    for other in rows {
        if is_pair(dependency, tableau_row, row, other) {
            least = Some(least_of(other.0, least));
        }
    }
    least
}

fn least_of(id: u64, least: Option<u64>) -> u64
    ensures { result ≡ option_map_or (min id) least id }
{
    least.map_or(id, |other| id.min(other))
}
