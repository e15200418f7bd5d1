//! The orphans of an inclusion, found by comparing every left row with every right row.

ghost use Rattle.std.specs.Prelude.{◌≡◌, ◌↔◌, ◌++◌, [], map, false, IfOk, OnOk};
ghost use Rattle.std.specs.List.{list_any};
ghost use Rattle.std.specs.Option.{option_map_or, ForSome};
ghost use Rattle.cfd_semantics.specs.Tuple.{tuples_of};
ghost use Rattle.cfd_semantics.specs.Orphan.{left_entry_of, right_entry_of, left_entries, right_entries, answers, is_orphan, orphaned, orphans};
ghost use Rattle.cfd_semantics.specs.Satisfaction.{IsIncluded};
ghost use Rattle.cfd_semantics.specs.Renaming.{AreOrphansByNumbers};

use crate::inclusion::{Inclusion, InclusionRow};
use crate::tuple::{Row, has_all, has_at, same_at};
use std::alloc::{AllocError, Global};
use text_lists::List;

/// The orphans of an inclusion: the left rows that nothing answers, one tableau row after the other, each with the number
/// of its tableau row.
pub fn orphans<V: PartialEq>(
    alloc: Global,
    inclusion: &Inclusion<V>,
    lefts: &[Row<V>],
    rights: &[Row<V>],
) -> Result<List<(usize, u64)>, AllocError>
    ensures list { IfOk result (λ found. found ≡ orphans V.eq inclusion.now
        (left_entries inclusion.now lefts.now) (right_entries inclusion.now rights.now)) }
    ensures law { IfOk result (λ found. found ≡ [] ↔ IsIncluded V.eq inclusion.now (tuples_of lefts.now) (tuples_of rights.now)) }
    ensures by_numbers { IfOk result (AreOrphansByNumbers V.eq inclusion.now lefts.now rights.now) }
{
    let tableau = inclusion.rows.as_slice();
    let mut all = List::new(alloc);
    for (number, tableau_row) in tableau.iter().enumerate() {
        let found = orphaned(alloc, inclusion, tableau_row, lefts, rights)?;
        push_numbered(&mut all, number, found.as_slice())?;
    }
    Ok(all)
}

fn push_numbered(
    all: &mut List<(usize, u64)>,
    number: usize,
    found: &[u64],
) -> Result<(), AllocError>
    ensures { OnOk result (all.new ≡ all.old ++ map (λ row. (number, row)) found.now) }
{
    for row in found {
        all.push((number, *row))?;
    }
    Ok(())
}

/// The orphans of one tableau row, in the order of the left rows.
pub fn orphaned<V: PartialEq>(
    alloc: Global,
    inclusion: &Inclusion<V>,
    tableau_row: &InclusionRow<V>,
    lefts: &[Row<V>],
    rights: &[Row<V>],
) -> Result<List<u64>, AllocError>
    ensures { IfOk result (λ found. found ≡ orphaned V.eq tableau_row.now
        (left_entries inclusion.now lefts.now) (right_entries inclusion.now rights.now)) }
{
    let mut found = List::new(alloc);
    for row in lefts {
        if is_orphan(inclusion, tableau_row, rights, row) {
            found.push(row.0)?;
        }
    }
    Ok(found)
}

fn is_orphan<V: PartialEq>(
    inclusion: &Inclusion<V>,
    tableau_row: &InclusionRow<V>,
    rights: &[Row<V>],
    row: &Row<V>,
) -> bool
    ensures { result ≡ option_map_or
        (is_orphan V.eq tableau_row.now (right_entries inclusion.now rights.now))
        (left_entry_of inclusion.now row.now) false }
{
    let tuple = row.1.as_slice();
    has_all(inclusion.x.as_slice(), tuple)
        && has_at(tableau_row.xp.as_slice(), inclusion.xp.as_slice(), tuple)
        && !is_answered(inclusion, tableau_row, rights, row)
}

// Whether some right row answers the left one.
fn is_answered<V: PartialEq>(
    inclusion: &Inclusion<V>,
    tableau_row: &InclusionRow<V>,
    rights: &[Row<V>],
    row: &Row<V>,
) -> bool
    ensures { ForSome (left_entry_of inclusion.now row.now)
        (λ left. result ≡ list_any (answers V.eq tableau_row.now left) (right_entries inclusion.now rights.now)) }
{
    for other in rights {
        if answers(inclusion, tableau_row, row, other) {
            return true;
        }
    }
    false
}

fn answers<V: PartialEq>(
    inclusion: &Inclusion<V>,
    tableau_row: &InclusionRow<V>,
    row: &Row<V>,
    other: &Row<V>,
) -> bool
    ensures { ForSome (left_entry_of inclusion.now row.now)
        (λ left. result ≡ option_map_or (answers V.eq tableau_row.now left) (right_entry_of inclusion.now other.now) false) }
{
    let tuple = row.1.as_slice();
    let beside = other.1.as_slice();
    same_at(
        inclusion.x.as_slice(),
        tuple,
        inclusion.y.as_slice(),
        beside,
    ) && has_at(tableau_row.yp.as_slice(), inclusion.yp.as_slice(), beside)
}
