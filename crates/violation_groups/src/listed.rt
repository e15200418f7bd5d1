//! The listed rows of a rule by the ids of their values.

ghost use Rattle.std.specs.Prelude.{◌≡◌, ◌<◌, ◌++◌, [], All, IfOk, IfSome, OnOk, length, map, option_map, filter_map, slice_get};
ghost use Rattle.std.specs.List.{cons_option};
ghost use Rattle.cfd_semantics.specs.Tuple.{values_at};
ghost use Rattle.violation_groups.specs.ByIds.{IsKnownKeyed, IsKnownRow, keyed_named, row_named, sides_by_ids};
ghost use Rattle.violation_groups.specs.Listed.{listed_of, listed_orphan_of};

use bench_core::Bench;
use cfd_semantics::{Dependency, Violation};
use row_store::RowId;
use rule_model::{Cind, Dep};
use std::alloc::{AllocError, Global};
use text_lists::Text;
use value_pool::ValueId;

/// A tableau row, and the ids of values on the left side of a rule.
pub(crate) type Key = (usize, Vec<ValueId>);

/// The id of a value on the right side, and the row that has it.
pub(crate) type ValueRow = (ValueId, RowId);

/// The violations of a dependency, each with what it shares. The values of a row are looked up once for each of them.
pub(crate) fn listed_rows(
    alloc: Global,
    bench: &Bench,
    dep: &Dep,
    found: &[(usize, Violation)],
) -> Result<Vec<(Key, ValueRow)>, AllocError>
    requires { dep.now.table < length bench.now.history.present }
    ensures rows { IfOk result (λ rows. map (row_named bench.now.texts) rows.items ≡ filter_map (listed_of bench.now.history.present dep.now) found.now) }
    ensures known { IfOk result (λ rows. All (IsKnownRow bench.now.texts) rows.items) }
{
    let mut rows = Vec::new(alloc);
    for (k, violation) in found {
        push_found(listed_row(alloc, bench, dep, *k, violation)?, &mut rows)?;
    }
    Ok(rows)
}

fn listed_row(
    alloc: Global,
    bench: &Bench,
    dep: &Dep,
    k: usize,
    violation: &Violation,
) -> Result<Option<(Key, ValueRow)>, AllocError>
    requires { dep.now.table < length bench.now.history.present }
    ensures row { IfOk result (λ row. option_map (row_named bench.now.texts) row ≡ listed_of bench.now.history.present dep.now (k, violation.now)) }
    ensures known { IfOk result (λ row. IfSome row (IsKnownRow bench.now.texts)) }
{
    let Some(tuple) = bench.store(dep.table).get(violation.row) else {
        return Ok(None);
    };
    match sides_of(alloc, tuple.as_slice(), &dep.rule)? {
        Some((x, a)) => Ok(Some(((k, x), (a, violation.row)))),
        None => Ok(None),
    }
}

/// The ids of a tuple on both sides of a dependency, where it has the attributes.
fn sides_of(
    alloc: Global,
    ids: &[ValueId],
    rule: &Dependency<Text>,
) -> Result<Option<(Vec<ValueId>, ValueId)>, AllocError>
    ensures { IfOk result (λ sides. option_map (λ s. (s.0.items, s.1)) sides ≡ sides_by_ids ids.now rule.now) }
{
    let Some(x) = ids_at(alloc, ids, rule.x.as_slice())? else {
        return Ok(None);
    };
    match id_at(ids, rule.a) {
        Some(a) => Ok(Some((x, a))),
        None => Ok(None),
    }
}

/// The ids of a tuple at attributes, where it has each of them.
fn ids_at(
    alloc: Global,
    ids: &[ValueId],
    attributes: &[usize],
) -> Result<Option<Vec<ValueId>>, AllocError>
    ensures { IfOk result (λ found. option_map (λ v. v.items) found ≡ values_at ids.now attributes.now) }
{
    let mut found = Vec::with_capacity(alloc, attributes.len())?;
    for attribute in attributes {
        match id_at(ids, *attribute) {
            Some(id) => found.push(id)?,
            None => return Ok(None),
        }
    }
    Ok(Some(found))
}

fn id_at(ids: &[ValueId], attribute: usize) -> Option<ValueId>
    ensures { result ≡ slice_get ids.now attribute }
{
    ids.get(attribute).copied()
}

fn push_found<T: Drop>(found: Option<T>, rows: &mut Vec<T>) -> Result<(), AllocError>
    ensures { OnOk result (rows.new.items ≡ rows.old.items ++ cons_option found []) }
{
    if let Some(row) = found {
        rows.push(row)?;
    }
    Ok(())
}

/// The orphans of an inclusion, each with what it shares.
pub(crate) fn listed_orphans(
    alloc: Global,
    bench: &Bench,
    cind: &Cind,
    found: &[(usize, RowId)],
) -> Result<Vec<(Key, RowId)>, AllocError>
    requires { cind.now.left < length bench.now.history.present }
    ensures rows { IfOk result (λ rows. map (keyed_named bench.now.texts) rows.items ≡ filter_map (listed_orphan_of bench.now.history.present cind.now) found.now) }
    ensures known { IfOk result (λ rows. All (IsKnownKeyed bench.now.texts) rows.items) }
{
    let mut rows = Vec::new(alloc);
    for (k, id) in found {
        push_found(listed_orphan(alloc, bench, cind, *k, *id)?, &mut rows)?;
    }
    Ok(rows)
}

fn listed_orphan(
    alloc: Global,
    bench: &Bench,
    cind: &Cind,
    k: usize,
    row: RowId,
) -> Result<Option<(Key, RowId)>, AllocError>
    requires { cind.now.left < length bench.now.history.present }
    ensures row { IfOk result (λ found. option_map (keyed_named bench.now.texts) found ≡ listed_orphan_of bench.now.history.present cind.now (k, row)) }
    ensures known { IfOk result (λ found. IfSome found (IsKnownKeyed bench.now.texts)) }
{
    let Some(tuple) = bench.store(cind.left).get(row) else {
        return Ok(None);
    };
    match ids_at(alloc, tuple.as_slice(), cind.rule.x.as_slice())? {
        Some(x) => Ok(Some(((k, x), row))),
        None => Ok(None),
    }
}
