//! The groups of a dependency.

ghost use Rattle.std.specs.Prelude.{◌≡◌, ◌<◌, All, IfOk, map};
ghost use Rattle.std.specs.List.{AllZip};
ghost use Rattle.std.specs.Str.{bytes_eq};
ghost use Rattle.key_groups.specs.Arranged.{IsRarestFirst};
ghost use Rattle.key_groups.specs.Groups.{by_key};
ghost use Rattle.violation_groups.specs.ByIds.{HasText, IsKnownGroup, IsKnownRow, group_named, row_named, value_named, value_rows_named};
ghost use Rattle.violation_groups.specs.Groups.{AreGroups, IsGroup, value_rows, value_size};

use crate::groups::{Group, ValueRows};
use crate::listed::{Key, ValueRow};
use crate::named::{text_of, texts_of};
use key_groups::{by_key, largest_first, rarest_first};
use row_store::RowId;
use std::alloc::{AllocError, Global};
use text_lists::List;
use value_pool::{Pool, ValueId};

/// The groups of listed rows.
pub(crate) fn groups_of(
    alloc: Global,
    pool: &Pool,
    rows: Vec<(Key, ValueRow)>,
) -> Result<List<Group>, AllocError>
    requires { All (IsKnownRow pool.now) rows.items }
    ensures { IfOk result (AreGroups (map (row_named pool.now) rows.items)) }
{
    // The length is what says that no text has two ids.
    let _len = pool.len();
    let mut found = by_key(alloc, pool.hash_keys(), rows)?;
    largest_first(&mut found)?;
    each_group(alloc, pool, found)
}

fn each_group(
    alloc: Global,
    pool: &Pool,
    found: Vec<(Key, List<ValueRow>)>,
) -> Result<List<Group>, AllocError>
    requires { All (IsKnownGroup pool.now) found.items }
    ensures { IfOk result (AllZip IsGroup (map (group_named pool.now) found.items)) }
{
    let mut groups = List::new(alloc);
    for (key, rows) in found {
        let group = group_of(alloc, pool, key, rows)?;
        groups.push(group)?;
    }
    Ok(groups)
}

fn group_of(alloc: Global, pool: &Pool, key: Key, rows: List<ValueRow>) -> Result<Group, AllocError>
    requires { IsKnownGroup pool.now (key, rows) }
    ensures { IfOk result (IsGroup (group_named pool.now (key, rows))) }
{
    let (k, ids) = key;
    let texts = texts_of(alloc, pool, ids.as_slice())?;
    let values = values_of(alloc, pool, rows)?;
    Ok(Group {
        k,
        key: texts,
        values,
    })
}

/// The values on the right of rows that share what stands on the left.
fn values_of(
    alloc: Global,
    pool: &Pool,
    rows: List<ValueRow>,
) -> Result<List<ValueRows>, AllocError>
    requires { All (λ row. HasText pool.now row.0) rows }
    ensures { IfOk result (IsRarestFirst value_size (map value_rows (by_key bytes_eq (map (value_named pool.now) rows)))) }
{
    // The length is what says that no text has two ids.
    let _len = pool.len();
    let mut found = by_key(alloc, pool.hash_keys(), rows.into_vec())?;
    rarest_first(&mut found)?;
    each_value(alloc, pool, found)
}

fn each_value(
    alloc: Global,
    pool: &Pool,
    found: Vec<(ValueId, List<RowId>)>,
) -> Result<List<ValueRows>, AllocError>
    requires { All (λ value. HasText pool.now value.0) found.items }
    ensures { IfOk result (λ values. values ≡ map (value_rows_named pool.now) found.items) }
{
    let mut values = List::new(alloc);
    for (id, rows) in found {
        let value = value_of(alloc, pool, id, rows)?;
        values.push(value)?;
    }
    Ok(values)
}

fn value_of(
    alloc: Global,
    pool: &Pool,
    id: ValueId,
    rows: List<RowId>,
) -> Result<ValueRows, AllocError>
    requires { HasText pool.now id }
    ensures { IfOk result (λ value. value ≡ value_rows_named pool.now (id, rows)) }
{
    let value = text_of(alloc, pool, id)?;
    Ok(ValueRows { value, rows })
}
