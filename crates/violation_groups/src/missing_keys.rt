//! The keys that an inclusion misses.

ghost use Rattle.std.specs.Prelude.{◌≡◌, All, IfOk, map};
ghost use Rattle.violation_groups.specs.ByIds.{HasKnownKey, IsKnownKeyed, keyed_named, missing_named};
ghost use Rattle.violation_groups.specs.Groups.{AreMissing};

use crate::groups::Missing;
use crate::listed::Key;
use crate::named::texts_of;
use key_groups::{by_key, largest_first};
use row_store::RowId;
use std::alloc::{AllocError, Global};
use text_lists::List;
use value_pool::Pool;

/// The keys of listed orphans.
pub(crate) fn missing_of(
    alloc: Global,
    pool: &Pool,
    rows: Vec<(Key, RowId)>,
) -> Result<List<Missing>, AllocError>
    requires { All (IsKnownKeyed pool.now) rows.items }
    ensures { IfOk result (AreMissing (map (keyed_named pool.now) rows.items)) }
{
    // The length is what says that no text has two ids.
    let _len = pool.len();
    let mut found = by_key(alloc, pool.hash_keys(), rows)?;
    largest_first(&mut found)?;
    each_missing(alloc, pool, found)
}

fn each_missing(
    alloc: Global,
    pool: &Pool,
    found: Vec<(Key, List<RowId>)>,
) -> Result<List<Missing>, AllocError>
    requires { All (HasKnownKey pool.now) found.items }
    ensures { IfOk result (λ missing. missing ≡ map (missing_named pool.now) found.items) }
{
    let mut missing = List::new(alloc);
    for (key, rows) in found {
        let found = missing_key(alloc, pool, key, rows)?;
        missing.push(found)?;
    }
    Ok(missing)
}

fn missing_key(
    alloc: Global,
    pool: &Pool,
    key: Key,
    rows: List<RowId>,
) -> Result<Missing, AllocError>
    requires { HasKnownKey pool.now (key, rows) }
    ensures { IfOk result (λ missing. missing ≡ missing_named pool.now (key, rows)) }
{
    let (k, ids) = key;
    let texts = texts_of(alloc, pool, ids.as_slice())?;
    Ok(Missing {
        k,
        key: texts,
        rows,
    })
}
