//! Rows that stand twice.

ghost use Rattle.std.specs.Prelude.{◌≡◌, IfOk};
ghost use Rattle.table_flaws.specs.Flaws.{repeated_rows};

use hash_keys::HashKeys;
use schema_core::{List, Texts};
use std::alloc::{AllocError, Global};
use std::collections::HashSet;

/// The rows, numbered from 1, that are equal to a row before them.
pub fn repeated_rows(
    alloc: Global,
    keys: HashKeys,
    rows: &[Texts],
) -> Result<List<usize>, AllocError>
    ensures { IfOk result (λ found. found ≡ repeated_rows rows.now) }
{
    let mut seen = HashSet::with_hasher(alloc, keys);
    let mut found = List::new(alloc);
    for (place, row) in rows.iter().enumerate() {
        if !seen.insert(row.as_slice())? {
            found.push(place + 1)?;
        }
    }
    Ok(found)
}
