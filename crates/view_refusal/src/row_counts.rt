//! How many rows of a table there are, as it is told.
ghost use Rattle.std.specs.Prelude.{◌≡◌, ◌++◌, OnOk};
ghost use Rattle.view_refusal.specs.RowCounts.{count_line};

use schema_core::{Table, push_number};
use std::alloc::AllocError;

/// Tells how many rows of a table there are.
pub fn push_count(out: &mut Vec<u8>, table: &Table, count: usize) -> Result<(), AllocError>
    ensures { OnOk result (out.new.items ≡ out.old.items ++ count_line table.now count) }
{
    out.extend_from_slice(b"table ")?;
    out.extend_from_slice(table.name.as_str().as_bytes())?;
    out.extend_from_slice(b": ")?;
    push_number(out, count as u64)?;
    out.extend_from_slice(b" rows\n")
}
