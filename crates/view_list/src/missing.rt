//! Keys that are missing.

ghost use Rattle.std.specs.Prelude.{◌≡◌, ◌++◌, OnOk, zip};
ghost use Rattle.schema_core.specs.Lookups.{attrs_at};
ghost use Rattle.view_list.specs.Groups.{missing_at, missing_line, missing_text};
ghost use Rattle.view_list.specs.Pieces.{values_text};

use crate::attrs::{attrs_at, table_name};
use crate::groups::push_place;
use crate::pieces::push_rows;
use crate::values::push_both;
use rule_model::{Cind, CindRow};
use schema_core::Schema;
use std::alloc::AllocError;
use violation_groups::Missing;

/// What the rows have on the left.
fn push_left(
    out: &mut Vec<u8>,
    schema: &Schema,
    cind: &Cind,
    missing: &Missing,
    row: &CindRow,
) -> Result<(), AllocError>
    ensures { OnOk result (out.new.items ≡ out.old.items ++ values_text (attrs_at schema.now cind.now.left) (zip cind.now.rule.x missing.now.key ++ zip cind.now.rule.xp row.now.xp)) }
{
    let attrs = attrs_at(schema, cind.left);
    let (x, xp) = (cind.rule.x.as_slice(), cind.rule.xp.as_slice());
    push_both(out, attrs, x, missing.key.as_slice(), xp, row.xp.as_slice())
}

/// What no row has on the right.
fn push_right(
    out: &mut Vec<u8>,
    schema: &Schema,
    cind: &Cind,
    missing: &Missing,
    row: &CindRow,
) -> Result<(), AllocError>
    ensures { OnOk result (out.new.items ≡ out.old.items ++ values_text (attrs_at schema.now cind.now.right) (zip cind.now.rule.y missing.now.key ++ zip cind.now.rule.yp row.now.yp)) }
{
    let attrs = attrs_at(schema, cind.right);
    let (y, yp) = (cind.rule.y.as_slice(), cind.rule.yp.as_slice());
    push_both(out, attrs, y, missing.key.as_slice(), yp, row.yp.as_slice())
}

fn push_missing_line(
    out: &mut Vec<u8>,
    schema: &Schema,
    cind: &Cind,
    missing: &Missing,
    row: &CindRow,
) -> Result<(), AllocError>
    ensures { OnOk result (out.new.items ≡ out.old.items ++ missing_line schema.now cind.now missing.now row.now) }
{
    push_place(out, &cind.name, missing.k)?;
    push_left(out, schema, cind, missing, row)?;
    out.extend_from_slice(b": ")?;
    out.extend_from_slice(table_name(schema, cind.right).as_bytes())?;
    out.extend_from_slice(b" lacks ")?;
    push_right(out, schema, cind, missing, row)?;
    out.extend_from_slice(b"\n")
}

fn push_missing_at(
    out: &mut Vec<u8>,
    schema: &Schema,
    cind: &Cind,
    missing: &Missing,
) -> Result<(), AllocError>
    ensures { OnOk result (out.new.items ≡ out.old.items ++ missing_at schema.now cind.now missing.now) }
{
    match cind.rule.rows.as_slice().get(missing.k) {
        Some(row) => push_missing_line(out, schema, cind, missing, row),
        None => Ok(()),
    }
}

/// A key that an inclusion misses.
pub fn push_missing(
    out: &mut Vec<u8>,
    most: Option<u64>,
    read: u64,
    schema: &Schema,
    cind: &Cind,
    missing: &Missing,
) -> Result<(), AllocError>
    ensures { OnOk result (out.new.items ≡ out.old.items ++ missing_text most read schema.now cind.now missing.now) }
{
    push_missing_at(out, schema, cind, missing)?;
    out.extend_from_slice(b"    ")?;
    push_rows(out, most, read, missing.rows.as_slice())
}
