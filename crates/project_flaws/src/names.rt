//! Tables and attributes by their names.
ghost use Rattle.std.specs.Prelude.{◌≡◌, ◌++◌, OnOk, codes, slice_get};
ghost use Rattle.project_flaws.specs.Told.{attr_name};

use crate::items::item;
use schema_core::Table;
use std::alloc::AllocError;

pub fn push_table(out: &mut Vec<u8>, table: &Table) -> Result<(), AllocError>
    ensures { OnOk result (out.new.items ≡ out.old.items ++ (codes "table " ++ table.now.name)) }
{
    out.extend_from_slice(b"table ")?;
    out.extend_from_slice(table.name.as_str().as_bytes())
}

pub fn push_name(out: &mut Vec<u8>, table: &Table, attr: usize) -> Result<(), AllocError>
    ensures { OnOk result (out.new.items ≡ out.old.items ++ attr_name (slice_get table.now.attrs attr)) }
{
    match item(table.attrs.as_slice(), attr) {
        Some(attr) => out.extend_from_slice(attr.name.as_str().as_bytes()),
        None => Ok(()),
    }
}
