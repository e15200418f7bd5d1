//! Copies of declarations.

ghost use Rattle.std.specs.Prelude.{◌≡◌, IfOk};

use cfd_semantics::copied_cells;
use rule_model::{CfdDecl, CfdRow};
use schema_core::List;
use std::alloc::{AllocError, Global};

fn copy_row(alloc: Global, row: &CfdRow) -> Result<CfdRow, AllocError>
    ensures { IfOk result (λ copy. copy ≡ row.now) }
{
    Ok(CfdRow {
        x: copied_cells(alloc, row.x.as_slice())?,
        y: copied_cells(alloc, row.y.as_slice())?,
    })
}

fn copy_rows(alloc: Global, rows: &[CfdRow]) -> Result<List<CfdRow>, AllocError>
    ensures { IfOk result (λ copy. copy ≡ rows.now) }
{
    let mut copy = List::new(alloc);
    for row in rows {
        copy.push(copy_row(alloc, row)?)?;
    }
    Ok(copy)
}

/// A copy with memory of its own.
pub fn copy_decl(alloc: Global, cfd: &CfdDecl) -> Result<CfdDecl, AllocError>
    ensures { IfOk result (λ copy. copy ≡ cfd.now) }
{
    Ok(CfdDecl {
        name: cfd.name.clone()?,
        table: cfd.table.clone()?,
        x: cfd.x.copied()?,
        y: cfd.y.copied()?,
        rows: copy_rows(alloc, cfd.rows.as_slice())?,
    })
}
