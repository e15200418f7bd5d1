//! Rules with value ids in place of their constants.

ghost use Rattle.std.specs.Prelude.{◌≡◌, IfOk};
ghost use Rattle.std.specs.List.{AllZip};
ghost use Rattle.value_pool.specs.Pool.{KeepsIds};
ghost use Rattle.bench_index.specs.ByIds.{HaveIds, IsCellByIds, IsRowByIds, IsDependencyByIds, IsInclusionRowByIds, IsInclusionByIds};

use cfd_semantics::{Dependency, Inclusion, InclusionRow, Pattern, TableauRow, ValueSet};
use schema_core::{List, Text};
use std::alloc::{AllocError, Global};
use value_pool::{Pool, ValueId};

fn ids_of_texts(alloc: Global, pool: &mut Pool, texts: &[Text]) -> Result<List<ValueId>, AllocError>
    ensures ids { IfOk result (HaveIds pool.new texts.now) }
    ensures kept { KeepsIds pool.old pool.new }
{
    let mut ids = List::new(alloc);
    for text in texts {
        ids.push(pool.intern(text.as_str())?)?;
    }
    Ok(ids)
}

fn set_by_ids(
    alloc: Global,
    pool: &mut Pool,
    texts: &[Text],
) -> Result<ValueSet<ValueId>, AllocError>
    ensures ids { IfOk result (HaveIds pool.new texts.now) }
    ensures kept { KeepsIds pool.old pool.new }
{
    let ids = ids_of_texts(alloc, pool, texts)?;
    ValueSet::new(alloc, ids)
}

fn cell_by_ids(
    alloc: Global,
    pool: &mut Pool,
    cell: &Pattern<Text>,
) -> Result<Pattern<ValueId>, AllocError>
    ensures cell { IfOk result (IsCellByIds pool.new cell.now) }
    ensures kept { KeepsIds pool.old pool.new }
{
    Ok(match cell {
        Pattern::Any => Pattern::Any,
        Pattern::Is(text) => Pattern::Is(pool.intern(text.as_str())?),
        Pattern::In(members) => Pattern::In(set_by_ids(alloc, pool, members.as_slice())?),
        Pattern::NotIn(members) => Pattern::NotIn(set_by_ids(alloc, pool, members.as_slice())?),
    })
}

fn cells_by_ids(
    alloc: Global,
    pool: &mut Pool,
    cells: &[Pattern<Text>],
) -> Result<List<Pattern<ValueId>>, AllocError>
    ensures cells { IfOk result (AllZip (IsCellByIds pool.new) cells.now) }
    ensures kept { KeepsIds pool.old pool.new }
{
    let mut all = List::new(alloc);
    for cell in cells {
        all.push(cell_by_ids(alloc, pool, cell)?)?;
    }
    Ok(all)
}

fn row_by_ids(
    alloc: Global,
    pool: &mut Pool,
    row: &TableauRow<Text>,
) -> Result<TableauRow<ValueId>, AllocError>
    ensures row { IfOk result (IsRowByIds pool.new row.now) }
    ensures kept { KeepsIds pool.old pool.new }
{
    let x = cells_by_ids(alloc, pool, row.x.as_slice())?;
    let a = cell_by_ids(alloc, pool, &row.a)?;
    Ok(TableauRow { x, a })
}

fn rows_by_ids(
    alloc: Global,
    pool: &mut Pool,
    rows: &[TableauRow<Text>],
) -> Result<List<TableauRow<ValueId>>, AllocError>
    ensures rows { IfOk result (AllZip (IsRowByIds pool.new) rows.now) }
    ensures kept { KeepsIds pool.old pool.new }
{
    let mut all = List::new(alloc);
    for row in rows {
        all.push(row_by_ids(alloc, pool, row)?)?;
    }
    Ok(all)
}

/// The dependency with ids in place of its constants, which come into the pool.
pub fn dependency_by_ids(
    alloc: Global,
    pool: &mut Pool,
    dependency: &Dependency<Text>,
) -> Result<Dependency<ValueId>, AllocError>
    ensures by_ids { IfOk result (IsDependencyByIds pool.new dependency.now) }
    ensures kept { KeepsIds pool.old pool.new }
{
    let x = numbers(alloc, &dependency.x)?;
    let rows = rows_by_ids(alloc, pool, dependency.rows.as_slice())?;
    Ok(Dependency {
        x,
        a: dependency.a,
        rows,
    })
}

fn inclusion_rows_by_ids(
    alloc: Global,
    pool: &mut Pool,
    rows: &[InclusionRow<Text>],
) -> Result<List<InclusionRow<ValueId>>, AllocError>
    ensures rows { IfOk result (AllZip (IsInclusionRowByIds pool.new) rows.now) }
    ensures kept { KeepsIds pool.old pool.new }
{
    let mut all = List::new(alloc);
    for row in rows {
        let xp = ids_of_texts(alloc, pool, row.xp.as_slice())?;
        let yp = ids_of_texts(alloc, pool, row.yp.as_slice())?;
        all.push(InclusionRow { xp, yp })?;
    }
    Ok(all)
}

fn numbers(alloc: Global, attributes: &List<usize>) -> Result<List<usize>, AllocError>
    ensures { IfOk result (λ copy. copy ≡ attributes.now) }
{
    Ok(List::from(Vec::from_slice(alloc, attributes.as_slice())?))
}

/// The inclusion with ids in place of its constants, which come into the pool.
pub fn inclusion_by_ids(
    alloc: Global,
    pool: &mut Pool,
    inclusion: &Inclusion<Text>,
) -> Result<Inclusion<ValueId>, AllocError>
    ensures by_ids { IfOk result (IsInclusionByIds pool.new inclusion.now) }
    ensures kept { KeepsIds pool.old pool.new }
{
    let rows = inclusion_rows_by_ids(alloc, pool, inclusion.rows.as_slice())?;
    Ok(Inclusion {
        x: numbers(alloc, &inclusion.x)?,
        xp: numbers(alloc, &inclusion.xp)?,
        y: numbers(alloc, &inclusion.y)?,
        yp: numbers(alloc, &inclusion.yp)?,
        rows,
    })
}
