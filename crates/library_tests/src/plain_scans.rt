//! The rows of a small table that no row of another one answers, worked out by hand.

use cfd_semantics::{Inclusion, InclusionRow, Row, orphans};
use std::alloc::{AllocError, Global};
use std::test::Fail;
use text_lists::List;

fn list_of(alloc: Global, values: &[usize]) -> Result<List<usize>, AllocError> {
    let mut list = List::new(alloc);
    for value in values {
        list.push(*value)?;
    }
    Ok(list)
}

fn row_of(alloc: Global, id: u64, tuple: &[usize]) -> Result<Row<usize>, AllocError> {
    Ok((id, list_of(alloc, tuple)?))
}

fn table_of(alloc: Global, rows: &[(u64, [usize; 2])]) -> Result<List<Row<usize>>, AllocError> {
    let mut table = List::new(alloc);
    for (id, tuple) in rows {
        table.push(row_of(alloc, *id, tuple)?)?;
    }
    Ok(table)
}

fn pattern_of(alloc: Global, constant: usize) -> Result<InclusionRow<usize>, AllocError> {
    Ok(InclusionRow {
        xp: list_of(alloc, &[constant])?,
        yp: list_of(alloc, &[5])?,
    })
}

fn patterns(alloc: Global) -> Result<List<InclusionRow<usize>>, AllocError> {
    let mut rows = List::new(alloc);
    rows.push(pattern_of(alloc, 9)?)?;
    rows.push(pattern_of(alloc, 7)?)?;
    Ok(rows)
}

fn example(alloc: Global) -> Result<Inclusion<usize>, AllocError> {
    Ok(Inclusion {
        x: list_of(alloc, &[0])?,
        xp: list_of(alloc, &[1])?,
        y: list_of(alloc, &[1])?,
        yp: list_of(alloc, &[0])?,
        rows: patterns(alloc)?,
    })
}

#[test]
fn lists_rows_that_nothing_answers(rt: HostRuntime) -> Result<(), Fail> {
    let alloc = rt.alloc();
    let lefts = table_of(alloc, &[(1, [1, 7]), (2, [2, 7]), (3, [3, 8])])?;
    let rights = table_of(alloc, &[(1, [5, 1]), (2, [6, 2])])?;
    let inclusion = example(alloc)?;
    let list = orphans(alloc, &inclusion, lefts.as_slice(), rights.as_slice())?;
    assert_eq!(rt; list.as_slice(), [(1, 2)].as_slice());
    Ok(())
}
