//! A discovery that may find no more than so many dependencies.

ghost use Rattle.std.specs.Prelude.{◌≡◌, length, All};

use csv_tables::read_table;
use dep_finder::{FindFault, find_deps};
use hash_keys::HashKeys;
use schema_core::{Limits, List, Table, Texts, parse_schema};
use std::alloc::{AllocError, Global};
use std::test::Fail;

const SCHEMA: &[u8] = b"table t 't'\nattr A\nattr B\n";

/// B is the same in all of them: that is a plain dependency and a constant one.
const ROWS: &[u8] = b"A,B\nx,1\nx,1\ny,1\n";

/// How many are found where they are no more than `most`.
fn count(
    alloc: Global,
    table: &Table,
    rows: &List<Texts>,
    most: usize,
) -> Result<Option<usize>, AllocError>
    requires { All (λ row. length row ≡ length table.now.attrs) rows.now }
{
    match find_deps(alloc, HashKeys::fixed(), table, 0, rows, 1, 2, most) {
        Ok(found) => Ok(Some(found.as_slice().len())),
        Err(FindFault::TooMany) => Ok(None),
        Err(FindFault::Memory) => Err(AllocError),
    }
}

fn count_in(alloc: Global, table: &Table, most: usize) -> Result<Option<usize>, Fail> {
    let rows = read_table(alloc, table, ROWS, &Limits::standard())?;
    Ok(count(alloc, table, &rows, most)?)
}

fn count_in_first(alloc: Global, tables: &[Table], most: usize) -> Result<Option<usize>, Fail> {
    match tables {
        [table, ..] => count_in(alloc, table, most),
        [] => Ok(None),
    }
}

#[test]
fn two_are_found_and_one_is_too_few(rt: HostRuntime) -> Result<(), Fail> {
    let alloc = rt.alloc();
    let schema = parse_schema(alloc, SCHEMA, &Limits::standard())?;
    let tables = schema.tables.as_slice();
    assert_eq!(rt; count_in_first(alloc, tables, 1)?, None);
    assert_eq!(rt; count_in_first(alloc, tables, 2)?, Some(2));
    Ok(())
}
