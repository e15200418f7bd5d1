//! All that is odd in the rows of a table.

ghost use Rattle.std.specs.Prelude.{◌≡◌, ◌++◌, IfOk, OnOk, map};
ghost use Rattle.table_flaws.specs.Flaws.{flaws_of, long_rows, repeated_rows, spaced_rows};
ghost use Rattle.table_flaws.specs.declared.flaws.Flaw.TheVariants.{Long, Repeated, Spaced};

use crate::columns::{long_rows, spaced_rows};
use crate::rows::repeated_rows;
use hash_keys::HashKeys;
use schema_core::{List, Text, Texts};
use schema_draft::column_of;
use std::alloc::{AllocError, Global};

/// What is odd, and where. Rows are numbered from 1, and attributes, as everywhere, from 0.
#[derive(Clone, Copy, PartialEq, Eq)]
pub enum Flaw {
    /// The value runs over more than ten lines.
    Long { attr: usize, row: usize },
    /// The value has blanks at an end, and stands in the column without them, too.
    Spaced { attr: usize, row: usize },
    /// The row is equal to one before it.
    Repeated { row: usize },
}

/// All that is odd, column after column, and then the rows that stand twice. Values and rows are hashed with these keys.
pub fn flaws_of(
    alloc: Global,
    keys: HashKeys,
    width: usize,
    rows: &[Texts],
) -> Result<List<Flaw>, AllocError>
    ensures { IfOk result (λ flaws. flaws ≡ flaws_of width rows.now) }
{
    let mut flaws = List::new(alloc);
    for attr in 0..width {
        let values = column_of(alloc, rows, attr)?;
        push_long(alloc, &mut flaws, attr, values.as_slice())?;
        push_spaced(alloc, keys, &mut flaws, attr, values.as_slice())?;
    }
    push_repeated(alloc, keys, &mut flaws, rows)?;
    Ok(flaws)
}

fn push_long(
    alloc: Global,
    flaws: &mut List<Flaw>,
    attr: usize,
    values: &[Text],
) -> Result<(), AllocError>
    ensures { OnOk result (flaws.new ≡ flaws.old ++ map (λ row. Long attr row) (long_rows values.now)) }
{
    let rows = long_rows(alloc, values)?;
    for row in rows.as_slice() {
        flaws.push(Flaw::Long { attr, row: *row })?;
    }
    Ok(())
}

fn push_spaced(
    alloc: Global,
    keys: HashKeys,
    flaws: &mut List<Flaw>,
    attr: usize,
    values: &[Text],
) -> Result<(), AllocError>
    ensures { OnOk result (flaws.new ≡ flaws.old ++ map (λ row. Spaced attr row) (spaced_rows values.now)) }
{
    let rows = spaced_rows(alloc, keys, values)?;
    for row in rows.as_slice() {
        flaws.push(Flaw::Spaced { attr, row: *row })?;
    }
    Ok(())
}

fn push_repeated(
    alloc: Global,
    keys: HashKeys,
    flaws: &mut List<Flaw>,
    rows: &[Texts],
) -> Result<(), AllocError>
    ensures { OnOk result (flaws.new ≡ flaws.old ++ map (λ row. Repeated row) (repeated_rows rows.now)) }
{
    let found = repeated_rows(alloc, keys, rows)?;
    for row in found.as_slice() {
        flaws.push(Flaw::Repeated { row: *row })?;
    }
    Ok(())
}
