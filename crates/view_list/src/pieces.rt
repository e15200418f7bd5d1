//! Counts, ids, and lists that are cut.

ghost use Rattle.std.specs.Prelude.{◌≡◌, ◌++◌, ◌==◌, [], if◌then◌else◌, codes, OnOk};
ghost use Rattle.std.specs.List.{flat_map};
ghost use Rattle.view_list.specs.Pieces.{commas, counted, first_of, further, id_text, left_out, more_text, origin_text, rows_text};

use row_store::RowId;
use schema_core::push_number;
use std::alloc::AllocError;

/// How many there are of something.
pub fn push_counted(out: &mut Vec<u8>, count: usize, noun: &[u8]) -> Result<(), AllocError>
    ensures { OnOk result (out.new.items ≡ out.old.items ++ counted count noun.now) }
{
    push_number(out, count as u64)?;
    out.extend_from_slice(b" ")?;
    out.extend_from_slice(noun)?;
    push_plural(out, count)
}

fn push_plural(out: &mut Vec<u8>, count: usize) -> Result<(), AllocError>
    ensures { OnOk result (out.new.items ≡ out.old.items ++ (if count == 1 then [] else codes "s")) }
{
    if count == 1 {
        Ok(())
    } else {
        out.extend_from_slice(b"s")
    }
}

/// The items that are shown.
pub fn first_of<T>(items: &[T], most: Option<u64>) -> &[T]
    ensures { result.now ≡ first_of most items.now }
{
    match most {
        Some(most) => front(items, most as usize),
        None => items,
    }
}

fn front<T>(items: &[T], most: usize) -> &[T]
    ensures { result.now ≡ first_of (Some most) items.now }
{
    if most < items.len() {
        &items[..most]
    } else {
        items
    }
}

/// How many items are not shown.
pub fn left_out(most: Option<u64>, count: usize) -> u64
    ensures { result ≡ left_out most count }
{
    match most {
        Some(most) => (count as u64).saturating_sub(most),
        None => 0,
    }
}

/// Tells how many items are not shown, where some are not.
pub fn push_more(
    out: &mut Vec<u8>,
    before: &[u8],
    count: u64,
    after: &[u8],
) -> Result<(), AllocError>
    ensures { OnOk result (out.new.items ≡ out.old.items ++ more_text before.now count after.now) }
{
    if count == 0 {
        return Ok(());
    }
    out.extend_from_slice(before)?;
    out.extend_from_slice(b"and ")?;
    push_number(out, count)?;
    out.extend_from_slice(b" more")?;
    out.extend_from_slice(after)
}

fn push_origin(out: &mut Vec<u8>, read: u64, id: RowId) -> Result<(), AllocError>
    ensures { OnOk result (out.new.items ≡ out.old.items ++ origin_text read id) }
{
    if read < id {
        out.extend_from_slice(b" (by the script)")
    } else {
        Ok(())
    }
}

/// The id of a row, of whose table so many rows were read.
pub fn push_id(out: &mut Vec<u8>, read: u64, id: RowId) -> Result<(), AllocError>
    ensures { OnOk result (out.new.items ≡ out.old.items ++ id_text read id) }
{
    push_number(out, id)?;
    push_origin(out, read, id)
}

fn push_further_ids(out: &mut Vec<u8>, read: u64, ids: &[RowId]) -> Result<(), AllocError>
    ensures { OnOk result (out.new.items ≡ out.old.items ++ flat_map (further (id_text read)) ids.now) }
{
    for id in ids {
        out.extend_from_slice(b", ")?;
        push_id(out, read, *id)?;
    }
    Ok(())
}

fn push_ids(out: &mut Vec<u8>, read: u64, ids: &[RowId]) -> Result<(), AllocError>
    ensures { OnOk result (out.new.items ≡ out.old.items ++ commas (id_text read) ids.now) }
{
    let Some((id, others)) = ids.split_first() else {
        return Ok(());
    };
    push_id(out, read, *id)?;
    push_further_ids(out, read, others)
}

/// How many rows there are, and which.
pub fn push_rows(
    out: &mut Vec<u8>,
    most: Option<u64>,
    read: u64,
    rows: &[RowId],
) -> Result<(), AllocError>
    ensures { OnOk result (out.new.items ≡ out.old.items ++ rows_text most read rows.now) }
{
    let left = left_out(most, rows.len());
    out.extend_from_slice(b"in ")?;
    push_counted(out, rows.len(), b"row")?;
    out.extend_from_slice(b": ")?;
    push_ids(out, read, first_of(rows, most))?;
    push_more(out, b" ", left, b"")?;
    out.extend_from_slice(b"\n")
}
