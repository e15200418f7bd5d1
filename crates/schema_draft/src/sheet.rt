//! A table file by itself: the table that its header names, and its rows as they stand.

ghost use Rattle.std.specs.Prelude.{◌≡◌, ◌≤◌, ◌∷◌, IfOk, OnOk, Some, slice_get};
ghost use Rattle.csv.specs.Records.{fields_of};
ghost use Rattle.csv_tables.specs.Faults.{IsFirstFault, table_tells};
ghost use Rattle.csv_tables.specs.Records.{file_records};
ghost use Rattle.csv_tables.specs.TableFiles.{text_fault};
ghost use Rattle.line_grammar.specs.Faults.{IsUnlessMemory};
ghost use Rattle.text_lists.specs.Limits.{AreLimits};
ghost use Rattle.schema_draft.specs.Sheets.{any_texts, header_fault, record_count, sheet_of, text_record, texts_fault, unless_texts};

use csv::ByteRecord;
use csv_tables::{FileRecords, TableFault, field_text, has_longer_field};
use schema_core::{Attr, Domain, Limits, List, Table, Text, Texts};
use std::alloc::{AllocError, Global};

/// The table that a file would have, with an attribute for each column, and the rows of the file.
#[derive(Drop)]
pub struct Sheet {
    pub table: Table,
    pub rows: List<Texts>,
}

/// Reads a file as the file of a table, of which the name and the file's name are given. A record is refused for what
/// is wrong with it under any schema.
pub fn read_sheet(
    alloc: Global,
    table: &Table,
    bytes: &[u8],
    limits: &Limits,
) -> Result<Sheet, TableFault>
    requires { AreLimits limits.now }
    ensures exact { IsUnlessMemory table_tells (sheet_of table.now limits.now bytes.now) result }
{
    let mut records = FileRecords::new(alloc, bytes);
    let names = header_of(alloc, &mut records)?;
    let attrs = any_texts(alloc, names.as_slice())?;
    let rows = read_rows(alloc, limits, names.as_slice().len(), records)?;
    let table = with_attrs(table, attrs)?;
    Ok(Sheet { table, rows })
}

// The texts of the header, which is the first of the records.
fn header_of(alloc: Global, records: &mut FileRecords) -> Result<Texts, TableFault>
    ensures fault { IsFirstFault (header_fault records.old) result }
    ensures header { IfOk result (λ header. records.old ≡ header ∷ records.new) }
{
    let mut header = ByteRecord::new(alloc);
    if !records.next(&mut header)? {
        return Err(TableFault::NoHeader);
    }
    texts_of(alloc, 0, &header)
}

fn with_attrs(table: &Table, attrs: List<Attr>) -> Result<Table, AllocError>
    ensures { IfOk result (λ new. new ≡ record table.now { attrs = attrs }) }
{
    Ok(Table {
        name: table.name.clone()?,
        file: table.file.clone()?,
        master: table.master,
        attrs,
    })
}

fn any_texts(alloc: Global, names: &[Text]) -> Result<List<Attr>, AllocError>
    ensures { IfOk result (λ attrs. attrs ≡ any_texts names.now) }
{
    let mut attrs = List::new(alloc);
    for name in names {
        attrs.push(Attr {
            name: name.clone()?,
            domain: Domain::AnyText,
        })?;
    }
    Ok(attrs)
}

// The rows of the records under a header of that many columns.
fn read_rows(
    alloc: Global,
    limits: &Limits,
    width: usize,
    mut records: FileRecords,
) -> Result<List<Texts>, TableFault>
    requires { AreLimits limits.now }
    ensures fault { IsFirstFault (texts_fault limits.now width 1 records.entry) result }
    ensures rows { IfOk result (λ rows. rows ≡ records.entry) }
{
    let mut rows = List::new(alloc);
    let mut fields = ByteRecord::new(alloc);
    let mut at = 1;
    'records: while records.next(&mut fields)? {
        rows.push(read_row(alloc, limits, width, at, &fields)?)?;
        at += 1;
    }
    Ok(rows)
}

// The record of that number.
fn read_row(
    alloc: Global,
    limits: &Limits,
    width: usize,
    at: usize,
    fields: &ByteRecord,
) -> Result<Texts, TableFault>
    ensures fault { IsFirstFault (text_fault limits.now width at (fields_of fields.now)) result }
    ensures row { IfOk result (λ row. row ≡ fields_of fields.now) }
    ensures few { OnOk result (at ≤ limits.now.rows) }
{
    if at as u64 > limits.rows {
        return Err(TableFault::RowsFull { at });
    }
    if fields.len() != width {
        return Err(TableFault::Width { at });
    }
    let row = texts_of(alloc, at, fields)?;
    if has_longer_field(fields, limits.cell_bytes) {
        return Err(TableFault::TextTooLong { at });
    }
    Ok(row)
}

/// The texts of the record of that number, the header being 0, where there is one and its fields are UTF-8.
pub fn record_at(alloc: Global, bytes: &[u8], at: usize) -> Result<Option<Texts>, AllocError>
    ensures { IfOk result (λ found. found ≡ text_record (slice_get (file_records bytes.now) at)) }
{
    let mut records = FileRecords::new(alloc, bytes);
    let mut fields = ByteRecord::new(alloc);
    let mut ahead = at;
    'records: while records.next(&mut fields)? {
        if ahead == 0 {
            return texts_if(alloc, &fields);
        }
        ahead -= 1;
    }
    Ok(None)
}

/// How many records a file has, its header among them. The count stops at the last number of its type.
pub fn record_count(alloc: Global, bytes: &[u8]) -> Result<u64, AllocError>
    ensures { IfOk result (λ count. count ≡ record_count bytes.now) }
{
    let mut records = FileRecords::new(alloc, bytes);
    let mut fields = ByteRecord::new(alloc);
    let mut count: u64 = 0;
    'records: while records.next(&mut fields)? {
        count = count.saturating_add(1);
    }
    Ok(count)
}

fn texts_if(alloc: Global, fields: &ByteRecord) -> Result<Option<Texts>, AllocError>
    ensures { IfOk result (λ found. found ≡ text_record (Some (fields_of fields.now))) }
{
    let mut texts = List::new(alloc);
    for place in 0..fields.len() {
        match field_text(fields, place) {
            Some(text) => texts.push(Text::new(alloc, text)?)?,
            None => return Ok(None),
        }
    }
    Ok(Some(texts))
}

/// The fields of the record of that number, if each is UTF-8.
fn texts_of(alloc: Global, at: usize, fields: &ByteRecord) -> Result<Texts, TableFault>
    ensures fault { IsFirstFault (unless_texts at (fields_of fields.now)) result }
    ensures texts { IfOk result (λ texts. texts ≡ fields_of fields.now) }
{
    match texts_if(alloc, fields)? {
        Some(texts) => Ok(texts),
        None => Err(TableFault::NotUtf8 { at }),
    }
}
