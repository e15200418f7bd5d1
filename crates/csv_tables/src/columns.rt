//! The header of a table file.

ghost use Rattle.std.specs.Prelude.{◌≡◌, ◌<◌, ◌≤◌, ◌+◌, [], Some, None, IfOk, OnOk, length, true, false, take, drop, slice_index_or};
ghost use Rattle.std.specs.List.{list_all};
ghost use Rattle.std.specs.Result.{result_err};
ghost use Rattle.std.specs.Str.{is_utf8};
ghost use Rattle.csv.specs.Records.{fields_of};
ghost use Rattle.line_grammar.specs.Faults.{UnlessMemory};
ghost use Rattle.schema_core.specs.Schemas.{admits};
ghost use Rattle.row_takers.specs.Taken.{texts_in};
ghost use Rattle.csv_tables.specs.Columns.{ArePlacesOf};
ghost use Rattle.csv_tables.specs.Faults.{IsFirstFault, table_tells};
ghost use Rattle.csv_tables.specs.TableFiles.{column_fault, column_place, domain_fault, header_fault, lacking_fault, record_fault, row_of, text_fault};
ghost use Rattle.csv_tables.specs.declared.fault.TableFault.TheVariants as fault;

use crate::fault::TableFault;
use crate::fields::{has_longer_field, is_text, place_of, utf8_field};
use csv::ByteRecord;
use schema_core::{Attr, Limits, Table, Text};
use std::alloc::Global;

/// Where the fields of a record go: for each attribute of the table the place of its column.
#[derive(Drop)]
pub(crate) struct Columns<'a> {
    pub table: &'a Table,
    pub header: ByteRecord,
    places: Vec<usize>,
    ghost in_place: { ArePlacesOf places.items table.now.attrs (fields_of header) },
}

impl<'a> Columns<'a> {
    /// The columns of a header without faults.
    pub fn of_header(
        alloc: Global,
        table: &'a Table,
        header: ByteRecord,
    ) -> Result<Columns<'a>, TableFault>
        ensures fault { IsFirstFault (header_fault table.now (fields_of header)) result }
        ensures columns { IfOk result (λ columns. (columns.table.now ≡ table.now) × (columns.header ≡ header)) }
    {
        if !is_text(&header) {
            return Err(TableFault::NotUtf8 { at: 0 });
        }
        check_columns(alloc, table, &header)?;
        let places = column_places(alloc, table.attrs.as_slice(), &header)?;
        Ok(Columns {
            table,
            header,
            places,
        })
    }

    /// The row of the record of that number, its fields in the order of the attributes.
    pub fn row<'f>(
        &self,
        alloc: Global,
        limits: &Limits,
        at: usize,
        fields: &'f ByteRecord,
    ) -> Result<Vec<&'f str>, TableFault>
        ensures fault { IsFirstFault (record_fault self.now.table.now limits.now (fields_of self.now.header) at (fields_of fields.now)) result }
        ensures row { IfOk result (λ row. texts_in row.items ≡ row_of self.now.table.now.attrs (fields_of self.now.header) (fields_of fields.now)) }
        ensures few { OnOk result (at ≤ limits.now.rows) }
    {
        check_fields(limits, self.header.len(), at, fields)?;
        self.cells(alloc, at, fields)
    }

    fn cells<'f>(
        &self,
        alloc: Global,
        at: usize,
        fields: &'f ByteRecord,
    ) -> Result<Vec<&'f str>, TableFault>
        requires width { length (fields_of fields.now) ≡ length (fields_of self.now.header) }
        requires text { list_all is_utf8 (fields_of fields.now) ≡ true }
        ensures fault { IsFirstFault (domain_fault self.now.table.now.attrs (fields_of self.now.header) at (fields_of fields.now)) result }
        ensures row { IfOk result (λ row. texts_in row.items ≡ row_of self.now.table.now.attrs (fields_of self.now.header) (fields_of fields.now)) }
    {
        let mut row = Vec::with_capacity(alloc, self.places.len())?;
        for (i, attr) in self.table.attrs.as_slice().iter().enumerate() {
            row.push(cell(attr, at, fields, self.places[i])?)?;
        }
        Ok(row)
    }
}

// Goes over the columns from left to right. Among as many columns as the table has attributes, and one
// more, there is a fault: so a header of millions of columns is refused early.
fn check_columns(alloc: Global, table: &Table, header: &ByteRecord) -> Result<(), TableFault>
    requires { list_all is_utf8 (fields_of header.now) ≡ true }
    ensures { IsFirstFault (column_fault table.now [] (fields_of header.now)) result }
{
    for place in 0..header.len() {
        check_column(alloc, table, header, place)?;
    }
    Ok(())
}

fn check_column(
    alloc: Global,
    table: &Table,
    header: &ByteRecord,
    place: usize,
) -> Result<(), TableFault>
    requires inside { place < length (fields_of header.now) }
    requires text { list_all is_utf8 (fields_of header.now) ≡ true }
    ensures { let left = column_fault table.now (take place (fields_of header.now)) (drop place (fields_of header.now)) in
        UnlessMemory table_tells (λ _. left ≡ column_fault table.now (take (place + 1) (fields_of header.now)) (drop (place + 1) (fields_of header.now))) (λ f. left ≡ Some f) result }
{
    let name = utf8_field(header, place);
    if table.attr_named(name).is_none() {
        return Err(TableFault::HeaderColumn(Text::new(alloc, name)?));
    }
    if place_of(header, place, name).is_some() {
        return Err(TableFault::HeaderRepeats(Text::new(alloc, name)?));
    }
    Ok(())
}

// The place of each attribute's column.
fn column_places(
    alloc: Global,
    attrs: &[Attr],
    header: &ByteRecord,
) -> Result<Vec<usize>, TableFault>
    ensures fault { IsFirstFault (lacking_fault attrs.now (fields_of header.now)) result }
    ensures places { IfOk result (λ places. ArePlacesOf places.items attrs.now (fields_of header.now)) }
{
    let mut places = Vec::new(alloc);
    for attr in attrs {
        places.push(column_of(attr, header)?)?;
    }
    Ok(places)
}

fn column_of(attr: &Attr, header: &ByteRecord) -> Result<usize, TableFault>
    ensures place { let place = column_place (fields_of header.now) attr.now.name in
        UnlessMemory table_tells (λ found. place ≡ Some found) (λ f. (place ≡ None) × (f ≡ fault.HeaderLacks attr.now.name)) result }
    ensures inside { IfOk result (λ place. place < length (fields_of header.now)) }
{
    match place_of(header, header.len(), attr.name.as_str()) {
        Some(place) => Ok(place),
        None => Err(TableFault::HeaderLacks(attr.name.clone()?)),
    }
}

// Tests the record of that number as far as that needs no table.
fn check_fields(
    limits: &Limits,
    width: usize,
    at: usize,
    fields: &ByteRecord,
) -> Result<(), TableFault>
    ensures fault { result_err result ≡ text_fault limits.now width at (fields_of fields.now) }
    ensures few { OnOk result (at ≤ limits.now.rows) }
    ensures width { OnOk result (length (fields_of fields.now) ≡ width) }
    ensures text { OnOk result (list_all is_utf8 (fields_of fields.now) ≡ true) }
{
    if at as u64 > limits.rows {
        return Err(TableFault::RowsFull { at });
    }
    if fields.len() != width {
        return Err(TableFault::Width { at });
    }
    if !is_text(fields) {
        return Err(TableFault::NotUtf8 { at });
    }
    if has_longer_field(fields, limits.cell_bytes) {
        return Err(TableFault::TextTooLong { at });
    }
    Ok(())
}

// The field at the place, if the domain of the attribute has it.
fn cell<'f>(
    attr: &Attr,
    at: usize,
    fields: &'f ByteRecord,
    place: usize,
) -> Result<&'f str, TableFault>
    requires inside { place < length (fields_of fields.now) }
    requires text { list_all is_utf8 (fields_of fields.now) ≡ true }
    ensures value { IfOk result (λ text. text.now ≡ slice_index_or (fields_of fields.now) place []) }
    ensures domain { let is_admitted = admits attr.now.domain (slice_index_or (fields_of fields.now) place []) in
        UnlessMemory table_tells (λ _. is_admitted ≡ true) (λ f. (is_admitted ≡ false) × (f ≡ fault.NotInDomain at attr.now.name)) result }
{
    let text = utf8_field(fields, place);
    if !attr.domain.admits(text) {
        let attr = attr.name.clone()?;
        return Err(TableFault::NotInDomain { at, attr });
    }
    Ok(text)
}
