//! Writing a table file.

ghost use Rattle.std.specs.Prelude.{◌≡◌, IfOk, OnOk, Ok, [], length, true, All};
ghost use Rattle.std.specs.Io.KnownBytes.{Appends};
ghost use Rattle.std.specs.List.{list_all};
ghost use Rattle.std.specs.Str.{is_utf8};
ghost use Rattle.csv.specs.Records.{fields_of, partial_of};
ghost use Rattle.csv.specs.Writing.{default_writer, row_text, text_written};
ghost use Rattle.schema_core.specs.Schemas.{IsValidTable, names_of_attrs};
ghost use Rattle.text_lists.specs.declared.limits.Limits.{Limits};
ghost use Rattle.csv_tables.specs.TableFiles.{table_of};
ghost use Rattle.csv_tables.specs.WrittenFiles.{AreRowsOf, StandsBetween, records_text, table_text};

use csv::{ByteRecord, Writer, WriterBuilder};
use schema_core::{Attr, List, Table, Text, Texts};
use std::alloc::{AllocError, Global};
use std::io::Write;

/// The file of a list of rows: the header, with the attributes in the order of the schema, and then the
/// rows, as the crate `csv` writes them by default.
pub fn write_table(alloc: Global, table: &Table, rows: &List<Texts>) -> Result<Vec<u8>, AllocError>
    requires { All (λ row. length row ≡ length table.now.attrs) rows.now }
    ensures text { IfOk result (λ file. file.items ≡ table_text table.now.attrs rows.now) }

    // `read_table` gives the rows of a valid table again, under any limits that they are within.
    ensures read_back { IfOk result (λ file. (limits : Limits) → IsValidTable table.now → AreRowsOf table.now limits rows.now → table_of table.now limits file.items ≡ Ok rows.now) }
{
    let mut writer = WriterBuilder::new().from_writer(Vec::new(alloc));
    let header = header_record(alloc, table.attrs.as_slice())?;
    write_record(&mut writer, &header)?;
    write_rows(alloc, &mut writer, rows.as_slice())?;
    let Ok(file) = writer.into_inner() else {
        return Err(AllocError);
    };
    Ok(file)
}

fn write_rows<W: Write + Drop>(
    alloc: Global,
    writer: &mut Writer<W>,
    rows: &[Texts],
) -> Result<(), AllocError>
    requires { StandsBetween writer.old }
    ensures text { OnOk result (Appends (text_written W.contents writer.old) (text_written W.contents writer.new) (records_text rows.now)) }
    ensures utf8 { OnOk result (All (λ row. list_all is_utf8 row ≡ true) rows.now) }
{
    let mut fields = ByteRecord::new(alloc);
    for row in rows {
        fields.clear();
        push_texts(&mut fields, row.as_slice())?;
        write_record(writer, &fields)?;
    }
    Ok(())
}

fn write_record<W: Write + Drop>(
    writer: &mut Writer<W>,
    fields: &ByteRecord,
) -> Result<(), AllocError>
    requires { StandsBetween writer.old }
    ensures text { OnOk result (Appends (text_written W.contents writer.old) (text_written W.contents writer.new) (row_text default_writer (fields_of fields.now))) }
    ensures ready { OnOk result (StandsBetween writer.new) }
{
    let Ok(()) = writer.write_byte_record(fields) else {
        return Err(AllocError);
    };
    Ok(())
}

// The names of the attributes.
fn header_record(alloc: Global, attrs: &[Attr]) -> Result<ByteRecord, AllocError>
    ensures names { IfOk result (λ header. fields_of header ≡ names_of_attrs attrs.now) }
    ensures utf8 { OnOk result (list_all is_utf8 (names_of_attrs attrs.now) ≡ true) }
{
    let mut header = ByteRecord::new(alloc);
    for attr in attrs {
        header.push_field(attr.name.as_str().as_bytes())?;
    }
    Ok(header)
}

// Adds the texts of a row to an empty record.
fn push_texts(fields: &mut ByteRecord, row: &[Text]) -> Result<(), AllocError>
    requires empty { fields_of fields.old ≡ [] }
    requires ended { partial_of fields.old ≡ [] }
    ensures texts { OnOk result (fields_of fields.new ≡ row.now) }
    ensures utf8 { OnOk result (list_all is_utf8 row.now ≡ true) }
{
    for text in row {
        fields.push_field(text.as_str().as_bytes())?;
    }
    Ok(())
}
