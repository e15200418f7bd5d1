//! The tables that files may be the files of, and what may name a table or a column.

ghost use Rattle.std.specs.Prelude.{◌≡◌, ◌≢◌, ◌==◌, ◌-◌, ◌<◌, ◌≤◌, ℕ, IfOk, MatchOption, false, length, slice_index, true};
ghost use Rattle.std.specs.List.{after_last, list_all};
ghost use Rattle.text_lists.specs.Names.{is_name, is_name_byte};
ghost use Rattle.schema_core.specs.SchemaFiles.{has_attr};
ghost use Rattle.schema_draft.specs.Drafts.{stem_of, table_name, tables_from, without_csv};

use schema_core::bounds::NAME_BYTES;
use schema_core::{Attr, List, Table, Text};
use std::alloc::{AllocError, Global};
use std::str;

/// A table for each file, so far without attributes, named by what the file's name ends with, or by its number.
pub fn tables_of(alloc: Global, files: &[Text]) -> Result<List<Table>, AllocError>
    ensures { IfOk result (λ tables. tables ≡ tables_from 1 files.now) }
{
    let mut tables = List::new(alloc);
    for (place, file) in files.iter().enumerate() {
        tables.push(Table {
            name: table_name(alloc, place as u64 + 1, file)?,
            file: file.clone()?,
            master: false,
            attrs: List::new(alloc),
        })?;
    }
    Ok(tables)
}

fn table_name(alloc: Global, number: u64, file: &Text) -> Result<Text, AllocError>
    ensures { IfOk result (λ name. name ≡ table_name number file.now) }
{
    match name_in(stem_of(file.as_str().as_bytes())) {
        Some(name) => Text::new(alloc, name),
        None => Text::from_string(alloc, format!(in alloc; "table{number}")?),
    }
}

/// The name that bytes are.
fn name_in(bytes: &[u8]) -> Option<&str>
    ensures { MatchOption result (is_name bytes.now ≡ false) (λ name. (name.now ≡ bytes.now) × (is_name bytes.now ≡ true)) }
{
    if !is_name(bytes) {
        return None;
    }
    match str::from_utf8(bytes) {
        Ok(name) => Some(name),
        // A name is ASCII.
        Err(_) => None,
    }
}

/// What stands behind the last slash, without `.csv` at the end.
fn stem_of(file: &[u8]) -> &[u8]
    ensures { result.now ≡ stem_of file.now }
{
    without_csv(last_part(file))
}

fn last_part(file: &[u8]) -> &[u8]
    ensures { result.now ≡ after_last (λ b. b == 47) file.now }
{
    &file[last_start(file)..]
}

/// Where what stands behind the last slash begins.
fn last_start(file: &[u8]) -> usize
    ensures within { result ≤ length file.now }
    ensures behind { (k : ℕ) → result ≤ k → k < length file.now → slice_index file.now k ≢ 47 }
    ensures slash { 0 < result → slice_index file.now (result - 1) ≡ 47 }
{
    let mut start = file.len();
    while start > 0 {
        if file[start - 1] == b'/' {
            return start;
        }
        start -= 1;
    }
    start
}

fn without_csv(part: &[u8]) -> &[u8]
    ensures { result.now ≡ without_csv part.now }
{
    if part.ends_with(b".csv") {
        &part[..part.len() - 4]
    } else {
        part
    }
}

/// Whether the text is a name.
pub fn is_name(text: &[u8]) -> bool
    ensures { result ≡ is_name text.now }
{
    match text {
        [] => false,
        [first, rest @ ..] => {
            first.is_ascii_alphabetic() && are_name_bytes(rest) && text.len() <= NAME_BYTES
        }
    }
}

fn are_name_bytes(bytes: &[u8]) -> bool
    ensures { result ≡ list_all is_name_byte bytes.now }
{
    bytes.iter().all(|b| is_name_byte(*b))
}

fn is_name_byte(byte: u8) -> bool
    ensures { result ≡ is_name_byte byte }
{
    byte.is_ascii_alphabetic() || byte.is_ascii_digit() || byte == b'_'
}

/// Whether one of the attributes has that name.
pub fn has_name(attrs: &[Attr], name: &[u8]) -> bool
    ensures { result ≡ has_attr attrs.now name.now }
{
    for attr in attrs {
        if attr.name.as_str().as_bytes() == name {
            return true;
        }
    }
    false
}
