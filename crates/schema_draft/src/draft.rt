//! The text of a draft.

ghost use Rattle.std.specs.Prelude.{◌≡◌, ◌<◌, ◌+◌, ◌++◌, ◌∷◌, [], IfOk, Ok, OnOk, Some, length, slice_get, take};
ghost use Rattle.line_grammar.specs.Spelling.{line_text};
ghost use Rattle.text_lists.specs.Limits.{standard};
ghost use Rattle.schema_core.specs.SchemaFiles.{reads};
ghost use Rattle.schema_core.specs.SchemaText.{value_parts};
ghost use Rattle.schema_core.specs.Schemas.{IsValidSchema};
ghost use Rattle.schema_draft.specs.DraftSchemas.{HoldTexts, schema_of};
ghost use Rattle.schema_draft.specs.Drafts.{attr_text, column_text, advice, domain_note, draft_of, has_sheet, head_text, key_note, named, names_column, notes_on, rename_note, sheet_text, only_if};

use crate::columns::{column_of, few_values, is_key};
use crate::names::{has_name, is_name};
use crate::sheet::Sheet;
use hash_keys::HashKeys;
use schema_core::{Attr, Table, Text, Texts, Writes, push_number, push_quoted, push_spaced_list};
use std::alloc::{AllocError, Global};

/// The draft of a schema of these tables: a line for each table and each of its columns, and comments on what is to be
/// named otherwise, on columns with few values and on columns that are keys.
pub fn draft_of(alloc: Global, keys: HashKeys, sheets: &[Sheet]) -> Result<Vec<u8>, AllocError>
    ensures text { IfOk result (λ text. text.items ≡ draft_of sheets.now) }

    // Where the names and the files' names make a valid schema, the draft is read as that schema.
    ensures read_again { IfOk result (λ text. HoldTexts sheets.now → IsValidSchema (schema_of sheets.now) → reads standard text.items ≡ Ok (schema_of sheets.now)) }
{
    let mut out = Vec::new(alloc);
    for (place, sheet) in sheets.iter().enumerate() {
        push_sheet(alloc, keys, &mut out, &sheets[..place], sheet)?;
    }
    Ok(out)
}

fn push_sheet(
    alloc: Global,
    keys: HashKeys,
    out: &mut Vec<u8>,
    before: &[Sheet],
    sheet: &Sheet,
) -> Result<(), AllocError>
    ensures { OnOk result (out.new.items ≡ out.old.items ++ sheet_text before.now sheet.now) }
{
    let fits = !has_sheet(before, &sheet.table.name);
    push_head(out, fits, &sheet.table)?;
    for place in 0..sheet.table.attrs.as_slice().len() {
        push_column(alloc, keys, out, sheet, place)?;
    }
    Ok(())
}

fn has_sheet(before: &[Sheet], name: &Text) -> bool
    ensures { result ≡ has_sheet before.now name.now }
{
    before.iter().any(|s| s.table.name.is(name.as_str()))
}

fn push_head(out: &mut Vec<u8>, fits: bool, table: &Table) -> Result<(), AllocError>
    ensures { OnOk result (out.new.items ≡ out.old.items ++ head_text fits table.now) }
{
    if !fits {
        out.extend_from_slice(b"# a table above has this name: choose another\n")?;
    }
    out.extend_from_slice(b"table ")?;
    push_named(out, fits, &table.name)?;
    out.push(b' ')?;
    push_quoted(out, table.file.as_str())?;
    out.push(b'\n')?;
    Ok(())
}

fn push_named(out: &mut Vec<u8>, fits: bool, words: &Text) -> Result<(), AllocError>
    ensures { OnOk result (out.new.items ≡ out.old.items ++ line_text (named fits words.now ∷ [])) }
{
    if fits {
        out.extend_from_slice(words.as_str().as_bytes())
    } else {
        push_quoted(out, words.as_str())
    }
}

fn push_column(
    alloc: Global,
    keys: HashKeys,
    out: &mut Vec<u8>,
    sheet: &Sheet,
    place: usize,
) -> Result<(), AllocError>
    requires { place < length sheet.now.table.attrs }
    ensures { OnOk result (out.new.items ≡ out.old.items ++ column_text sheet.now place (slice_get sheet.now.table.attrs place)) }
{
    let attrs = sheet.table.attrs.as_slice();
    let words = &attrs[place].name;
    let fits = names_column(attrs, place, words);
    push_attr(alloc, out, attrs, place + 1, fits, words)?;
    let values = column_of(alloc, sheet.rows.as_slice(), place)?;
    push_notes(alloc, keys, out, fits, words, values.as_slice())
}

/// Whether the text over the column at a place names an attribute.
fn names_column(attrs: &[Attr], place: usize, words: &Text) -> bool
    requires { place < length attrs.now }
    ensures { result ≡ names_column (take place attrs.now) words.now }
{
    let bytes = words.as_str().as_bytes();
    is_name(bytes) && !has_name(&attrs[..place], bytes)
}

// The line of the column at a place, under a note where its text names no attribute.
fn push_attr(
    alloc: Global,
    out: &mut Vec<u8>,
    attrs: &[Attr],
    number: usize,
    fits: bool,
    words: &Text,
) -> Result<(), AllocError>
    ensures { OnOk result (out.new.items ≡ out.old.items ++ attr_text attrs.now number fits words.now) }
{
    if !fits {
        push_rename(alloc, out, attrs, number)?;
    }
    out.extend_from_slice(b"attr ")?;
    push_named(out, fits, words)?;
    out.push(b'\n')?;
    Ok(())
}

fn push_rename(
    alloc: Global,
    out: &mut Vec<u8>,
    attrs: &[Attr],
    number: usize,
) -> Result<(), AllocError>
    ensures { OnOk result (out.new.items ≡ out.old.items ++ rename_note attrs.now number) }
{
    let advice = advice(alloc, attrs, number)?;
    out.extend_from_slice(b"# column ")?;
    push_number(out, number as u64)?;
    out.extend_from_slice(b" has no name of its own: call it ")?;
    out.extend_from_slice(&advice)?;
    out.extend_from_slice(b" in the file\n")
}

fn advice(alloc: Global, attrs: &[Attr], number: usize) -> Result<Vec<u8>, AllocError>
    ensures { IfOk result (λ words. words.items ≡ advice attrs.now number) }
{
    let mut words = Vec::new(alloc);
    words.extend_from_slice(b"column")?;
    push_number(&mut words, number as u64)?;
    if has_name(attrs, &words) {
        words.clear();
        words.extend_from_slice(b"otherwise")?;
    }
    Ok(words)
}

// What a column's values show.
fn push_notes(
    alloc: Global,
    keys: HashKeys,
    out: &mut Vec<u8>,
    fits: bool,
    words: &Text,
    values: &[Text],
) -> Result<(), AllocError>
    ensures { OnOk result (out.new.items ≡ out.old.items ++ notes_on fits words.now values.now) }
{
    let few = few_values(alloc, values)?;
    push_domain(out, fits, words, &few)?;
    let key = is_key(alloc, keys, values)?;
    push_key(out, key, fits, words)
}

fn push_domain(
    out: &mut Vec<u8>,
    fits: bool,
    words: &Text,
    few: &Option<Texts>,
) -> Result<(), AllocError>
    ensures { OnOk result (out.new.items ≡ out.old.items ++ domain_note fits words.now few.now) }
{
    let Some(values) = few else {
        return Ok(());
    };
    out.extend_from_slice(b"# attr ")?;
    push_named(out, fits, words)?;
    out.extend_from_slice(b" in")?;
    push_spaced_list::<Values, Text>(out, values.as_slice())?;
    out.push(b'\n')?;
    Ok(())
}

/// The values of a domain.
struct Values;

impl Writes<Text> for Values {
    ghost written = { value_parts };

    fn push(out: &mut Vec<u8>, value: &Text) -> Result<(), AllocError> {
        push_quoted(out, value.as_str())
    }
}

fn push_key(out: &mut Vec<u8>, key: bool, fits: bool, words: &Text) -> Result<(), AllocError>
    ensures { OnOk result (out.new.items ≡ out.old.items ++ only_if key (key_note fits words.now)) }
{
    if !key {
        return Ok(());
    }
    out.extend_from_slice(b"# ")?;
    push_named(out, fits, words)?;
    out.extend_from_slice(b" is a key: no value stands twice\n")
}
