//! What stands where a refusal points: the line or the record of the file, and the limit that was passed.
ghost use Rattle.std.specs.Prelude.{◌≡◌, ◌-◌, ◌++◌, IfOk, OnOk, slice_get};
ghost use Rattle.std.specs.Option.{option_map};
ghost use Rattle.line_grammar.specs.Lines.{lines};
ghost use Rattle.schema_core.specs.SchemaText.{value_parts};
ghost use Rattle.csv_tables.specs.Records.{file_records};
ghost use Rattle.schema_draft.specs.Sheets.{text_record};
ghost use Rattle.view_refusal.specs.Shown.{line_at, line_in, line_shown, off_text, record_at, record_in, record_of, record_shown};

use crate::anew::Anew;
use crate::bounds::{push_bound, push_room};
use crate::full::push_full;
use crate::hints::push_hint;
use crate::misfits::push_misfit;
use crate::showing::push_shown;
use cli_output::{Cause, Refusal, refusal_line};
use csv_tables::TableFault;
use schema_core::{
    Limits, List, Text, Texts, Writes, push_list, push_number, push_quoted, split_line,
};
use schema_draft::record_at;
use std::alloc::{AllocError, Global};

/// The line that tells a refusal, and below it what stands where it points.
pub fn off_text(
    alloc: Global,
    limits: &Limits,
    refusal: &Refusal,
    anew: &Anew,
) -> Result<Vec<u8>, AllocError>
    ensures { IfOk result (λ text. text.items ≡ off_text limits.now refusal.now anew.now) }
{
    let mut out = refusal_line(alloc, refusal)?;
    let line = line_in(&refusal.cause);
    push_line_at(&mut out, line, &anew.bytes)?;
    push_record_at(alloc, &mut out, record_in(&refusal.cause), &anew.bytes)?;
    push_bound(alloc, &mut out, limits, &refusal.cause, line, &anew.bytes)?;
    push_room(alloc, &mut out, limits, &refusal.cause, &anew.bytes)?;
    push_full(&mut out, limits, &refusal.cause, anew)?;
    push_misfit(alloc, &mut out, &refusal.cause, &anew.bytes)?;
    push_hint(alloc, &mut out, refusal, &anew.bytes, &anew.schema)?;
    Ok(out)
}

// ---- a line

fn line_in(cause: &Cause) -> Option<usize>
    ensures { result ≡ line_in cause.now }
{
    match cause {
        Cause::Schema { line, .. } => Some(*line),
        Cause::Rules { line, .. } => Some(*line),
        Cause::Line { line, .. } => Some(*line),
        _ => None,
    }
}

fn push_line_at(
    out: &mut Vec<u8>,
    number: Option<usize>,
    bytes: &Option<List<u8>>,
) -> Result<(), AllocError>
    ensures { OnOk result (out.new.items ≡ out.old.items ++ line_at number bytes.now) }
{
    match (number, bytes) {
        (Some(number), Some(bytes)) => push_line_of(out, number, bytes.as_slice()),
        _ => Ok(()),
    }
}

fn push_line_of(out: &mut Vec<u8>, number: usize, bytes: &[u8]) -> Result<(), AllocError>
    ensures { OnOk result (out.new.items ≡ out.old.items ++ line_shown number (slice_get (lines bytes.now) (number - 1))) }
{
    let Some(line) = nth_line(bytes, number.saturating_sub(1)) else {
        return Ok(());
    };
    push_number(out, number as u64)?;
    out.extend_from_slice(b" | ")?;
    push_shown(out, line)?;
    out.push(b'\n')?;
    Ok(())
}

/// The line at a place, the first being at 0.
pub fn nth_line(bytes: &[u8], place: usize) -> Option<&[u8]>
    ensures { option_map (λ line. line.now) result ≡ slice_get (lines bytes.now) place }
{
    let mut rest = bytes;
    let mut ahead = place;
    while !rest.is_empty() {
        let (line, behind) = split_line(rest);
        if ahead == 0 {
            return Some(line);
        }
        ahead -= 1;
        rest = behind;
    }
    None
}

// ---- a record

fn record_in(cause: &Cause) -> Option<usize>
    ensures { result ≡ record_in cause.now }
{
    match cause {
        Cause::Table(fault) => record_of(fault),
        _ => None,
    }
}

fn record_of(fault: &TableFault) -> Option<usize>
    ensures { result ≡ record_of fault.now }
{
    match fault {
        TableFault::HeaderColumn(_) | TableFault::HeaderRepeats(_) | TableFault::HeaderLacks(_) => {
            Some(0)
        }
        TableFault::Width { at } => Some(*at),
        TableFault::TextTooLong { at } => Some(*at),
        TableFault::NotInDomain { at, .. } => Some(*at),
        TableFault::RowsFull { at } => Some(*at),
        _ => None,
    }
}

fn push_record_at(
    alloc: Global,
    out: &mut Vec<u8>,
    number: Option<usize>,
    bytes: &Option<List<u8>>,
) -> Result<(), AllocError>
    ensures { OnOk result (out.new.items ≡ out.old.items ++ record_at number bytes.now) }
{
    match (number, bytes) {
        (Some(number), Some(bytes)) => push_record_of(alloc, out, number, bytes.as_slice()),
        _ => Ok(()),
    }
}

fn push_record_of(
    alloc: Global,
    out: &mut Vec<u8>,
    number: usize,
    bytes: &[u8],
) -> Result<(), AllocError>
    ensures { OnOk result (out.new.items ≡ out.old.items ++ record_shown number (text_record (slice_get (file_records bytes.now) number))) }
{
    let found = record_at(alloc, bytes, number)?;
    push_texts(alloc, out, number, &found)
}

fn push_texts(
    alloc: Global,
    out: &mut Vec<u8>,
    number: usize,
    found: &Option<Texts>,
) -> Result<(), AllocError>
    ensures { OnOk result (out.new.items ≡ out.old.items ++ record_shown number found.now) }
{
    let Some(texts) = found else {
        return Ok(());
    };
    let mut record = Vec::new(alloc);
    push_list::<Values, Text>(&mut record, texts.as_slice())?;
    out.extend_from_slice(b"record ")?;
    push_number(out, number as u64)?;
    out.extend_from_slice(b" | ")?;
    push_shown(out, record.as_slice())?;
    out.push(b'\n')?;
    Ok(())
}

/// The fields of a record, each between quotes.
pub struct Values;

impl Writes<Text> for Values {
    ghost written = { value_parts };

    fn push(out: &mut Vec<u8>, value: &Text) -> Result<(), AllocError> {
        push_quoted(out, value.as_str())
    }
}
