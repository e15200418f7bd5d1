//! The limit that a file passed.
ghost use Rattle.std.specs.Prelude.{◌≡◌, ◌++◌, OnOk, Some};
ghost use Rattle.view_refusal.specs.Hints.{bytes_line, file_rows, room_text, rows_line, rows_told, size_line, table_room};
ghost use Rattle.view_refusal.specs.Shown.{bound_shown, limit_in, limit_in_line, limit_in_rule, limit_in_rules, limit_in_schema, limit_value, most_line};

use crate::counted::push_counted;
use cli_output::{Cause, LineFlaw, limit_word};
use csv_tables::TableFault;
use rule_model::RuleFault;
use rule_parser::ParseCause;
use schema_core::{Limit, Limits, List, SchemaCause, push_number};
use schema_draft::record_count;
use std::alloc::{AllocError, Global};

/// Tells how many there may be, and how many there are, where there are too many.
pub fn push_bound(
    alloc: Global,
    out: &mut Vec<u8>,
    limits: &Limits,
    cause: &Cause,
    line: Option<usize>,
    bytes: &Option<List<u8>>,
) -> Result<(), AllocError>
    ensures { OnOk result (out.new.items ≡ out.old.items ++ bound_shown limits.now (limit_in cause.now) line bytes.now) }
{
    let Some(limit) = limit_in(cause) else {
        return Ok(());
    };
    push_most(out, limits, limit)?;
    push_counted(alloc, out, limit, line, bytes)
}

fn push_most(out: &mut Vec<u8>, limits: &Limits, limit: Limit) -> Result<(), AllocError>
    ensures { OnOk result (out.new.items ≡ out.old.items ++ most_line limits.now limit) }
{
    out.extend_from_slice(b"at most ")?;
    push_number(out, limit_value(limits, limit))?;
    out.push(b' ')?;
    out.extend_from_slice(limit_word(limit).as_bytes())?;
    out.push(b'\n')?;
    Ok(())
}

/// Tells how many bytes or rows there may be, where there are too many.
pub fn push_room(
    alloc: Global,
    out: &mut Vec<u8>,
    limits: &Limits,
    cause: &Cause,
    bytes: &Option<List<u8>>,
) -> Result<(), AllocError>
    ensures { OnOk result (out.new.items ≡ out.old.items ++ room_text limits.now cause.now bytes.now) }
{
    match cause {
        Cause::TooLarge => {
            push_bytes(out, limits)?;
            push_size(out, bytes)
        }
        Cause::Table(fault) => push_table_room(alloc, out, limits, fault, bytes),
        _ => Ok(()),
    }
}

fn push_bytes(out: &mut Vec<u8>, limits: &Limits) -> Result<(), AllocError>
    ensures { OnOk result (out.new.items ≡ out.old.items ++ bytes_line limits.now) }
{
    out.extend_from_slice(b"at most ")?;
    push_number(out, limits.file_bytes)?;
    out.extend_from_slice(b" bytes in a file, and ")?;
    push_number(out, limits.all_bytes)?;
    out.extend_from_slice(b" in all files\n")
}

fn push_size(out: &mut Vec<u8>, bytes: &Option<List<u8>>) -> Result<(), AllocError>
    ensures { OnOk result (out.new.items ≡ out.old.items ++ size_line bytes.now) }
{
    match bytes {
        Some(bytes) => push_length(out, bytes.as_slice()),
        None => Ok(()),
    }
}

fn push_length(out: &mut Vec<u8>, bytes: &[u8]) -> Result<(), AllocError>
    ensures { OnOk result (out.new.items ≡ out.old.items ++ size_line (Some bytes.now)) }
{
    out.extend_from_slice(b"this file has ")?;
    push_number(out, bytes.len() as u64)?;
    out.extend_from_slice(b" bytes\n")
}

fn push_table_room(
    alloc: Global,
    out: &mut Vec<u8>,
    limits: &Limits,
    fault: &TableFault,
    bytes: &Option<List<u8>>,
) -> Result<(), AllocError>
    ensures { OnOk result (out.new.items ≡ out.old.items ++ table_room limits.now fault.now bytes.now) }
{
    match fault {
        TableFault::RowsFull { .. } => {
            push_rows(out, limits)?;
            push_file_rows(alloc, out, bytes)
        }
        _ => Ok(()),
    }
}

fn push_file_rows(
    alloc: Global,
    out: &mut Vec<u8>,
    bytes: &Option<List<u8>>,
) -> Result<(), AllocError>
    ensures { OnOk result (out.new.items ≡ out.old.items ++ file_rows bytes.now) }
{
    match bytes {
        Some(bytes) => push_rows_of(out, record_count(alloc, bytes.as_slice())?),
        None => Ok(()),
    }
}

fn push_rows_of(out: &mut Vec<u8>, records: u64) -> Result<(), AllocError>
    ensures { OnOk result (out.new.items ≡ out.old.items ++ rows_told records) }
{
    out.extend_from_slice(b"this file has ")?;
    push_number(out, records.saturating_sub(1))?;
    out.extend_from_slice(b" rows\n")
}

fn push_rows(out: &mut Vec<u8>, limits: &Limits) -> Result<(), AllocError>
    ensures { OnOk result (out.new.items ≡ out.old.items ++ rows_line limits.now) }
{
    out.extend_from_slice(b"at most ")?;
    push_number(out, limits.rows)?;
    out.extend_from_slice(b" rows\n")
}

fn limit_in(cause: &Cause) -> Option<Limit>
    ensures { result ≡ limit_in cause.now }
{
    match cause {
        Cause::Schema { cause, .. } => limit_in_schema(*cause),
        Cause::Rules { cause, .. } => limit_in_rules(cause),
        Cause::Line { cause, .. } => limit_in_line(*cause),
        _ => None,
    }
}

fn limit_in_schema(cause: SchemaCause) -> Option<Limit>
    ensures { result ≡ limit_in_schema cause }
{
    match cause {
        SchemaCause::TooMany(limit) => Some(limit),
        _ => None,
    }
}

fn limit_in_rules(cause: &ParseCause) -> Option<Limit>
    ensures { result ≡ limit_in_rules cause.now }
{
    match cause {
        ParseCause::Rule(fault) => limit_in_rule(fault),
        _ => None,
    }
}

fn limit_in_rule(fault: &RuleFault) -> Option<Limit>
    ensures { result ≡ limit_in_rule fault.now }
{
    match fault {
        RuleFault::TooMany(limit) => Some(*limit),
        _ => None,
    }
}

fn limit_in_line(flaw: LineFlaw) -> Option<Limit>
    ensures { result ≡ limit_in_line flaw }
{
    match flaw {
        LineFlaw::TooMany(limit) => Some(limit),
        _ => None,
    }
}

fn limit_value(limits: &Limits, limit: Limit) -> u64
    ensures { result ≡ limit_value limits.now limit }
{
    match limit {
        Limit::Tables => limits.tables,
        Limit::Attrs => limits.attrs,
        Limit::Values => limits.values,
        Limit::Deps => limits.deps,
        Limit::Cinds => limits.cinds,
        Limit::Edits => limits.edits,
        Limit::TableauRows => limits.tableau_rows,
        Limit::Commands => limits.commands,
    }
}
