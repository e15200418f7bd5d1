//! Why a call is refused, and the line that says so.

ghost use Rattle.std.specs.Prelude.{◌≡◌, ◌++◌, OnOk, IfOk};
ghost use Rattle.cli_output.specs.Refusals.{limit_text, too_many, at_line, at_record, with_name, then_text, schema_text, rule_text, parse_text, table_text, flaw_text, cause_text, refusal_line};

use csv_tables::TableFault;
use rule_model::RuleFault;
use rule_parser::ParseCause;
use schema_core::{Limit, SchemaCause, Text, push_number, push_quoted};
use std::alloc::{AllocError, Global};

/// What is wrong with a line of a file that has no causes of its own: a script, a file of events, or a certificate.
#[derive(Clone, Copy, PartialEq, Eq)]
pub enum LineFlaw {
    NotUtf8,
    /// The line is not in the grammar at its place.
    BadLine,
    TooMany(Limit),
}

/// Why a file or a word is refused.
#[derive(Drop)]
pub enum Cause {
    Absent,
    TooLarge,
    Schema { line: usize, cause: SchemaCause },
    Rules { line: usize, cause: ParseCause },
    Table(TableFault),
    Line { line: usize, cause: LineFlaw },
    /// The tables together have too many rows or cells; the first with which they have is told.
    RowsFull,
    /// A word is the name of no table.
    UnknownTable,
    /// More dependencies hold in a table than are written.
    TooManyFound,
}

/// What is refused, the name of a file or a word, and why.
pub struct Refusal {
    pub what: Text,
    pub cause: Cause,
}

// By hand, so that whatever drops a refusal calls this, and isn't proved for each cause.
impl Drop for Refusal {
    fn drop(self) {
        let Refusal { what: _, cause: _ } = self;
    }
}

/// The line that tells a refusal.
pub fn refusal_line(alloc: Global, refusal: &Refusal) -> Result<Vec<u8>, AllocError>
    ensures { IfOk result (λ line. line.items ≡ refusal_line refusal.now.what refusal.now.cause) }
{
    let mut line = Vec::new(alloc);
    line.extend_from_slice(b"refused ")?;
    push_quoted(&mut line, refusal.what.as_str())?;
    line.push(b' ')?;
    push_cause(&mut line, &refusal.cause)?;
    line.push(b'\n')?;
    Ok(line)
}

fn push_cause(line: &mut Vec<u8>, cause: &Cause) -> Result<(), AllocError>
    ensures { OnOk result (line.new.items ≡ line.old.items ++ cause_text cause.now) }
{
    match cause {
        Cause::Absent => line.extend_from_slice(b"Absent"),
        Cause::TooLarge => line.extend_from_slice(b"TooLarge"),
        Cause::Schema { line: at, cause } => {
            push_schema_cause(line, *cause)?;
            push_line_number(line, *at)
        }
        Cause::Rules { line: at, cause } => {
            push_parse_cause(line, cause)?;
            push_line_number(line, *at)
        }
        Cause::Table(fault) => push_table_fault(line, fault),
        Cause::Line { line: at, cause } => {
            push_flaw(line, *cause)?;
            push_line_number(line, *at)
        }
        Cause::RowsFull => line.extend_from_slice(b"RowsFull"),
        Cause::UnknownTable => line.extend_from_slice(b"UnknownTable"),
        Cause::TooManyFound => line.extend_from_slice(b"TooMany found"),
    }
}

fn push_schema_cause(line: &mut Vec<u8>, cause: SchemaCause) -> Result<(), AllocError>
    ensures { OnOk result (line.new.items ≡ line.old.items ++ schema_text cause) }
{
    match cause {
        SchemaCause::NotUtf8 => line.extend_from_slice(b"NotUtf8"),
        SchemaCause::BadLine => line.extend_from_slice(b"BadLine"),
        SchemaCause::DuplicateName => line.extend_from_slice(b"DuplicateName"),
        SchemaCause::EmptyDomain => line.extend_from_slice(b"EmptyDomain"),
        SchemaCause::DuplicateValue => line.extend_from_slice(b"DuplicateValue"),
        SchemaCause::TooMany(limit) => push_limit(line, limit),
    }
}

fn push_parse_cause(line: &mut Vec<u8>, cause: &ParseCause) -> Result<(), AllocError>
    ensures { OnOk result (line.new.items ≡ line.old.items ++ parse_text cause.now) }
{
    match cause {
        ParseCause::NotUtf8 => line.extend_from_slice(b"NotUtf8"),
        ParseCause::BadLine => line.extend_from_slice(b"BadLine"),
        ParseCause::Rule(fault) => push_rule_fault(line, fault),
    }
}

fn push_rule_fault(line: &mut Vec<u8>, fault: &RuleFault) -> Result<(), AllocError>
    ensures { OnOk result (line.new.items ≡ line.old.items ++ rule_text fault.now) }
{
    match fault {
        RuleFault::DuplicateRule(name) => push_named(line, b"DuplicateRule", name),
        RuleFault::UnknownTable(name) => push_named(line, b"UnknownTable", name),
        RuleFault::NotMaster(name) => push_named(line, b"NotMaster", name),
        RuleFault::UnknownAttr(name) => push_named(line, b"UnknownAttr", name),
        RuleFault::RepeatedAttr(name) => push_named(line, b"RepeatedAttr", name),
        RuleFault::NoMatchColumn => line.extend_from_slice(b"NoMatchColumn"),
        RuleFault::TargetInX(name) => push_named(line, b"TargetInX", name),
        RuleFault::WidthMismatch => line.extend_from_slice(b"WidthMismatch"),
        RuleFault::ConstantOutsideDomain { attr, value } => {
            push_constant(line, b"ConstantOutsideDomain", attr, value)
        }
        RuleFault::RepeatedConstant { attr, value } => {
            push_constant(line, b"RepeatedConstant", attr, value)
        }
        RuleFault::DomainMismatch(name) => push_named(line, b"DomainMismatch", name),
        RuleFault::TooMany(limit) => push_limit(line, *limit),
    }
}

fn push_table_fault(line: &mut Vec<u8>, fault: &TableFault) -> Result<(), AllocError>
    ensures { OnOk result (line.new.items ≡ line.old.items ++ table_text fault.now) }
{
    match fault {
        TableFault::NoHeader => line.extend_from_slice(b"NoHeader"),
        TableFault::NotUtf8 { at } => push_at_record(line, b"NotUtf8", *at),
        TableFault::HeaderColumn(name) => {
            line.extend_from_slice(b"HeaderColumn")?;
            push_text(line, name)
        }
        TableFault::HeaderRepeats(name) => push_named(line, b"HeaderRepeats", name),
        TableFault::HeaderLacks(name) => push_named(line, b"HeaderLacks", name),
        TableFault::Width { at } => push_at_record(line, b"Width", *at),
        TableFault::TextTooLong { at } => push_at_record(line, b"TextTooLong", *at),
        TableFault::NotInDomain { at, attr } => {
            push_named(line, b"NotInDomain", attr)?;
            push_record_number(line, *at)
        }
        TableFault::RowsFull { at } => push_at_record(line, b"RowsFull", *at),
        TableFault::Memory => line.extend_from_slice(b"Memory"),
    }
}

fn push_flaw(line: &mut Vec<u8>, flaw: LineFlaw) -> Result<(), AllocError>
    ensures { OnOk result (line.new.items ≡ line.old.items ++ flaw_text flaw) }
{
    match flaw {
        LineFlaw::NotUtf8 => line.extend_from_slice(b"NotUtf8"),
        LineFlaw::BadLine => line.extend_from_slice(b"BadLine"),
        LineFlaw::TooMany(limit) => push_limit(line, limit),
    }
}

fn push_limit(line: &mut Vec<u8>, limit: Limit) -> Result<(), AllocError>
    ensures { OnOk result (line.new.items ≡ line.old.items ++ too_many limit) }
{
    line.extend_from_slice(b"TooMany ")?;
    line.extend_from_slice(limit_word(limit).as_bytes())
}

/// What there may be only so much of, in one word.
pub fn limit_word(limit: Limit) -> &'static str
    ensures { result.now ≡ limit_text limit }
{
    match limit {
        Limit::Tables => "tables",
        Limit::Attrs => "attrs",
        Limit::Values => "values",
        Limit::Deps => "deps",
        Limit::Cinds => "cinds",
        Limit::Edits => "edits",
        Limit::TableauRows => "tableau_rows",
        Limit::Commands => "commands",
    }
}

fn push_named(line: &mut Vec<u8>, word: &[u8], name: &Text) -> Result<(), AllocError>
    ensures { OnOk result (line.new.items ≡ line.old.items ++ with_name word.now name.now) }
{
    line.extend_from_slice(word)?;
    line.push(b' ')?;
    line.extend_from_slice(name.as_str().as_bytes())
}

fn push_constant(
    line: &mut Vec<u8>,
    word: &[u8],
    attr: &Text,
    value: &Text,
) -> Result<(), AllocError>
    ensures { OnOk result (line.new.items ≡ line.old.items ++ (with_name word.now attr.now ++ then_text value.now)) }
{
    push_named(line, word, attr)?;
    push_text(line, value)
}

// A blank, and a text between quotes.
fn push_text(line: &mut Vec<u8>, text: &Text) -> Result<(), AllocError>
    ensures { OnOk result (line.new.items ≡ line.old.items ++ then_text text.now) }
{
    line.push(b' ')?;
    push_quoted(line, text.as_str())
}

fn push_line_number(line: &mut Vec<u8>, at: usize) -> Result<(), AllocError>
    ensures { OnOk result (line.new.items ≡ line.old.items ++ at_line at) }
{
    line.extend_from_slice(b" line ")?;
    push_number(line, at as u64)
}

fn push_record_number(line: &mut Vec<u8>, at: usize) -> Result<(), AllocError>
    ensures { OnOk result (line.new.items ≡ line.old.items ++ at_record at) }
{
    line.extend_from_slice(b" record ")?;
    push_number(line, at as u64)
}

fn push_at_record(line: &mut Vec<u8>, word: &[u8], at: usize) -> Result<(), AllocError>
    ensures { OnOk result (line.new.items ≡ line.old.items ++ (word.now ++ at_record at)) }
{
    line.extend_from_slice(word)?;
    push_record_number(line, at)
}
