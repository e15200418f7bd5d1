//! What a bench answers to edits: a table, whose lines are made one after the other on one bench.

ghost use Rattle.std.specs.Prelude.{◌≡◌, ◌<◌, ℕ, IfOk};
ghost use Rattle.text_lists.specs.Limits.{AreLimits};
ghost use Rattle.bench_core.specs.Loading.{AreTables};

use bench_core::*;
use edit_log::Edit;
use hash_keys::HashKeys;
use probe_steps::Steps;
use row_store::RowId;
use rule_model::RuleBook;
use schema_core::{Limits, List, Schema, Text, Texts, parse_schema};
use std::alloc::{AllocError, Global};
use std::marker::Brand;
use std::sync::ledger::{Blank, Ledger};
use std::test::Fail;

const SCHEMA: &[u8] =
    b"table t 't'\nattr A in 'x', 'y'\nattr B in 'b', 'c', 'dddd'\ntable u 'u'\nattr A\n";

/// There is room for two rows, each table has the ids 1 and 2, and a cell has at most 4 bytes. A line is an edit and
/// its answer; an edit that is accepted is followed by the rows of the table t.
const CASES: &str = "\
insert t x b | 1 of 1xb\n\
insert t y c | 2 of 1xb 2yc\n\
insert nope zzzzz | UnknownTable\n\
delete nope 9 | UnknownTable\n\
set nope 9 Z zzzzz | UnknownTable\n\
fix nope 9 zzzzz | UnknownTable\n\
delete t 9 | UnknownRow\n\
set t 9 Z zzzzz | UnknownRow\n\
fix t 9 zzzzz | UnknownRow\n\
set t 1 Z zzzzz | UnknownAttr\n\
insert t zzzzz | WrongWidth\n\
fix t 1 x b zzzzz | WrongWidth\n\
insert t z zzzzz | TextTooLong\n\
set t 1 A zzzzz | TextTooLong\n\
fix t 1 z zzzzz | TextTooLong\n\
insert t z z | NotInDomain A\n\
insert t x z | NotInDomain B\n\
set t 1 B z | NotInDomain B\n\
fix t 1 z b | NotInDomain A\n\
insert t x b | RowsFull\n\
insert u z | RowsFull\n\
set t 1 B dddd | done 1xdddd 2yc\n\
set t 1 B dddd | done 1xdddd 2yc\n\
fix t 2 x b | done 1xdddd 2xb\n\
delete t 1 | done 2xb\n\
delete t 1 | UnknownRow\n\
set t 1 B zzzzz | UnknownRow\n\
insert t x b | IdsSpent\n\
insert u z | 1 of 2xb\n\
insert u z | RowsFull\n\
delete u 1 | done 2xb\n\
insert u z | 2 of 2xb\n";

fn limits() -> Limits
    ensures { AreLimits result }
{
    let mut limits = Limits::standard();
    limits.cell_bytes = 4;
    limits.rows = 2;
    limits.last_id = 2;
    limits
}

/// No rows for each table.
fn no_rows(alloc: Global, schema: &Schema) -> Result<List<List<Texts>>, AllocError>
    ensures { IfOk result (λ tables. (cell_bytes : ℕ) → AreTables schema.now cell_bytes tables) }
{
    let mut tables = List::new(alloc);
    for table in schema.tables.as_slice() {
        tables.push(List::new(alloc))?;
    }
    Ok(tables)
}

fn bench<L: Ledger>(alloc: Global, steps: &mut Steps<L>) -> Result<Bench, Fail> {
    let limits = limits();
    let schema = parse_schema(alloc, SCHEMA, &limits)?;
    let tables = no_rows(alloc, &schema)?;
    let rules = RuleBook::new(alloc, schema, limits);
    Ok(Bench::load(alloc, HashKeys::fixed(), rules, tables, limits, steps)?)
}

/// The text before the first blank, and what follows it.
fn cut(text: &str) -> (&str, &str) {
    text.split_once(' ').unwrap_or((text, ""))
}

fn texts(alloc: Global, words: &str) -> Result<Texts, AllocError> {
    let mut texts = List::new(alloc);
    for word in words.split_whitespace() {
        texts.push(Text::new(alloc, word)?)?;
    }
    Ok(texts)
}

fn set(alloc: Global, table: Text, row: RowId, words: &str) -> Result<Edit, AllocError> {
    let (attr, value) = cut(words);
    Ok(Edit::Set {
        table,
        row,
        attr: Text::new(alloc, attr)?,
        value: Text::new(alloc, value)?,
    })
}

/// The edit of a line: its word, the table, and what follows.
fn edit(alloc: Global, line: &str) -> Result<Edit, AllocError> {
    let (word, rest) = cut(line);
    let (table, values) = cut(rest);
    let (id, rest) = cut(values);
    let table = Text::new(alloc, table)?;
    let row: RowId = id.parse().unwrap_or(0);
    match word {
        "insert" => Ok(Edit::Insert {
            table,
            values: texts(alloc, values)?,
        }),
        "delete" => Ok(Edit::Delete { table, row }),
        "fix" => Ok(Edit::Fix {
            table,
            row,
            values: texts(alloc, rest)?,
        }),
        _ => set(alloc, table, row, rest),
    }
}

/// The rows of the first table.
fn push_rows(alloc: Global, bench: &Bench, out: &mut String) -> Result<(), AllocError> {
    if bench.table_count() == 0 {
        return Ok(());
    }
    let rows = bench.rows(0)?;
    for (id, texts) in rows.as_slice() {
        let shown = format!(in alloc; " {id}")?;
        out.push_str(shown.as_str())?;
        for text in texts.as_slice() {
            out.push_str(text.as_str())?;
        }
    }
    Ok(())
}

fn told(alloc: Global, bench: &Bench, applied: Applied) -> Result<String, AllocError> {
    let mut text = match applied {
        Applied::Inserted(id) => format!(in alloc; "{id} of")?,
        Applied::Changed => format!(in alloc; "done")?,
    };
    push_rows(alloc, bench, &mut text)?;
    Ok(text)
}

fn refused(alloc: Global, fault: &EditFault) -> Result<String, AllocError> {
    match fault {
        EditFault::NotInDomain(attr) => format!(in alloc; "NotInDomain {}", attr.as_str()),
        fault => format!(in alloc; "{fault:?}"),
    }
}

fn answer<L: Ledger>(
    alloc: Global,
    bench: &mut Bench,
    edit: &Edit,
    steps: &mut Steps<L>,
) -> Result<String, AllocError> {
    match bench.apply(edit, steps) {
        Ok(applied) => told(alloc, bench, applied),
        Err(fault) => refused(alloc, &fault),
    }
}

/// The first line that isn't answered as it says, with its answer.
fn first_wrong<L: Ledger>(alloc: Global, blank: Blank) -> Result<Option<String>, Fail>
    requires name { blank.name ≡ L.name }
    requires parts { blank.parts ≡ L.parts }
    requires some { 0 < blank.parts }
{
    let mut steps = Steps::<L>::open(blank);
    let mut bench = bench(alloc, &mut steps)?;
    first_wrong_on(alloc, &mut bench, &mut steps)
}

fn first_wrong_on<L: Ledger>(
    alloc: Global,
    bench: &mut Bench,
    steps: &mut Steps<L>,
) -> Result<Option<String>, Fail> {
    for line in CASES.lines() {
        let (line, want) = line.split_once(" | ").unwrap_or(("", ""));
        let edit = edit(alloc, line)?;
        let got = answer(alloc, bench, &edit, steps)?;
        if got.as_str() != want {
            return Ok(Some(format!(in alloc; "{line} | {got}")?));
        }
    }
    Ok(None)
}

#[test]
fn answers(rt: HostRuntime) -> Result<(), Fail> {
    let wrong = first_wrong::<Brand>(rt.alloc(), Blank::new(1))?;
    assert!(rt; wrong.is_none(), "{wrong:?}");
    Ok(())
}
