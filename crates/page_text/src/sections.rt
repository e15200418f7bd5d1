//! What is told of each rule that has violations.
ghost use Rattle.std.specs.Prelude.{◌≡◌, ◌++◌, OnOk, slice_index};
ghost use Rattle.std.specs.Option.{option_copied};
ghost use Rattle.page_text.specs.Sections.{body_of, counts_line, section, section_at, section_head, section_of, sections};

use crate::kinds::Rule;
use crate::markup::{Piece, markup, push};
use crate::rows::{Shown, rows_at};
use html_text::{count_at, item, push_between, push_number_between};
use schema_core::Table;
use std::alloc::AllocError;
use text_lists::{List, Text};

pub fn push_sections<R: Rule>(
    out: &mut Vec<u8>,
    tables: &[Table],
    rules: &[R],
    read: &[u64],
    first: usize,
    counts: &[usize],
    found: &[List<R::Found>],
) -> Result<(), AllocError>
    ensures { OnOk result (out.new.items ≡ out.old.items ++ sections R.kind tables.now rules.now read.now first counts.now found.now) }
{
    for place in 0..rules.len() {
        push_section_at(out, tables, rules, read, first, counts, found, place)?;
    }
    Ok(())
}

fn push_section_at<R: Rule>(
    out: &mut Vec<u8>,
    tables: &[Table],
    rules: &[R],
    read: &[u64],
    first: usize,
    counts: &[usize],
    found: &[List<R::Found>],
    place: usize,
) -> Result<(), AllocError>
    ensures { OnOk result (out.new.items ≡ out.old.items ++ section_at R.kind tables.now rules.now read.now first counts.now found.now place) }
{
    let count = count_at(counts, place);
    let found = item(found, place);
    push_section_of(
        out,
        tables,
        item(rules, place),
        read,
        first,
        place,
        count,
        found,
    )
}

fn push_section_of<R: Rule>(
    out: &mut Vec<u8>,
    tables: &[Table],
    rule: Option<&R>,
    read: &[u64],
    first: usize,
    place: usize,
    count: usize,
    found: Option<&List<R::Found>>,
) -> Result<(), AllocError>
    ensures { OnOk result (out.new.items ≡ out.old.items ++ section_of R.kind tables.now (option_copied rule.entry) read.now first place count (option_copied found.entry)) }
{
    match (rule, found) {
        (Some(rule), Some(found)) => {
            let shown = shown_of(first, read, rule.table());
            push_section(out, tables, rule, shown, place, count, found.as_slice())
        }
        _ => Ok(()),
    }
}

fn shown_of(first: usize, read: &[u64], table: usize) -> Shown
    ensures { result ≡ record { first = first; read = slice_index read.now table } }
{
    Shown {
        first,
        read: rows_at(read, table),
    }
}

fn push_section<R: Rule>(
    out: &mut Vec<u8>,
    tables: &[Table],
    rule: &R,
    shown: Shown,
    place: usize,
    count: usize,
    found: &[R::Found],
) -> Result<(), AllocError>
    ensures { OnOk result (out.new.items ≡ out.old.items ++ section R.kind tables.now rule.now shown place count found.now) }
{
    if found.is_empty() {
        return Ok(());
    }
    push_section_head(out, R::section(), place, rule.name())?;
    rule.push_words(out, tables)?;
    push_counts(out, count, R::groups(), found.len())?;
    push_body_of(out, item(tables, rule.table()), rule, shown, found)?;
    push(out, Piece::SectionEnd)?;
    Ok(())
}

fn push_section_head(
    out: &mut Vec<u8>,
    section: Piece,
    place: usize,
    name: &Text,
) -> Result<(), AllocError>
    ensures { OnOk result (out.new.items ≡ out.old.items ++ section_head section place name.now) }
{
    push_number_between(out, markup(section), place, markup(Piece::Heading))?;
    push_between(out, b"", name, markup(Piece::HeadingEnd))?;
    Ok(())
}

fn push_counts(
    out: &mut Vec<u8>,
    count: usize,
    word: Piece,
    groups: usize,
) -> Result<(), AllocError>
    ensures { OnOk result (out.new.items ≡ out.old.items ++ counts_line count word groups) }
{
    push_number_between(out, markup(Piece::Violations), count, markup(word))?;
    push_number_between(out, b"", groups, markup(Piece::CountsEnd))?;
    Ok(())
}

fn push_body_of<R: Rule>(
    out: &mut Vec<u8>,
    table: Option<&Table>,
    rule: &R,
    shown: Shown,
    found: &[R::Found],
) -> Result<(), AllocError>
    ensures { OnOk result (out.new.items ≡ out.old.items ++ body_of R.kind (option_copied table.entry) rule.now shown found.now) }
{
    match table {
        Some(table) => rule.push_body(out, table.attrs.as_slice(), shown, found),
        None => Ok(()),
    }
}
