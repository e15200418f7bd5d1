//! Editing rules that apply to nothing.
ghost use Rattle.std.specs.Prelude.{◌≡◌, ◌++◌, IfOk, OnOk, Some};
ghost use Rattle.std.specs.Option.{option_copied};
ghost use Rattle.project_flaws.specs.Told.{asks_outside, asks_target, edits_clean, edits_text, has_no_row, is_met, is_out, is_out_at, is_out_in, idle_line, edit_words, none_meets, why_idle};

use crate::items::item;
use crate::rows::TableRows;
use rule_model::{EditCell, EditRule};
use schema_core::{Attr, Domain, Schema, Table, Text};
use std::alloc::AllocError;

/// Tells the editing rules that never apply, and those that have no master row among the rows that are given; and whether
/// there are none.
pub fn push_edits(
    out: &mut Vec<u8>,
    schema: &Schema,
    all: &[TableRows],
    rules: &[EditRule],
) -> Result<bool, AllocError>
    ensures text { OnOk result (out.new.items ≡ out.old.items ++ edits_text schema.now all.now rules.now) }
    ensures clean { IfOk result (λ clean. clean ≡ edits_clean schema.now all.now rules.now) }
{
    let mut clean = true;
    for rule in rules {
        let why = why_idle(schema, all, rule);
        push_idle(out, rule, why)?;
        clean = clean && why.is_none();
    }
    Ok(clean)
}

fn push_idle(out: &mut Vec<u8>, rule: &EditRule, why: Option<&str>) -> Result<(), AllocError>
    ensures { OnOk result (out.new.items ≡ out.old.items ++ idle_line rule.now (option_copied why.entry)) }
{
    match why {
        Some(why) => push_why(out, rule, why),
        None => Ok(()),
    }
}

fn push_why(out: &mut Vec<u8>, rule: &EditRule, why: &str) -> Result<(), AllocError>
    ensures { OnOk result (out.new.items ≡ out.old.items ++ idle_line rule.now (Some why.now)) }
{
    push_edit_words(out, rule)?;
    out.extend_from_slice(why.as_bytes())?;
    out.push(b'\n')?;
    Ok(())
}

fn push_edit_words(out: &mut Vec<u8>, rule: &EditRule) -> Result<(), AllocError>
    ensures { OnOk result (out.new.items ≡ out.old.items ++ edit_words rule.now) }
{
    out.extend_from_slice(b"edit ")?;
    out.extend_from_slice(rule.name.as_str().as_bytes())?;
    out.extend_from_slice(b" ")
}

fn why_idle(schema: &Schema, all: &[TableRows], rule: &EditRule) -> Option<&'static str>
    ensures { option_copied result ≡ why_idle schema.now all.now rule.now }
{
    if asks_target(rule) {
        return Some("never applies: its target is in its own pattern");
    }
    if asks_outside(schema, rule) {
        return Some("never applies: no value of an attribute's domain meets its pattern");
    }
    if has_no_row(item(all, rule.master)) {
        return Some("applies to nothing as read: its master table has no row");
    }
    None
}

fn asks_target(rule: &EditRule) -> bool
    ensures { result ≡ asks_target rule.now }
{
    let target = rule.target;
    rule.when.as_slice().iter().any(|p| p.0 == target)
}

fn asks_outside(schema: &Schema, rule: &EditRule) -> bool
    ensures { result ≡ asks_outside schema.now rule.now }
{
    let table = item(schema.tables.as_slice(), rule.table);
    for asked in rule.when.as_slice() {
        if is_out_in(table, asked) {
            return true;
        }
    }
    false
}

fn is_out_in(table: Option<&Table>, asked: &(usize, EditCell)) -> bool
    ensures { result ≡ is_out_in (option_copied table.entry) asked.now }
{
    match table {
        Some(table) => is_out_at(item(table.attrs.as_slice(), asked.0), &asked.1),
        None => false,
    }
}

fn is_out_at(attr: Option<&Attr>, cell: &EditCell) -> bool
    ensures { result ≡ is_out_at (option_copied attr.entry) cell.now }
{
    match attr {
        Some(attr) => is_out(&attr.domain, cell),
        None => false,
    }
}

fn is_out(domain: &Domain, cell: &EditCell) -> bool
    ensures { result ≡ is_out domain.now cell.now }
{
    match domain {
        Domain::AnyText => false,
        Domain::Finite(values) => none_meets(values.as_slice(), cell),
    }
}

fn none_meets(values: &[Text], cell: &EditCell) -> bool
    ensures { result ≡ none_meets values.now cell.now }
{
    for value in values {
        if is_met(cell, value) {
            return false;
        }
    }
    true
}

fn is_met(cell: &EditCell, value: &Text) -> bool
    ensures { result ≡ is_met cell.now value.now }
{
    match cell {
        EditCell::Any => true,
        EditCell::Is(constant) => constant == value,
        EditCell::Not(constant) => constant != value,
    }
}

fn has_no_row(rows: Option<&TableRows>) -> bool
    ensures { result ≡ has_no_row (option_copied rows.entry) }
{
    match rows {
        Some(rows) => rows.texts.as_slice().is_empty(),
        None => false,
    }
}
