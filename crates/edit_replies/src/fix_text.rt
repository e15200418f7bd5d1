//! The texts that tell of a fix, each appended to a buffer.

ghost use Rattle.std.specs.Prelude.{◌≡◌, ◌++◌, ◌<◌, codes, decimal, length, All, IfOk, OnOk};
ghost use Rattle.std.specs.List.{flat_map};
ghost use Rattle.rule_model.specs.Books.{book_edits};
ghost use Rattle.edit_replies.specs.Fixing.{cell_text, changed_cells, conflict_line, fixed_line, fixed_text, move_text, rule_name, run_text, sureness, values_text};
ghost use Rattle.line_grammar.specs.Tokens.{quoted};

use crate::edit_text::push_row;
use row_store::RowId;
use rule_model::RuleBook;
use rule_runs::Move;
use schema_core::{Attr, Table, Text, push_number, push_quoted};
use std::alloc::AllocError;

/// A blank and a number.
fn push_next(out: &mut Vec<u8>, number: u64) -> Result<(), AllocError>
    ensures { OnOk result (out.new.items ≡ out.old.items ++ (codes " " ++ decimal number)) }
{
    out.extend_from_slice(b" ")?;
    push_number(out, number)
}

/// A blank and a quoted text.
fn push_next_quoted(out: &mut Vec<u8>, text: &str) -> Result<(), AllocError>
    ensures { OnOk result (out.new.items ≡ out.old.items ++ (codes " " ++ quoted text.now)) }
{
    out.extend_from_slice(b" ")?;
    push_quoted(out, text)
}

/// An attribute with its old and its new value.
fn push_cell(out: &mut Vec<u8>, attr: &Attr, old: &Text, new: &Text) -> Result<(), AllocError>
    ensures { OnOk result (out.new.items ≡ out.old.items ++ cell_text (attr.now, (old.now, new.now))) }
{
    out.extend_from_slice(b"cell ")?;
    out.extend_from_slice(attr.name.as_str().as_bytes())?;
    push_next_quoted(out, old.as_str())?;
    push_next_quoted(out, new.as_str())?;
    out.extend_from_slice(b"\n")
}

/// The attributes whose value changes. Tells how many they are.
fn push_cells(
    out: &mut Vec<u8>,
    attrs: &[Attr],
    old: &[Text],
    new: &[Text],
) -> Result<usize, AllocError>
    requires old { length old.now ≡ length attrs.now }
    requires new { length new.now ≡ length attrs.now }
    ensures cells { OnOk result (out.new.items ≡ out.old.items ++ flat_map cell_text (changed_cells attrs.now old.now new.now)) }
    ensures count { IfOk result (λ count. count ≡ length (changed_cells attrs.now old.now new.now)) }
{
    let mut count = 0;
    for (place, attr) in attrs.iter().enumerate() {
        let (was, becomes) = (&old[place], &new[place]);
        if *was != *becomes {
            push_cell(out, attr, was, becomes)?;
            count += 1;
        }
    }
    Ok(count)
}

fn sureness(width: usize, count: usize) -> &'static str
    ensures { result.now ≡ sureness width count }
{
    if count == width { "certain" } else { "unique" }
}

/// How a row was fixed: so many attributes change, and so many are validated.
fn push_fixed_line(
    out: &mut Vec<u8>,
    table: &Table,
    row: RowId,
    changed: usize,
    count: usize,
) -> Result<(), AllocError>
    ensures { OnOk result (out.new.items ≡ out.old.items ++ fixed_line table.now row changed count) }
{
    push_row(out, b"fixed ", &table.name, row)?;
    out.extend_from_slice(b" ")?;
    let width = table.attrs.as_slice().len();
    out.extend_from_slice(sureness(width, count).as_bytes())?;
    push_next(out, changed as u64)?;
    push_next(out, count as u64)?;
    out.extend_from_slice(b"\n")
}

/// Tells that a row is corrected, from its old texts to its new ones, and how many attributes are validated.
pub fn push_fixed(
    out: &mut Vec<u8>,
    table: &Table,
    row: RowId,
    old: &[Text],
    new: &[Text],
    count: usize,
) -> Result<(), AllocError>
    requires old { length old.now ≡ length table.now.attrs }
    requires new { length new.now ≡ length table.now.attrs }
    ensures { OnOk result (out.new.items ≡ out.old.items ++ fixed_text table.now row old.now new.now count) }
{
    let changed = push_cells(out, table.attrs.as_slice(), old, new)?;
    push_fixed_line(out, table, row, changed, count)
}

/// The name of an editing rule.
fn name_of_rule(rules: &RuleBook, number: usize) -> &Text
    requires { number < length (book_edits rules.now) }
    ensures { result.now ≡ rule_name rules.now number }
{
    &rules.edits().as_slice()[number].name
}

fn push_move(out: &mut Vec<u8>, rules: &RuleBook, next: &Move) -> Result<(), AllocError>
    requires { next.now.rule < length (book_edits rules.now) }
    ensures { OnOk result (out.new.items ≡ out.old.items ++ move_text rules.now next.now) }
{
    out.extend_from_slice(b" ")?;
    let name = name_of_rule(rules, next.rule);
    out.extend_from_slice(name.as_str().as_bytes())?;
    out.extend_from_slice(b":")?;
    push_number(out, next.master)
}

fn push_moves(out: &mut Vec<u8>, rules: &RuleBook, moves: &[Move]) -> Result<(), AllocError>
    requires { All (λ move. move.rule < length (book_edits rules.now)) moves.now }
    ensures { OnOk result (out.new.items ≡ out.old.items ++ flat_map (move_text rules.now) moves.now) }
{
    for next in moves {
        push_move(out, rules, next)?;
    }
    Ok(())
}

/// A word and the moves of a run.
pub fn push_run(
    out: &mut Vec<u8>,
    rules: &RuleBook,
    word: &[u8],
    moves: &[Move],
) -> Result<(), AllocError>
    requires { All (λ move. move.rule < length (book_edits rules.now)) moves.now }
    ensures { OnOk result (out.new.items ≡ out.old.items ++ run_text rules.now word.now moves.now) }
{
    out.extend_from_slice(word)?;
    push_moves(out, rules, moves)?;
    out.extend_from_slice(b"\n")
}

/// An attribute with two values.
fn push_values(out: &mut Vec<u8>, attr: &Text, one: &str, other: &str) -> Result<(), AllocError>
    ensures { OnOk result (out.new.items ≡ out.old.items ++ values_text attr.now one.now other.now) }
{
    out.extend_from_slice(b" ")?;
    out.extend_from_slice(attr.as_str().as_bytes())?;
    push_next_quoted(out, one)?;
    push_next_quoted(out, other)?;
    out.extend_from_slice(b"\n")
}

/// Tells that two runs end in different values of an attribute.
pub fn push_conflict_line(
    out: &mut Vec<u8>,
    table: &Table,
    row: RowId,
    attr: &Text,
    one: &str,
    other: &str,
) -> Result<(), AllocError>
    ensures { OnOk result (out.new.items ≡ out.old.items ++ conflict_line table.now row attr.now one.now other.now) }
{
    push_row(out, b"conflict ", &table.name, row)?;
    push_values(out, attr, one, other)
}
