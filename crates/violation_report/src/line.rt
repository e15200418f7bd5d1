//! The lines of the list, and their texts.

ghost use Rattle.std.specs.Prelude.{◌≡◌, ◌++◌, [], codes, if◌then◌else◌, is_some, map, All, IfOk, OnOk, OnErr};
ghost use Rattle.std.specs.List.{concat, flat_map};
ghost use Rattle.violation_report.specs.Text.{IsLineOf, counted_text, line_text, lines_text};

use crate::told::Told;
use itoa::Buffer;
use line_grammar::push_number;
use row_store::RowId;
use rule_model::RuleBook;
use std::alloc::{AllocError, Global};

/// A line of the list. Rules of a kind and their tableau rows are numbered from 0.
#[derive(Clone, Copy, PartialEq, Eq)]
pub enum Line {
    /// The row matches the tableau row on the left side, and doesn't on the right side.
    Single {
        dep: usize,
        k: usize,
        row: RowId,
    },
    /// The row and its partner agree on the left side and differ on the right side, and both match the tableau row.
    Pair {
        dep: usize,
        k: usize,
        row: RowId,
        partner: RowId,
    },
    /// The row of the left table has the constants of the tableau row, and no row of the right table answers it.
    Orphan {
        cind: usize,
        k: usize,
        row: RowId,
    },
}

/// The text of a line, with its end.
pub fn line_text(alloc: Global, rules: &RuleBook, line: &Line) -> Result<Vec<u8>, AllocError>
    requires { IsLineOf rules.now line.now }
    ensures { IfOk result (λ text. text.items ≡ line_text rules.now line.now) }
{
    let mut text = Vec::new(alloc);
    push_line(rules, line, &mut text)?;
    Ok(text)
}

/// Appends the text of a line to what the buffer holds.
pub fn push_line(rules: &RuleBook, line: &Line, out: &mut Vec<u8>) -> Result<(), AllocError>
    requires { IsLineOf rules.now line.now }
    ensures ok { OnOk result (out.new.items ≡ out.old.items ++ line_text rules.now line.now) }
    ensures err { OnErr result (out.new.items ≡ out.old.items) }
{
    let told = Told::of(rules, line);
    let mut number = Buffer::new();
    let mut id = Buffer::new();
    let mut other = Buffer::new();
    let partner = match told.partner {
        Some(partner) => Some(other.format(partner)),
        None => None,
    };
    push_all(
        &[
            told.kind.as_bytes(),
            b" ",
            told.rule.as_bytes(),
            b".",
            number.format(told.number).as_bytes(),
            gap(told.attr),
            told.attr.unwrap_or("").as_bytes(),
            b" ",
            told.table.as_bytes(),
            b" ",
            id.format(told.row).as_bytes(),
            gap(partner),
            partner.unwrap_or("").as_bytes(),
            b"\n",
        ],
        out,
    )
}

/// A word and a number.
pub fn push_counted(out: &mut Vec<u8>, word: &[u8], count: usize) -> Result<(), AllocError>
    ensures { OnOk result (out.new.items ≡ out.old.items ++ counted_text word.now count) }
{
    out.extend_from_slice(word)?;
    out.push(b' ')?;
    push_number(out, count as u64)?;
    out.extend_from_slice(b"\n")
}

fn push_each(rules: &RuleBook, lines: &[Line], out: &mut Vec<u8>) -> Result<(), AllocError>
    requires { All (IsLineOf rules.now) lines.now }
    ensures { OnOk result (out.new.items ≡ out.old.items ++ flat_map (line_text rules.now) lines.now) }
{
    for line in lines {
        push_line(rules, line, out)?;
    }
    Ok(())
}

/// The lines, then how many they are.
pub fn push_lines(
    rules: &RuleBook,
    word: &[u8],
    lines: &[Line],
    out: &mut Vec<u8>,
) -> Result<(), AllocError>
    requires { All (IsLineOf rules.now) lines.now }
    ensures { OnOk result (out.new.items ≡ out.old.items ++ lines_text rules.now word.now lines.now) }
{
    push_each(rules, lines, out)?;
    push_counted(out, word, lines.len())
}

// The blank before what not every line has.
fn gap(text: Option<&str>) -> &[u8]
    ensures { result.now ≡ (if is_some text.entry then codes " " else []) }
{
    match text {
        Some(_) => b" ",
        None => b"",
    }
}

/// Appends the pieces, all or none.
pub(crate) fn push_all(pieces: &[&[u8]], out: &mut Vec<u8>) -> Result<(), AllocError>
    ensures ok { OnOk result (out.new.items ≡ out.old.items ++ concat (map (λ piece. piece.now) pieces.now)) }
    ensures err { OnErr result (out.new.items ≡ out.old.items) }
{
    let before = out.len();
    for piece in pieces {
        match out.extend_from_slice(piece) {
            Ok(()) => {}
            Err(fault) => {
                out.truncate(before);
                return Err(fault);
            }
        }
    }
    Ok(())
}
