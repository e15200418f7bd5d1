//! The texts of replies, each appended to a buffer.

ghost use Rattle.std.specs.Prelude.{◌≡◌, ◌++◌, OnOk, codes, decimal};
ghost use Rattle.violation_report.specs.Text.{table_name};
ghost use Rattle.desk_state.specs.Desk.{AreTold};
ghost use Rattle.edit_replies.specs.EditReplies.{refused_text};
ghost use Rattle.desk.specs.DeskReplies.{asked_row, reply_text, reply_word, version_text};

use desk_events::Act;
use desk_state::Reply;
use edit_replies::{push_edit_refused, push_refused};
use line_grammar::{push_number, push_spaced_list};
use rule_model::RuleBook;
use rule_parser::Values;
use std::alloc::AllocError;
use text_lists::Text;
use violation_report::push_lines;

/// The first word of the reply to an act that isn't refused.
fn reply_word(act: &Act) -> &'static [u8]
    ensures { result.now ≡ reply_word act.now }
{
    match act {
        Act::Insert { .. } => b"inserted",
        Act::Set { .. } => b"set",
        Act::Delete { .. } => b"deleted",
        Act::TakeBack => b"back",
        Act::Look { .. } => b"row",
        Act::List => b"listed",
    }
}

/// The row that an act names.
fn row_of(act: &Act) -> u64
    ensures { result ≡ asked_row act.now }
{
    match act {
        Act::Set { row, .. } | Act::Delete { row, .. } | Act::Look { row, .. } => *row,
        Act::Insert { .. } | Act::TakeBack | Act::List => 0,
    }
}

/// The name of a table by its number.
fn push_table(out: &mut Vec<u8>, rules: &RuleBook, table: usize) -> Result<(), AllocError>
    ensures { OnOk result (out.new.items ≡ out.old.items ++ table_name rules.now.schema table) }
{
    match rules.schema().tables.as_slice().get(table) {
        Some(table) => out.extend_from_slice(table.name.as_str().as_bytes()),
        None => Ok(()),
    }
}

/// A blank and a number.
fn push_next(out: &mut Vec<u8>, number: u64) -> Result<(), AllocError>
    ensures { OnOk result (out.new.items ≡ out.old.items ++ (codes " " ++ decimal number)) }
{
    out.extend_from_slice(b" ")?;
    push_number(out, number)
}

/// A word, the row that it is said of, and a version.
fn push_version(
    out: &mut Vec<u8>,
    rules: &RuleBook,
    word: &[u8],
    table: usize,
    row: u64,
    version: u64,
) -> Result<(), AllocError>
    ensures { OnOk result (out.new.items ≡ out.old.items ++ version_text rules.now word.now table row version) }
{
    out.extend_from_slice(word)?;
    out.extend_from_slice(b" ")?;
    push_table(out, rules, table)?;
    push_next(out, row)?;
    push_next(out, version)
}

/// Tells a refusal that carries a version, by its name and a blank.
fn push_late(out: &mut Vec<u8>, cause: &[u8], version: u64) -> Result<(), AllocError>
    ensures { OnOk result (out.new.items ≡ out.old.items ++ refused_text (cause.now ++ decimal version)) }
{
    out.extend_from_slice(b"refused ")?;
    out.extend_from_slice(cause)?;
    push_number(out, version)?;
    out.extend_from_slice(b"\n")
}

/// Tells what is answered to an act.
pub fn push_reply(
    out: &mut Vec<u8>,
    rules: &RuleBook,
    act: &Act,
    reply: &Reply,
) -> Result<(), AllocError>
    requires { AreTold rules.now reply.now }
    ensures { OnOk result (out.new.items ≡ out.old.items ++ reply_text rules.now act.now reply.now) }
{
    let word = reply_word(act);
    match reply {
        Reply::Done {
            table,
            row,
            version,
        } => {
            push_version(out, rules, word, *table, *row, *version)?;
            out.extend_from_slice(b"\n")
        }
        Reply::Row {
            table,
            version,
            values,
        } => {
            push_version(out, rules, word, *table, row_of(act), *version)?;
            push_spaced_list::<Values, Text>(out, values.as_slice())?;
            out.extend_from_slice(b"\n")
        }
        Reply::Lines(lines) => push_lines(rules, word, lines.as_slice(), out),
        Reply::Refused(fault) => push_edit_refused(out, fault),
        Reply::Stale { version } => push_late(out, b"Stale ", *version),
        Reply::Overtaken { version } => push_late(out, b"Overtaken ", *version),
        Reply::NothingToTakeBack => push_refused(out, b"NothingToTakeBack"),
        Reply::EditsSpent => push_refused(out, b"EditsSpent"),
    }
}
