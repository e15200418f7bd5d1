//! A line that is no line of its file's grammar at its place: the mark where it leaves its form, and the form.
ghost use Rattle.std.specs.Prelude.{◌≡◌, ◌++◌, OnOk};
ghost use Rattle.std.specs.Option.{option_map};
ghost use Rattle.view_refusal.specs.Misfits.{misfit_in, misfit_text, rule_misfit, schema_misfit, script_misfit, told_at, told_in};

use crate::showing::is_short;
use crate::shown::nth_line;
use cli_output::{Cause, LineFlaw};
use line_forms::{Place, place_at, push_fit};
use rule_parser::ParseCause;
use schema_core::{List, SchemaCause};
use std::alloc::{AllocError, Global};

/// A line by its number, and the place of the first line of its file.
#[derive(Clone, Copy)]
pub struct Misfit {
    pub line: usize,
    pub start: Place,
}

fn schema_misfit(line: usize, cause: SchemaCause) -> Option<Misfit>
    ensures { result ≡ schema_misfit line cause }
{
    match cause {
        SchemaCause::BadLine => Some(Misfit {
            line,
            start: Place::Schema,
        }),
        _ => None,
    }
}

fn rule_misfit(line: usize, cause: &ParseCause) -> Option<Misfit>
    ensures { result ≡ rule_misfit line cause.now }
{
    match cause {
        ParseCause::BadLine => Some(Misfit {
            line,
            start: Place::Rules,
        }),
        _ => None,
    }
}

fn script_misfit(line: usize, cause: LineFlaw) -> Option<Misfit>
    ensures { result ≡ script_misfit line cause }
{
    match cause {
        LineFlaw::BadLine => Some(Misfit {
            line,
            start: Place::Script,
        }),
        _ => None,
    }
}

fn misfit_in(cause: &Cause) -> Option<Misfit>
    ensures { result ≡ misfit_in cause.now }
{
    match cause {
        Cause::Schema { line, cause } => schema_misfit(*line, *cause),
        Cause::Rules { line, cause } => rule_misfit(*line, cause),
        Cause::Line { line, cause } => script_misfit(*line, *cause),
        _ => None,
    }
}

/// Marks where a line leaves its form, and tells that, where the cause is that it has none.
pub fn push_misfit(
    alloc: Global,
    out: &mut Vec<u8>,
    cause: &Cause,
    bytes: &Option<List<u8>>,
) -> Result<(), AllocError>
    ensures { OnOk result (out.new.items ≡ out.old.items ++ misfit_text (misfit_in cause.now) bytes.now) }
{
    match (misfit_in(cause), bytes) {
        (Some(at), Some(bytes)) => push_in(alloc, out, at, bytes.as_slice()),
        _ => Ok(()),
    }
}

fn push_in(alloc: Global, out: &mut Vec<u8>, at: Misfit, bytes: &[u8]) -> Result<(), AllocError>
    ensures { OnOk result (out.new.items ≡ out.old.items ++ told_in at bytes.now) }
{
    push_at(
        alloc,
        out,
        at,
        bytes,
        nth_line(bytes, at.line.saturating_sub(1)),
    )
}

fn push_at(
    alloc: Global,
    out: &mut Vec<u8>,
    at: Misfit,
    bytes: &[u8],
    line: Option<&[u8]>,
) -> Result<(), AllocError>
    ensures { OnOk result (out.new.items ≡ out.old.items ++ told_at at bytes.now (option_map (λ l. l.now) line.entry)) }
{
    let Some(line) = line else {
        return Ok(());
    };
    if !is_short(line) {
        return Ok(());
    }
    let place = place_at(alloc, at.start, at.line, bytes)?;
    push_fit(alloc, out, place, at.line, line)
}
