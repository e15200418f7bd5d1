//! A mark below a token of a line that is shown.

ghost use Rattle.std.specs.Prelude.{◌≡◌, ◌++◌, OnOk, IfOk, codes, decimal};
ghost use Rattle.std.specs.List.{flat_map};
ghost use Rattle.line_forms.specs.Marking.{behind_token, behind_tokens, blank_below, goes_on, in_front, mark_below, mark_line};

use line_grammar::push_number;
use line_grammar::reading::{after_blanks, lead_at};
use std::alloc::{AllocError, Global};

fn behind_token(bytes: &[u8]) -> &[u8]
    ensures { result.now ≡ behind_token bytes.now }
{
    match lead_at(after_blanks(bytes)) {
        Some((_, rest)) => rest,
        None => &[],
    }
}

fn behind_tokens(count: usize, line: &[u8]) -> &[u8]
    ensures { result.now ≡ behind_tokens count line.now }
{
    let mut rest = line;
    for _place in 0..count {
        rest = behind_token(rest);
    }
    rest
}

fn in_front(count: usize, line: &[u8]) -> &[u8]
    ensures { result.now ≡ in_front count line.now }
{
    let rest = after_blanks(behind_tokens(count, line));
    &line[..line.len().saturating_sub(rest.len())]
}

fn goes_on(byte: u8) -> bool
    ensures { result ≡ goes_on byte }
{
    128 <= byte && byte < 192
}

fn push_blank(out: &mut Vec<u8>, byte: u8) -> Result<(), AllocError>
    ensures { OnOk result (out.new.items ≡ out.old.items ++ blank_below byte) }
{
    if byte == b'\t' {
        return out.extend_from_slice(b"\t");
    }
    if goes_on(byte) {
        return Ok(());
    }
    out.extend_from_slice(b" ")
}

fn push_blanks(out: &mut Vec<u8>, bytes: &[u8]) -> Result<(), AllocError>
    ensures { OnOk result (out.new.items ≡ out.old.items ++ flat_map blank_below bytes.now) }
{
    for byte in bytes {
        push_blank(out, *byte)?;
    }
    Ok(())
}

fn push_below(out: &mut Vec<u8>, bytes: &[u8]) -> Result<(), AllocError>
    ensures { OnOk result (out.new.items ≡ out.old.items ++ mark_below bytes.now) }
{
    push_blanks(out, bytes)?;
    out.extend_from_slice(b"^\n")
}

/// The number of a line and a bar, and the line up to what stands behind so many tokens.
fn shown_front(
    alloc: Global,
    number: usize,
    count: usize,
    line: &[u8],
) -> Result<Vec<u8>, AllocError>
    ensures { IfOk result (λ front. front.items ≡ decimal number ++ codes " | " ++ in_front count line.now) }
{
    let mut front = Vec::new(alloc);
    push_number(&mut front, number as u64)?;
    front.extend_from_slice(b" | ")?;
    front.extend_from_slice(in_front(count, line))?;
    Ok(front)
}

/// Writes the mark below the token behind so many, where the line is shown behind its number and a bar.
pub fn push_mark_line(
    alloc: Global,
    out: &mut Vec<u8>,
    number: usize,
    count: usize,
    line: &[u8],
) -> Result<(), AllocError>
    ensures { OnOk result (out.new.items ≡ out.old.items ++ mark_line number count line.now) }
{
    let front = shown_front(alloc, number, count, line)?;
    push_below(out, &front)
}
