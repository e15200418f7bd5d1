//! The spelling of a text between quotes.

ghost use Rattle.std.specs.Prelude.{◌≡◌, ◌++◌, OnOk, OnErr};
ghost use Rattle.line_grammar.specs.Tokens.{escape_of, piece, quoted};
ghost use Rattle.line_grammar.specs.Appending.{AppendsPart};
ghost use Rattle.line_grammar.specs.OneSpelling.{HasOneSpelling};

use std::alloc::AllocError;

/// The letter that stands behind a backslash for a byte that doesn't stand for itself.
fn escape_of(byte: u8) -> Option<u8>
    ensures { result ≡ escape_of byte }
{
    match byte {
        b'\'' => Some(b'\''),
        b'\\' => Some(b'\\'),
        b'\n' => Some(b'n'),
        b'\r' => Some(b'r'),
        _ => None,
    }
}

fn push_piece(out: &mut Vec<u8>, byte: u8) -> Result<(), AllocError>
    ensures ok { OnOk result (out.new.items ≡ out.old.items ++ piece byte) }
    ensures err { OnErr result (AppendsPart out.old.items out.new.items (piece byte)) }
{
    match escape_of(byte) {
        Some(letter) => {
            out.push(b'\\')?;
            out.push(letter)?;
        }
        None => out.push(byte)?,
    }
    Ok(())
}

/// Appends the spelling of the text. After a refusal `out` holds what it held, and a front of the spelling.
pub fn push_quoted(out: &mut Vec<u8>, text: &str) -> Result<(), AllocError>
    ensures ok { OnOk result (out.new.items ≡ out.old.items ++ quoted text.now) }
    ensures err { OnErr result (AppendsPart out.old.items out.new.items (quoted text.now)) }
    ensures one_spelling { HasOneSpelling text.now }
{
    out.push(b'\'')?;
    for byte in text.as_bytes() {
        push_piece(out, *byte)?;
    }
    out.push(b'\'')?;
    Ok(())
}
