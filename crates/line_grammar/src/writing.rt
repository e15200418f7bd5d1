//! The parts of a line, each appended to a buffer. What is written so is read as the tokens that it was made of.
//! After a refusal the buffer holds what it held, and a front of what was to be appended.

ghost use Rattle.std.specs.Prelude.{◌≡◌, ◌++◌, OnOk, OnErr, decimal};
ghost use Rattle.std.specs.List.{flat_map};
ghost use Rattle.line_grammar.specs.Tokens.{line_tokens};
ghost use Rattle.line_grammar.specs.declared.tokens.LineTokens.TheVariants.{Tokens};
ghost use Rattle.line_grammar.specs.Spelling.{mark_text, spelling, part_text, line_text, tokens_in, IsReadable, after_comma, comma_separated, spaced_list};
ghost use Rattle.line_grammar.specs.Appending.{AppendsPart};

use crate::quoting::push_quoted;
use crate::tokens::{Mark, Token};
use itoa::Buffer;
use std::alloc::AllocError;

/// A part of a line: a blank or a token.
#[derive(Drop)]
pub enum Part {
    Space,
    Tab,
    Token(Token),
}

fn mark_text(mark: Mark) -> &'static [u8]
    ensures { result.now ≡ mark_text mark }
{
    match mark {
        Mark::Colon => b":",
        Mark::Comma => b",",
        Mark::OpenBracket => b"[",
        Mark::CloseBracket => b"]",
        Mark::Semicolon => b";",
        Mark::Equals => b"=",
        Mark::Differs => b"!=",
        Mark::Arrow => b"->",
        Mark::Bars => b"||",
        Mark::Underscore => b"_",
        Mark::Dot => b".",
        Mark::OpenBrace => b"{",
        Mark::CloseBrace => b"}",
    }
}

/// Appends a mark.
pub fn push_mark(out: &mut Vec<u8>, mark: Mark) -> Result<(), AllocError>
    ensures ok { OnOk result (out.new.items ≡ out.old.items ++ mark_text mark) }
    ensures err { OnErr result (out.new.items ≡ out.old.items) }
{
    out.extend_from_slice(mark_text(mark))
}

/// Appends a number, in decimal digits.
pub fn push_number(out: &mut Vec<u8>, number: u64) -> Result<(), AllocError>
    ensures ok { OnOk result (out.new.items ≡ out.old.items ++ decimal number) }
    ensures err { OnErr result (out.new.items ≡ out.old.items) }
{
    let mut buffer = Buffer::new();
    out.extend_from_slice(buffer.format(number).as_bytes())
}

/// Appends the spelling of a token.
pub fn push_token(out: &mut Vec<u8>, token: &Token) -> Result<(), AllocError>
    ensures ok { OnOk result (out.new.items ≡ out.old.items ++ spelling token.now) }
    ensures err { OnErr result (AppendsPart out.old.items out.new.items (spelling token.now)) }
{
    match token {
        Token::Name(name) => out.extend_from_slice(name.as_str().as_bytes()),
        Token::Number(number) => push_number(out, *number),
        Token::Quoted(text) => push_quoted(out, text.as_str()),
        Token::Sign(mark) => push_mark(out, *mark),
    }
}

fn push_part(out: &mut Vec<u8>, part: &Part) -> Result<(), AllocError>
    ensures ok { OnOk result (out.new.items ≡ out.old.items ++ part_text part.now) }
    ensures err { OnErr result (AppendsPart out.old.items out.new.items (part_text part.now)) }
{
    match part {
        Part::Space => out.extend_from_slice(b" "),
        Part::Tab => out.extend_from_slice(b"\t"),
        Part::Token(token) => push_token(out, token),
    }
}

/// Appends a line without its end. Each printer's line is one of these, and it is read again as its tokens.
pub fn push_line(out: &mut Vec<u8>, line: &[Part]) -> Result<(), AllocError>
    ensures ok { OnOk result (out.new.items ≡ out.old.items ++ line_text line.now) }
    ensures err { OnErr result (AppendsPart out.old.items out.new.items (line_text line.now)) }
    ensures read_again { IsReadable line.now → line_tokens (line_text line.now) ≡ Tokens (tokens_in line.now) }
{
    for part in line {
        push_part(out, part)?;
    }
    Ok(())
}

/// How an item of a list is written.
pub trait Writes<T> {
    ghost use Rattle.std.specs.Prelude as prelude;
    ghost use Rattle.line_grammar.specs.declared.writing.Part.{Part};

    ghost written: { T → prelude.List Part };

    fn push(out: &mut Vec<u8>, item: &T) -> Result<(), AllocError>
        ensures { OnOk result (out.new.items ≡ out.old.items ++ line_text (written item.now)) };
}

/// Appends a list, with a comma and a space between two items.
pub fn push_list<W: Writes<T>, T>(out: &mut Vec<u8>, items: &[T]) -> Result<(), AllocError>
    ensures { OnOk result (out.new.items ≡ out.old.items ++ line_text (comma_separated W.written items.now)) }
{
    let Some((first, others)) = items.split_first() else {
        return Ok(());
    };
    W::push(out, first)?;
    push_others::<W, T>(out, others)
}

/// Appends the other items of a list, each behind a comma and a space.
fn push_others<W: Writes<T>, T>(out: &mut Vec<u8>, others: &[T]) -> Result<(), AllocError>
    ensures { OnOk result (out.new.items ≡ out.old.items ++ line_text (flat_map (after_comma W.written) others.now)) }
{
    for item in others {
        out.extend_from_slice(b", ")?;
        W::push(out, item)?;
    }
    Ok(())
}

/// Appends a space and a list, or nothing where there is no item.
pub fn push_spaced_list<W: Writes<T>, T>(out: &mut Vec<u8>, items: &[T]) -> Result<(), AllocError>
    ensures { OnOk result (out.new.items ≡ out.old.items ++ line_text (spaced_list W.written items.now)) }
{
    if items.is_empty() {
        return Ok(());
    }
    out.push(b' ')?;
    push_list::<W, T>(out, items)
}
