//! The token at the front of bytes, one function for one rule: blanks, names, numbers, texts, marks.

ghost use Rattle.std.specs.Prelude.{false, ◌≡◌, ◌<◌, ◌≤◌, ◌&&◌, ◌||◌, ◌==◌, ◌≢◌, [], ◌∷◌, IfSome, IfNone, IfOk, Option, Some, None, length, take, drop, position, not};
ghost use Rattle.std.specs.Option.{option_map};
ghost use Rattle.std.specs.List.{position_or_len};
ghost use Rattle.std.specs.Char.{is_ascii_alphabetic, is_ascii_digit};
ghost use Rattle.std.specs.Str.{IsUtf8, is_utf8};
ghost use Rattle.std.specs.Str.Parse.{digits_value, AllDigits};
ghost use Rattle.text_lists.specs.Names.{is_name_byte, IsName};
ghost use Rattle.line_grammar.specs.Tokens.{is_blank, after_blanks, begins_blank, is_passed, escaped, is_special, begins_quote, with_byte, text_from, one_mark, two_marks, mark_at, name_len, digits_len, quoted_token, token_at, is_word, tokens_from};
ghost use Rattle.line_grammar.specs.Leads.{token_of, meant, measured, are_tokens};
ghost use Rattle.line_grammar.specs.declared.tokens.Token.{Token};

use crate::lead::Lead;
use crate::tokens::Mark;
use std::alloc::{AllocError, Global};
use text_lists::Text;
use text_lists::bounds::{NAME_BYTES, NUMBER_DIGITS};

pub fn is_utf8(bytes: &[u8]) -> bool
    ensures { result ≡ is_utf8 bytes.now }
{
    str::from_utf8(bytes).is_ok()
}

#[inline(always)]
fn is_blank(byte: u8) -> bool
    ensures { result ≡ is_blank byte }
{
    byte == b' ' || byte == b'\t'
}

#[inline(always)]
fn is_name_byte(byte: u8) -> bool
    ensures { result ≡ is_name_byte byte }
{
    byte.is_ascii_alphabetic() || byte.is_ascii_digit() || byte == b'_'
}

/// The first byte, and those after it.
#[inline(always)]
fn cut_first(bytes: &[u8]) -> Option<(u8, &[u8])>
    ensures none { IfNone result (bytes.now ≡ []) }
    ensures parts { IfSome result (λ x. bytes.now ≡ x.0 ∷ x.1.now) }
{
    match bytes {
        [] => None,
        [first, rest @ ..] => Some((*first, rest)),
    }
}

#[inline(always)]
pub fn after_blanks(bytes: &[u8]) -> &[u8]
    ensures { result.now ≡ after_blanks bytes.now }
{
    let mut rest = bytes;
    while let Some((byte, after)) = cut_first(rest) {
        if !is_blank(byte) {
            break;
        }
        rest = after;
    }
    rest
}

#[inline(always)]
fn begins_blank(bytes: &[u8]) -> bool
    ensures { result ≡ begins_blank bytes.now }
{
    match bytes {
        [] => false,
        [byte, ..] => is_blank(*byte),
    }
}

/// Whether the line is passed over: blank, or a comment.
pub fn is_passed(line: &[u8]) -> bool
    ensures { result ≡ is_passed line.now }
{
    match after_blanks(line) {
        [] => true,
        [byte, ..] => *byte == b'#',
    }
}

/// The place of the first byte that can't stand in a name.
fn name_end(bytes: &[u8]) -> Option<usize>
    ensures { result ≡ position (λ b. not (is_name_byte b)) bytes.now }
{
    bytes.iter().position(|b| !is_name_byte(*b))
}

fn name_len(bytes: &[u8]) -> usize
    ensures len { result ≡ name_len bytes.now }
    ensures within { result ≤ length bytes.now }
{
    let front = &bytes[..bytes.len().min(NAME_BYTES)];
    name_end(front).unwrap_or(front.len())
}

/// The place of the first byte that is no digit.
fn digits_end(bytes: &[u8]) -> Option<usize>
    ensures { result ≡ position (λ b. not (is_ascii_digit b)) bytes.now }
{
    bytes.iter().position(|b| !b.is_ascii_digit())
}

fn digits_len(bytes: &[u8]) -> usize
    ensures len { result ≡ digits_len bytes.now }
    ensures within { result ≤ length bytes.now }
    ensures few { result ≤ NUMBER_DIGITS }
{
    let front = &bytes[..bytes.len().min(NUMBER_DIGITS)];
    digits_end(front).unwrap_or(front.len())
}

/// The number that a few digits write.
fn number_of(digits: &[u8]) -> u64
    requires few { length digits.now ≤ NUMBER_DIGITS }
    requires digits { AllDigits 10 digits.now }
    ensures { result ≡ digits_value 10 digits.now }
{
    let mut number = 0;
    for digit in digits {
        number = number * 10 + u64::from(*digit - b'0');
    }
    number
}

/// The byte that a backslash and this letter stand for.
fn escaped(letter: u8) -> Option<u8>
    ensures { result ≡ escaped letter }
{
    match letter {
        b'\'' => Some(b'\''),
        b'\\' => Some(b'\\'),
        b'n' => Some(b'\n'),
        b'r' => Some(b'\r'),
        _ => None,
    }
}

/// The byte that is meant by the piece that begins with this byte, and what follows the piece.
fn piece_at(byte: u8, after: &[u8]) -> Option<(u8, &[u8])>
    requires { byte ≢ 39 }
    ensures piece { IfSome result (λ x. text_from (byte ∷ after.now) ≡ with_byte x.0 (text_from x.1.now)) }
    ensures shorter { IfSome result (λ x. length x.1.now ≤ length after.now) }
    ensures none { IfNone result (text_from (byte ∷ after.now) ≡ None) }
{
    if byte == b'\\' {
        let Some((letter, behind)) = cut_first(after) else {
            return None;
        };
        let Some(meant) = escaped(letter) else {
            return None;
        };
        Some((meant, behind))
    } else if byte == b'\n' || byte == b'\r' {
        None
    } else {
        Some((byte, after))
    }
}

/// How many bytes the text behind an opening quote has, and what follows its closing quote.
fn text_len(bytes: &[u8]) -> Option<(usize, &[u8])>
    ensures { option_map (λ x. (x.0, x.1.now)) result ≡ measured (text_from bytes.now) }
{
    let mut len = 0;
    let mut rest = bytes;
    while let Some((byte, after)) = cut_first(rest) {
        if byte == b'\'' {
            return Some((len, after));
        }
        let Some((_, behind)) = piece_at(byte, after) else {
            return None;
        };
        len += 1;
        rest = behind;
    }
    None
}

/// The bytes of the text behind an opening quote, and what follows its closing quote.
fn text_bytes(alloc: Global, bytes: &[u8]) -> Result<Option<(Vec<u8>, &[u8])>, AllocError>
    ensures { IfOk result (λ found. option_map (λ x. (x.0.items, x.1.now)) found ≡ text_from bytes.now) }
{
    let mut text = Vec::new(alloc);
    let mut rest = bytes;
    while let Some((byte, after)) = cut_first(rest) {
        if byte == b'\'' {
            return Ok(Some((text, after)));
        }
        let Some((meant, behind)) = piece_at(byte, after) else {
            return Ok(None);
        };
        text.push(meant)?;
        rest = behind;
    }
    Ok(None)
}

/// How many bytes the text behind an opening quote has.
pub fn meant_len(bytes: &[u8]) -> usize
    ensures { result ≡ length (meant (text_from bytes.now)) }
{
    match text_len(bytes) {
        Some((len, _)) => len,
        None => 0,
    }
}

fn is_special(byte: u8) -> bool
    ensures { result ≡ is_special byte }
{
    byte == b'\'' || byte == b'\\' || byte == b'\n' || byte == b'\r'
}

/// The place of the first byte that doesn't stand for itself.
fn special_at(bytes: &[u8]) -> Option<usize>
    ensures { result ≡ position is_special bytes.now }
{
    bytes.iter().position(|b| is_special(*b))
}

/// How many bytes stand for themselves at the front.
fn plain_len(bytes: &[u8]) -> usize
    ensures len { result ≡ position_or_len is_special bytes.now }
    ensures within { result ≤ length bytes.now }
{
    special_at(bytes).unwrap_or(bytes.len())
}

fn begins_quote(bytes: &[u8]) -> bool
    ensures { result ≡ begins_quote bytes.now }
{
    match bytes {
        [] => false,
        [byte, ..] => *byte == b'\'',
    }
}

/// The text behind an opening quote, where each of its bytes stands for itself.
fn plain_text(bytes: &[u8]) -> Option<&[u8]>
    ensures { IfSome result (λ text. text.now ≡ meant (text_from bytes.now)) }
{
    let (plain, rest) = bytes.split_at(plain_len(bytes));
    if begins_quote(rest) {
        Some(plain)
    } else {
        None
    }
}

/// The text behind an opening quote.
pub fn meant_text(alloc: Global, bytes: &[u8]) -> Result<Text, AllocError>
    requires { IsUtf8 (meant (text_from bytes.now)) }
    ensures { IfOk result (λ text. text ≡ meant (text_from bytes.now)) }
{
    if let Some(text) = plain_text(bytes) {
        return Text::new(alloc, str::from_utf8(text).unwrap());
    }
    match text_bytes(alloc, bytes)? {
        Some((text, _)) => Text::from_string(alloc, String::from_utf8(text).unwrap()),
        None => Text::new(alloc, ""),
    }
}

#[inline(always)]
fn one_mark(byte: u8) -> Option<Mark>
    ensures { result ≡ one_mark byte }
{
    match byte {
        b':' => Some(Mark::Colon),
        b',' => Some(Mark::Comma),
        b'[' => Some(Mark::OpenBracket),
        b']' => Some(Mark::CloseBracket),
        b';' => Some(Mark::Semicolon),
        b'=' => Some(Mark::Equals),
        b'_' => Some(Mark::Underscore),
        b'.' => Some(Mark::Dot),
        b'{' => Some(Mark::OpenBrace),
        b'}' => Some(Mark::CloseBrace),
        _ => None,
    }
}

#[inline(always)]
fn two_marks(first: u8, second: u8) -> Option<Mark>
    ensures { result ≡ two_marks first second }
{
    match (first, second) {
        (b'!', b'=') => Some(Mark::Differs),
        (b'-', b'>') => Some(Mark::Arrow),
        (b'|', b'|') => Some(Mark::Bars),
        _ => None,
    }
}

#[tactic(auto, unfolding(crate::specs::Tokens::mark_at))]
#[inline(always)]
fn mark_at(bytes: &[u8]) -> Option<(Lead<'_>, &[u8])>
    ensures { option_map (λ x. (token_of x.0, x.1.now)) result ≡ mark_at bytes.now }
{
    match bytes {
        [] => None,
        [byte] => match one_mark(*byte) {
            Some(mark) => Some((Lead::Sign(mark), &bytes[1..])),
            None => None,
        },
        [first, second, ..] => match two_marks(*first, *second) {
            Some(mark) => Some((Lead::Sign(mark), &bytes[2..])),
            None => match one_mark(*first) {
                Some(mark) => Some((Lead::Sign(mark), &bytes[1..])),
                None => None,
            },
        },
    }
}

fn name_at(bytes: &[u8]) -> (Lead<'_>, &[u8])
    ensures token { token_of result.0 ≡ Token.Name (take (name_len bytes.now) bytes.now) }
    ensures rest { result.1.now ≡ drop (name_len bytes.now) bytes.now }
{
    let (name, rest) = bytes.split_at(name_len(bytes));
    (Lead::Name(name), rest)
}

/// A name as a text.
pub fn name_text(alloc: Global, name: &[u8]) -> Result<Text, AllocError>
    requires { IsName name.now }
    ensures { IfOk result (λ text. text ≡ name.now) }
{
    Text::new(alloc, str::from_utf8(name).unwrap())
}

fn number_at(bytes: &[u8]) -> (Lead<'_>, &[u8])
    ensures token { token_of result.0 ≡ Token.Number (digits_value 10 (take (digits_len bytes.now) bytes.now)) }
    ensures rest { result.1.now ≡ drop (digits_len bytes.now) bytes.now }
{
    let (digits, rest) = bytes.split_at(digits_len(bytes));
    (Lead::Number(number_of(digits)), rest)
}

fn quoted_at(bytes: &[u8]) -> Option<(Lead<'_>, &[u8])>
    ensures { option_map (λ x. (token_of x.0, x.1.now)) result ≡ quoted_token (text_from bytes.now) }
{
    let (_, rest) = text_len(bytes)?;
    Some((Lead::Quoted(bytes), rest))
}

/// The longest token at the front, and the bytes after it.
#[tactic(auto, unfolding(crate::specs::Tokens::token_at))]
#[inline(always)]
pub fn lead_at(bytes: &[u8]) -> Option<(Lead<'_>, &[u8])>
    ensures { option_map (λ x. (token_of x.0, x.1.now)) result ≡ token_at bytes.now }
{
    let (first, rest) = cut_first(bytes)?;
    if first.is_ascii_alphabetic() {
        Some(name_at(bytes))
    } else if first == b'0' {
        Some((Lead::Number(0), rest))
    } else if first.is_ascii_digit() {
        Some(number_at(bytes))
    } else if first == b'\'' {
        quoted_at(rest)
    } else {
        mark_at(bytes)
    }
}

/// Whether the token at the front of `rest` is a word, and so was what ends right before it.
#[inline(always)]
pub fn lacks_blank(after_word: bool, rest: &[u8], lead: &Lead<'_>) -> bool
    ensures { result ≡ (after_word && not (begins_blank rest.now) && is_word (token_of lead.now)) }
{
    after_word && !begins_blank(rest) && lead.is_word()
}

/// Whether a line that is UTF-8 is a list of tokens.
pub fn is_token_list(line: &[u8]) -> bool
    requires { IsUtf8 line.now }
    ensures { result ≡ are_tokens (tokens_from (length line.now) false line.now) }
{
    let mut after_word = false;
    let mut rest = line;
    loop {
        let front = after_blanks(rest);
        if front.is_empty() {
            return true;
        }
        let Some((lead, after)) = lead_at(front) else {
            return false;
        };
        if lacks_blank(after_word, rest, &lead) {
            return false;
        }
        after_word = lead.is_word();
        rest = after;
    }
}
