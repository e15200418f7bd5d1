//! Where a line stands: in which file, and below which head.

ghost use Rattle.std.specs.Prelude.{◌≡◌, IfOk};
ghost use Rattle.std.specs.Option.{option_copied};
ghost use Rattle.line_grammar.specs.Leads.{given};
ghost use Rattle.line_forms.specs.Forms.{below, below_line, below_word, first_word, place_at, word_in};

use line_grammar::{LineTokens, Token, read_tokens, split_line};
use std::alloc::{AllocError, Global};
use text_lists::Text;

/// Where a line stands.
#[derive(Clone, Copy, PartialEq, Eq)]
pub enum Place {
    /// In a schema, and not among the lines of a table.
    Schema,
    BelowTable,
    /// In a rule file, and not among the lines of a rule that has rows.
    Rules,
    BelowCfd,
    BelowCind,
    Script,
}

fn word_in(token: &Token) -> Option<&Text>
    ensures { option_copied result ≡ word_in token.now }
{
    match token {
        Token::Name(word) => Some(word),
        Token::Number(_) | Token::Quoted(_) | Token::Sign(_) => None,
    }
}

/// The word with which tokens begin.
pub fn first_word(tokens: &[Token]) -> Option<&Text>
    ensures { option_copied result ≡ first_word tokens.now }
{
    match tokens {
        [] => None,
        [token, ..] => word_in(token),
    }
}

/// The tokens of a line, those before the first place that is none among them.
pub fn given(tokens: &LineTokens) -> &[Token]
    ensures { result.now ≡ given tokens.now }
{
    match tokens {
        LineTokens::Passed | LineTokens::NotUtf8 => &[],
        LineTokens::BadTokens(tokens) | LineTokens::Tokens(tokens) => tokens.as_slice(),
    }
}

fn below(place: Place, word: &Text) -> Place
    ensures { result ≡ below place word.now }
{
    if word.is("table") || word.is("master") {
        Place::BelowTable
    } else if word.is("rules") || word.is("script") {
        Place::Schema
    } else if word.is("cfd") {
        Place::BelowCfd
    } else if word.is("cind") {
        Place::BelowCind
    } else if word.is("edit") {
        Place::Rules
    } else {
        place
    }
}

fn below_word(place: Place, word: Option<&Text>) -> Place
    ensures { result ≡ below_word place (option_copied word.entry) }
{
    match word {
        Some(word) => below(place, word),
        None => place,
    }
}

fn below_line(alloc: Global, place: Place, line: &[u8]) -> Result<Place, AllocError>
    ensures { IfOk result (λ next. next ≡ below_line place line.now) }
{
    let tokens = read_tokens(alloc, line)?;
    Ok(below_word(place, first_word(given(&tokens))))
}

/// The place of the line of that number, the first being 1, in a file whose first line stands at `start`. The lines above
/// it are read.
pub fn place_at(
    alloc: Global,
    start: Place,
    number: usize,
    bytes: &[u8],
) -> Result<Place, AllocError>
    ensures { IfOk result (λ place. place ≡ place_at start number bytes.now) }
{
    let mut place = start;
    let mut rest = bytes;
    let mut ahead = number.saturating_sub(1);
    while ahead > 0 && !rest.is_empty() {
        let (line, behind) = split_line(rest);
        place = below_line(alloc, place, line)?;
        ahead -= 1;
        rest = behind;
    }
    Ok(place)
}
