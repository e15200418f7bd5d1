//! The tokens of a line.

use text_lists::{List, Text};

/// A mark between names, numbers and texts.
#[derive(Clone, Copy, PartialEq, Eq)]
pub enum Mark {
    Colon,
    Comma,
    OpenBracket,
    CloseBracket,
    Semicolon,
    Equals,
    Differs,
    Arrow,
    Bars,
    Underscore,
    Dot,
    OpenBrace,
    CloseBrace,
}

/// A token. `Quoted` holds the text that is meant, not its spelling.
#[derive(Drop)]
pub enum Token {
    Name(Text),
    Number(u64),
    Quoted(Text),
    Sign(Mark),
}

/// What a line is.
#[derive(Drop)]
pub enum LineTokens {
    /// It is blank, or a comment.
    Passed,
    NotUtf8,
    /// It is no list of tokens. These stand before the first place that is none, or that lacks its blank.
    BadTokens(List<Token>),
    Tokens(List<Token>),
}
