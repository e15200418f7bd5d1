//! A line of a file that isn't passed over.

ghost use Rattle.std.specs.Prelude.{◌≡◌, is_some};
ghost use Rattle.std.specs.Str.{is_utf8};
ghost use Rattle.line_grammar.specs.Contents.{content_on, is_token_list, tokens_in};

use crate::cursor::Tokens;
use crate::reading::is_token_list;
use std::alloc::Global;
use std::marker::Model;

/// What stands on the line. Its tokens are read off its bytes when they are asked for.
#[derive(Drop)]
pub struct Content<'a> {
    alloc: Global,
    line: &'a [u8],
    utf8: bool,
}

impl<'a> Model for Content<'a> {
    ghost use Rattle.std.specs.Prelude.{◌≡◌};
    ghost use Rattle.std.specs.Str.{is_utf8};
    ghost use Rattle.line_grammar.specs.Contents as contents;

    ghost Value = { contents.Content };

    ghost view = { λ c. contents.content_on c.utf8 c.line.now };

    ghost invariant = { λ c. c.utf8 ≡ is_utf8 c.line.now };
}

impl<'a> Content<'a> {
    /// That of a line of which it is known whether it is UTF-8.
    pub(crate) fn new(alloc: Global, line: &'a [u8], utf8: bool) -> Content<'a>
        requires { utf8 ≡ is_utf8 line.now }
        ensures { result ≡ content_on utf8 line.now }
    {
        Content { alloc, line, utf8 }
    }

    pub fn is_utf8(&self) -> bool
        ensures { result ≡ is_some (tokens_in self.now) }
    {
        self.utf8
    }

    /// Its tokens, up to the first place that is none or that lacks its blank.
    pub fn tokens(&self) -> Option<Tokens<'a>>
        ensures { result ≡ tokens_in self.now }
    {
        if self.utf8 {
            Some(Tokens::new(self.alloc, self.line))
        } else {
            None
        }
    }

    /// Whether it is a list of tokens to its end. The whole line is looked through.
    pub fn is_token_list(&self) -> bool
        ensures { result ≡ is_token_list self.now }
    {
        self.utf8 && is_token_list(self.line)
    }
}

/// Lines are numbered from 1, those that are passed over too.
#[derive(Drop)]
pub struct Line<'a> {
    pub number: usize,
    pub content: Content<'a>,
}
