//! The tokens of a line, read from left to right, each off the bytes of the line when it is asked for. A call takes one
//! token off the front, or leaves all as they are.

ghost use Rattle.std.specs.Prelude.{◌≡◌, ◌==◌, ◌∷◌, [], false, IfOk, IfSome, IfNone, length, is_some};
ghost use Rattle.std.specs.Str.{IsUtf8};
ghost use Rattle.text_lists.specs.Names.{IsName, IsConstant, IsFileName};
ghost use Rattle.line_grammar.specs.GoodTokens.{IsGoodToken};
ghost use Rattle.line_grammar.specs.Leads.{token_of, tokens_left};
ghost use Rattle.line_grammar.specs.Tokens.{is_word};
ghost use Rattle.line_grammar.specs.Phrases.{ReadsToken, ReadsText, Passes, name_at, number_at, text_at, constant_at, file_name_at, after_word, after_name};
ghost use Rattle.line_grammar.specs.Marks.{same_mark, after_mark};

use crate::lead::Lead;
use crate::reading::{after_blanks, lacks_blank, lead_at, meant_len, meant_text, name_text};
use crate::tokens::{Mark, Token};
use crate::unread::Unread;
use std::alloc::{AllocError, Global};
use std::marker::Model;
use text_lists::bounds::{CONSTANT_BYTES, FILE_NAME_BYTES};
use text_lists::{List, Text};

/// The tokens that are left. Names are names, and texts are UTF-8.
#[derive(Drop)]
pub struct Tokens<'a> {
    alloc: Global,
    rest: &'a [u8],
    after_word: bool,
}

impl<'a> Model for Tokens<'a> {
    ghost use Rattle.std.specs.Prelude.{List};
    ghost use Rattle.std.specs.Str.{IsUtf8};
    ghost use Rattle.line_grammar.specs.Leads.{tokens_left};
    ghost use Rattle.line_grammar.specs.declared.tokens.Token.{Token};

    ghost Value = { List Token };

    ghost view = { λ tokens. tokens_left tokens.after_word tokens.rest.now };

    ghost invariant = { λ tokens. IsUtf8 tokens.rest.now };
}

impl<'a> Tokens<'a> {
    /// The tokens of a line.
    pub fn new(alloc: Global, line: &'a [u8]) -> Tokens<'a>
        requires { IsUtf8 line.now }
        ensures { result ≡ tokens_left false line.now }
    {
        Tokens {
            alloc,
            rest: line,
            after_word: false,
        }
    }

    /// The same tokens once more, to look ahead.
    pub fn ahead(&self) -> Tokens<'a>
        ensures { result ≡ self.now }
    {
        Tokens {
            alloc: self.alloc,
            rest: self.rest,
            after_word: self.after_word,
        }
    }

    /// The first token, as it stands in the bytes, and the bytes after it.
    #[inline(always)]
    fn front(&self) -> Option<(Lead<'a>, &'a [u8])>
        ensures front { IfSome result (λ x. self.now ≡ token_of x.0 ∷ tokens_left (is_word (token_of x.0)) x.1.now) }
        ensures none { IfNone result (self.now ≡ []) }
        ensures good { IfSome result (λ x. IsGoodToken (token_of x.0)) }
        ensures utf8 { IfSome result (λ x. IsUtf8 x.1.now) }
    {
        let front = after_blanks(self.rest);
        let Some((lead, after)) = lead_at(front) else {
            return None;
        };
        if lacks_blank(self.after_word, self.rest, &lead) {
            return None;
        }
        Some((lead, after))
    }

    /// The name at the front.
    pub fn name(&mut self) -> Result<Text, Unread>
        ensures name { ReadsText name_at self.old self.new result }
        ensures valid { IfOk result IsName }
    {
        let Some((Lead::Name(name), after)) = self.front() else {
            return Err(Unread::Absent);
        };
        let name = name_text(self.alloc, name)?;
        self.rest = after;
        self.after_word = true;
        Ok(name)
    }

    pub fn number(&mut self) -> Result<u64, Unread>
        ensures number { ReadsToken number_at self.old self.new result }
    {
        let Some((Lead::Number(number), after)) = self.front() else {
            return Err(Unread::Absent);
        };
        self.rest = after;
        self.after_word = true;
        Ok(number)
    }

    pub fn text(&mut self) -> Result<Text, Unread>
        ensures text { ReadsText text_at self.old self.new result }
        ensures utf8 { IfOk result IsUtf8 }
    {
        let Some((Lead::Quoted(bytes), after)) = self.front() else {
            return Err(Unread::Absent);
        };
        let text = meant_text(self.alloc, bytes)?;
        self.rest = after;
        self.after_word = false;
        Ok(text)
    }

    /// Whether a constant stands at the front.
    pub fn has_constant(&self) -> bool
        ensures { result ≡ is_some (constant_at self.now) }
    {
        match self.front() {
            Some((Lead::Quoted(bytes), _)) => meant_len(bytes) <= CONSTANT_BYTES,
            _ => false,
        }
    }

    /// A text of at most 1,024 bytes.
    pub fn constant(&mut self) -> Result<Text, Unread>
        ensures text { ReadsText constant_at self.old self.new result }
        ensures valid { IfOk result IsConstant }
    {
        if self.has_constant() {
            self.text()
        } else {
            Err(Unread::Absent)
        }
    }

    fn has_file_name(&self) -> bool
        ensures { result ≡ is_some (file_name_at self.now) }
    {
        match self.front() {
            Some((Lead::Quoted(bytes), _)) => {
                let len = meant_len(bytes);
                1 <= len && len <= FILE_NAME_BYTES
            }
            _ => false,
        }
    }

    /// A text of 1 to 1,024 bytes.
    pub fn file_name(&mut self) -> Result<Text, Unread>
        ensures text { ReadsText file_name_at self.old self.new result }
        ensures valid { IfOk result IsFileName }
    {
        if self.has_file_name() {
            self.text()
        } else {
            Err(Unread::Absent)
        }
    }

    /// Passes that word.
    pub fn word(&mut self, word: &str) -> Result<(), Unread>
        ensures word { Passes (after_word word.now) self.old self.new result }
    {
        match self.front() {
            Some((Lead::Name(name), after)) if name == word.as_bytes() => {
                self.rest = after;
                self.after_word = true;
                Ok(())
            }
            _ => Err(Unread::Absent),
        }
    }

    /// Passes any name.
    pub fn any_name(&mut self) -> Result<(), Unread>
        ensures name { Passes after_name self.old self.new result }
    {
        let Some((Lead::Name(_), after)) = self.front() else {
            return Err(Unread::Absent);
        };
        self.rest = after;
        self.after_word = true;
        Ok(())
    }

    /// Passes that mark.
    pub fn mark(&mut self, mark: Mark) -> Result<(), Unread>
        ensures mark { Passes (after_mark mark) self.old self.new result }
    {
        match self.front() {
            Some((Lead::Sign(found), after)) if same_mark(found, mark) => {
                self.rest = after;
                self.after_word = false;
                Ok(())
            }
            _ => Err(Unread::Absent),
        }
    }

    /// All of them, with memory of their own.
    pub fn owned(mut self) -> Result<List<Token>, AllocError>
        ensures { IfOk result (λ tokens. tokens ≡ self.entry) }
    {
        let mut tokens = List::new(self.alloc);
        while let Some((lead, after)) = self.front() {
            tokens.push(owned(self.alloc, lead)?)?;
            self.rest = after;
            self.after_word = lead.is_word();
        }
        Ok(tokens)
    }

    pub fn is_empty(&self) -> bool
        ensures { result ≡ (length self.now == 0) }
    {
        self.front().is_none()
    }
}

fn owned(alloc: Global, lead: Lead<'_>) -> Result<Token, AllocError>
    requires { IsGoodToken (token_of lead) }
    ensures { IfOk result (λ token. token ≡ token_of lead.entry) }
{
    match lead {
        Lead::Name(name) => Ok(Token::Name(name_text(alloc, name)?)),
        Lead::Number(number) => Ok(Token::Number(number)),
        Lead::Quoted(bytes) => Ok(Token::Quoted(meant_text(alloc, bytes)?)),
        Lead::Sign(mark) => Ok(Token::Sign(mark)),
    }
}

#[inline(always)]
fn same_mark(left: Mark, right: Mark) -> bool
    ensures { result ≡ same_mark left right }
{
    left == right
}
