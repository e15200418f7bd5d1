//! The lines of a file one after another, and each by a rule of the grammar.

ghost use Rattle.std.specs.Prelude.{◌≡◌, ◌+◌, ◌<◌, ◌^◌, ◌++◌, ◌≢◌, [], length, IfOk, IfNone, OnOk, OnErr, Some, None};
ghost use Rattle.std.specs.Option.{option_to_list};
ghost use Rattle.line_grammar.specs.Faults.{UnlessMemory, IsUnlessMemory, line_tells};
ghost use Rattle.line_grammar.specs.FileLines.{content_of, first_is, begins_with, file_lines, no_lines, read_line};
ghost use Rattle.line_grammar.specs.Tokens.{line_tokens};
ghost use Rattle.line_grammar.specs.Phrases.{unread_tells};
ghost use Rattle.line_grammar.specs.declared.fault.LineFault.TheVariants.{At};
ghost use Rattle.line_grammar.specs.TokenLists.{none_after};

use crate::causes::LineCause;
use crate::cursor::Tokens;
use crate::fault::LineFault;
use crate::line::{Content, Line};
use crate::lines::split_line;
use crate::phrase::Phrase;
use crate::reading::{is_passed, is_utf8};
use crate::unread::Unread;
use std::alloc::Global;
use std::marker::Model;

/// The lines of a file that are left, without those that are passed over.
#[derive(Drop)]
pub struct FileLines<'a> {
    alloc: Global,
    rest: &'a [u8],
    before: usize,
}

impl<'a> Model for FileLines<'a> {
    ghost use Rattle.std.specs.Prelude.{List, ◌+◌, ◌<◌, ◌^◌, length};
    ghost use Rattle.line_grammar.specs.FileLines.{lines_from};
    ghost use Rattle.line_grammar.specs.Lines.{lines};
    ghost use Rattle.line_grammar.specs.declared.line.Line.{Line};

    ghost Value = { List Line };

    ghost view = { λ file. lines_from (file.before + 1) (lines file.rest.now) };

    ghost invariant = { λ file. file.before + length file.rest.now < 2 ^ 64 };
}

/// What stands on a line, unless it is passed over. A line that isn't UTF-8 is that first of all, also where it begins
/// like a comment.
#[tactic(auto, unfolding(crate::specs::Tokens::line_tokens))]
pub fn content_of(alloc: Global, line: &[u8]) -> Option<Content<'_>>
    ensures { result ≡ content_of (line_tokens line.now) }
{
    if !is_utf8(line) {
        return Some(Content::new(alloc, line, false));
    }
    if is_passed(line) {
        return None;
    }
    Some(Content::new(alloc, line, true))
}

impl<'a> FileLines<'a> {
    pub fn new(alloc: Global, bytes: &'a [u8]) -> FileLines<'a>
        ensures { result ≡ file_lines bytes.now }
    {
        FileLines {
            alloc,
            rest: bytes,
            before: 0,
        }
    }

    /// Takes the next line.
    pub fn next(&mut self) -> Option<Line<'a>>
        ensures next { self.old ≡ option_to_list result ++ self.new }
        ensures last { IfNone result (self.new ≡ []) }
    {
        while !self.rest.is_empty() {
            let (line, behind) = split_line(self.rest);
            let content = content_of(self.alloc, line);
            self.before += 1;
            self.rest = behind;
            if let Some(content) = content {
                return Some(Line {
                    number: self.before,
                    content,
                });
            }
        }
        None
    }
}

fn first_is(word: &str, tokens: &Tokens<'_>) -> bool
    ensures { result ≡ first_is word.now tokens.now }
{
    tokens.ahead().word(word).is_ok()
}

fn bad_line<C: LineCause>(number: usize) -> LineFault<C>
    ensures { result ≡ At number C.causes.bad_line }
{
    LineFault::At {
        line: number,
        cause: C::bad_line(),
    }
}

/// All tokens by a rule of the grammar.
fn whole<P: Phrase>(alloc: Global, mut tokens: Tokens<'_>) -> Result<P::Value, Unread>
    ensures exact { UnlessMemory unread_tells (λ x. none_after (P.reads tokens.entry) ≡ Some x) (λ _. none_after (P.reads tokens.entry) ≡ None) result }
    ensures fit { IfOk result P.is_fit }
{
    let value = P::take(alloc, &mut tokens)?;
    if tokens.is_empty() {
        Ok(value)
    } else {
        Err(Unread::Absent)
    }
}

impl<'a> Line<'a> {
    /// Whether the first token is that word, whatever follows it.
    pub fn begins_with(&self, word: &str) -> bool
        ensures { result ≡ begins_with word.now self.now }
    {
        match self.content.tokens() {
            None => false,
            Some(tokens) => first_is(word, &tokens),
        }
    }

    /// What the line says by a rule that its tokens meet to the last.
    pub fn read<P: Phrase, C: LineCause>(self, alloc: Global) -> Result<P::Value, LineFault<C>>
        ensures exact { IsUnlessMemory line_tells (read_line C.causes (λ tokens. none_after (P.reads tokens)) self.entry) result }
        ensures fit { IfOk result P.is_fit }
    {
        let Line { number, content } = self;
        let Some(tokens) = content.tokens() else {
            return Err(LineFault::At {
                line: number,
                cause: C::not_utf8(),
            });
        };
        // Few lines are read in vain, so the rest of a line is looked through last.
        match whole::<P>(alloc, tokens) {
            Ok(value) => {
                if content.is_token_list() {
                    Ok(value)
                } else {
                    Err(bad_line(number))
                }
            }
            Err(Unread::Absent) => Err(bad_line(number)),
            Err(Unread::Memory) => Err(LineFault::Memory),
        }
    }
}

/// No line may stand here: the first is a bad line.
pub fn no_lines<C: LineCause>(lines: &[Line<'_>]) -> Result<(), LineFault<C>>
    ensures none { OnOk result (lines.now ≡ []) }
    ensures first { OnErr result (lines.now ≢ []) }
    ensures exact { IsUnlessMemory line_tells (no_lines C.causes lines.now tt) result }
{
    match lines {
        [] => Ok(()),
        [line, ..] => Err(bad_line(line.number)),
    }
}
