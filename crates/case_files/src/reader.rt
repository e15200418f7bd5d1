//! Reads a file of cases line by line. Cases are parted by empty lines. A case whose line can't be read is passed over.
//!
//! A case is its lines in this order: `case NAME`; `program NAME`, which may be left out; `limit NAME NUMBER` and
//! `fail fetch NUMBER` or `fail put NUMBER`; `word TEXT`; `file NAME`, each with its content below it; `status NUMBER`,
//! with what is to be written below it. Content is lines that begin with `|`, a last one that begins with `\` and has
//! no line feed, and two lines that stand for many: `repeat NUMBER |TEXT` for so many lines, `#` being the number of
//! each, and `again LINES TIMES` for so many of the lines above it, so many times more.
ghost use Rattle.std.specs.Prelude.{◌≤◌, length, IfSome};

use crate::case::{Case, CaseFile};
use crate::limits::set_limit;
use line_grammar::push_number;
use std::alloc::{AllocError, Global};
use text_lists::{Limits, Text};

/// What a line comes to.
#[derive(Drop)]
pub enum Reading {
    /// A case isn't at its end, or there is none.
    More,
    /// The line ended a case.
    Case(Case),
    /// The line, or the case that ends before it, can't be read.
    Unreadable,
}

/// Where the reader is.
#[derive(Drop)]
enum Place {
    BetweenCases,
    InCase(Draft),
    PassingOver,
}

/// Reads lines, and gives each case at the line that ends it.
#[derive(Drop)]
pub struct CaseReader {
    alloc: Global,
    place: Place,
}

impl CaseReader {
    pub fn new(alloc: Global) -> CaseReader {
        CaseReader {
            alloc,
            place: Place::BetweenCases,
        }
    }

    /// Takes the next line, without its line feed. An empty one ends a case, as the end of a file does.
    pub fn take(&mut self, line: &[u8]) -> Result<Reading, AllocError> {
        if line.is_empty() {
            return Ok(self.end());
        }
        let taken = match &mut self.place {
            Place::BetweenCases => match Draft::begun(self.alloc, line) {
                Ok(draft) => {
                    self.place = Place::InCase(draft);
                    Ok(())
                }
                Err(fault) => Err(fault),
            },
            Place::InCase(draft) => draft.add(line),
            Place::PassingOver => Ok(()),
        };
        match taken {
            Ok(()) => Ok(Reading::More),
            Err(LineFault::Memory) => Err(AllocError),
            Err(LineFault::Unreadable) => {
                self.place = Place::PassingOver;
                Ok(Reading::Unreadable)
            }
        }
    }

    fn end(&mut self) -> Reading {
        match std::mem::replace(&mut self.place, Place::BetweenCases) {
            Place::InCase(draft) => match draft.finished() {
                Some(case) => Reading::Case(case),
                None => Reading::Unreadable,
            },
            Place::BetweenCases | Place::PassingOver => Reading::More,
        }
    }
}

/// Why a line is not taken.
#[derive(Drop)]
enum LineFault {
    Unreadable,
    Memory,
}

impl From<AllocError> for LineFault {
    fn from(_: AllocError) -> LineFault {
        LineFault::Memory
    }
}

/// The parts of a case, in the order in which they stand.
#[derive(Clone, Copy, PartialEq, PartialOrd)]
enum Part {
    Name,
    Program,
    Limits,
    Failures,
    Words,
    Files,
    Wanted,
}

/// A case of which some lines were read.
#[derive(Drop)]
struct Draft {
    alloc: Global,
    case: Case,
    part: Part,
    /// The content has had its last line.
    ended: bool,
}

impl Draft {
    fn begun(alloc: Global, line: &[u8]) -> Result<Draft, LineFault> {
        let (kind, name) = named(line)?;
        if kind != "case" {
            return Err(LineFault::Unreadable);
        }
        Ok(Draft {
            alloc,
            case: Case::new(alloc, name)?,
            part: Part::Name,
            ended: true,
        })
    }

    /// The case, where all of its parts are there.
    fn finished(self) -> Option<Case> {
        if self.part == Part::Wanted {
            Some(self.case)
        } else {
            None
        }
    }

    fn add(&mut self, line: &[u8]) -> Result<(), LineFault> {
        if let Some(text) = line.strip_prefix(b"|") {
            return self.add_line(text);
        }
        if let Some(text) = line.strip_prefix(b"\\") {
            return self.add_last(text);
        }
        if let Some(rest) = line.strip_prefix(b"repeat ") {
            return self.add_repeated(rest);
        }
        let (kind, rest) = named(line)?;
        self.add_part(kind, rest)
    }

    fn add_part(&mut self, kind: &str, rest: &str) -> Result<(), LineFault> {
        match kind {
            "program" => self.add_program(rest),
            "limit" => self.add_limit(rest),
            "fail" => self.add_failure(rest),
            "word" => self.add_word(rest),
            "file" => self.add_file(rest),
            "status" => self.add_status(rest),
            "again" => self.add_again(rest),
            _ => Err(LineFault::Unreadable),
        }
    }

    // Goes on to a part, or stays in one that has several lines, where the line can be read.
    fn enter(&mut self, part: Part, is_good: bool) -> Result<(), LineFault> {
        let again = matches!(
            part,
            Part::Limits | Part::Failures | Part::Words | Part::Files
        );
        if is_good && (self.part < part || again && self.part == part) {
            self.part = part;
            Ok(())
        } else {
            Err(LineFault::Unreadable)
        }
    }

    fn add_program(&mut self, name: &str) -> Result<(), LineFault> {
        self.enter(Part::Program, true)?;
        self.case.program = Some(Text::new(self.alloc, name)?);
        Ok(())
    }

    fn add_limit(&mut self, rest: &str) -> Result<(), LineFault> {
        let (name, number) = rest.split_once(' ').ok_or(LineFault::Unreadable)?;
        let number = number_of(number)?;
        let mut limits = self.case.limits.unwrap_or(Limits::standard());
        let is_known = set_limit(&mut limits, name, number);
        self.case.limits = Some(limits);
        self.enter(Part::Limits, is_known)
    }

    fn add_failure(&mut self, rest: &str) -> Result<(), LineFault> {
        let (call, number) = rest.split_once(' ').ok_or(LineFault::Unreadable)?;
        let number = number_of(number)?;
        let failing = match call {
            "fetch" => &mut self.case.failing_fetches,
            "put" => &mut self.case.failing_puts,
            _ => return Err(LineFault::Unreadable),
        };
        let is_first = failing.is_empty();
        failing.push(number).map_err(AllocError::from)?;
        self.enter(Part::Failures, is_first && number > 0)
    }

    fn add_word(&mut self, rest: &str) -> Result<(), LineFault> {
        self.enter(Part::Words, true)?;
        self.case.words.push(Text::new(self.alloc, rest)?)?;
        Ok(())
    }

    fn has_file(&self, name: &str) -> bool {
        self.case.files.iter().any(|file| file.name.is(name))
    }

    fn add_file(&mut self, rest: &str) -> Result<(), LineFault> {
        let is_new = !self.has_file(rest);
        self.enter(Part::Files, is_new)?;
        let file = CaseFile {
            name: Text::new(self.alloc, rest)?,
            bytes: Vec::new(self.alloc),
        };
        self.case.files.push(file).map_err(AllocError::from)?;
        self.ended = false;
        Ok(())
    }

    fn add_status(&mut self, rest: &str) -> Result<(), LineFault> {
        self.enter(Part::Wanted, true)?;
        self.case.status = rest.parse::<u8>().map_err(|_| LineFault::Unreadable)?;
        self.ended = false;
        Ok(())
    }

    // Where content goes: into the last file, or to what is to be written.
    fn content(&mut self) -> Result<&mut Vec<u8>, LineFault> {
        if self.ended {
            return Err(LineFault::Unreadable);
        }
        if self.part == Part::Wanted {
            return Ok(&mut self.case.written);
        }
        match self.case.files.last_mut() {
            Some(file) => Ok(&mut file.bytes),
            None => Err(LineFault::Unreadable),
        }
    }

    fn add_line(&mut self, text: &[u8]) -> Result<(), LineFault> {
        let content = self.content()?;
        content.extend_from_slice(text)?;
        content.push(b'\n').map_err(AllocError::from)?;
        Ok(())
    }

    fn add_last(&mut self, text: &[u8]) -> Result<(), LineFault> {
        self.content()?.extend_from_slice(text)?;
        self.ended = true;
        Ok(())
    }

    fn add_repeated(&mut self, rest: &[u8]) -> Result<(), LineFault> {
        let (count, text) = repeated(rest)?;
        let content = self.content()?;
        for number in 1..=count {
            push_filled(content, text, number)?;
        }
        Ok(())
    }

    fn add_again(&mut self, rest: &str) -> Result<(), LineFault> {
        let alloc = self.alloc;
        let (lines, times) = rest.split_once(' ').ok_or(LineFault::Unreadable)?;
        let (lines, times) = (number_of(lines)?, number_of(times)?);
        push_again(alloc, self.content()?, lines, times)
    }
}

// The number and the text of `NUMBER |TEXT`.
fn repeated(rest: &[u8]) -> Result<(u64, &[u8]), LineFault> {
    let blank = rest
        .iter()
        .position(|byte| *byte == b' ')
        .ok_or(LineFault::Unreadable)?;
    let count = std::str::from_utf8(&rest[..blank]).map_err(|_| LineFault::Unreadable)?;
    let text = rest[blank..]
        .strip_prefix(b" |")
        .ok_or(LineFault::Unreadable)?;
    Ok((number_of(count)?, text))
}

// Appends the last so many lines, so many times.
fn push_again(
    alloc: Global,
    content: &mut Vec<u8>,
    lines: u64,
    times: u64,
) -> Result<(), LineFault> {
    let start = last_lines(content, lines).ok_or(LineFault::Unreadable)?;
    let mut above = Vec::new(alloc);
    above.extend_from_slice(&content[start..])?;
    push_times(content, above.as_slice(), times)?;
    Ok(())
}

fn push_times(content: &mut Vec<u8>, text: &[u8], times: u64) -> Result<(), AllocError> {
    for _ in 0..times {
        content.extend_from_slice(text)?;
    }
    Ok(())
}

// Where the last so many lines begin, each of which ends with a line feed.
fn last_lines(content: &[u8], lines: u64) -> Option<usize>
    ensures { IfSome result (λ start. start ≤ length content.now) }
{
    let mut left = lines;
    for place in (0..content.len()).rev() {
        if content[place] == b'\n' {
            if left == 0 {
                return Some(place + 1);
            }
            left -= 1;
        }
    }
    if left == 0 { Some(0) } else { None }
}

// Appends the line, each `#` in it being the number.
fn push_filled(content: &mut Vec<u8>, text: &[u8], number: u64) -> Result<(), LineFault> {
    for byte in text {
        if *byte == b'#' {
            push_number(content, number)?;
        } else {
            content.push(*byte).map_err(AllocError::from)?;
        }
    }
    content.push(b'\n').map_err(AllocError::from)?;
    Ok(())
}

// The word that a line begins with, and what follows the blank behind it.
fn named(line: &[u8]) -> Result<(&str, &str), LineFault> {
    let text = std::str::from_utf8(line).map_err(|_| LineFault::Unreadable)?;
    text.split_once(' ').ok_or(LineFault::Unreadable)
}

fn number_of(text: &str) -> Result<u64, LineFault> {
    text.parse::<u64>().map_err(|_| LineFault::Unreadable)
}
