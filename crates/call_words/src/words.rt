//! The words of a call, as `clap` reads them: by a command that wants each word after the first, and nothing else.
ghost use Rattle.std.specs.Prelude.{◌≡◌, ◌∷◌, [], false, IfErr, IfOk, IsTrue, drop, map, take};
ghost use Rattle.call_words.specs.ReadWords.{ArePlain, four_words, one_word, three_words, two_words, wanted};
ghost use Rattle.call_words.specs.Words.{is_plain};
ghost use Rattle.clap.specs.Words.{app_of, kind_of, rule_of};

use clap::error::ErrorKind;
use clap::{Arg, Command, Error};
use std::alloc::{AllocError, Global};
use text_lists::Text;

/// The word after the first.
pub fn read_one(alloc: Global, name: &Text, project: &Text) -> Result<Text, AllocError>
    requires { IsTrue (is_plain project.now) }
    ensures { IfOk result (λ read. read ≡ project.now) }
{
    let words = [name.as_str(), project.as_str()];
    match parse_one(alloc, words.as_slice()) {
        Ok(project) => Text::new(alloc, project),
        Err(_) => Err(AllocError),
    }
}

/// The two words after the first.
pub fn read_two(
    alloc: Global,
    name: &Text,
    project: &Text,
    cert: &Text,
) -> Result<(Text, Text), AllocError>
    requires project { IsTrue (is_plain project.now) }
    requires cert { IsTrue (is_plain cert.now) }
    ensures { IfOk result (λ read. (read.0 ≡ project.now) × (read.1 ≡ cert.now)) }
{
    let words = [name.as_str(), project.as_str(), cert.as_str()];
    match parse_two(alloc, words.as_slice()) {
        Ok((project, cert)) => Ok((Text::new(alloc, project)?, Text::new(alloc, cert)?)),
        Err(_) => Err(AllocError),
    }
}

/// The first two of the three words after the first; the last is a number.
pub fn read_three(
    alloc: Global,
    name: &Text,
    project: &Text,
    asked: &Text,
    budget: &Text,
) -> Result<(Text, Text), AllocError>
    requires project { IsTrue (is_plain project.now) }
    requires asked { IsTrue (is_plain asked.now) }
    requires budget { IsTrue (is_plain budget.now) }
    ensures { IfOk result (λ read. (read.0 ≡ project.now) × (read.1 ≡ asked.now)) }
{
    let words = [
        name.as_str(),
        project.as_str(),
        asked.as_str(),
        budget.as_str(),
    ];
    match parse_three(alloc, words.as_slice()) {
        Ok((project, asked)) => Ok((Text::new(alloc, project)?, Text::new(alloc, asked)?)),
        Err(_) => Err(AllocError),
    }
}

/// The first two of the four words after the first; the others are numbers.
pub fn read_four(
    alloc: Global,
    name: &Text,
    project: &Text,
    table: &Text,
    width: &Text,
    support: &Text,
) -> Result<(Text, Text), AllocError>
    requires project { IsTrue (is_plain project.now) }
    requires table { IsTrue (is_plain table.now) }
    requires width { IsTrue (is_plain width.now) }
    requires support { IsTrue (is_plain support.now) }
    ensures { IfOk result (λ read. (read.0 ≡ project.now) × (read.1 ≡ table.now)) }
{
    let words = [
        name.as_str(),
        project.as_str(),
        table.as_str(),
        width.as_str(),
        support.as_str(),
    ];
    match parse_four(alloc, words.as_slice()) {
        Ok((project, table)) => Ok((Text::new(alloc, project)?, Text::new(alloc, table)?)),
        Err(_) => Err(AllocError),
    }
}

// ---- commands

/// An argument without which a command refuses its words.
fn wanted<'a>(alloc: Global, id: &'a str) -> Arg<'a>
    ensures rule { rule_of result ≡ wanted id.now }
    ensures local { result.global ≡ false }
{
    Arg::new(alloc, id).required(true)
}

fn one_word<'a>(alloc: Global) -> Result<Command<'a>, AllocError>
    ensures { IfOk result (λ command. app_of command ≡ one_word) }
{
    Command::new(alloc, "run").arg(wanted(alloc, "PROJECT"))
}

fn two_words<'a>(alloc: Global) -> Result<Command<'a>, AllocError>
    ensures { IfOk result (λ command. app_of command ≡ two_words) }
{
    Command::new(alloc, "check")
        .arg(wanted(alloc, "PROJECT"))?
        .arg(wanted(alloc, "CERT"))
}

fn three_words<'a>(alloc: Global) -> Result<Command<'a>, AllocError>
    ensures { IfOk result (λ command. app_of command ≡ three_words) }
{
    Command::new(alloc, "consistent")
        .arg(wanted(alloc, "PROJECT"))?
        .arg(wanted(alloc, "ASKED"))?
        .arg(wanted(alloc, "BUDGET"))
}

fn four_words<'a>(alloc: Global) -> Result<Command<'a>, AllocError>
    ensures { IfOk result (λ command. app_of command ≡ four_words) }
{
    Command::new(alloc, "find")
        .arg(wanted(alloc, "PROJECT"))?
        .arg(wanted(alloc, "TABLE"))?
        .arg(wanted(alloc, "WIDTH"))?
        .arg(wanted(alloc, "SUPPORT"))
}

// ---- words by a command; plain words are refused for want of memory alone

fn parse_one<'a>(alloc: Global, words: &'a [&'a str]) -> Result<&'a str, Error>
    requires { ArePlain 1 (map (λ word. word.now) words.now) }
    ensures read { IfOk result (λ read. drop 1 (map (λ word. word.now) words.entry.now) ≡ read.now ∷ []) }
    ensures memory { IfErr result (λ error. kind_of error ≡ ErrorKind.OutOfMemory) }
{
    let command = one_word(alloc)?;
    let matches = command.try_get_matches_from(words)?;
    Ok(matches.get_str("PROJECT").unwrap())
}

fn parse_two<'a>(alloc: Global, words: &'a [&'a str]) -> Result<(&'a str, &'a str), Error>
    requires { ArePlain 2 (map (λ word. word.now) words.now) }
    ensures read { IfOk result (λ read. drop 1 (map (λ word. word.now) words.entry.now) ≡ read.0.now ∷ read.1.now ∷ []) }
    ensures memory { IfErr result (λ error. kind_of error ≡ ErrorKind.OutOfMemory) }
{
    let command = two_words(alloc)?;
    let matches = command.try_get_matches_from(words)?;
    let project = matches.get_str("PROJECT").unwrap();
    let cert = matches.get_str("CERT").unwrap();
    Ok((project, cert))
}

fn parse_three<'a>(alloc: Global, words: &'a [&'a str]) -> Result<(&'a str, &'a str), Error>
    requires { ArePlain 3 (map (λ word. word.now) words.now) }
    ensures read { IfOk result (λ read. take 2 (drop 1 (map (λ word. word.now) words.entry.now)) ≡ read.0.now ∷ read.1.now ∷ []) }
    ensures memory { IfErr result (λ error. kind_of error ≡ ErrorKind.OutOfMemory) }
{
    let command = three_words(alloc)?;
    let matches = command.try_get_matches_from(words)?;
    let project = matches.get_str("PROJECT").unwrap();
    let asked = matches.get_str("ASKED").unwrap();
    Ok((project, asked))
}

fn parse_four<'a>(alloc: Global, words: &'a [&'a str]) -> Result<(&'a str, &'a str), Error>
    requires { ArePlain 4 (map (λ word. word.now) words.now) }
    ensures read { IfOk result (λ read. take 2 (drop 1 (map (λ word. word.now) words.entry.now)) ≡ read.0.now ∷ read.1.now ∷ []) }
    ensures memory { IfErr result (λ error. kind_of error ≡ ErrorKind.OutOfMemory) }
{
    let command = four_words(alloc)?;
    let matches = command.try_get_matches_from(words)?;
    let project = matches.get_str("PROJECT").unwrap();
    let table = matches.get_str("TABLE").unwrap();
    Ok((project, table))
}
