//! What is told of help, and of words that ask for nothing that there is.
use crate::command::view_command;
use crate::form::{is_form, is_version};
use clap::error::ErrorKind;
use clap::{Command, Error};
use std::alloc::{AllocError, Global};
use text_lists::Text;

/// What `clap` lets pass and no form has.
const NO_FORM: &str =
    "these words have no form: numbers begin with no zero, and no word, value or name is empty or begins with '-'";

/// The help that words ask for, or the version.
pub fn help_text(alloc: Global, words: &[Text]) -> Result<String, AllocError> {
    match words {
        [first, ..] if is_version(first) => text_of(alloc, &["cfdview", "--version"]),
        [first, ..] if is_form(first) => text_of(alloc, &["cfdview", first.as_str(), "--help"]),
        [first, topic] if first.is("help") => {
            text_of(alloc, &["cfdview", topic.as_str(), "--help"])
        }
        _ => text_of(alloc, &["cfdview", "--help"]),
    }
}

/// What is wrong with words that ask for nothing that there is, and which words there are.
pub fn fault_text(alloc: Global, words: &[Text]) -> Result<String, AllocError> {
    let mut all = Vec::new(alloc);
    all.push("cfdview")?;
    for word in words {
        all.push(word.as_str())?;
    }
    text_of(alloc, &all)
}

fn text_of(alloc: Global, words: &[&str]) -> Result<String, AllocError> {
    let mut command = view_command(alloc)?;
    let text = text_by(alloc, &mut command, words);
    drop(command);
    text
}

fn text_by<'a>(
    alloc: Global,
    command: &mut Command<'a>,
    words: &'a [&str],
) -> Result<String, AllocError> {
    let error = match command.try_get_matches_from_mut(words) {
        Ok(_) => command.error(ErrorKind::ValueValidation, NO_FORM)?,
        Err(error) => error,
    };
    without_tips(alloc, &error)
}

/// The text of an error. What names are like the ones that were written is not told.
fn without_tips(alloc: Global, error: &Error) -> Result<String, AllocError> {
    let text = format!(in alloc; "{error}")?;
    let mut kept = String::new(alloc);
    let mut is_passed = false;
    for line in text.split('\n') {
        let is_tip = line.starts_with("  tip:");
        if !is_tip && !(is_passed && line.is_empty()) {
            kept.push_str(line)?;
            kept.push('\n')?;
        }
        is_passed = is_tip;
    }
    Ok(kept)
}
