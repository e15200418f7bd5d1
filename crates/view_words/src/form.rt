//! What the words of a call ask for.
ghost use Rattle.std.specs.Prelude.{◌≡◌, IfOk, slice_get};
ghost use Rattle.std.specs.Option.{option_copied};
ghost use Rattle.std.specs.List.{list_all, list_any};
ghost use Rattle.view_words.specs.Asking.{are_topic, asked_of, asks_help, check_form, first_of, fits_list, fits_page, fits_row, form_of, given_of, is_bare, is_first, is_none_of, is_one_at_most, is_form, is_help, is_helping, is_name, is_version, list_form, list_of, named_form, names_in, numbered_row, page_form, page_of, row_form, row_in, row_of, schema_form};

use crate::reading::{Given, are_words, given_of, names_in};
use call_words::number_within;
use std::alloc::{AllocError, Global};
use text_lists::{List, Text, Texts};
use view_options::{ListOptions, PageOptions, RowOptions};

/// The most that may be asked to be told.
const MOST_FIRST: u64 = 500_000;

/// The last id that a row may be asked for by.
const LAST_ROW: u64 = u64::MAX;

/// A form that words have, with what they give it.
#[derive(Drop)]
pub enum Form {
    /// `list PROJECT [--table T] [--rule R] [--first N] [--loaded]`
    List(ListOptions),
    /// `row PROJECT TABLE ROW [--vouch A,B,..] [--loaded]`
    Row(RowOptions),
    /// `check PROJECT`
    Check { project: Text },
    /// `schema FILE..`
    Schema { files: Texts },
    /// `page PROJECT [--first N] [--loaded]`
    Page(PageOptions),
}

/// What words ask for.
#[derive(Drop)]
pub enum Asked {
    Form(Form),
    /// Help or the version, of which `help_text` has the text.
    Help,
    /// Nothing that there is. `fault_text` says why.
    Nothing,
}

/// What words ask for: help, a form, or nothing that there is.
pub fn asked_of(alloc: Global, words: &[Text]) -> Result<Asked, AllocError>
    ensures { IfOk result (λ asked. asked ≡ asked_of words.now) }
{
    if asks_help(words) {
        return Ok(Asked::Help);
    }
    match form_of(alloc, words)? {
        Some(form) => Ok(Asked::Form(form)),
        None => Ok(Asked::Nothing),
    }
}

/// The form of the words, where they have one.
fn form_of(alloc: Global, words: &[Text]) -> Result<Option<Form>, AllocError>
    ensures { IfOk result (λ form. form ≡ form_of words.now) }
{
    match words {
        [name, others @ ..] if are_words(name, others) => behind(alloc, name, others),
        _ => Ok(None),
    }
}

fn behind(alloc: Global, name: &Text, words: &[Text]) -> Result<Option<Form>, AllocError>
    ensures { IfOk result (λ form. form ≡ named_form name.now (given_of name.now words.now)) }
{
    let given = given_of(alloc, name, words)?;
    named_form(alloc, name, &given)
}

fn named_form(alloc: Global, name: &Text, given: &Given) -> Result<Option<Form>, AllocError>
    ensures { IfOk result (λ form. form ≡ named_form name.now given.now) }
{
    if name.is("list") {
        list_form(given)
    } else if name.is("row") {
        row_form(alloc, given)
    } else if name.is("check") {
        check_form(given)
    } else if name.is("schema") {
        schema_form(given)
    } else if name.is("page") {
        page_form(given)
    } else {
        Ok(None)
    }
}

// ---- forms, by the words that are left over

fn list_form(given: &Given) -> Result<Option<Form>, AllocError>
    ensures { IfOk result (λ form. form ≡ list_form given.now given.now.left) }
{
    match given.left.as_slice() {
        [project] if fits_list(given) => Ok(Some(Form::List(list_of(given, project)?))),
        _ => Ok(None),
    }
}

fn fits_list(given: &Given) -> bool
    ensures { result ≡ fits_list given.now }
{
    is_one_at_most(&given.tables)
        && is_one_at_most(&given.rules)
        && is_one_at_most(&given.firsts)
        && is_first(first(&given.firsts))
        && is_none_of(&given.vouches)
        && given.loaded < 2
}

fn list_of(given: &Given, project: &Text) -> Result<ListOptions, AllocError>
    ensures { IfOk result (λ options. options ≡ list_of given.now project.now) }
{
    Ok(ListOptions {
        project: project.clone()?,
        table: copied(first(&given.tables))?,
        rule: copied(first(&given.rules))?,
        first: first_of(first(&given.firsts)),
        loaded: given.loaded == 1,
    })
}

fn row_form(alloc: Global, given: &Given) -> Result<Option<Form>, AllocError>
    ensures { IfOk result (λ form. form ≡ row_form given.now given.now.left) }
{
    match given.left.as_slice() {
        [project, table, row] => numbered_row(alloc, given, project, table, row),
        _ => Ok(None),
    }
}

fn numbered_row(
    alloc: Global,
    given: &Given,
    project: &Text,
    table: &Text,
    row: &Text,
) -> Result<Option<Form>, AllocError>
    ensures { IfOk result (λ form. form ≡ numbered_row given.now project.now table.now (row_in row.now)) }
{
    let Some(row) = number_within(1, LAST_ROW, row) else {
        return Ok(None);
    };
    let vouch = names_of(alloc, first(&given.vouches))?;
    if fits_row(given, &vouch) {
        let options = row_of(given, project, table, row, vouch)?;
        Ok(Some(Form::Row(options)))
    } else {
        Ok(None)
    }
}

fn fits_row(given: &Given, vouch: &Texts) -> bool
    requires { vouch.now ≡ names_in (slice_get given.now.vouches 0) }
    ensures { result ≡ fits_row given.now }
{
    is_none_of(&given.tables)
        && is_none_of(&given.rules)
        && is_none_of(&given.firsts)
        && is_one_at_most(&given.vouches)
        && are_names(vouch)
        && given.loaded < 2
}

fn row_of(
    given: &Given,
    project: &Text,
    table: &Text,
    row: u64,
    vouch: Texts,
) -> Result<RowOptions, AllocError>
    requires { vouch ≡ names_in (slice_get given.now.vouches 0) }
    ensures { IfOk result (λ options. options ≡ row_of given.now project.now table.now row) }
{
    Ok(RowOptions {
        project: project.clone()?,
        table: table.clone()?,
        row,
        vouch,
        loaded: given.loaded == 1,
    })
}

fn check_form(given: &Given) -> Result<Option<Form>, AllocError>
    ensures { IfOk result (λ form. form ≡ check_form given.now given.now.left) }
{
    match given.left.as_slice() {
        [project] if is_bare(given) => Ok(Some(Form::Check {
            project: project.clone()?,
        })),
        _ => Ok(None),
    }
}

fn schema_form(given: &Given) -> Result<Option<Form>, AllocError>
    ensures { IfOk result (λ form. form ≡ schema_form given.now given.now.left) }
{
    match given.left.as_slice() {
        [_, ..] if is_bare(given) => Ok(Some(Form::Schema {
            files: given.left.copied()?,
        })),
        _ => Ok(None),
    }
}

fn is_bare(given: &Given) -> bool
    ensures { result ≡ is_bare given.now }
{
    is_none_of(&given.tables)
        && is_none_of(&given.rules)
        && is_none_of(&given.firsts)
        && is_none_of(&given.vouches)
        && given.loaded == 0
}

fn page_form(given: &Given) -> Result<Option<Form>, AllocError>
    ensures { IfOk result (λ form. form ≡ page_form given.now given.now.left) }
{
    match given.left.as_slice() {
        [project] if fits_page(given) => Ok(Some(Form::Page(page_of(given, project)?))),
        _ => Ok(None),
    }
}

fn fits_page(given: &Given) -> bool
    ensures { result ≡ fits_page given.now }
{
    is_none_of(&given.tables)
        && is_none_of(&given.rules)
        && is_one_at_most(&given.firsts)
        && is_first(first(&given.firsts))
        && is_none_of(&given.vouches)
        && given.loaded < 2
}

fn page_of(given: &Given, project: &Text) -> Result<PageOptions, AllocError>
    ensures { IfOk result (λ options. options ≡ page_of given.now project.now) }
{
    Ok(PageOptions {
        project: project.clone()?,
        first: first_of(first(&given.firsts)),
        loaded: given.loaded == 1,
    })
}

// ---- the values of options

fn first(texts: &Texts) -> Option<&Text>
    ensures { option_copied result ≡ slice_get texts.now 0 }
{
    texts.as_slice().first()
}

fn copied(text: Option<&Text>) -> Result<Option<Text>, AllocError>
    ensures { IfOk result (λ copy. copy ≡ option_copied text.entry) }
{
    match text {
        Some(text) => Ok(Some(text.clone()?)),
        None => Ok(None),
    }
}

fn is_none_of(texts: &Texts) -> bool
    ensures { result ≡ is_none_of texts.now }
{
    texts.as_slice().is_empty()
}

fn is_one_at_most(texts: &Texts) -> bool
    ensures { result ≡ is_one_at_most texts.now }
{
    texts.as_slice().len() < 2
}

fn first_of(word: Option<&Text>) -> Option<u64>
    ensures { result ≡ first_of (option_copied word.entry) }
{
    number_within(1, MOST_FIRST, word?)
}

fn is_first(word: Option<&Text>) -> bool
    ensures { result ≡ is_first (option_copied word.entry) }
{
    match word {
        Some(word) => number_within(1, MOST_FIRST, word).is_some(),
        None => true,
    }
}

fn names_of(alloc: Global, list: Option<&Text>) -> Result<Texts, AllocError>
    ensures { IfOk result (λ names. names ≡ names_in (option_copied list.entry)) }
{
    match list {
        Some(list) => names_in(alloc, list.as_str()),
        None => Ok(List::new(alloc)),
    }
}

fn are_names(names: &Texts) -> bool
    ensures { result ≡ list_all is_name names.now }
{
    names
        .as_slice()
        .iter()
        .all(|name| !name.as_str().is_empty())
}

// ---- help

/// Whether words ask for help or for the version.
fn asks_help(words: &[Text]) -> bool
    ensures { result ≡ asks_help words.now }
{
    match words {
        [] => false,
        [first, others @ ..] => has_help(words) || is_helping(first, others),
    }
}

fn has_help(words: &[Text]) -> bool
    ensures { result ≡ list_any is_help words.now }
{
    words.iter().any(|word| is_help(word.as_str()))
}

fn is_help(word: &str) -> bool
    ensures { result ≡ is_help word.now }
{
    word == "--help" || word == "-h"
}

fn is_helping(word: &Text, others: &[Text]) -> bool
    ensures { result ≡ is_helping word.now others.now }
{
    is_version(word) || word.is("help") && are_topic(others)
}

pub(crate) fn is_version(word: &Text) -> bool
    ensures { result ≡ is_version word.now }
{
    word.is("--version") || word.is("-V")
}

fn are_topic(words: &[Text]) -> bool
    ensures { result ≡ are_topic words.now }
{
    match words {
        [] => true,
        [topic] => is_form(topic),
        [_, _, ..] => false,
    }
}

/// Whether it is the name of a form.
pub(crate) fn is_form(word: &Text) -> bool
    ensures { result ≡ is_form word.now }
{
    word.is("list") || word.is("row") || word.is("check") || word.is("schema") || word.is("page")
}
