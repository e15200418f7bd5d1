//! What the words of a call ask for.
ghost use Rattle.std.specs.Prelude.{◌≡◌, ◌∷◌, [], None, IfOk, IfSome, IsOk, IsTrue};
ghost use Rattle.call_words.specs.Words.{HasForm, IsFit, file_form, form_of, generate_form, is_plain, named_form};

use crate::numbers::number_within;
use crate::words::{read_four, read_one, read_three, read_two};
use std::alloc::{AllocError, Global};
use text_lists::Text;

/// What the words ask for, with the words after the first.
#[derive(Drop)]
pub enum Form {
    /// `run PROJECT`
    Run {
        project: Text,
    },
    /// `report PROJECT`
    Report {
        project: Text,
    },
    /// `consistent PROJECT TABLE BUDGET`
    Consistent {
        project: Text,
        table: Text,
        budget: u64,
    },
    /// `implies PROJECT DEP BUDGET`
    Implies {
        project: Text,
        dep: Text,
        budget: u64,
    },
    /// `cover PROJECT TABLE BUDGET`
    Cover {
        project: Text,
        table: Text,
        budget: u64,
    },
    /// `check PROJECT CERT`
    Check {
        project: Text,
        cert: Text,
    },
    /// `find PROJECT TABLE WIDTH SUPPORT`
    Find {
        project: Text,
        table: Text,
        width: u64,
        support: u64,
    },
    /// `desk PROJECT EVENTS`
    Desk {
        project: Text,
        events: Text,
    },
    /// `generate N`, the number being that off which a project is drawn
    Generate {
        seed: u64,
    },
}

/// The most leaves that a search may be given.
const MOST_LEAVES: u64 = 1_000_000;

/// The most attributes on the left of what is found.
const WIDEST: u64 = 3;

/// The most rows that a constant dependency may be asked to match.
const MOST_SUPPORT: u64 = 500_000;

/// The last number off which a project is drawn.
const LAST_SEED: u64 = 999_999_999;

/// The form of the words, where they have one. Words without a form take no memory.
pub fn form_of(alloc: Global, words: &[Text]) -> Result<Option<Form>, AllocError>
    ensures form { IfOk result (λ form. form ≡ form_of words.now) }
    ensures formless { (HasForm words.now → ⊥) → IsOk result }
    ensures fit { IfOk result (λ form. IfSome form IsFit) }
{
    match words {
        [name, word] if is_plain(word) => one_word_form(alloc, name, word),
        [name, project, file] if is_plain(project) && is_plain(file) => {
            file_form(alloc, name, project, file)
        }
        [name, project, asked, budget]
            if is_plain(project) && is_plain(asked) && is_plain(budget) => {
            question_form(alloc, name, project, asked, budget)
        }
        [name, project, table, width, support]
            if is_plain(project) && is_plain(table) && is_plain(width) && is_plain(support) => {
            find_form(alloc, name, project, table, width, support)
        }
        _ => Ok(None),
    }
}

/// The form of that name with one word behind it.
fn one_word_form(alloc: Global, name: &Text, word: &Text) -> Result<Option<Form>, AllocError>
    requires { IsTrue (is_plain word.now) }
    ensures form { IfOk result (λ form. form ≡ named_form name.now (word.now ∷ [])) }
    ensures formless { named_form name.now (word.now ∷ []) ≡ None → IsOk result }
    ensures fit { IfOk result (λ form. IfSome form IsFit) }
{
    if name.is("run") {
        let project = read_one(alloc, name, word)?;
        Ok(Some(Form::Run { project }))
    } else if name.is("report") {
        let project = read_one(alloc, name, word)?;
        Ok(Some(Form::Report { project }))
    } else if name.is("generate") {
        generate_form(alloc, name, word)
    } else {
        Ok(None)
    }
}

fn generate_form(alloc: Global, name: &Text, word: &Text) -> Result<Option<Form>, AllocError>
    requires { IsTrue (is_plain word.now) }
    ensures form { IfOk result (λ form. form ≡ generate_form word.now) }
    ensures formless { generate_form word.now ≡ None → IsOk result }
    ensures fit { IfOk result (λ form. IfSome form IsFit) }
{
    let Some(seed) = number_within(0, LAST_SEED, word) else {
        return Ok(None);
    };
    // The number is known; the words are read all the same, as those of every form are.
    read_one(alloc, name, word)?;
    Ok(Some(Form::Generate { seed }))
}

fn file_form(
    alloc: Global,
    name: &Text,
    project: &Text,
    file: &Text,
) -> Result<Option<Form>, AllocError>
    requires project { IsTrue (is_plain project.now) }
    requires file { IsTrue (is_plain file.now) }
    ensures form { IfOk result (λ form. form ≡ file_form name.now project.now file.now) }
    ensures formless { file_form name.now project.now file.now ≡ None → IsOk result }
    ensures fit { IfOk result (λ form. IfSome form IsFit) }
{
    if name.is("check") {
        let (project, cert) = read_two(alloc, name, project, file)?;
        Ok(Some(Form::Check { project, cert }))
    } else if name.is("desk") {
        let (project, events) = read_two(alloc, name, project, file)?;
        Ok(Some(Form::Desk { project, events }))
    } else {
        Ok(None)
    }
}

fn question_form(
    alloc: Global,
    name: &Text,
    project: &Text,
    asked: &Text,
    budget: &Text,
) -> Result<Option<Form>, AllocError>
    requires project { IsTrue (is_plain project.now) }
    requires asked { IsTrue (is_plain asked.now) }
    requires budget { IsTrue (is_plain budget.now) }
    ensures form { IfOk result (λ form. form ≡ named_form name.now (project.now ∷ asked.now ∷ budget.now ∷ [])) }
    ensures formless { named_form name.now (project.now ∷ asked.now ∷ budget.now ∷ []) ≡ None → IsOk result }
    ensures fit { IfOk result (λ form. IfSome form IsFit) }
{
    let Some(leaves) = number_within(1, MOST_LEAVES, budget) else {
        return Ok(None);
    };
    if name.is("consistent") {
        let (project, table) = read_three(alloc, name, project, asked, budget)?;
        Ok(Some(Form::Consistent {
            project,
            table,
            budget: leaves,
        }))
    } else if name.is("implies") {
        let (project, dep) = read_three(alloc, name, project, asked, budget)?;
        Ok(Some(Form::Implies {
            project,
            dep,
            budget: leaves,
        }))
    } else if name.is("cover") {
        let (project, table) = read_three(alloc, name, project, asked, budget)?;
        Ok(Some(Form::Cover {
            project,
            table,
            budget: leaves,
        }))
    } else {
        Ok(None)
    }
}

fn find_form(
    alloc: Global,
    name: &Text,
    project: &Text,
    table: &Text,
    width: &Text,
    support: &Text,
) -> Result<Option<Form>, AllocError>
    requires project { IsTrue (is_plain project.now) }
    requires table { IsTrue (is_plain table.now) }
    requires width { IsTrue (is_plain width.now) }
    requires support { IsTrue (is_plain support.now) }
    ensures form { IfOk result (λ form. form ≡ named_form name.now (project.now ∷ table.now ∷ width.now ∷ support.now ∷ [])) }
    ensures formless { named_form name.now (project.now ∷ table.now ∷ width.now ∷ support.now ∷ []) ≡ None → IsOk result }
    ensures fit { IfOk result (λ form. IfSome form IsFit) }
{
    let Some(attrs) = number_within(1, WIDEST, width) else {
        return Ok(None);
    };
    let Some(rows) = number_within(1, MOST_SUPPORT, support) else {
        return Ok(None);
    };
    if name.is("find") {
        let (project, table) = read_four(alloc, name, project, table, width, support)?;
        Ok(Some(Form::Find {
            project,
            table,
            width: attrs,
            support: rows,
        }))
    } else {
        Ok(None)
    }
}

fn is_plain(word: &Text) -> bool
    ensures { result ≡ is_plain word.now }
{
    match word.as_str().as_bytes() {
        [] => false,
        [first, ..] => *first != b'-',
    }
}
