//! What the words behind the first one give: the values of options, and the words that are left over.
ghost use Rattle.std.specs.Prelude.{◌≡◌, ◌++◌, IfOk, OnOk, count_by, map};
ghost use Rattle.std.specs.List.{slice_split};
ghost use Rattle.view_words.specs.Asking.{given_of, is_comma};
ghost use Rattle.view_words.specs.Words.{are_words, cut, is_flag, left_at, left_over, value_at, value_with, values};

use crate::words::{cut, fits, is_flag, is_plain, wants_value};
use std::alloc::{AllocError, Global};
use text_lists::{List, Text, Texts};

/// What words give that were told apart.
#[derive(Drop)]
pub struct Given {
    /// The words that are neither options nor values, in their order.
    pub left: Texts,
    /// The values of each option, in the order in which they stand.
    pub tables: Texts,
    pub rules: Texts,
    pub firsts: Texts,
    pub vouches: Texts,
    /// How often `--loaded` stands there.
    pub loaded: usize,
}

/// What the words behind the first one give.
pub fn given_of(alloc: Global, first: &Text, words: &[Text]) -> Result<Given, AllocError>
    ensures { IfOk result (λ given. given ≡ given_of first.now words.now) }
{
    Ok(Given {
        left: left_over(alloc, first, words)?,
        tables: values(alloc, "--table", first, words)?,
        rules: values(alloc, "--rule", first, words)?,
        firsts: values(alloc, "--first", first, words)?,
        vouches: values(alloc, "--vouch", first, words)?,
        loaded: flag_count(words),
    })
}

/// Whether each word behind the first one is an option, a value behind one that wants it, or a plain one.
pub fn are_words(first: &Text, words: &[Text]) -> bool
    ensures { result ≡ are_words first.now words.now }
{
    let mut before = first;
    for word in words {
        if !fits(before.as_str(), word.as_str()) {
            return false;
        }
        before = word;
    }
    !wants_value(before.as_str())
}

fn left_over(alloc: Global, first: &Text, words: &[Text]) -> Result<Texts, AllocError>
    ensures { IfOk result (λ left. left ≡ left_over first.now words.now) }
{
    let mut left = List::new(alloc);
    let mut before = first;
    for word in words {
        push_left(&mut left, before, word)?;
        before = word;
    }
    Ok(left)
}

fn push_left(left: &mut Texts, before: &Text, word: &Text) -> Result<(), AllocError>
    ensures { OnOk result (left.new ≡ left.old ++ left_at before.now word.now) }
{
    if is_plain(word.as_str()) && !wants_value(before.as_str()) {
        left.push(word.clone()?)?;
    }
    Ok(())
}

fn values(alloc: Global, name: &str, first: &Text, words: &[Text]) -> Result<Texts, AllocError>
    ensures { IfOk result (λ found. found ≡ values name.now first.now words.now) }
{
    let mut found = List::new(alloc);
    let mut before = first;
    for word in words {
        push_value(alloc, &mut found, name, before, word)?;
        before = word;
    }
    Ok(found)
}

fn push_value(
    alloc: Global,
    found: &mut Texts,
    name: &str,
    before: &Text,
    word: &Text,
) -> Result<(), AllocError>
    ensures { OnOk result (found.new ≡ found.old ++ value_at name.now before.now word.now) }
{
    if before.is(name) {
        found.push(word.clone()?)
    } else {
        push_value_with(alloc, found, name, word.as_str())
    }
}

fn push_value_with(
    alloc: Global,
    found: &mut Texts,
    name: &str,
    word: &str,
) -> Result<(), AllocError>
    ensures { OnOk result (found.new ≡ found.old ++ value_with name.now (cut word.now)) }
{
    match cut(word) {
        Some((option, value)) if option == name => found.push(Text::new(alloc, value)?),
        _ => Ok(()),
    }
}

fn flag_count(words: &[Text]) -> usize
    ensures { result ≡ count_by is_flag words.now }
{
    words.iter().filter(|word| is_flag(word.as_str())).count()
}

/// The names in a list that commas part.
pub fn names_in(alloc: Global, list: &str) -> Result<Texts, AllocError>
    ensures { IfOk result (λ names. names ≡ slice_split is_comma list.now) }
{
    let names = cut_at_commas(alloc, list)?;
    texts_of(alloc, &names)
}

fn cut_at_commas(alloc: Global, list: &str) -> Result<Vec<&str>, AllocError>
    ensures { IfOk result (λ names. map (λ name. name.now) names.items ≡ slice_split is_comma list.now) }
{
    list.split(',').collect(alloc)
}

fn texts_of(alloc: Global, words: &[&str]) -> Result<Texts, AllocError>
    ensures { IfOk result (λ texts. texts ≡ map (λ word. word.now) words.now) }
{
    let mut texts = List::new(alloc);
    for word in words {
        texts.push(Text::new(alloc, word)?)?;
    }
    Ok(texts)
}
