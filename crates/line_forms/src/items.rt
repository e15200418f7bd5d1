//! With which tokens the parts of a line begin, and what has to follow such a token.

ghost use Rattle.std.specs.Prelude.{◌≡◌, ◌++◌, OnOk, true};
ghost use Rattle.line_grammar.specs.Marks.{same_mark};
ghost use Rattle.line_grammar.specs.Phrases.{is_file_name};
ghost use Rattle.line_forms.specs.Pieces.{begins, begins_set, behind, cell_behind, columns_behind, given_behind, is_file, is_id, is_name, is_plain_cell, is_sign, is_text, is_the_word, is_value, item_begins, item_behind, rest_of_columns, test_behind};

use crate::pieces::{Item, Piece, Word, word_text};
use line_grammar::{Mark, Token};
use std::alloc::AllocError;
use text_lists::Text;
use text_lists::bounds::{CONSTANT_BYTES, FILE_NAME_BYTES, SET_MEMBERS};

// ---- a token by itself

fn is_name(token: &Token) -> bool
    ensures { result ≡ is_name token.now }
{
    match token {
        Token::Name(_) => true,
        Token::Number(_) | Token::Quoted(_) | Token::Sign(_) => false,
    }
}

fn is_the_word(word: &str, token: &Token) -> bool
    ensures { result ≡ is_the_word word.now token.now }
{
    match token {
        Token::Name(name) => name.is(word),
        Token::Number(_) | Token::Quoted(_) | Token::Sign(_) => false,
    }
}

fn same_mark(left: Mark, right: Mark) -> bool
    ensures { result ≡ same_mark left right }
{
    left == right
}

fn is_sign(mark: Mark, token: &Token) -> bool
    ensures { result ≡ is_sign mark token.now }
{
    match token {
        Token::Sign(found) => same_mark(*found, mark),
        Token::Name(_) | Token::Number(_) | Token::Quoted(_) => false,
    }
}

fn is_text(token: &Token) -> bool
    ensures { result ≡ is_text token.now }
{
    match token {
        Token::Quoted(_) => true,
        Token::Name(_) | Token::Number(_) | Token::Sign(_) => false,
    }
}

fn is_value(token: &Token) -> bool
    ensures { result ≡ is_value token.now }
{
    match token {
        Token::Quoted(text) => text.as_str().len() <= CONSTANT_BYTES,
        Token::Name(_) | Token::Number(_) | Token::Sign(_) => false,
    }
}

fn is_file_name(text: &Text) -> bool
    ensures { result ≡ is_file_name text.now }
{
    let len = text.as_str().len();
    1 <= len && len <= FILE_NAME_BYTES
}

fn is_file(token: &Token) -> bool
    ensures { result ≡ is_file token.now }
{
    match token {
        Token::Quoted(text) => is_file_name(text),
        Token::Name(_) | Token::Number(_) | Token::Sign(_) => false,
    }
}

fn is_id(token: &Token) -> bool
    ensures { result ≡ is_id token.now }
{
    match token {
        Token::Number(number) => 1 <= *number,
        Token::Name(_) | Token::Quoted(_) | Token::Sign(_) => false,
    }
}

// ---- items

fn is_plain_cell(token: &Token) -> bool
    ensures { result ≡ is_plain_cell token.now }
{
    is_sign(Mark::Underscore, token) || is_value(token)
}

fn begins_set(token: &Token) -> bool
    ensures { result ≡ begins_set token.now }
{
    is_the_word("in", token) || is_the_word("not", token)
}

fn item_begins(item: Item, token: &Token) -> bool
    ensures { result ≡ item_begins item token.now }
{
    match item {
        Item::Name | Item::Pair | Item::Pattern | Item::Columns => is_name(token),
        Item::Value => is_value(token),
        Item::File => is_file(token),
        Item::Text => is_text(token),
        Item::Id => is_id(token),
        Item::Cell => is_plain_cell(token) || begins_set(token),
        Item::Test => is_sign(Mark::Equals, token) || is_sign(Mark::Differs, token),
        Item::Equal => is_plain_cell(token),
        Item::Given => is_sign(Mark::Equals, token) || is_name(token),
    }
}

fn push_rest_of_columns(out: &mut Vec<Piece>) -> Result<(), AllocError>
    ensures { OnOk result (out.new.items ≡ out.old.items ++ rest_of_columns) }
{
    out.extend_from_slice(&[
        Piece::More(Item::Pair),
        Piece::Word(Word::Gives),
        Piece::One(Item::Pair),
    ])
}

fn push_cell_behind(out: &mut Vec<Piece>, token: &Token) -> Result<(), AllocError>
    ensures { OnOk result (out.new.items ≡ out.old.items ++ cell_behind token.now) }
{
    if !is_name(token) {
        return Ok(());
    }
    out.extend_from_slice(&[
        Piece::Sign(Mark::OpenBrace),
        Piece::One(Item::Value),
        Piece::Members(1),
        Piece::Sign(Mark::CloseBrace),
    ])
}

fn push_test_behind(out: &mut Vec<Piece>, token: &Token) -> Result<(), AllocError>
    ensures { OnOk result (out.new.items ≡ out.old.items ++ test_behind token.now) }
{
    if is_sign(Mark::Equals, token) {
        out.extend_from_slice(&[Piece::One(Item::Equal)])
    } else {
        out.extend_from_slice(&[Piece::One(Item::Value)])
    }
}

fn push_columns_behind(out: &mut Vec<Piece>, token: &Token) -> Result<(), AllocError>
    ensures { OnOk result (out.new.items ≡ out.old.items ++ columns_behind token.now) }
{
    if is_the_word("gives", token) {
        return out.extend_from_slice(&[Piece::One(Item::Given)]);
    }
    out.extend_from_slice(&[Piece::Sign(Mark::Equals), Piece::One(Item::Name)])?;
    push_rest_of_columns(out)
}

fn push_given_behind(out: &mut Vec<Piece>, token: &Token) -> Result<(), AllocError>
    ensures { OnOk result (out.new.items ≡ out.old.items ++ given_behind token.now) }
{
    if !is_sign(Mark::Equals, token) {
        return out.extend_from_slice(&[Piece::Sign(Mark::Equals), Piece::One(Item::Name)]);
    }
    out.extend_from_slice(&[Piece::One(Item::Name)])?;
    push_rest_of_columns(out)
}

fn push_item_behind(out: &mut Vec<Piece>, item: Item, token: &Token) -> Result<(), AllocError>
    ensures { OnOk result (out.new.items ≡ out.old.items ++ item_behind item token.now) }
{
    match item {
        Item::Name | Item::Value | Item::File | Item::Text | Item::Id | Item::Equal => Ok(()),
        Item::Cell => push_cell_behind(out, token),
        Item::Pair => out.extend_from_slice(&[Piece::Sign(Mark::Equals), Piece::One(Item::Name)]),
        Item::Pattern => out.extend_from_slice(&[Piece::One(Item::Test)]),
        Item::Test => push_test_behind(out, token),
        Item::Columns => push_columns_behind(out, token),
        Item::Given => push_given_behind(out, token),
    }
}

// ---- pieces

/// Whether the piece begins with the token.
pub fn begins(piece: Piece, token: &Token) -> bool
    ensures { result ≡ begins piece token.now }
{
    match piece {
        Piece::Sign(mark) => is_sign(mark, token),
        Piece::Word(word) => is_the_word(word_text(word), token),
        Piece::One(item) | Piece::Any(item) => item_begins(item, token),
        Piece::More(_) => is_sign(Mark::Comma, token),
        Piece::Members(count) => count < SET_MEMBERS && is_sign(Mark::Comma, token),
        Piece::Domain => is_the_word("in", token),
        Piece::When => is_the_word("when", token),
    }
}

/// Adds what has to follow the first token of the piece.
pub fn push_behind(out: &mut Vec<Piece>, piece: Piece, token: &Token) -> Result<(), AllocError>
    requires { begins piece token.now ≡ true }
    ensures { OnOk result (out.new.items ≡ out.old.items ++ behind piece token.now) }
{
    match piece {
        Piece::Sign(_) | Piece::Word(_) => Ok(()),
        Piece::One(item) => push_item_behind(out, item, token),
        Piece::Any(item) => {
            push_item_behind(out, item, token)?;
            out.extend_from_slice(&[Piece::More(item)])
        }
        Piece::More(item) => out.extend_from_slice(&[Piece::One(item), Piece::More(item)]),
        Piece::Members(count) => {
            out.extend_from_slice(&[Piece::One(Item::Value), Piece::Members(count + 1)])
        }
        Piece::Domain => out.extend_from_slice(&[Piece::Any(Item::Value)]),
        Piece::When => {
            out.extend_from_slice(&[Piece::One(Item::Pattern), Piece::More(Item::Pattern)])
        }
    }
}
