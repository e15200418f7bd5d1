//! Whether a line has a form of its place, or where it leaves it.

ghost use Rattle.std.specs.Prelude.{◌≡◌, IfOk, drop, option_and_then};
ghost use Rattle.std.specs.List.{list_all};
ghost use Rattle.line_grammar.specs.Leads.{are_tokens, given};
ghost use Rattle.line_forms.specs.Fits.{fit_at, fit_of, fit_with, is_whole};
ghost use Rattle.line_forms.specs.Forms.{first_word, form_named};
ghost use Rattle.line_forms.specs.Pieces.{may_lack};

use crate::form::{Form, form_named};
use crate::going::{Gone, how_far};
use crate::pieces::{Piece, may_lack};
use crate::place::{Place, first_word, given};
use line_grammar::{LineTokens, Token, read_tokens};
use std::alloc::{AllocError, Global};

/// How a line stands to the forms of its place.
#[derive(Clone, Copy, PartialEq, Eq)]
pub enum Fit {
    /// No form there has its first word.
    Nowhere,
    /// It leaves the form behind so many tokens.
    Leaves { form: Form, at: usize },
    /// It has the form.
    Whole(Form),
}

fn are_tokens(tokens: &LineTokens) -> bool
    ensures { result ≡ are_tokens tokens.now }
{
    match tokens {
        LineTokens::Passed | LineTokens::NotUtf8 | LineTokens::BadTokens(_) => false,
        LineTokens::Tokens(_) => true,
    }
}

fn may_all_lack(left: &[Piece]) -> bool
    ensures { result ≡ list_all may_lack left.now }
{
    for piece in left {
        if !may_lack(*piece) {
            return false;
        }
    }
    true
}

fn is_whole(tokens: &LineTokens, gone: &Gone) -> bool
    ensures { result ≡ is_whole tokens.now gone.now }
{
    are_tokens(tokens) && gone.passed == given(tokens).len() && may_all_lack(gone.left.as_slice())
}

fn behind_first(tokens: &[Token]) -> &[Token]
    ensures { result.now ≡ drop 1 tokens.now }
{
    match tokens {
        [] => &[],
        [_, others @ ..] => others,
    }
}

fn fit_with(alloc: Global, tokens: &LineTokens, form: Form) -> Result<Fit, AllocError>
    ensures { IfOk result (λ fit. fit ≡ fit_with tokens.now form) }
{
    let gone = how_far(alloc, form, behind_first(given(tokens)))?;
    if is_whole(tokens, &gone) {
        Ok(Fit::Whole(form))
    } else {
        Ok(Fit::Leaves {
            form,
            at: gone.passed,
        })
    }
}

fn lead_form(place: Place, tokens: &[Token]) -> Option<Form>
    ensures { result ≡ option_and_then (form_named place) (first_word tokens.now) }
{
    match first_word(tokens) {
        Some(word) => form_named(place, word),
        None => None,
    }
}

fn fit_of(alloc: Global, place: Place, tokens: &LineTokens) -> Result<Fit, AllocError>
    ensures { IfOk result (λ fit. fit ≡ fit_of place tokens.now) }
{
    match lead_form(place, given(tokens)) {
        Some(form) => fit_with(alloc, tokens, form),
        None => Ok(Fit::Nowhere),
    }
}

/// How a line stands to the forms of its place.
pub fn fit_at(alloc: Global, place: Place, line: &[u8]) -> Result<Fit, AllocError>
    ensures { IfOk result (λ found. found ≡ fit_at place line.now) }
{
    let tokens = read_tokens(alloc, line)?;
    fit_of(alloc, place, &tokens)
}
