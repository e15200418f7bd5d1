//! How far tokens go along with pieces.

ghost use Rattle.std.specs.Prelude.{◌≡◌, ◌++◌, IfOk, true};
ghost use Rattle.line_forms.specs.Forms.{pieces_of};
ghost use Rattle.line_forms.specs.Going.{goes, past};
ghost use Rattle.line_forms.specs.Pieces.{begins, behind};

use crate::form::{Form, push_pieces};
use crate::items::{begins, push_behind};
use crate::pieces::{Piece, may_lack};
use line_grammar::Token;
use std::alloc::{AllocError, Global};
use text_lists::List;

/// How many tokens went along, and the pieces from there on.
#[derive(Drop)]
pub struct Gone {
    pub passed: usize,
    pub left: List<Piece>,
}

/// The pieces behind a token, where pieces may stand from it on.
fn past(alloc: Global, token: &Token, left: &[Piece]) -> Result<Option<List<Piece>>, AllocError>
    ensures { IfOk result (λ next. next ≡ past token.now left.now) }
{
    let mut rest = left;
    while let Some((piece, others)) = rest.split_first() {
        if begins(*piece, token) {
            return Ok(Some(joined(alloc, token, *piece, others)?));
        }
        if !may_lack(*piece) {
            return Ok(None);
        }
        rest = others;
    }
    Ok(None)
}

fn joined(
    alloc: Global,
    token: &Token,
    piece: Piece,
    others: &[Piece],
) -> Result<List<Piece>, AllocError>
    requires { begins piece token.now ≡ true }
    ensures { IfOk result (λ next. next ≡ behind piece token.now ++ others.now) }
{
    let mut next = Vec::new(alloc);
    push_behind(&mut next, piece, token)?;
    next.extend_from_slice(others)?;
    Ok(List::from(next))
}

fn pieces_of(alloc: Global, form: Form) -> Result<List<Piece>, AllocError>
    ensures { IfOk result (λ pieces. pieces ≡ pieces_of form) }
{
    let mut pieces = Vec::new(alloc);
    push_pieces(&mut pieces, form)?;
    Ok(List::from(pieces))
}

/// How far tokens behind the first word of a line go along with its form. That word is the first that does.
pub fn how_far(alloc: Global, form: Form, tokens: &[Token]) -> Result<Gone, AllocError>
    ensures { IfOk result (λ gone. gone ≡ goes 1 (pieces_of form) tokens.now) }
{
    let mut left = pieces_of(alloc, form)?;
    let mut passed = 1;
    for token in tokens {
        match past(alloc, token, left.as_slice())? {
            Some(next) => left = next,
            None => return Ok(Gone { passed, left }),
        }
        passed += 1;
    }
    Ok(Gone { passed, left })
}
