//! A line as the list of its tokens.

ghost use Rattle.std.specs.Prelude.{◌≡◌, IfOk};
ghost use Rattle.line_grammar.specs.Tokens.{line_tokens};
ghost use Rattle.line_grammar.specs.GoodTokens.{HasGoodTokens};

use crate::line_reading::content_of;
use crate::tokens::LineTokens;
use std::alloc::{AllocError, Global};

/// What a line without its end is.
pub fn read_tokens(alloc: Global, line: &[u8]) -> Result<LineTokens, AllocError>
    ensures tokens { IfOk result (λ found. found ≡ line_tokens line.now) }
    ensures good { IfOk result HasGoodTokens }
{
    let Some(content) = content_of(alloc, line) else {
        return Ok(LineTokens::Passed);
    };
    let Some(tokens) = content.tokens() else {
        return Ok(LineTokens::NotUtf8);
    };
    let tokens = tokens.owned()?;
    if content.is_token_list() {
        Ok(LineTokens::Tokens(tokens))
    } else {
        Ok(LineTokens::BadTokens(tokens))
    }
}
