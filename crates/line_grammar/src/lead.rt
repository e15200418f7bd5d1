//! A token as it stands in the bytes of a line. It takes no memory.

ghost use Rattle.std.specs.Prelude.{◌≡◌};
ghost use Rattle.line_grammar.specs.Tokens.{is_word};
ghost use Rattle.line_grammar.specs.Leads.{token_of};

use crate::tokens::Mark;

/// `Name` holds the bytes of the name. `Quoted` holds the bytes behind the opening quote, up to the end of the line.
#[derive(Clone, Copy)]
pub enum Lead<'a> {
    Name(&'a [u8]),
    Number(u64),
    Quoted(&'a [u8]),
    Sign(Mark),
}

impl<'a> Lead<'a> {
    /// Whether it is a name or a number.
    #[inline(always)]
    pub fn is_word(&self) -> bool
        ensures { result ≡ is_word (token_of self.now) }
    {
        matches!(self, Lead::Name(_) | Lead::Number(_))
    }
}
