//! What can be read off the front of tokens: a rule of a grammar.

ghost use Rattle.std.specs.Prelude.{◌≡◌, ◌<◌, List, length, IfOk, Some};
ghost use Rattle.line_grammar.specs.TokenLists.{Reader};
ghost use Rattle.line_grammar.specs.Phrases.{Reads};
ghost use Rattle.line_grammar.specs.declared.tokens.Token.{Token};

use crate::cursor::Tokens;
use crate::unread::Unread;
use std::alloc::Global;

/// A rule of a grammar.
pub trait Phrase {
    type Value: Drop;

    // What the rule reads, and what is true of every value that is read off a line.
    ghost reads: { Reader Self.Value };

    ghost is_fit: { Self.Value → Type 0 };

    /// Reads it off the front. Where it is absent, some of its tokens may be gone.
    fn take(alloc: Global, tokens: &mut Tokens<'_>) -> Result<Self::Value, Unread>
        ensures exact { Reads reads tokens.old tokens.new result }
        ensures fit { IfOk result is_fit };
}

/// A rule that takes at least one token, so that a list of it comes to an end.
pub trait ListItem: Phrase {
    ghost takes: { (tokens rest : List Token) (x : Self.Value) → Self.reads tokens ≡ Some (x, rest) → length rest < length tokens };
}
