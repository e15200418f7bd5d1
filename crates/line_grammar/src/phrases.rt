//! The rules that lists are made of in most grammars.

ghost use Rattle.std.specs.Str.{IsUtf8};
ghost use Rattle.text_lists.specs.Names.{IsName, IsConstant};
ghost use Rattle.line_grammar.specs.Phrases.{name_at, text_at, constant_at};
ghost use Rattle.line_grammar.specs.Takes.{name_at-takes, text_at-takes, constant_at-takes};

use crate::cursor::Tokens;
use crate::phrase::{ListItem, Phrase};
use crate::unread::Unread;
use std::alloc::Global;
use text_lists::Text;

/// NAME.
pub struct Name;

/// TEXT, of any length.
pub struct Quoted;

/// VALUE, a text of at most 1,024 bytes.
pub struct Constant;

impl Phrase for Name {
    type Value = Text;

    ghost reads = { name_at };

    ghost is_fit = { IsName };

    fn take(_alloc: Global, tokens: &mut Tokens<'_>) -> Result<Text, Unread> {
        tokens.name()
    }
}

impl ListItem for Name {
    ghost takes = { name_at-takes };
}

impl Phrase for Quoted {
    type Value = Text;

    ghost reads = { text_at };

    ghost is_fit = { IsUtf8 };

    fn take(_alloc: Global, tokens: &mut Tokens<'_>) -> Result<Text, Unread> {
        tokens.text()
    }
}

impl ListItem for Quoted {
    ghost takes = { text_at-takes };
}

impl Phrase for Constant {
    type Value = Text;

    ghost reads = { constant_at };

    ghost is_fit = { IsConstant };

    fn take(_alloc: Global, tokens: &mut Tokens<'_>) -> Result<Text, Unread> {
        tokens.constant()
    }
}

impl ListItem for Constant {
    ghost takes = { constant_at-takes };
}
