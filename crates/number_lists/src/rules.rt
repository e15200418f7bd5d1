//! The rules of the grammar. Each is a type without fields, with what it reads and the code that reads it.

ghost use Rattle.std.specs.Prelude.{⊤};
ghost use Rattle.number_lists.specs.NumberLists.{list_at_front};
ghost use Rattle.number_lists.specs.Numbers.{number_at-takes};
ghost use Rattle.line_grammar.specs.Phrases.{number_at};

use line_grammar::{ListItem, Mark, Phrase, Tokens, Unread};
use std::alloc::Global;
use text_lists::{List, Text};

/// A line of the file.
#[derive(Drop)]
pub struct NumberList {
    pub name: Text,
    pub numbers: List<u64>,
}

/// NUMBER.
pub struct Number;

/// NAME: LIST1(NUMBER).
pub struct ListLine;

impl Phrase for Number {
    type Value = u64;

    ghost reads = { number_at };

    ghost is_fit = { λ _. ⊤ };

    fn take(_alloc: Global, tokens: &mut Tokens<'_>) -> Result<u64, Unread> {
        tokens.number()
    }
}

impl ListItem for Number {
    ghost takes = { number_at-takes };
}

impl Phrase for ListLine {
    type Value = NumberList;

    ghost reads = { list_at_front };

    ghost is_fit = { λ _. ⊤ };

    #[tactic(auto, unfolding(crate::specs::NumberLists::list_at_front))]
    fn take(alloc: Global, tokens: &mut Tokens<'_>) -> Result<NumberList, Unread> {
        let name = tokens.name()?;
        tokens.mark(Mark::Colon)?;
        let numbers = tokens.list1::<Number>(alloc)?;
        Ok(NumberList { name, numbers })
    }
}
