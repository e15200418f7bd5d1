//! All lines of a file.

ghost use Rattle.std.specs.Prelude.{⊤};
ghost use Rattle.number_lists.specs.NumberLists.{number_causes, with_line, lists_of};
ghost use Rattle.number_lists.specs.declared.rules.NumberList.{NumberList as AnyList};
ghost use Rattle.line_grammar.specs.Faults.{IsUnlessMemory, line_tells};

use crate::rules::{ListLine, NumberList};
use line_grammar::{Gather, Line, LineCause, LineFault, read_lines};
use std::alloc::Global;
use text_lists::List;

/// What is wrong with a line. This grammar has no other causes than every grammar has.
#[derive(Clone, Copy, PartialEq, Eq)]
pub enum NumberCause {
    NotUtf8,
    BadLine,
}

/// The first faulty line, or want of memory.
pub type NumberFault = LineFault<NumberCause>;

impl LineCause for NumberCause {
    ghost causes = { number_causes };

    fn not_utf8() -> NumberCause {
        NumberCause::NotUtf8
    }

    fn bad_line() -> NumberCause {
        NumberCause::BadLine
    }
}

/// The lists of the lines so far.
#[derive(Drop)]
struct Lists {
    lists: List<NumberList>,
}

impl<'a> Gather<Line<'a>> for Lists {
    type Cause = NumberCause;

    ghost use Rattle.std.specs.Prelude.{List};

    ghost Gathered = { List AnyList };

    ghost Made = { ⊤ };

    ghost gathered = { λ all. all.lists };

    ghost made = { λ _. tt };

    ghost with_item = { λ _ earlier line. with_line earlier line };

    ghost is_fit = { λ _ _. ⊤ };

    fn add(&mut self, alloc: Global, line: Line<'a>) -> Result<(), NumberFault> {
        let list = line.read::<ListLine, NumberCause>(alloc)?;
        self.lists.push(list)?;
        Ok(())
    }
}

/// The lists that a file spells, in order, or its first faulty line.
#[tactic(auto, unfolding(crate::specs::NumberLists::lists_of))]
pub fn parse_lists(alloc: Global, bytes: &[u8]) -> Result<List<NumberList>, NumberFault>
    ensures { IsUnlessMemory line_tells (lists_of bytes.now) result }
{
    let mut all = Lists {
        lists: List::new(alloc),
    };
    read_lines(alloc, &mut all, bytes)?;
    Ok(all.lists)
}
