//! What takes the lines of a list one by one, where no list of them is needed.

ghost use Rattle.std.specs.Prelude.{◌≡◌, ◌++◌, List, [], ◌∷◌, OnOk};
ghost use Rattle.rule_model.specs.Books.{Book};
ghost use Rattle.violation_report.specs.Taking.{Takes};
ghost use Rattle.violation_report.specs.Text.{IsLineOf};
ghost use Rattle.violation_report.specs.declared.line.Line.{Line};

use crate::line::{Line, push_line};
use rule_model::RuleBook;
use schema_core::List;
use std::alloc::AllocError;

pub(crate) trait Taker {
    /// From the one to the other exactly these lines were put.
    ghost Took: { Book → Self → List Line → Self → Type 0 };

    fn put(&mut self, rules: &RuleBook, line: Line) -> Result<(), AllocError>
        requires { IsLineOf rules.now line }
        ensures { OnOk result (Takes (Took rules.now) self.old (line ∷ []) self.new) };
}

/// Keeps the lines.
impl Taker for List<Line> {
    ghost Took = { λ rules start lines end. end ≡ start ++ lines };

    fn put(&mut self, _rules: &RuleBook, line: Line) -> Result<(), AllocError> {
        self.push(line)
    }
}

/// Appends the texts of the lines, and counts them. A number beyond the last of its type is told as want of memory.
#[derive(Drop)]
pub(crate) struct Texts<'a> {
    pub out: &'a mut Vec<u8>,
    pub lines: usize,
}

impl<'a> Taker for Texts<'a> {
    ghost use Rattle.violation_report.specs.Written.{AreTold};

    ghost Took = { AreTold };

    fn put(&mut self, rules: &RuleBook, line: Line) -> Result<(), AllocError> {
        push_line(rules, &line, self.out)?;
        match self.lines.checked_add(1) {
            Some(lines) => {
                self.lines = lines;
                Ok(())
            }
            None => Err(AllocError),
        }
    }
}
