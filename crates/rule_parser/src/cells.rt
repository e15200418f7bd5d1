//! The cells of tableau rows and of patterns.

ghost use Rattle.std.specs.Prelude.{IfOk};
ghost use Rattle.line_grammar.specs.Phrases.{Reads};
ghost use Rattle.rule_model.specs.Declarations.{IsWrittenSet, IsWrittenCell, IsWrittenEditCell};
ghost use Rattle.rule_parser.specs.ReadRules.{IsReadPattern};
ghost use Rattle.rule_parser.specs.RuleLines.{set_at, set_cell, cell_at, equal_at, test_at, pattern_at};
ghost use Rattle.rule_parser.specs.Takes.{cell_at-takes, pattern_at-takes};

use cfd_semantics::{Pattern, ValueSet};
use rule_model::{Cell, EditCell};
use schema_core::bounds::SET_MEMBERS;
use schema_core::{Constant, ListItem, Mark, Phrase, Text, Texts, Tokens, Unread};
use std::alloc::Global;

/// CELL.
pub struct CellPart;

/// PATTERN.
pub struct PatternPart;

/// A set in braces.
#[tactic(auto, unfolding(crate::specs::RuleLines::set_at))]
fn set_at(alloc: Global, tokens: &mut Tokens<'_>) -> Result<Texts, Unread>
    ensures exact { Reads set_at tokens.old tokens.new result }
    ensures written { IfOk result IsWrittenSet }
{
    tokens.mark(Mark::OpenBrace)?;
    let values = tokens.few::<Constant>(alloc, SET_MEMBERS)?;
    tokens.mark(Mark::CloseBrace)?;
    Ok(values)
}

/// The members of a set in braces, as a cell holds them.
fn members_at(alloc: Global, tokens: &mut Tokens<'_>) -> Result<ValueSet<Text>, Unread>
    ensures exact { Reads set_at tokens.old tokens.new result }
    ensures written { IfOk result IsWrittenSet }
{
    let values = set_at(alloc, tokens)?;
    Ok(ValueSet::new(alloc, values)?)
}

/// What stands behind the first word of a cell.
fn set_cell(alloc: Global, word: &Text, tokens: &mut Tokens<'_>) -> Result<Cell, Unread>
    ensures exact { Reads (set_cell word.now) tokens.old tokens.new result }
    ensures written { IfOk result IsWrittenCell }
{
    if word.is("in") {
        Ok(Pattern::In(members_at(alloc, tokens)?))
    } else if word.is("not") {
        Ok(Pattern::NotIn(members_at(alloc, tokens)?))
    } else {
        Err(Unread::Absent)
    }
}

impl Phrase for CellPart {
    type Value = Cell;

    ghost reads = { cell_at };

    ghost is_fit = { IsWrittenCell };

    #[tactic(auto, unfolding(crate::specs::RuleLines::cell_at))]
    fn take(alloc: Global, tokens: &mut Tokens<'_>) -> Result<Cell, Unread> {
        match tokens.name() {
            Ok(word) => return set_cell(alloc, &word, tokens),
            Err(Unread::Memory) => return Err(Unread::Memory),
            Err(Unread::Absent) => {}
        }
        if tokens.mark(Mark::Underscore).is_ok() {
            return Ok(Pattern::Any);
        }
        Ok(Pattern::Is(tokens.constant()?))
    }
}

impl ListItem for CellPart {
    ghost takes = { cell_at-takes };
}

/// What stands behind `=` in a pattern.
fn equal_at(tokens: &mut Tokens<'_>) -> Result<EditCell, Unread>
    ensures exact { Reads equal_at tokens.old tokens.new result }
    ensures written { IfOk result IsWrittenEditCell }
{
    if tokens.mark(Mark::Underscore).is_ok() {
        return Ok(EditCell::Any);
    }
    Ok(EditCell::Is(tokens.constant()?))
}

/// What stands behind the attribute of a pattern.
fn test_at(tokens: &mut Tokens<'_>) -> Result<EditCell, Unread>
    ensures exact { Reads test_at tokens.old tokens.new result }
    ensures written { IfOk result IsWrittenEditCell }
{
    if tokens.mark(Mark::Equals).is_ok() {
        return equal_at(tokens);
    }
    tokens.mark(Mark::Differs)?;
    Ok(EditCell::Not(tokens.constant()?))
}

impl Phrase for PatternPart {
    type Value = (Text, EditCell);

    ghost reads = { pattern_at };

    ghost is_fit = { IsReadPattern };

    #[tactic(auto, unfolding(crate::specs::RuleLines::pattern_at))]
    fn take(_alloc: Global, tokens: &mut Tokens<'_>) -> Result<(Text, EditCell), Unread> {
        let attr = tokens.name()?;
        let cell = test_at(tokens)?;
        Ok((attr, cell))
    }
}

impl ListItem for PatternPart {
    ghost takes = { pattern_at-takes };
}
