//! The rows of tableaux.

ghost use Rattle.rule_model.specs.Declarations.{IsWrittenRow, IsWrittenInclusionRow};
ghost use Rattle.rule_parser.specs.RuleLines.{row_at, inclusion_row_at};

use crate::cells::CellPart;
use cfd_semantics::InclusionRow;
use rule_model::{CfdRow, CindRow};
use schema_core::{Constant, Mark, Phrase, Tokens, Unread};
use std::alloc::Global;

/// The row of a `cfd`.
pub struct RowLine;

/// The row of a `cind`.
pub struct InclusionRowLine;

impl Phrase for RowLine {
    type Value = CfdRow;

    ghost reads = { row_at };

    ghost is_fit = { IsWrittenRow };

    #[tactic(auto, unfolding(crate::specs::RuleLines::row_at))]
    fn take(alloc: Global, tokens: &mut Tokens<'_>) -> Result<CfdRow, Unread> {
        tokens.word("row")?;
        let x = tokens.list_until::<CellPart>(alloc, Mark::Bars)?;
        let y = tokens.list1::<CellPart>(alloc)?;
        Ok(CfdRow { x, y })
    }
}

impl Phrase for InclusionRowLine {
    type Value = CindRow;

    ghost reads = { inclusion_row_at };

    ghost is_fit = { IsWrittenInclusionRow };

    #[tactic(auto, unfolding(crate::specs::RuleLines::inclusion_row_at))]
    fn take(alloc: Global, tokens: &mut Tokens<'_>) -> Result<CindRow, Unread> {
        tokens.word("row")?;
        let xp = tokens.list_until::<Constant>(alloc, Mark::Bars)?;
        let stands = tokens.has_constant();
        let yp = tokens.list::<Constant>(alloc, stands)?;
        Ok(InclusionRow { xp, yp })
    }
}
