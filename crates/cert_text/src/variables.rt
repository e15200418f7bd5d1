//! Cells and variables, as they stand in the nodes of a tree.

ghost use Rattle.std.specs.Prelude.{◌≡◌, IfOk};
ghost use Rattle.line_grammar.specs.Phrases.{Reads};
ghost use Rattle.cert_text.specs.CertLines.{tuple_of, cell_at, value_at, var_at};
ghost use Rattle.cert_text.specs.Written.{IsCellOf, IsVarOf};

use crate::answers::Kind;
use crate::names::{CellName, VarName};
use cell_values::Which;
use line_grammar::{Mark, Tokens, Unread};

fn tuple_of(number: u64) -> Option<Which>
    ensures { result ≡ tuple_of number }
{
    match number {
        1 => Some(Which::First),
        2 => Some(Which::Second),
        _ => None,
    }
}

/// CELL.
#[tactic(auto, unfolding(crate::specs::CertLines::cell_at))]
pub fn cell_at(kind: Kind, tokens: &mut Tokens<'_>) -> Result<CellName, Unread>
    ensures exact { Reads (cell_at kind) tokens.old tokens.new result }
    ensures fit { IfOk result (IsCellOf kind) }
{
    let tuple = match kind {
        Kind::Consistency => Which::Only,
        Kind::Implication => {
            let number = tokens.number()?;
            let Some(tuple) = tuple_of(number) else {
                return Err(Unread::Absent);
            };
            tokens.mark(Mark::Dot)?;
            tuple
        }
    };
    let attr = tokens.name()?;
    Ok(CellName { tuple, attr })
}

/// CELL=VALUE.
#[tactic(auto, unfolding(crate::specs::CertLines::value_at))]
fn value_at(kind: Kind, tokens: &mut Tokens<'_>) -> Result<VarName, Unread>
    ensures exact { Reads (value_at kind) tokens.old tokens.new result }
    ensures fit { IfOk result (IsVarOf kind) }
{
    let cell = cell_at(kind, tokens)?;
    tokens.mark(Mark::Equals)?;
    let value = tokens.text()?;
    Ok(VarName::Value(cell, value))
}

/// VAR.
#[tactic(auto, unfolding(crate::specs::CertLines::var_at))]
pub fn var_at(kind: Kind, tokens: &mut Tokens<'_>) -> Result<VarName, Unread>
    ensures exact { Reads (var_at kind) tokens.old tokens.new result }
    ensures fit { IfOk result (IsVarOf kind) }
{
    match kind {
        Kind::Consistency => value_at(kind, tokens),
        Kind::Implication => {
            if tokens.mark(Mark::Equals).is_ok() {
                return Ok(VarName::Equal(tokens.name()?));
            }
            value_at(kind, tokens)
        }
    }
}
