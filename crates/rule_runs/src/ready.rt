//! Whether an editing rule is ready at a tuple with validated attributes, its master rows left aside.
ghost use Rattle.std.specs.Prelude.{◌≡◌, ◌↔◌, ◌<◌, ℕ, length, true, false, IsTrue, All};
ghost use Rattle.rule_model.specs.declared.edit_rule.EditCell.{EditCell};
ghost use Rattle.rule_runs.specs.Marks.{marked};
ghost use Rattle.rule_runs.specs.Moves.{Fits, MatchesPattern, IsReady};
ghost use Rattle.rule_runs.specs.Starts.{IsRuleOf, IsTupleOf, ReadsWithin, basis_of, has_text, stage_of};

use crate::marks::Marks;
use crate::moves::Start;
use rule_model::{EditCell, EditRule};
use schema_core::Text;
use value_pool::{Pool, ValueId};

/// Whether the id is that of the text.
fn is_text(pool: &Pool, id: ValueId, text: &Text) -> bool
    requires { id < length pool.now }
    ensures { result ≡ has_text pool.now id text.now }
{
    text.is(pool.text(id))
}

fn fits(pool: &Pool, cell: &EditCell, id: ValueId) -> bool
    requires { id < length pool.now }
    ensures { IsTrue result ↔ Fits (has_text pool.now) cell.now id }
{
    match cell {
        EditCell::Any => true,
        EditCell::Is(text) => is_text(pool, id, text),
        EditCell::Not(text) => !is_text(pool, id, text),
    }
}

fn fits_pattern(pool: &Pool, tuple: &[ValueId], pattern: &[(usize, EditCell)]) -> bool
    requires ids { All (λ id. id < length pool.now) tuple.now }
    requires within { All (λ (p : ℕ × EditCell). p.0 < length tuple.now) pattern.now }
    ensures { IsTrue result ↔ MatchesPattern (has_text pool.now) tuple.now pattern.now }
{
    pattern
        .iter()
        .all(|(attr, cell)| fits(pool, cell, tuple[*attr]))
}

fn are_marked(marks: Marks, attrs: &[usize]) -> bool
    requires { All (λ attr. attr < 64) attrs.now }
    ensures { IsTrue result ↔ All (λ attr. marked marks attr ≡ true) attrs.now }
{
    attrs.iter().all(|attr| marks.has(*attr))
}

fn are_asked_marked(marks: Marks, pattern: &[(usize, EditCell)]) -> bool
    requires { All (λ (p : ℕ × EditCell). p.0 < 64) pattern.now }
    ensures { IsTrue result ↔ All (λ (p : ℕ × EditCell). marked marks p.0 ≡ true) pattern.now }
{
    pattern.iter().all(|(attr, _)| marks.has(*attr))
}

/// Whether the rule, which is one of the tuple's table, is ready.
fn is_ready_inside(pool: &Pool, tuple: &[ValueId], marks: Marks, rule: &EditRule) -> bool
    requires within { ReadsWithin rule.now (length tuple.now) }
    requires ids { All (λ id. id < length pool.now) tuple.now }
    ensures { IsTrue result
        ↔ (All (λ attr. marked marks attr ≡ true) rule.now.x
        × All (λ (p : ℕ × EditCell). marked marks p.0 ≡ true) rule.now.when
        × (marked marks rule.now.target ≡ false)
        × MatchesPattern (has_text pool.now) tuple.now rule.now.when) }
{
    are_marked(marks, rule.x.as_slice())
        && are_asked_marked(marks, rule.when.as_slice())
        && !marks.has(rule.target)
        && fits_pattern(pool, tuple, rule.when.as_slice())
}

/// Whether the rule is ready at a tuple of the table.
pub(crate) fn is_ready(start: &Start<'_>, tuple: &[ValueId], marks: Marks, rule: &EditRule) -> bool
    requires rule { IsRuleOf start.now rule.now }
    requires tuple { IsTupleOf start.now start.now.table tuple.now }
    ensures { IsTrue result ↔ IsReady (basis_of start.now) (stage_of tuple.now marks) rule.now }
{
    rule.table == start.table && is_ready_inside(start.pool, tuple, marks, rule)
}
