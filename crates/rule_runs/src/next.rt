//! Which moves apply.

ghost use Rattle.std.specs.Prelude.{◌≡◌, ◌≢◌, ◌↔◌, Some, IsTrue, IfSome, IfNone};
ghost use Rattle.rule_model.specs.Books.{IsBook};
ghost use Rattle.rule_runs.specs.Moves.{Applies, IsClosedBut, target_of};
ghost use Rattle.rule_runs.specs.Starts.{IsStart, IsTupleOf, basis_of, stage_of};

use crate::lookup::rows_that_apply;
use crate::marks::Marks;
use crate::moves::{Move, Start};
use value_pool::ValueId;

/// Whether the move applies to the tuple, of which these attributes are validated. It takes no memory.
pub fn applies(start: &Start<'_>, tuple: &[ValueId], z: Marks, a_move: Move) -> bool
    requires start { IsStart start.now }
    requires tuple { IsTupleOf start.now start.now.table tuple.now }
    ensures { IsTrue result ↔ Applies (basis_of start.now) (stage_of tuple.now z) a_move }
{
    rows_that_apply(start, tuple, z, a_move.rule)
        .binary_search(&a_move.master)
        .is_ok()
}

fn is_left_out(left_out: Option<usize>, target: usize) -> bool
    ensures { IsTrue result ↔ (Some target ≡ left_out) }
{
    match left_out {
        Some(attr) => attr == target,
        None => false,
    }
}

/// The first move that applies, by rule number and then by master row, which no clause says, whose target isn't left
/// out. It takes no memory.
pub fn first_move(
    start: &Start<'_>,
    tuple: &[ValueId],
    z: Marks,
    left_out: Option<usize>,
) -> Option<Move>
    requires start { IsStart start.now }
    requires tuple { IsTupleOf start.now start.now.table tuple.now }
    ensures applies { IfSome result (Applies (basis_of start.now) (stage_of tuple.now z)) }
    ensures allowed { IfSome result (λ found. target_of (basis_of start.now) found ≢ left_out) }
    ensures book { IsBook start.now.rules.now }
    ensures none { IfNone result (IsClosedBut (basis_of start.now) left_out (stage_of tuple.now z)) }
{
    for (number, rule) in start.rules.edits().as_slice().iter().enumerate() {
        if is_left_out(left_out, rule.target) {
            continue;
        }
        if let Some(row) = rows_that_apply(start, tuple, z, number).first() {
            return Some(Move {
                rule: number,
                master: *row,
            });
        }
    }
    None
}
