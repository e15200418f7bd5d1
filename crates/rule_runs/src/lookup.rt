//! The master rows with which a rule corrects a tuple.
ghost use Rattle.std.specs.Prelude.{◌≡◌, ◌↔◌, ◌<◌, ◌≤◌, ℕ, Some, length, map, take, All, Contains, IsSomeAnd, MatchOption};
ghost use Rattle.std.specs.List.Sorted.{IsStrictlyIncreasing};
ghost use Rattle.master_index.specs.Masters.{id_at};
ghost use Rattle.rule_runs.specs.Moves.{Applies, value_written, values_in};
ghost use Rattle.rule_runs.specs.Starts.{IsReadyRule, IsRuleOf, IsStart, IsTupleOf, basis_of, stage_of};

use crate::marks::Marks;
use crate::moves::Start;
use crate::ready::is_ready;
use row_store::RowId;
use rule_model::EditRule;
use value_pool::ValueId;

/// Puts the tuple's values in the columns at the front of the room.
fn gather(tuple: &[ValueId], columns: &[usize], room: &mut [ValueId])
    requires within { All (λ column. column < length tuple.now) columns.now }
    requires few { length columns.now ≤ length room.old }
    ensures length { length room.new ≡ length room.old }
    ensures ids { map Some (take (length columns.now) room.new) ≡ values_in tuple.now columns.now }
{
    for (place, column) in columns.iter().enumerate() {
        room[place] = tuple[*column];
    }
}

/// The master rows with which the tuple agrees in the columns that the rule matches, by rising ids.
fn rows_alike<'a>(start: &Start<'a>, tuple: &[ValueId], rule: &EditRule) -> &'a [RowId]
    requires rule { IsRuleOf start.now rule.now }
    requires table { rule.now.table ≡ start.now.table }
    requires tuple { IsTupleOf start.now start.now.table tuple.now }
    ensures rising { IsStrictlyIncreasing result.now }
    ensures rows { (row : ℕ) → Contains result.now row ↔ IsSomeAnd ((basis_of start.now).masters rule.now.master row) (λ master. values_in tuple.now rule.now.x ≡ values_in master rule.now.xm) }
{
    // A table has at most 64 attributes, and no attribute is matched twice.
    let mut room = [0; 64];
    let columns = rule.x.as_slice();
    gather(tuple, columns, &mut room);
    start
        .masters
        .matches(rule.master, rule.xm.as_slice(), &room[..columns.len()])
}

/// So many of these rows that they tell each id that all of them have in the rule's source.
fn rows_telling<'a>(start: &Start<'a>, tuple: &[ValueId], rule: &EditRule) -> &'a [RowId]
    requires rule { IsRuleOf start.now rule.now }
    requires table { rule.now.table ≡ start.now.table }
    requires tuple { IsTupleOf start.now start.now.table tuple.now }
    ensures rising { IsStrictlyIncreasing result.now }
    ensures only { (row : ℕ) → Contains result.now row → IsSomeAnd ((basis_of start.now).masters rule.now.master row) (λ master. values_in tuple.now rule.now.x ≡ values_in master rule.now.xm) }
    ensures each { (row : ℕ) → IsSomeAnd ((basis_of start.now).masters rule.now.master row) (λ master. values_in tuple.now rule.now.x ≡ values_in master rule.now.xm) →
        (other : ℕ) × Contains result.now other × (id_at start.now.masters.now.rows rule.now.master other rule.now.source ≡ id_at start.now.masters.now.rows rule.now.master row rule.now.source) }
{
    let mut room = [0; 64];
    let columns = rule.x.as_slice();
    gather(tuple, columns, &mut room);
    let matched = rule.xm.as_slice();
    let ids = &room[..columns.len()];
    start
        .masters
        .telling_matches(rule.master, matched, ids, rule.source)
}

/// The rule of this number, if it is ready at the tuple.
fn ready_rule<'a>(
    start: &Start<'a>,
    tuple: &[ValueId],
    z: Marks,
    number: usize,
) -> Option<&'a EditRule>
    requires start { IsStart start.now }
    requires tuple { IsTupleOf start.now start.now.table tuple.now }
    ensures { MatchOption result ((row : ℕ) → ¬ Applies (basis_of start.now) (stage_of tuple.now z) (record { rule = number; master = row })) (λ rule. IsReadyRule start.now tuple.now z number rule.now) }
{
    match start.rules.edits().as_slice().get(number) {
        Some(rule) if is_ready(start, tuple, z, rule) => Some(rule),
        _ => None,
    }
}

/// The master rows with which the rule of this number makes a move that applies to the tuple, by rising ids.
/// It takes no memory.
pub(crate) fn rows_that_apply<'a>(
    start: &Start<'a>,
    tuple: &[ValueId],
    z: Marks,
    number: usize,
) -> &'a [RowId]
    requires start { IsStart start.now }
    requires tuple { IsTupleOf start.now start.now.table tuple.now }
    ensures rising { IsStrictlyIncreasing result.now }
    ensures rows { (row : ℕ) → Contains result.now row ↔ Applies (basis_of start.now) (stage_of tuple.now z) (record { rule = number; master = row }) }
{
    match ready_rule(start, tuple, z, number) {
        Some(rule) => rows_alike(start, tuple, rule),
        None => &[],
    }
}

/// So many of the master rows with which the rule of this number makes a move that applies that each value that
/// such a move writes is written by one of these, by rising ids: the first alone, where no two of the rows were
/// ever seen to write different values. It takes no memory.
pub fn rows_to_try<'a>(start: &Start<'a>, tuple: &[ValueId], z: Marks, number: usize) -> &'a [RowId]
    requires start { IsStart start.now }
    requires tuple { IsTupleOf start.now start.now.table tuple.now }
    ensures rising { IsStrictlyIncreasing result.now }
    ensures only { (row : ℕ) → Contains result.now row → Applies (basis_of start.now) (stage_of tuple.now z) (record { rule = number; master = row }) }
    ensures each { (row : ℕ) → Applies (basis_of start.now) (stage_of tuple.now z) (record { rule = number; master = row }) →
        (other : ℕ) × Contains result.now other × (value_written (basis_of start.now) (record { rule = number; master = other }) ≡ value_written (basis_of start.now) (record { rule = number; master = row })) }
{
    match ready_rule(start, tuple, z, number) {
        Some(rule) => rows_telling(start, tuple, rule),
        None => &[],
    }
}
