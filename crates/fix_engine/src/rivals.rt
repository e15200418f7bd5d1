//! The search for a maximal run that ends in another tuple than a first one. If all that can be written last, after
//! everything else was, agrees with the first run, then no order of moves comes to another end. So for each
//! attribute that isn't vouched for, all is closed but this attribute, then each move that still applies is made,
//! and what it leads to is compared.

ghost use Rattle.std.specs.Prelude.{◌≡◌, ℕ, false, length, IfOk, IfSome, IfNone};
ghost use Rattle.rule_runs.specs.Marks.{marked};
ghost use Rattle.rule_runs.specs.Moves.{value_written};
ghost use Rattle.rule_runs.specs.Starts.{IsRunFrom, IsStart, basis_of, stage_at};
ghost use Rattle.fix_engine.specs.Fixes.{AllEndAt, DifferFirstAt};
ghost use Rattle.fix_engine.specs.Questions.{asked_at};
ghost use Rattle.fix_engine.specs.Rivals.{AgreesBy, AgreesWithout, IsFullRunTo, IsRivalOf};

use rule_runs::{Move, Run, Start, close_without, extend, rows_to_try};
use std::alloc::{AllocError, Global};
use value_pool::ValueId;

/// A run that ends in another tuple, and the first attribute at which that differs.
#[derive(Drop)]
pub(crate) struct Rival {
    pub(crate) run: Run,
    pub(crate) attr: usize,
}

/// The first place at which two lists of ids differ.
fn difference(one: &[ValueId], other: &[ValueId]) -> Option<usize>
    requires { length one.now ≡ length other.now }
    ensures some { IfSome result (DifferFirstAt one.now other.now) }
    ensures none { IfNone result (one.now ≡ other.now) }
{
    for (place, id) in one.iter().enumerate() {
        if *id != other[place] {
            return Some(place);
        }
    }
    None
}

/// The run as a rival of the first one, if its tuple is another.
fn compare(start: &Start<'_>, first: &Run, run: Run) -> Option<Rival>
    requires start { IsStart start.now }
    requires first { IsFullRunTo (asked_at start.now) first.now }
    requires run { IsFullRunTo (asked_at start.now) run }
    ensures rival { IfSome result (IsRivalOf start.now first.now) }
    ensures none { IfNone result (run.tuple ≡ first.now.tuple) }
{
    let attr = difference(first.tuple.as_slice(), run.tuple.as_slice())?;
    Some(Rival { run, attr })
}

/// The value that the move writes, if its rule and its master row are there.
fn written(start: &Start<'_>, a_move: Move) -> Option<ValueId>
    ensures { result ≡ value_written (basis_of start.now) a_move }
{
    let rule = start.rules.edits().as_slice().get(a_move.rule)?;
    let master = start.masters.tuple(rule.master, a_move.master)?;
    master.get(rule.source).copied()
}

/// A rival after the closure and a move with this rule, the master rows taken by rising ids. Moves that write
/// one value lead to one tuple, so of rows that are known to write one value the first alone is tried, and a
/// row with the value that agreed last is passed over.
fn rival_by_rule(
    alloc: Global,
    start: &Start<'_>,
    first: &Run,
    closure: &Run,
    rule: usize,
) -> Result<Option<Rival>, AllocError>
    requires start { IsStart start.now }
    requires first { IsFullRunTo (asked_at start.now) first.now }
    requires closure { IsRunFrom start.now closure.now }
    ensures rival { IfOk result (λ found. IfSome found (IsRivalOf start.now first.now)) }
    ensures none { IfOk result (λ found. IfNone found ((row : ℕ) → AgreesBy start.now closure.now first.now.tuple (record { rule = rule; master = row }))) }
{
    let mut agreed = None;
    for row in rows_to_try(start, closure.tuple.as_slice(), closure.covered, rule) {
        let next = Move { rule, master: *row };
        let value = written(start, next);
        if value.is_some() && value == agreed {
            continue;
        }
        let run = extend(start, closure.with_move(alloc, start, next)?, None)?;
        if let Some(rival) = compare(start, first, run) {
            return Ok(Some(rival));
        }
        agreed = value;
    }
    Ok(None)
}

/// A rival after the closure and one move.
fn rival_by_move(
    alloc: Global,
    start: &Start<'_>,
    first: &Run,
    closure: &Run,
) -> Result<Option<Rival>, AllocError>
    requires start { IsStart start.now }
    requires first { IsFullRunTo (asked_at start.now) first.now }
    requires closure { IsRunFrom start.now closure.now }
    ensures rival { IfOk result (λ found. IfSome found (IsRivalOf start.now first.now)) }
    ensures none { IfOk result (λ found. IfNone found ((move : Move) → AgreesBy start.now closure.now first.now.tuple move)) }
{
    for rule in 0..start.rules.edits().as_slice().len() {
        if let Some(rival) = rival_by_rule(alloc, start, first, closure, rule)? {
            return Ok(Some(rival));
        }
    }
    Ok(None)
}

/// A rival that validates all that it can before this attribute.
fn rival_without(
    alloc: Global,
    start: &Start<'_>,
    first: &Run,
    attr: usize,
) -> Result<Option<Rival>, AllocError>
    requires start { IsStart start.now }
    requires first { IsFullRunTo (asked_at start.now) first.now }
    requires out { marked start.now.vouched attr ≡ false }
    ensures rival { IfOk result (λ found. IfSome found (IsRivalOf start.now first.now)) }
    ensures none { IfOk result (λ found. IfNone found (AgreesWithout start.now first.now.tuple attr)) }
{
    let closure = close_without(alloc, start, Some(attr))?;
    if let Some(rival) = rival_by_move(alloc, start, first, &closure)? {
        return Ok(Some(rival));
    }
    // Where a move applies, this makes the first one again; where none does, the closure itself is compared.
    Ok(compare(start, first, extend(start, closure, None)?))
}

/// A rival of the first run, the attributes being left out in the order of the schema.
pub(crate) fn rival_of(
    alloc: Global,
    start: &Start<'_>,
    first: &Run,
) -> Result<Option<Rival>, AllocError>
    requires start { IsStart start.now }
    requires first { IsFullRunTo (asked_at start.now) first.now }
    ensures rival { IfOk result (λ found. IfSome found (IsRivalOf start.now first.now)) }
    ensures none { IfOk result (λ found. IfNone found (AllEndAt (asked_at start.now) (stage_at first.now))) }
{
    let table = &start.rules.schema().tables.as_slice()[start.table];
    for attr in 0..table.attrs.as_slice().len() {
        if start.vouched.has(attr) {
            continue;
        }
        if let Some(rival) = rival_without(alloc, start, first, attr)? {
            return Ok(Some(rival));
        }
    }
    Ok(None)
}
