//! Runs.

ghost use Rattle.std.specs.Prelude.{◌≡◌, ◌<◌, ◌^◌, ◌++◌, ◌∷◌, [], None, length, take, IfOk, IfSome};
ghost use Rattle.row_store.specs.Tuple.{ids_of};
ghost use Rattle.rule_runs.specs.Marks.{marked};
ghost use Rattle.rule_runs.specs.Moves.{Applies, IsClosedBut, IsMaximalRun, after, end_after};
ghost use Rattle.rule_runs.specs.Starts.{GoesOn, IsChecked, IsRunFrom, IsStart, IsTupleOf, applied, basis_of, first_stage, stage_at};

use crate::marks::Marks;
use crate::moves::{Move, Start};
use crate::next::{applies, first_move};
use schema_core::List;
use std::alloc::{AllocError, Global};
use value_pool::ValueId;

/// Moves, with the tuple and the validated attributes to which they lead.
#[derive(Drop)]
pub struct Run {
    pub moves: List<Move>,
    pub tuple: List<ValueId>,
    pub covered: Marks,
}

/// What a list of moves is: a run at whose end no move applies, one at whose end a move applies, or no run,
/// with the place of the first move that doesn't apply.
#[derive(Clone, Copy, PartialEq, Eq)]
pub enum RunCheck {
    Maximal,
    NotMaximal,
    Breaks { at: usize },
}

impl Run {
    /// The run without a move.
    pub fn begin(alloc: Global, start: &Start<'_>) -> Result<Run, AllocError>
        ensures moves { IfOk result (λ run. run.moves ≡ []) }
        ensures stage { IfOk result (λ run. stage_at run ≡ first_stage start.now) }
    {
        let mut tuple = List::new(alloc);
        for id in start.tuple.iter() {
            tuple.push(*id)?;
        }
        Ok(Run {
            moves: List::new(alloc),
            tuple,
            covered: start.vouched,
        })
    }

    /// A copy of the run with one more move.
    pub fn with_move(
        &self,
        alloc: Global,
        start: &Start<'_>,
        a_move: Move,
    ) -> Result<Run, AllocError>
        requires start { IsStart start.now }
        requires run { IsRunFrom start.now self.now }
        requires applies { Applies (basis_of start.now) (stage_at self.now) a_move }
        ensures run { IfOk result (IsRunFrom start.now) }
        ensures moves { IfOk result (λ longer. longer.moves ≡ self.now.moves ++ a_move ∷ []) }
        ensures stage { IfOk result (λ longer. stage_at longer ≡ after (basis_of start.now) (stage_at self.now) a_move) }
    {
        let mut longer = Run {
            moves: List::from(Vec::from_slice(alloc, self.moves.as_slice())?),
            tuple: List::from(Vec::from_slice(alloc, self.tuple.as_slice())?),
            covered: self.covered,
        };
        longer.take_step(start, a_move);
        longer.moves.push(a_move)?;
        Ok(longer)
    }

    /// Writes what the move writes, and leaves the list of moves.
    fn take_step(&mut self, start: &Start<'_>, a_move: Move)
        requires start { IsStart start.now }
        requires tuple { IsTupleOf start.now start.now.table self.old.tuple }
        requires applies { Applies (basis_of start.now) (stage_at self.old) a_move }
        ensures stage { stage_at self.new ≡ after (basis_of start.now) (stage_at self.old) a_move }
        ensures moves { self.new.moves ≡ self.old.moves }
        ensures more { self.old.covered.0 < self.new.covered.0 }
        ensures most { self.new.covered.0 < 2 ^ 64 }
    {
        let rule = &start.rules.edits().as_slice()[a_move.rule];
        if let Some(master) = start.masters.tuple(rule.master, a_move.master) {
            self.tuple.set(rule.target, master[rule.source]);
            self.covered = self.covered.with(rule.target);
        }
    }

    /// Goes back to the start, and leaves the list of moves.
    fn reset(&mut self, start: &Start<'_>)
        requires { length self.old.tuple ≡ length (ids_of start.now.tuple.now) }
        ensures stage { stage_at self.new ≡ first_stage start.now }
        ensures moves { self.new.moves ≡ self.old.moves }
    {
        for (place, id) in start.tuple.iter().enumerate() {
            self.tuple.set(place, *id);
        }
        self.covered = start.vouched;
    }
}

/// What the list of moves is from this start. The room's tuple and validated attributes are written over: they
/// are left as the moves before the first one that doesn't apply give them. It takes no memory.
pub fn run_ok(start: &Start<'_>, moves: &[Move], room: &mut Run) -> RunCheck
    requires start { IsStart start.now }
    requires room { length room.old.tuple ≡ length (ids_of start.now.tuple.now) }
    ensures check { IsChecked start.now moves.now result }
    ensures room { stage_at room.new ≡ end_after (basis_of start.now) (first_stage start.now) (take (applied moves.now result) moves.now) }
    ensures moves { room.new.moves ≡ room.old.moves }
{
    room.reset(start);
    for (at, next) in moves.iter().enumerate() {
        if !applies(start, room.tuple.as_slice(), room.covered, *next) {
            return RunCheck::Breaks { at };
        }
        room.take_step(start, *next);
    }
    match first_move(start, room.tuple.as_slice(), room.covered, None) {
        Some(_) => RunCheck::NotMaximal,
        None => RunCheck::Maximal,
    }
}

/// Goes on with the run until no move applies but those whose target is left out. The moves are taken by rule
/// number and then by master row.
pub fn extend(start: &Start<'_>, run: Run, left_out: Option<usize>) -> Result<Run, AllocError>
    requires start { IsStart start.now }
    requires run { IsRunFrom start.now run }
    ensures run { IfOk result (IsRunFrom start.now) }
    ensures goes_on { IfOk result (GoesOn run) }
    ensures closed { IfOk result (λ longer. IsClosedBut (basis_of start.now) left_out (stage_at longer)) }
    // What is left out is validated at the end only where it was before.
    ensures left { IfOk result (λ longer. IfSome left_out (λ attr. marked longer.covered attr ≡ marked run.covered attr)) }
    ensures maximal { left_out ≡ None → IfOk result (λ longer. IsMaximalRun (basis_of start.now) (first_stage start.now) longer.moves) }
{
    let mut longer = run;
    while let Some(next) = first_move(start, longer.tuple.as_slice(), longer.covered, left_out) {
        longer.take_step(start, next);
        longer.moves.push(next)?;
    }
    Ok(longer)
}

/// The run from the start that `extend` makes.
pub fn close_without(
    alloc: Global,
    start: &Start<'_>,
    left_out: Option<usize>,
) -> Result<Run, AllocError>
    requires start { IsStart start.now }
    ensures run { IfOk result (IsRunFrom start.now) }
    ensures closed { IfOk result (λ run. IsClosedBut (basis_of start.now) left_out (stage_at run)) }
    ensures left { IfOk result (λ run. IfSome left_out (λ attr. marked run.covered attr ≡ marked start.now.vouched attr)) }
    ensures maximal { left_out ≡ None → IfOk result (λ run. IsMaximalRun (basis_of start.now) (first_stage start.now) run.moves) }
{
    extend(start, Run::begin(alloc, start)?, left_out)
}
