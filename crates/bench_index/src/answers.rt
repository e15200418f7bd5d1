//! What the indexes answer: the violations and orphans of a rule, how many they are, and those of one row.

ghost use Rattle.std.specs.Prelude.{◌+◌, ◌*◌, ◌<◌, ◌≤◌, All, IfOk, length, slice_get};
ghost use Rattle.std.specs.Option.{ForSome};
ghost use Rattle.row_store.specs.Tuple.{ids_of};
ghost use Rattle.rule_model.specs.Books.{book_deps};
ghost use Rattle.bench_index.specs.ByIds.{HasText};
ghost use Rattle.bench_index.specs.Indexes.{AreIndexesOf, AreOrphansOfCind, AreViolationsOfDep};
ghost use Rattle.bench_index.specs.Replies.{AreOrphansOfRow, AreSettled, AreViolationsOfRow, IsOrphanCountOfCind, IsViolationCountOfDep, IsWideForCind, IsWideForDep};

use crate::index::BenchIndex;
use crate::listing::{all_orphans, all_violations, count_orphans, count_violations};
use crate::row_lines::{orphan_lines, violation_lines};
use cfd_semantics::Violation;
use probe_steps::Steps;
use row_store::{RowId, Tuple};
use rule_model::RuleBook;
use schema_core::List;
use std::alloc::AllocError;
use std::sync::ledger::Ledger;
use value_pool::Pool;

impl BenchIndex {
    /// All violations of a dependency, by tableau rows and within one by rising row ids. For each tableau row the dirty
    /// groups are gone over.
    pub fn violations<L: Ledger>(
        &self,
        dep: usize,
        steps: &mut Steps<L>,
    ) -> Result<List<(usize, Violation)>, AllocError>
        requires number { dep < length self.now.groups.items }
        requires settled { AreSettled self.now }
        ensures violations { IfOk result (AreViolationsOfDep self.now dep) }
        ensures probes { ForSome (slice_get self.now.groups.items dep) (λ s. steps.new ≤ steps.old + length s.made.dependency.rows * s.dirty) }
    {
        all_violations(*self.groups.allocator(), &self.groups[dep], steps)
    }

    /// How many violations a dependency has, told from its dirty groups without a list.
    pub fn violation_count<L: Ledger>(
        &self,
        dep: usize,
        steps: &mut Steps<L>,
    ) -> Result<usize, AllocError>
        requires number { dep < length self.now.groups.items }
        requires settled { AreSettled self.now }
        ensures count { IfOk result (IsViolationCountOfDep self.now dep) }
        ensures probes { ForSome (slice_get self.now.groups.items dep) (λ s. steps.new ≤ steps.old + length s.made.dependency.rows * s.dirty) }
    {
        count_violations(&self.groups[dep], steps)
    }

    /// Of the violations of a dependency those that are a row's own, where the row is of the dependency's table and has this
    /// tuple. A group index keeps its constants to itself, so that the rules and the pool are asked whether the row violates a
    /// tableau row alone.
    pub fn violations_of_row<L: Ledger>(
        &self,
        rules: &RuleBook,
        pool: &Pool,
        dep: usize,
        row: RowId,
        tuple: &Tuple,
        steps: &mut Steps<L>,
    ) -> Result<List<(usize, Violation)>, AllocError>
        requires number { dep < length (book_deps rules.now) }
        requires made { AreIndexesOf rules.now pool.now self.now }
        requires wide { IsWideForDep self.now dep (ids_of tuple.now) }
        requires named { All (HasText pool.now) (ids_of tuple.now) }
        ensures violations { IfOk result (AreViolationsOfRow self.now dep row (ids_of tuple.now)) }
        ensures probes { ForSome (slice_get self.now.groups.items dep) (λ s. steps.new ≤ steps.old + length s.made.dependency.rows) }
    {
        let alloc = *self.groups.allocator();
        let rule = &rules.deps().as_slice()[dep].rule;
        violation_lines(alloc, &self.groups[dep], rule, pool, row, tuple, steps)
    }

    /// All orphans of an inclusion, by tableau rows and within one by rising row ids. For each tableau row the keys that have
    /// an orphan are gone over.
    pub fn orphans<L: Ledger>(
        &self,
        cind: usize,
        steps: &mut Steps<L>,
    ) -> Result<List<(usize, RowId)>, AllocError>
        requires number { cind < length self.now.cinds.items }
        ensures orphans { IfOk result (AreOrphansOfCind self.now cind) }
        ensures probes { ForSome (slice_get self.now.cinds.items cind) (λ s. steps.new ≤ steps.old + length s.rule.rows * s.keys.marked) }
    {
        all_orphans(*self.cinds.allocator(), &self.cinds[cind], steps)
    }

    /// How many orphans an inclusion has, told from its dirty keys without a list.
    pub fn orphan_count<L: Ledger>(
        &self,
        cind: usize,
        steps: &mut Steps<L>,
    ) -> Result<usize, AllocError>
        requires number { cind < length self.now.cinds.items }
        ensures count { IfOk result (IsOrphanCountOfCind self.now cind) }
        ensures probes { ForSome (slice_get self.now.cinds.items cind) (λ s. steps.new ≤ steps.old + length s.rule.rows * s.keys.marked) }
    {
        count_orphans(&self.cinds[cind], steps)
    }

    /// Of the orphans of an inclusion those that are a row's own, where the row is of the left table and has this tuple.
    pub fn orphans_of_row<L: Ledger>(
        &self,
        cind: usize,
        row: RowId,
        tuple: &Tuple,
        steps: &mut Steps<L>,
    ) -> Result<List<(usize, RowId)>, AllocError>
        requires number { cind < length self.now.cinds.items }
        requires wide { IsWideForCind self.now cind (ids_of tuple.now) }
        ensures orphans { IfOk result (AreOrphansOfRow self.now cind row (ids_of tuple.now)) }
        ensures probes { ForSome (slice_get self.now.cinds.items cind) (λ s. steps.new ≤ steps.old + length s.rule.rows) }
    {
        let alloc = *self.cinds.allocator();
        orphan_lines(alloc, &self.cinds[cind], row, tuple, steps)
    }
}
