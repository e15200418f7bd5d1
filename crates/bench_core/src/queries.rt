//! What the rules find among the rows of a bench.

ghost use Rattle.std.specs.Prelude.{◌≡◌, ◌+◌, ◌<◌, ◌≤◌, length, IfOk};
ghost use Rattle.rule_model.specs.Books.{book_cinds, book_deps};
ghost use Rattle.bench_core.specs.Answers.{IsRowOfCind, IsRowOfDep, orphans_at, orphans_of_row, violations_at, violations_of_row};
ghost use Rattle.bench_core.specs.Bench.{IsHeld, IsHistory, view_of};
ghost use Rattle.bench_core.specs.DirtyCounts.{cind_rows, cind_walk_at, dep_rows, dep_walk_at, dirty_groups_at, dirty_keys_at};
ghost use Rattle.bench_core.specs.Indexed.{IsInStepWith};

use crate::project::Project;
use bench_index::AllIndexes;
use cfd_semantics::Violation;
use probe_steps::Steps;
use row_store::RowId;
use rule_model::RuleBook;
use schema_core::List;
use std::alloc::AllocError;
use std::marker::Model;
use std::sync::ledger::Ledger;

/// A bench as far as its rules can be asked. It lends no row: whoever is handed it and no bench learns of rows by its queries
/// alone, and each of them counts its probes. Clauses see what they see of the bench.
#[derive(Drop)]
pub struct BenchQueries<'a> {
    project: &'a Project,
    index: &'a AllIndexes,
}

impl<'a> Model for BenchQueries<'a> {
    ghost use Rattle.bench_core.specs.Bench.{BenchModel, IsHeld, view_of};
    ghost use Rattle.bench_core.specs.Indexed.{IsInStepWith};

    ghost Value = { BenchModel };

    ghost view = { λ q. view_of q.project.now };

    ghost invariant = { λ q. IsHeld q.project.now × IsInStepWith q.project.now q.index.now };
}

impl<'a> BenchQueries<'a> {
    pub(crate) fn new(project: &'a Project, index: &'a AllIndexes) -> BenchQueries<'a>
        requires held { IsHeld project.now }
        requires in_step { IsInStepWith project.now index.now }
        ensures { result ≡ view_of project.now }
    {
        BenchQueries { project, index }
    }

    pub fn rules(&self) -> &RuleBook
        ensures value { result.now ≡ self.now.rules }
        ensures valid { IsHistory self.now.rules self.now.limits self.now.history }
    {
        &self.project.rules
    }

    /// How many dependencies the rules have.
    pub fn dep_count(&self) -> usize
        ensures { result ≡ length (book_deps self.now.rules) }
    {
        self.project.rules.deps().as_slice().len()
    }

    /// How many inclusion dependencies the rules have.
    pub fn cind_count(&self) -> usize
        ensures { result ≡ length (book_cinds self.now.rules) }
    {
        self.project.rules.cinds().as_slice().len()
    }

    /// How many groups of a numbered dependency are dirty, which is 0 exactly where it has no violation. The index knows it
    /// without a look at any of them.
    pub fn dirty_groups(&self, dep: usize) -> usize
        requires { dep < length (book_deps self.now.rules) }
        ensures { result ≡ dirty_groups_at self.now.rules self.now.history.present dep }
    {
        // The length is what says that no text has two ids.
        let _len = self.project.pool.len();
        self.index.index.groups[dep].dirty()
    }

    /// How many keys of a numbered inclusion are dirty, which is 0 exactly where it has no orphan. The index knows it without a
    /// look at any of them.
    pub fn dirty_keys(&self, cind: usize) -> usize
        requires { cind < length (book_cinds self.now.rules) }
        ensures { result ≡ dirty_keys_at self.now.rules self.now.history.present cind }
    {
        // The length is what says that no text has two ids.
        let _len = self.project.pool.len();
        self.index.index.cinds[cind].dirty()
    }

    /// The violations of a numbered dependency, each with the number of its tableau row: by tableau row, and for each by
    /// rising row. For each tableau row the dirty groups are gone over, and no other rows.
    pub fn violations<L: Ledger>(
        &self,
        dep: usize,
        steps: &mut Steps<L>,
    ) -> Result<List<(usize, Violation)>, AllocError>
        requires { dep < length (book_deps self.now.rules) }
        ensures violations { IfOk result (λ found. found ≡ violations_at self.now.rules self.now.history.present dep) }
        ensures probes { steps.new ≤ steps.old + dep_walk_at self.now.rules self.now.history.present dep }
    {
        // The length is what says that no text has two ids.
        let _len = self.project.pool.len();
        // The number of dirty groups is what says that they are those of the rows.
        let _dirty = self.index.index.groups[dep].dirty();
        self.index.index.violations(dep, steps)
    }

    /// How many violations a dependency has, without a list of them all.
    pub fn violation_count<L: Ledger>(
        &self,
        dep: usize,
        steps: &mut Steps<L>,
    ) -> Result<usize, AllocError>
        requires { dep < length (book_deps self.now.rules) }
        ensures count { IfOk result (λ count. count ≡ length (violations_at self.now.rules self.now.history.present dep)) }
        ensures probes { steps.new ≤ steps.old + dep_walk_at self.now.rules self.now.history.present dep }
    {
        // The length is what says that no text has two ids.
        let _len = self.project.pool.len();
        // The number of dirty groups is what says that they are those of the rows.
        let _dirty = self.index.index.groups[dep].dirty();
        self.index.index.violation_count(dep, steps)
    }

    /// The violations of a dependency that a row of its table has, and not those in which it is only the partner: at most one
    /// probe for each tableau row.
    pub fn violations_of_row<L: Ledger>(
        &self,
        dep: usize,
        row: RowId,
        steps: &mut Steps<L>,
    ) -> Result<List<(usize, Violation)>, AllocError>
        requires dep { dep < length (book_deps self.now.rules) }
        requires there { IsRowOfDep self.now.rules self.now.history.present dep row }
        ensures violations { IfOk result (λ found. found ≡ violations_of_row self.now.rules self.now.history.present dep row) }
        ensures probes { steps.new ≤ steps.old + dep_rows self.now.rules dep }
    {
        // The length is what says that no text has two ids.
        let _len = self.project.pool.len();
        let table = self.project.rules.deps().as_slice()[dep].table;
        match self.project.stores[table].get(row) {
            Some(tuple) => self.index.index.violations_of_row(
                &self.project.rules,
                &self.project.pool,
                dep,
                row,
                tuple,
                steps,
            ),
            None => Ok(List::new(*self.project.stores.allocator())),
        }
    }

    /// The orphans of a numbered inclusion, each with the number of its tableau row: by tableau row, and for each by rising
    /// row. For each tableau row the dirty keys are gone over, and no other rows.
    pub fn orphans<L: Ledger>(
        &self,
        cind: usize,
        steps: &mut Steps<L>,
    ) -> Result<List<(usize, RowId)>, AllocError>
        requires { cind < length (book_cinds self.now.rules) }
        ensures orphans { IfOk result (λ found. found ≡ orphans_at self.now.rules self.now.history.present cind) }
        ensures probes { steps.new ≤ steps.old + cind_walk_at self.now.rules self.now.history.present cind }
    {
        // The length is what says that no text has two ids.
        let _len = self.project.pool.len();
        // The number of dirty keys is what says that they are those of the rows.
        let _dirty = self.index.index.cinds[cind].dirty();
        self.index.index.orphans(cind, steps)
    }

    /// How many orphans an inclusion has, without a list of them all.
    pub fn orphan_count<L: Ledger>(
        &self,
        cind: usize,
        steps: &mut Steps<L>,
    ) -> Result<usize, AllocError>
        requires { cind < length (book_cinds self.now.rules) }
        ensures count { IfOk result (λ count. count ≡ length (orphans_at self.now.rules self.now.history.present cind)) }
        ensures probes { steps.new ≤ steps.old + cind_walk_at self.now.rules self.now.history.present cind }
    {
        // The length is what says that no text has two ids.
        let _len = self.project.pool.len();
        // The number of dirty keys is what says that they are those of the rows.
        let _dirty = self.index.index.cinds[cind].dirty();
        self.index.index.orphan_count(cind, steps)
    }

    /// The orphans of an inclusion that a row of its left table is: at most one probe for each tableau row.
    pub fn orphans_of_row<L: Ledger>(
        &self,
        cind: usize,
        row: RowId,
        steps: &mut Steps<L>,
    ) -> Result<List<(usize, RowId)>, AllocError>
        requires cind { cind < length (book_cinds self.now.rules) }
        requires there { IsRowOfCind self.now.rules self.now.history.present cind row }
        ensures orphans { IfOk result (λ found. found ≡ orphans_of_row self.now.rules self.now.history.present cind row) }
        ensures probes { steps.new ≤ steps.old + cind_rows self.now.rules cind }
    {
        // The length is what says that no text has two ids.
        let _len = self.project.pool.len();
        let left = self.project.rules.cinds().as_slice()[cind].left;
        match self.project.stores[left].get(row) {
            Some(tuple) => self.index.index.orphans_of_row(cind, row, tuple, steps),
            None => Ok(List::new(*self.project.stores.allocator())),
        }
    }
}
