//! All indexes of a rule book, which follow a row together: those of its dependencies and inclusions, and the rows of
//! master tables by the columns in which its editing rules look values up.

ghost use Rattle.std.specs.Prelude.{◌≡◌, ◌+◌, ◌-◌, ◌*◌, ◌≤◌, ℕ, None, Some, Ok, IsTrue, IfOk, OnOk, OnErr, sum_by};
ghost use Rattle.std.specs.FinMap as finite;
ghost use Rattle.std.specs.Option.{ForSome};
ghost use Rattle.row_store.specs.Tuple.{ids_of, ids_behind};
ghost use Rattle.row_store.specs.Watches.{probes_of};
ghost use Rattle.value_pool.specs.Pool.{KeepsIds};
ghost use Rattle.master_index.specs.Masters.{IsWideFor, lists_of};
ghost use Rattle.bench_index.specs.InStep.{AreMadeAlike, AreTheSame, CanFollow, Follow};
ghost use Rattle.bench_index.specs.Loading.{AllLoad, HaveNoRows};
ghost use Rattle.bench_index.specs.AllIndexes.{AllFollow, AreAsBefore, AreInStepWith, FollowAsMaster, HaveRow, IsAsWide, most_probes};

use crate::following::{gain, lose};
use crate::index::BenchIndex;
use crate::loading::load;
use crate::masters::{follow_as_master, is_master_table, master_lists};
use master_index::MasterIndex;
use probe_steps::Steps;
use row_store::{RowId, RowStore, Tuple, Watch};
use rule_model::RuleBook;
use std::alloc::{AllocError, Global};
use std::sync::ledger::Ledger;
use value_pool::Pool;

/// The indexes of dependencies and inclusions, and the rows of master tables.
pub struct AllIndexes {
    pub index: BenchIndex,
    pub masters: MasterIndex,
}

// By hand, so that whatever drops the indexes calls this, and isn't proved for each kind of them.
impl Drop for AllIndexes {
    fn drop(self) {
        let AllIndexes {
            index: _,
            masters: _,
        } = self;
    }
}

// The row gets the new tuple: everything that may be refused comes before anything is taken away, and what was added
// before a refusal is taken back, which takes no memory.
fn put<G: Watch, C: Watch, L: Ledger>(
    groups: &mut [G],
    cinds: &mut [C],
    masters: &mut MasterIndex,
    is_master: bool,
    table: usize,
    row: RowId,
    old: Option<&Tuple>,
    new: &Tuple,
    steps: &mut Steps<L>,
) -> Result<(), AllocError>
    requires groups { CanFollow ⟦<G as Watch>⟧ table row (ids_behind old) (Some (ids_of new.now)) groups.old }
    requires cinds { CanFollow ⟦<C as Watch>⟧ table row (ids_behind old) (Some (ids_of new.now)) cinds.old }
    requires there { IsTrue is_master → finite.get masters.old.rows (table, row) ≡ ids_behind old }
    requires wide { IsWideFor masters.old.lists table (ids_of new.now) }
    ensures groups { OnOk result (Follow ⟦<G as Watch>⟧ table row (ids_behind old.entry) (Some (ids_of new.now)) groups.old groups.new) }
    ensures cinds { OnOk result (Follow ⟦<C as Watch>⟧ table row (ids_behind old.entry) (Some (ids_of new.now)) cinds.old cinds.new) }
    ensures masters { OnOk result (FollowAsMaster is_master table row (Some (ids_of new.now)) masters.old masters.new) }
    ensures refused { OnErr result (AreTheSame ⟦<G as Watch>⟧ groups.old groups.new × AreTheSame ⟦<C as Watch>⟧ cinds.old cinds.new × (masters.new ≡ masters.old)) }
    ensures made { AreMadeAlike ⟦<G as Watch>⟧ groups.old groups.new × AreMadeAlike ⟦<C as Watch>⟧ cinds.old cinds.new }
    ensures probes { steps.new ≤ steps.old + 2 * (sum_by (probes_of ⟦<G as Watch>⟧ table) groups.old + sum_by (probes_of ⟦<C as Watch>⟧ table) cinds.old + lists_of masters.old.lists table) }
{
    gain(groups, cinds, table, row, old, new, steps)?;
    if let Err(refused) = follow_as_master(masters, is_master, table, row, old, Some(new), steps) {
        lose(groups, cinds, table, row, new, old, steps);
        return Err(refused);
    }
    if let Some(old) = old {
        lose(groups, cinds, table, row, old, Some(new), steps);
    }
    Ok(())
}

// The row is gone.
fn remove<G: Watch, C: Watch, L: Ledger>(
    groups: &mut [G],
    cinds: &mut [C],
    masters: &mut MasterIndex,
    is_master: bool,
    table: usize,
    row: RowId,
    old: &Tuple,
    steps: &mut Steps<L>,
)
    requires groups { CanFollow ⟦<G as Watch>⟧ table row (Some (ids_of old.now)) None groups.old }
    requires cinds { CanFollow ⟦<C as Watch>⟧ table row (Some (ids_of old.now)) None cinds.old }
    requires there { IsTrue is_master → finite.get masters.old.rows (table, row) ≡ Some (ids_of old.now) }
    ensures groups { Follow ⟦<G as Watch>⟧ table row (Some (ids_of old.now)) None groups.old groups.new }
    ensures cinds { Follow ⟦<C as Watch>⟧ table row (Some (ids_of old.now)) None cinds.old cinds.new }
    ensures masters { FollowAsMaster is_master table row None masters.old masters.new }
    ensures made { AreMadeAlike ⟦<G as Watch>⟧ groups.old groups.new × AreMadeAlike ⟦<C as Watch>⟧ cinds.old cinds.new }
    ensures probes { steps.new ≤ steps.old + (sum_by (probes_of ⟦<G as Watch>⟧ table) groups.old + sum_by (probes_of ⟦<C as Watch>⟧ table) cinds.old + lists_of masters.old.lists table) }
{
    if is_master {
        masters.remove(table, row, steps);
    }
    lose(groups, cinds, table, row, old, None, steps);
}

fn follow_with_masters<G: Watch, C: Watch, L: Ledger>(
    groups: &mut [G],
    cinds: &mut [C],
    masters: &mut MasterIndex,
    is_master: bool,
    table: usize,
    row: RowId,
    old: Option<&Tuple>,
    new: Option<&Tuple>,
    steps: &mut Steps<L>,
) -> Result<(), AllocError>
    requires groups { CanFollow ⟦<G as Watch>⟧ table row (ids_behind old) (ids_behind new) groups.old }
    requires cinds { CanFollow ⟦<C as Watch>⟧ table row (ids_behind old) (ids_behind new) cinds.old }
    requires there { IsTrue is_master → finite.get masters.old.rows (table, row) ≡ ids_behind old }
    requires wide { ForSome (ids_behind new) (IsWideFor masters.old.lists table) }
    ensures groups { OnOk result (Follow ⟦<G as Watch>⟧ table row (ids_behind old.entry) (ids_behind new.entry) groups.old groups.new) }
    ensures cinds { OnOk result (Follow ⟦<C as Watch>⟧ table row (ids_behind old.entry) (ids_behind new.entry) cinds.old cinds.new) }
    ensures masters { OnOk result (FollowAsMaster is_master table row (ids_behind new.entry) masters.old masters.new) }
    ensures refused { OnErr result (AreTheSame ⟦<G as Watch>⟧ groups.old groups.new × AreTheSame ⟦<C as Watch>⟧ cinds.old cinds.new × (masters.new ≡ masters.old)) }
    ensures lost { ids_behind new.entry ≡ None → result ≡ Ok tt }
    ensures made { AreMadeAlike ⟦<G as Watch>⟧ groups.old groups.new × AreMadeAlike ⟦<C as Watch>⟧ cinds.old cinds.new }
    ensures probes { steps.new ≤ steps.old + 2 * (sum_by (probes_of ⟦<G as Watch>⟧ table) groups.old + sum_by (probes_of ⟦<C as Watch>⟧ table) cinds.old + lists_of masters.old.lists table) }
{
    match (old, new) {
        (None, None) => Ok(()),
        (Some(old), None) => {
            remove(groups, cinds, masters, is_master, table, row, old, steps);
            Ok(())
        }
        (old, Some(new)) => put(
            groups, cinds, masters, is_master, table, row, old, new, steps,
        ),
    }
}

impl AllIndexes {
    /// The indexes of tables without rows. The constants of the rules come into the pool.
    pub fn new(alloc: Global, rules: &RuleBook, pool: &mut Pool) -> Result<AllIndexes, AllocError>
        ensures in_step { IfOk result (AreInStepWith rules.now pool.new (λ _ _. None)) }
        ensures kept { KeepsIds pool.old pool.new }
    {
        let index = BenchIndex::new(alloc, rules, pool)?;
        let lists = master_lists(alloc, rules)?;
        let masters = MasterIndex::new(alloc, pool.hash_keys(), lists)?;
        Ok(AllIndexes { index, masters })
    }

    /// Takes all rows of a table of which there were none so far, one index after the other. Where memory is refused, some of
    /// them have taken the rows and others haven't.
    pub fn load<L: Ledger>(
        &mut self,
        rules: &RuleBook,
        table: usize,
        store: &RowStore,
        steps: &mut Steps<L>,
    ) -> Result<(), AllocError>
        requires none { HaveNoRows rules.now table self.old }
        requires wide { (row : ℕ) → ForSome (finite.get store.now.rows row) (IsAsWide rules.now table) }
        requires first { finite.get store.now.rows 0 ≡ None }
        ensures ok { OnOk result (AllLoad rules.now table (finite.get store.now.rows) self.old self.new) }
        ensures probes { OnOk result (steps.new ≤ steps.old + (store.now.next - 1) * most_probes rules.now table) }
    {
        let is_master = is_master_table(rules.schema(), table);
        let groups = self.index.groups.as_mut_slice();
        let cinds = self.index.cinds.as_mut_slice();
        let masters = &mut self.masters;
        load(groups, cinds, masters, is_master, table, store, steps)
    }

    /// Follows a row from its old tuple to its new one, where None is no row. All of them follow, or none where memory is
    /// refused. To lose a row takes no memory.
    pub fn follow<L: Ledger>(
        &mut self,
        rules: &RuleBook,
        table: usize,
        row: RowId,
        old: Option<&Tuple>,
        new: Option<&Tuple>,
        steps: &mut Steps<L>,
    ) -> Result<(), AllocError>
        requires there { HaveRow rules.now table row (ids_behind old) self.old }
        requires wide_old { ForSome (ids_behind old) (IsAsWide rules.now table) }
        requires wide_new { ForSome (ids_behind new) (IsAsWide rules.now table) }
        ensures ok { OnOk result (AllFollow rules.now table row (ids_behind old.entry) (ids_behind new.entry) self.old self.new) }
        ensures err { OnErr result (AreAsBefore self.old self.new) }
        ensures lost { ids_behind new.entry ≡ None → result ≡ Ok tt }
        ensures probes { steps.new ≤ steps.old + most_probes rules.now table }
    {
        let is_master = is_master_table(rules.schema(), table);
        let groups = self.index.groups.as_mut_slice();
        let cinds = self.index.cinds.as_mut_slice();
        let masters = &mut self.masters;
        follow_with_masters(
            groups, cinds, masters, is_master, table, row, old, new, steps,
        )
    }
}
