//! The indexes of a rule book: made, kept in step with the rows, and what they list.

ghost use Rattle.std.specs.Prelude.{None, IfOk};
ghost use Rattle.std.specs.List.{AllZip};
ghost use Rattle.value_pool.specs.Pool.{KeepsIds};
ghost use Rattle.bench_index.specs.InStep.{AreInStep};
ghost use Rattle.bench_index.specs.Watching.{group_watch, cind_watch};
ghost use Rattle.bench_index.specs.Indexes.{AreIndexesOf, IsIndexOfCind, IsIndexOfDep};

use crate::ids::{dependency_by_ids, inclusion_by_ids};
use cind_index::CindIndex;
use group_index::GroupIndex;
use rule_model::{Cind, Dep, RuleBook};
use std::alloc::{AllocError, Global};
use value_pool::Pool;

/// An index for each dependency and one for each inclusion, in the order of the rules.
pub struct BenchIndex {
    pub groups: Vec<GroupIndex>,
    pub cinds: Vec<CindIndex>,
}

// By hand, so that whatever drops the indexes calls this, and isn't proved for each kind of them.
impl Drop for BenchIndex {
    fn drop(self) {
        let BenchIndex {
            groups: _,
            cinds: _,
        } = self;
    }
}

fn indexes_of_deps(
    alloc: Global,
    deps: &[Dep],
    pool: &mut Pool,
) -> Result<Vec<GroupIndex>, AllocError>
    ensures made { IfOk result (λ all. AllZip (IsIndexOfDep pool.new) deps.now all.items) }
    ensures empty { IfOk result (λ all. AreInStep group_watch (λ _ _. None) all.items) }
    ensures kept { KeepsIds pool.old pool.new }
{
    let mut all = Vec::new(alloc);
    for dep in deps {
        let rule = dependency_by_ids(alloc, pool, &dep.rule)?;
        let x = rule.x.into_vec();
        let rows = rule.rows.into_vec();
        all.push(GroupIndex::new(alloc, pool.hash_keys(), dep.table, x, rule.a, rows))?;
    }
    Ok(all)
}

fn indexes_of_cinds(
    alloc: Global,
    cinds: &[Cind],
    pool: &mut Pool,
) -> Result<Vec<CindIndex>, AllocError>
    ensures made { IfOk result (λ all. AllZip (IsIndexOfCind pool.new) cinds.now all.items) }
    ensures empty { IfOk result (λ all. AreInStep cind_watch (λ _ _. None) all.items) }
    ensures kept { KeepsIds pool.old pool.new }
{
    let mut all = Vec::new(alloc);
    for cind in cinds {
        let rule = inclusion_by_ids(alloc, pool, &cind.rule)?;
        all.push(CindIndex::new(alloc, pool.hash_keys(), cind.left, cind.right, rule))?;
    }
    Ok(all)
}

impl BenchIndex {
    /// The indexes of tables without rows. The constants of the rules come into the pool.
    pub fn new(alloc: Global, rules: &RuleBook, pool: &mut Pool) -> Result<BenchIndex, AllocError>
        ensures made { IfOk result (AreIndexesOf rules.now pool.new) }
        ensures groups { IfOk result (λ index. AreInStep group_watch (λ _ _. None) index.groups.items) }
        ensures cinds { IfOk result (λ index. AreInStep cind_watch (λ _ _. None) index.cinds.items) }
        ensures kept { KeepsIds pool.old pool.new }
    {
        let groups = indexes_of_deps(alloc, rules.deps().as_slice(), pool)?;
        let cinds = indexes_of_cinds(alloc, rules.cinds().as_slice(), pool)?;
        Ok(BenchIndex { groups, cinds })
    }
}
