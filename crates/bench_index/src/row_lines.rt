//! What is listed of one row: a look-up for each tableau row, whatever else is dirty.

ghost use Rattle.std.specs.Prelude.{◌≡◌, ◌+◌, ◌<◌, ◌≤◌, ◌++◌, [], ◌∷◌, ℕ, Some, All, length, map, nat_eq, option_map, slice_get, IfOk, OnOk, if◌then◌else◌};
ghost use Rattle.std.specs.Option.{option_to_list};
ghost use Rattle.cfd_semantics.specs.declared.dependency.TableauRow.{TableauRow};
ghost use Rattle.cfd_semantics.specs.Violation.{Entry, entry_of, is_single};
ghost use Rattle.row_store.specs.Tuple.{ids_of};
ghost use Rattle.row_store.specs.Watch.{IsWide};
ghost use Rattle.bench_index.specs.ByIds.{HasText, IsDependencyByIds};
ghost use Rattle.bench_index.specs.Lists.{AreLinesOf, AreOrphanLinesOf, IsLineOf};

use crate::matching::is_single;
use cfd_semantics::{Dependency, Violation};
use cind_index::CindIndex;
use group_index::GroupIndex;
use probe_steps::Steps;
use row_store::{RowId, Tuple};
use schema_core::{List, Text};
use std::alloc::{AllocError, Global};
use std::sync::ledger::Ledger;
use value_pool::Pool;

/// The violations that are a row's own, each with the number of its tableau row.
pub(crate) fn violation_lines<L: Ledger>(
    alloc: Global,
    group: &GroupIndex,
    rule: &Dependency<Text>,
    pool: &Pool,
    row: RowId,
    tuple: &Tuple,
    steps: &mut Steps<L>,
) -> Result<List<(usize, Violation)>, AllocError>
    requires rule { IsDependencyByIds pool.now rule.now group.now.made.dependency }
    requires wide { IsWide (group.now.made.dependency.a ∷ group.now.made.dependency.x) (ids_of tuple.now) }
    requires named { All (HasText pool.now) (ids_of tuple.now) }
    ensures lines { IfOk result (AreLinesOf group.now row (ids_of tuple.now)) }
    ensures probes { steps.new ≤ steps.old + length group.now.made.dependency.rows }
{
    // The length is what says that the texts are distinct.
    let _len = pool.len();
    let mut lines = List::new(alloc);
    let tableau = rule.rows.as_slice();
    for (k, tableau_row) in tableau.iter().enumerate() {
        let alone = is_single(rule, tableau_row, pool, tuple);
        let line = line_of(group, k, alone, row, tuple, steps)?;
        push_line(&mut lines, k, line)?;
    }
    Ok(lines)
}

// What a tableau row lists of a row of which it is known whether it violates it alone.
fn line_of<L: Ledger>(
    group: &GroupIndex,
    k: usize,
    alone: bool,
    row: RowId,
    tuple: &Tuple,
    steps: &mut Steps<L>,
) -> Result<Option<Violation>, AllocError>
    requires k { k < length group.now.made.dependency.rows }
    requires wide { IsWide (group.now.made.dependency.a ∷ group.now.made.dependency.x) (ids_of tuple.now) }
    requires alone { (t : TableauRow ℕ) (e : Entry ℕ) → slice_get group.now.made.dependency.rows k ≡ Some t → entry_of group.now.made.dependency (row, ids_of tuple.now) ≡ Some e → alone ≡ is_single nat_eq t e }
    ensures line { IfOk result (IsLineOf group.now k row (ids_of tuple.now)) }
    ensures probes { steps.new ≤ steps.old + 1 }
{
    if alone {
        return Ok(Some(Violation { row, partner: None }));
    }
    let partner = group.partner(k, row, tuple, steps)?;
    Ok(with_partner(row, partner))
}

fn with_partner(row: RowId, partner: Option<RowId>) -> Option<Violation>
    ensures { result ≡ option_map (λ least. record { row = row; partner = Some least }) partner }
{
    let least = partner?;
    Some(Violation {
        row,
        partner: Some(least),
    })
}

fn push_line(
    lines: &mut List<(usize, Violation)>,
    k: usize,
    line: Option<Violation>,
) -> Result<(), AllocError>
    ensures { OnOk result (lines.new ≡ lines.old ++ map (λ violation. (k, violation)) (option_to_list line)) }
{
    if let Some(violation) = line {
        lines.push((k, violation))?;
    }
    Ok(())
}

/// The orphans that are a left row's own, each with the number of its tableau row.
pub(crate) fn orphan_lines<L: Ledger>(
    alloc: Global,
    index: &CindIndex,
    row: RowId,
    tuple: &Tuple,
    steps: &mut Steps<L>,
) -> Result<List<(usize, RowId)>, AllocError>
    requires { IsWide (index.now.rule.x ++ index.now.rule.xp) (ids_of tuple.now) }
    ensures lines { IfOk result (AreOrphanLinesOf index.now row (ids_of tuple.now)) }
    ensures probes { steps.new ≤ steps.old + length index.now.rule.rows }
{
    let mut lines = List::new(alloc);
    for k in 0..index.tableau_rows() {
        let is_orphan = index.is_orphan(k, tuple, steps)?;
        push_orphan_line(&mut lines, k, row, is_orphan)?;
    }
    Ok(lines)
}

fn push_orphan_line(
    lines: &mut List<(usize, RowId)>,
    k: usize,
    row: RowId,
    is_orphan: bool,
) -> Result<(), AllocError>
    ensures { OnOk result (lines.new ≡ lines.old ++ map (λ row. (k, row)) (if is_orphan then row ∷ [] else [])) }
{
    if is_orphan {
        lines.push((k, row))?;
    }
    Ok(())
}
